//! Which file stands at a path.
use std::fs;
use std::fs::{Files, Metadata};
use std::os::unix::fs::MetadataExt;

/// A file by the device that it is on and its number there: whoever has put another one at its path has put another `FileId`
/// there.
#[derive(Clone, Copy, Debug, PartialEq, Eq)]
pub struct FileId {
    device: u64,
    inode: u64,
}

impl FileId {
    /// That of a file of which the system has told so.
    pub fn of(found: &Metadata) -> FileId {
        FileId {
            device: found.dev(),
            inode: found.ino(),
        }
    }

    /// That of what stands at the path, if something does. A link is not followed.
    pub fn at<F: Files>(files: &F, path: &str) -> Option<FileId> {
        match fs::symlink_metadata(files, path) {
            Ok(found) => Some(FileId::of(&found)),
            Err(_) => None,
        }
    }
}
