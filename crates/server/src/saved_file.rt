//! A file of the host in which the dump of the last map of a server is kept.
ghost use Rattle.server.specs.Saving.{IsSaveFault};

use crate::file_id::FileId;
use crate::saving::Keeper;
use commands::Fault;
use std::alloc::Global;
use std::fs::{File, Files, OpenFile, OpenOptions, Permissions};
use std::io::{ErrorKind, Write};
use std::os::unix::fs::{MetadataExt, OpenOptionsExt, PermissionsExt};
use std::{fs, io};
use wire::FrontError;

/// How many bytes of a dump are gathered before they are written.
const ROOM_BYTES: usize = 65_536;

/// Who may do what with a file, without its kind.
const MODE_BITS: u32 = 0o777;

/// That of a file that takes the place of none, less the umask.
const NEW_MODE: u32 = 0o644;

/// That of a draft until it has the mode of the file whose place it takes.
const PRIVATE_MODE: u32 = 0o600;

/// A file of the host. A dump is written beside it, and renamed over it once it is on the disk: so there is no moment at which
/// a part of a dump stands in it.
#[derive(Drop)]
pub struct SavedFile<'a, F> {
    pub alloc: Global,
    pub files: &'a F,
    pub path: &'a str,
}

/// A dump that is written beside the file. If it is dropped before it is kept, it is removed, unless another file stands at its
/// path by then.
pub struct Draft<'a, F: Files> {
    files: &'a F,
    path: String,
    file: F::File,
    id: FileId,
    /// What is not written yet.
    room: Vec<u8>,
    is_kept: bool,
}

impl<F: Files> Drop for Draft<'_, F> {
    fn drop(self) {
        let Draft {
            files,
            path,
            file: _file,
            id,
            room: _room,
            is_kept,
        } = self;
        if !is_kept && FileId::at(files, path.as_str()) == Some(id) {
            let _ = fs::remove_file(files, path.as_str());
        }
    }
}

impl<F: Files> Draft<'_, F> {
    fn write_out(&mut self) -> io::Result<()> {
        self.file.write_all(self.room.as_slice())?;
        self.room.clear();
        Ok(())
    }

    fn put(&mut self, piece: &[u8]) -> io::Result<()> {
        if self.room.len().saturating_add(piece.len()) > ROOM_BYTES {
            self.write_out()?;
        }
        if piece.len() > ROOM_BYTES {
            return self.file.write_all(piece);
        }
        self.room.extend_from_slice(piece)?;
        Ok(())
    }

    /// Takes the place of the file at the path, once it is on the disk.
    fn take_place(&mut self, path: &str) -> io::Result<()> {
        self.write_out()?;
        self.file.sync_all()?;
        // Another server that keeps its map in the same file has put its own draft here.
        if FileId::at(self.files, self.path.as_str()) != Some(self.id) {
            return Err(io::Error::from(ErrorKind::AlreadyExists));
        }
        fs::rename(self.files, self.path.as_str(), path)?;
        self.is_kept = true;
        sync_folder(self.files, path);
        Ok(())
    }
}

/// Asks the system to write the folder of the path to the disk. Not every file system can.
fn sync_folder<F: Files>(files: &F, path: &str) {
    let folder = match path.rsplit_once('/') {
        Some(("", _)) => "/",
        Some((folder, _)) => folder,
        None => ".",
    };
    if let Ok(folder) = File::open(files, folder) {
        let _ = folder.sync_all();
    }
}

/// The mode of the file at the path, if there is one. What is neither a file nor a link to be replaced is an error.
fn mode_at<F: Files>(files: &F, path: &str) -> io::Result<Option<u32>> {
    match fs::symlink_metadata(files, path) {
        Ok(found) if found.is_file() => Ok(Some(found.mode() & MODE_BITS)),
        Ok(found) if found.is_symlink() => Ok(None),
        Ok(_) => Err(io::Error::from(ErrorKind::InvalidInput)),
        Err(_) => Ok(None),
    }
}

impl<'a, F: Files> SavedFile<'a, F> {
    /// A draft beside the file. What stands at its path is removed: a run that was killed has left it, or it is a link, which
    /// is not followed.
    fn draft(&self) -> io::Result<Draft<'a, F>> {
        let path = self.path;
        let mode = mode_at(self.files, path)?;
        let path = format!(in self.alloc; "{path}.new")?;
        let room = Vec::with_capacity(self.alloc, ROOM_BYTES)?;
        let _ = fs::remove_file(self.files, path.as_str());
        let mut options = OpenOptions::new();
        options.write(true).create_new(true);
        options.mode(if mode.is_some() {
            PRIVATE_MODE
        } else {
            NEW_MODE
        });
        let file = options.open(self.files, path.as_str())?;
        let draft = Draft {
            files: self.files,
            path,
            id: FileId::of(&file.metadata()?),
            file,
            room,
            is_kept: false,
        };
        if let Some(mode) = mode {
            draft.file.set_permissions(Permissions::from_mode(mode))?;
        }
        Ok(draft)
    }

    /// Tries whether a dump can be written beside the file; nothing is left there.
    pub fn trial(&self) -> io::Result<()> {
        let _draft = self.draft()?;
        Ok(())
    }
}

/// The fault of a dump that is not kept for this error.
pub fn save_fault(error: &io::Error) -> Fault
    ensures { IsSaveFault result }
{
    if error.kind() == ErrorKind::OutOfMemory {
        return Fault::Front(FrontError::Memory);
    }
    Fault::Unsaved
}

impl<'a, F: Files> Keeper for SavedFile<'a, F> {
    type Draft = Draft<'a, F>;

    // What a file of the host holds is not known.
    ghost holds = { λ draft dump. Unit {0} };

    ghost keeps = { λ file dump. Unit {0} };

    fn begin(&self) -> Result<Draft<'a, F>, Fault> {
        self.draft().map_err(|error| save_fault(&error))
    }

    fn put(&self, draft: &mut Draft<'a, F>, piece: &[u8]) -> Result<(), Fault> {
        draft.put(piece).map_err(|error| save_fault(&error))
    }

    fn keep(&self, mut draft: Draft<'a, F>) -> Result<(), Fault> {
        draft
            .take_place(self.path)
            .map_err(|error| save_fault(&error))
    }
}
