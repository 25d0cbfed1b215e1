//! Why a file cannot be had, in words.
use std::fs::{File, Files};
use std::io;
use std::io::{ErrorKind, Read};

/// The usual reasons why a file cannot be had; `absent` is said if a part of its path is not there.
pub fn reason(kind: ErrorKind, absent: &'static str) -> &'static str {
    match kind {
        ErrorKind::NotFound => absent,
        ErrorKind::NotADirectory => "a part of the path is not a folder",
        ErrorKind::PermissionDenied => "permission denied",
        ErrorKind::IsADirectory => "it is a folder",
        ErrorKind::ReadOnlyFilesystem => "the file system is read-only",
        ErrorKind::StorageFull => "the disk is full",
        ErrorKind::InvalidFilename => "the name is too long",
        _ => "the system refuses it",
    }
}

/// The kind of the error with which the file is not read; none if it is read now. It is read once more for that.
pub fn why_unread<H: Files>(host: &H, path: &str) -> Option<ErrorKind> {
    match read_some(host, path) {
        Ok(()) => None,
        Err(error) => Some(error.kind()),
    }
}

fn read_some<H: Files>(host: &H, path: &str) -> io::Result<()> {
    let mut file = File::open(host, path)?;
    let mut room = [0];
    file.read(&mut room)?;
    Ok(())
}
