//! A folder of the host.
ghost use Rattle.std.specs.Prelude.{◌≡◌};

use crate::error::FolderError;
use crate::folder::Folder;
use crate::listing::{Listing, path_of};
use crate::names::{folder_name, folder_number};
use std::alloc::Global;
use std::fs::{File, Files, OpenOptions};
use std::io::{Error, ErrorKind, Read, Write};
use std::os::unix::fs::MetadataExt;
use std::{fs, io};

/// How many snapshots that are not the current one any more are kept.
const KEPT: u64 = 2;

/// The link that shows the current snapshot.
const CURRENT: &str = "current";

/// The link that is renamed to be `CURRENT`: so there is no moment without a current snapshot.
const NEXT: &str = "next";

/// A folder of the host: the snapshot of number 7 is in its folder `snapshot-7`, and `current` is a symbolic link to that of
/// the current one. Each new number is one more than the current one's; a folder of that number is what is left of a snapshot
/// that was never shown, and is removed. One program at a time may write to it.
///
/// No other link is followed: each file is made where none was, and a snapshot is a folder.
#[derive(Drop)]
pub struct HostFolder<'a, F> {
    alloc: Global,
    files: &'a F,
    path: &'a str,
    /// The number of the current snapshot, or 0.
    number: u64,
}

/// What is seen of the current snapshot without a look into its files: its number, and which folder it is, as it was last
/// changed. Files that come, go or are renamed change it; bytes that are written over others in a file do not.
#[derive(Clone, Copy, Debug, PartialEq, Eq)]
pub struct Look {
    number: u64,
    device: u64,
    node: u64,
    modified: (i64, i64),
    changed: (i64, i64),
}

impl<'a, F: Files> HostFolder<'a, F> {
    /// The folder at the path, which has to be there. If its `current` is something other than a link to a snapshot, the
    /// folder is not used.
    pub fn open(
        alloc: Global,
        files: &'a F,
        path: &'a str,
    ) -> Result<HostFolder<'a, F>, FolderError> {
        // An empty path would name the root of the file system.
        if path.is_empty() {
            return Err(FolderError::Unusable);
        }
        match current_number(alloc, files, path) {
            Ok(number) => {
                Ok(HostFolder {
                    alloc,
                    files,
                    path,
                    number,
                })
            }
            Err(error) => Err(error_of(&error)),
        }
    }

    /// The number of the current snapshot, or 0 without one.
    pub fn number(&self) -> u64
        ensures { result ≡ self.now.number }
    {
        self.number
    }

    /// How many domains the current snapshot has files of; none if there is no current one, or its folder is gone.
    pub fn count(&self) -> Result<Option<u64>, FolderError> {
        found(self.count_documents())
    }

    /// A look at the current snapshot; none if there is no current one, or its folder is gone.
    pub fn look(&self) -> Result<Option<Look>, FolderError> {
        found(self.look_at())
    }

    /// Removes old snapshots, but the last two, and what is left of one that was never shown.
    pub fn tidy(&self) -> Result<(), FolderError> {
        match self.remove_old() {
            Ok(()) => self.clear(),
            Err(error) => Err(error_of(&error)),
        }
    }

    /// Removes what is left of the next snapshot, which was not shown, so that it takes no room.
    pub fn clear(&self) -> Result<(), FolderError> {
        match self.remove_next() {
            Ok(()) => Ok(()),
            Err(error) => Err(error_of(&error)),
        }
    }

    fn count_documents(&self) -> io::Result<u64> {
        let listing = Listing::of(self.alloc, self.files, self.current_path()?.as_str())?;
        Ok(listing.count_ending(b".json"))
    }

    fn look_at(&self) -> io::Result<Look> {
        let path = self.current_path()?;
        let metadata = fs::symlink_metadata(self.files, path.as_str())?;
        if !metadata.is_dir() {
            return Err(Error::from(ErrorKind::NotFound));
        }
        Ok(Look {
            number: self.number,
            device: metadata.dev(),
            node: metadata.ino(),
            modified: (metadata.mtime(), metadata.mtime_nsec()),
            changed: (metadata.ctime(), metadata.ctime_nsec()),
        })
    }

    /// Goes by the names in the folder, so that no hole in the numbers keeps an old snapshot. What only has such a name, and
    /// is not a folder, stays.
    fn remove_old(&self) -> io::Result<()> {
        let listing = Listing::of(self.alloc, self.files, self.path)?;
        for number in listing.numbers(self.alloc)?.as_slice() {
            if number.saturating_add(KEPT) < self.number {
                self.remove(*number)?;
            }
        }
        Ok(())
    }

    fn remove_next(&self) -> io::Result<()> {
        self.remove(self.next_number()?)
    }

    /// Removes the folder of a number, if there is one; but never that of the current snapshot.
    fn remove(&self, number: u64) -> io::Result<()> {
        let path = self.folder_path(number)?;
        let is_current = current_number(self.alloc, self.files, self.path)? == number;
        if is_current || !self.is_folder(path.as_str())? {
            return Ok(());
        }
        match self.files.remove_dir_all(self.alloc, path.as_str()) {
            Err(error) if error.kind() != ErrorKind::NotFound => Err(error),
            _ => Ok(()),
        }
    }

    /// Whether there is a folder at the path, and not a link to one.
    fn is_folder(&self, path: &str) -> io::Result<bool> {
        match fs::symlink_metadata(self.files, path) {
            Ok(metadata) => Ok(metadata.is_dir()),
            Err(error) if error.kind() == ErrorKind::NotFound => Ok(false),
            Err(error) => Err(error),
        }
    }

    fn is_link(&self, path: &str) -> bool {
        match fs::symlink_metadata(self.files, path) {
            Ok(metadata) => metadata.is_symlink(),
            Err(_) => false,
        }
    }

    fn folder_path(&self, number: u64) -> io::Result<String> {
        let name = folder_name(self.alloc, number)?;
        Ok(path_of(self.alloc, self.path, name.as_str())?)
    }

    /// The path of the current snapshot.
    fn current_path(&self) -> io::Result<String> {
        if self.number == 0 {
            return Err(Error::from(ErrorKind::NotFound));
        }
        self.folder_path(self.number)
    }

    /// The number of the snapshot that is being written.
    fn next_number(&self) -> io::Result<u64> {
        match self.number.checked_add(1) {
            Some(number) => Ok(number),
            None => Err(Error::from(ErrorKind::InvalidFilename)),
        }
    }

    fn make(&self) -> io::Result<()> {
        let number = self.next_number()?;
        self.remove(number)?;
        let path = self.folder_path(number)?;
        if self.is_link(path.as_str()) {
            self.files.remove_file(path.as_str())?;
        }
        fs::create_dir(self.files, path)
    }

    /// Writes a file where none was: so nothing that somebody put there is written over, and no link is followed.
    fn write(&self, name: &str, bytes: &[u8]) -> io::Result<()> {
        let folder = self.folder_path(self.next_number()?)?;
        let path = path_of(self.alloc, folder.as_str(), name)?;
        let mut file = OpenOptions::new()
            .write(true)
            .create_new(true)
            .open(self.files, path)?;
        file.write_all(bytes)
    }

    /// Points the link to the next snapshot, and answers its number.
    fn point(&self) -> io::Result<u64> {
        let number = self.next_number()?;
        let link = path_of(self.alloc, self.path, NEXT)?;
        match self.files.remove_file(link.as_str()) {
            Ok(()) => {}
            Err(error) if error.kind() == ErrorKind::NotFound => {}
            Err(error) => return Err(error),
        }
        let name = folder_name(self.alloc, number)?;
        self.files.symlink(name.as_str(), link.as_str())?;
        let current = path_of(self.alloc, self.path, CURRENT)?;
        self.files.rename(link.as_str(), current.as_str())?;
        Ok(number)
    }

    /// Whether the file of the current snapshot has these bytes. A link has none.
    fn has(&self, name: &str, bytes: &[u8]) -> io::Result<bool> {
        let folder = self.current_path()?;
        let path = path_of(self.alloc, folder.as_str(), name)?;
        let metadata = fs::symlink_metadata(self.files, &path)?;
        if !metadata.is_file() || metadata.len() != bytes.len() as u64 {
            return Ok(false);
        }
        let mut found = Vec::new(self.alloc);
        let file = File::open(self.files, &path)?;
        file.take(metadata.len()).read_to_end(&mut found)?;
        Ok(found.as_slice() == bytes)
    }
}

impl<F: Files> Folder for HostFolder<'_, F> {
    ghost use Rattle.std.specs.Prelude.{None};

    ghost done = { λ _. None };

    ghost shows = { λ folder file yes. Unit {0} };

    ghost fails = { λ folder. Unit {0} };

    fn holds(&self, name: &str, bytes: &[u8]) -> Result<bool, FolderError> {
        match self.has(name, bytes) {
            Ok(yes) => Ok(yes),
            Err(error) if error.kind() == ErrorKind::OutOfMemory => Err(FolderError::Memory),
            Err(_) => Ok(false),
        }
    }

    fn begin(&mut self) -> Result<(), FolderError> {
        match self.make() {
            Ok(()) => Ok(()),
            Err(error) => Err(error_of(&error)),
        }
    }

    fn put(&mut self, name: &str, bytes: &[u8]) -> Result<(), FolderError> {
        match self.write(name, bytes) {
            Ok(()) => Ok(()),
            Err(error) => Err(error_of(&error)),
        }
    }

    fn show(&mut self) -> Result<(), FolderError> {
        match self.point() {
            Ok(number) => {
                self.number = number;
                Ok(())
            }
            Err(error) => Err(error_of(&error)),
        }
    }
}

fn error_of(error: &Error) -> FolderError {
    if error.kind() == ErrorKind::OutOfMemory {
        FolderError::Memory
    } else {
        FolderError::Unusable
    }
}

/// What was found; none if it is not there.
fn found<T: Drop>(found: io::Result<T>) -> Result<Option<T>, FolderError> {
    match found {
        Ok(found) => Ok(Some(found)),
        Err(error) if error.kind() == ErrorKind::NotFound => Ok(None),
        Err(error) => Err(error_of(&error)),
    }
}

/// The number of the snapshot that the link shows, or 0 if there is no link.
fn current_number<F: Files>(alloc: Global, files: &F, path: &str) -> io::Result<u64> {
    let link = path_of(alloc, path, CURRENT)?;
    match files.read_link(alloc, link.as_str()) {
        Ok(target) => match folder_number(alloc, target.as_str())? {
            Some(number) if number > 0 => Ok(number),
            _ => Err(Error::from(ErrorKind::InvalidInput)),
        },
        Err(error) if error.kind() == ErrorKind::NotFound => Ok(0),
        Err(error) => Err(error),
    }
}
