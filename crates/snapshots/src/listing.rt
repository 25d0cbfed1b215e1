//! The names in a folder of the host.
use crate::names::folder_number;
use std::alloc::{AllocError, Global};
use std::fs::Files;
use std::io;
use std::io::Read;

/// The names in a folder, each ended by a NUL.
#[derive(Drop)]
pub struct Listing {
    bytes: Vec<u8>,
}

impl Listing {
    /// The names in the folder at the path, which may be a link to one.
    pub fn of<F: Files>(alloc: Global, files: &F, path: &str) -> io::Result<Listing> {
        let path = path_of(alloc, path, "")?;
        let mut folder = files.open_dir(path.as_str())?;
        let mut bytes = Vec::new(alloc);
        folder.read_to_end(&mut bytes)?;
        Ok(Listing { bytes })
    }

    /// The numbers of the snapshots whose folders have these names.
    pub fn numbers(&self, alloc: Global) -> Result<Vec<u64>, AllocError> {
        let mut numbers = Vec::new(alloc);
        for name in self.bytes.as_slice().split(is_nul) {
            // What is not text is not a name of this program.
            let Ok(name) = str::from_utf8(name) else {
                continue;
            };
            if let Some(number) = folder_number(alloc, name)? {
                numbers.push(number)?;
            }
        }
        Ok(numbers)
    }

    /// How many names have this end.
    pub fn count_ending(&self, end: &[u8]) -> u64 {
        let mut count: u64 = 0;
        for name in self.bytes.as_slice().split(is_nul) {
            if name.ends_with(end) {
                count = count.saturating_add(1);
            }
        }
        count
    }
}

fn is_nul(byte: &u8) -> bool {
    *byte == 0
}

/// The path of what has this name in the folder.
pub fn path_of(alloc: Global, folder: &str, name: &str) -> Result<String, AllocError> {
    format!(in alloc; "{folder}/{name}")
}
