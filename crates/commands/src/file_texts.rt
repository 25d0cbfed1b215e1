//! Texts that are files.
use std::alloc::Global;
use std::fs::{File, Files};
use std::io;
use std::io::{ErrorKind, Read};
use wire::{TextError, TextSource};

/// The most bytes that are read of a file: one more than a frame carries, so that a longer one is seen to be too long.
const MAX_TEXT: u64 = 1_049_001;

/// The files of the host as texts: in a line `@a.json` is the text of the file `a.json`.
#[derive(Clone, Copy, Drop)]
pub struct FileTexts<'a, F> {
    files: &'a F,
}

impl<'a, F: Files> FileTexts<'a, F> {
    pub fn new(files: &'a F) -> FileTexts<'a, F> {
        FileTexts { files }
    }

    fn read(&self, alloc: Global, path: &str) -> io::Result<Vec<u8>> {
        let mut text = Vec::new(alloc);
        let file = File::open(self.files, path)?;
        file.take(MAX_TEXT).read_to_end(&mut text)?;
        Ok(text)
    }
}

impl<F: Files> TextSource for FileTexts<'_, F> {
    ghost use Rattle.commands.specs.Encode.{of_files};

    ghost gives = { λ texts. of_files };

    fn text(&self, alloc: Global, name: &[u8]) -> Result<Vec<u8>, TextError> {
        let Ok(path) = str::from_utf8(name) else {
            return Err(TextError::Unreadable);
        };
        match self.read(alloc, path) {
            Ok(text) => Ok(text),
            Err(error) if error.kind() == ErrorKind::OutOfMemory => Err(TextError::Memory),
            Err(_) => Err(TextError::Unreadable),
        }
    }
}
