//! A folder of documents.
ghost use Rattle.std.specs.Prelude.{◌≡◌, IfOk, None, string_bytes};
ghost use Rattle.refresh.specs.Folder.{FolderState, document_path};

use crate::outcome_lines::Remark;
use crate::relationship::Relationship;
use crate::source::{Source, SourceFault};
use spiffe_doc::TrustDomain;
use std::alloc::{AllocError, Global};
use std::fs::{File, Files};
use std::io::{ErrorKind, Read};
use std::marker::Model;
use std::{fs, io};

/// The most bytes that are read of a file: one more than a document may have, so that a longer one is seen to be too
/// long.
const MAX_BYTES: u64 = 1_048_577;

/// The documents of a folder: that of the trust domain `a` is the file `a.json`. A name of a trust domain has no slash,
/// so each file is in the folder itself.
#[derive(Drop)]
pub struct Folder<'a, F> {
    alloc: Global,
    files: &'a F,
    path: &'a str,
    /// Why the last fetch gave no document, if it gave none and that is worth a word.
    remark: Option<Remark>,
}

impl<'a, F> Model for Folder<'a, F> {
    ghost use Rattle.refresh.specs.Folder.{FolderState};

    ghost Value = { FolderState };

    ghost view = { λ f. record { path = f.path.now; remark = f.remark } };
}

/// The path of the file that has the document of a trust domain.
fn path_of(alloc: Global, folder: &str, domain: &TrustDomain) -> Result<String, AllocError>
    ensures { IfOk result (λ path. string_bytes path ≡ document_path folder.now domain.now) }
{
    let mut path = String::from_str(alloc, folder)?;
    path.push_str("/")?;
    path.push_str(domain.as_str())?;
    path.push_str(".json")?;
    Ok(path)
}

/// What is said of a file that is not read; nothing if it is not there.
fn remark_of(why: ErrorKind) -> Option<Remark> {
    match why {
        ErrorKind::NotFound => None,
        ErrorKind::InvalidFilename => Some(Remark::LongName),
        ErrorKind::PermissionDenied => Some(Remark::Denied),
        ErrorKind::OutOfMemory => Some(Remark::Memory),
        _ => Some(Remark::Unreadable),
    }
}

impl<'a, F: Files> Folder<'a, F> {
    /// The folder of this path. Nothing was fetched yet.
    pub fn new(alloc: Global, files: &'a F, path: &'a str) -> Folder<'a, F>
        ensures { result ≡ record { path = path.entry.now; remark = None } }
    {
        Folder {
            alloc,
            files,
            path,
            remark: None,
        }
    }

    /// Why the last fetch gave no document, if it gave none and that is not that there is no file.
    pub fn remark(&self) -> Option<Remark>
        ensures { result ≡ self.now.remark }
    {
        self.remark
    }

    fn read(&self, relationship: &Relationship) -> io::Result<Vec<u8>> {
        let path = path_of(self.alloc, self.path, relationship.domain())?;
        // A pipe or a device might never end.
        if !fs::metadata(self.files, &path)?.is_file() {
            return Err(io::Error::from(ErrorKind::InvalidInput));
        }
        let mut document = Vec::new(self.alloc);
        let file = File::open(self.files, &path)?;
        file.take(MAX_BYTES).read_to_end(&mut document)?;
        Ok(document)
    }
}

impl<F: Files> Source for Folder<'_, F> {
    ghost use Rattle.refresh.specs.Folder.{FetchesFile};

    ghost fetches = { FetchesFile };

    fn fetch(&mut self, relationship: &Relationship) -> Result<Vec<u8>, SourceFault> {
        match self.read(relationship) {
            Ok(document) => {
                self.remark = None;
                Ok(document)
            }
            Err(error) => {
                self.remark = remark_of(error.kind());
                Err(SourceFault)
            }
        }
    }
}
