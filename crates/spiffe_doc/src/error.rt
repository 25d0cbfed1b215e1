//! Why a document isn't read, and why nothing is appended.
ghost use Rattle.std.specs.Prelude.{◌≡◌};
ghost use Rattle.spiffe_doc.specs.Number.{doc_number};

use std::alloc::AllocError;
use thiserror::Error;

/// Why a document is not a bundle. Places are positions in `keys`, counted from 0 over all its elements.
#[derive(Clone, Copy, Debug, PartialEq, Eq, Drop, Error)]
pub enum DocError {
    #[error("the document has over 1048576 bytes")]
    TooLong,
    #[error("the document is not a JSON text of UTF-8, nested at most 127 deep")]
    NotJson,
    #[error("the document is not a JSON object")]
    NotObject,
    #[error("the document has no member keys that is an array")]
    NoKeys,
    #[error("spiffe_sequence is not a whole number from 0 to 18446744073709551615")]
    BadSequence,
    #[error("spiffe_refresh_hint is not a whole number from 0 to 18446744073709551615")]
    BadHint,
    #[error("key {0} is not a JSON object")]
    BadEntry(usize),
    #[error("a member of the public key of key {0} is missing or malformed")]
    BadKey(usize),
    #[error("the x5c member of key {0} is not a list of one text of padded base64")]
    BadX5c(usize),
    #[error("the kid member of key {0} is not a text of 1 to 255 bytes")]
    BadKid(usize),
    #[error("key {0} has the kid of an earlier, different key")]
    KidTwice(usize),
    #[error("the document has over 1024 different keys")]
    TooMany,
    #[error("out of memory")]
    Memory,
}

impl DocError {
    /// The number by which replies and fault lines name the refusal: 10 to 22.
    pub fn number(&self) -> u8
        ensures { result ≡ doc_number self.now }
    {
        match self {
            DocError::TooLong => 10,
            DocError::NotJson => 11,
            DocError::NotObject => 12,
            DocError::NoKeys => 13,
            DocError::BadSequence => 14,
            DocError::BadHint => 15,
            DocError::BadEntry(_) => 16,
            DocError::BadKey(_) => 17,
            DocError::BadX5c(_) => 18,
            DocError::BadKid(_) => 19,
            DocError::KidTwice(_) => 20,
            DocError::TooMany => 21,
            DocError::Memory => 22,
        }
    }
}

impl From<AllocError> for DocError {
    ghost use Rattle.std.specs.Prelude.{◌≡◌};
    ghost use Rattle.spiffe_doc.specs.declared.error.DocError.TheVariants.{Memory};

    ghost from_gives = { λ _ e. e ≡ Memory };

    fn from(_refused: AllocError) -> DocError {
        DocError::Memory
    }
}

/// Why an authority isn't appended to a bundle.
#[derive(Clone, Copy, Debug, PartialEq, Eq, Drop, Error)]
pub enum AppendError {
    #[error("the bundle has this authority")]
    Present,
    #[error("the bundle has the kid with another key")]
    KidTaken,
    #[error("the bundle has 1024 authorities")]
    TooMany,
    #[error("the sequence is the greatest, 18446744073709551615")]
    SequenceFull,
    #[error("the canonical text would have over 1048576 bytes")]
    TooLong,
    #[error("out of memory")]
    Memory,
}

impl From<AllocError> for AppendError {
    ghost use Rattle.std.specs.Prelude.{◌≡◌};
    ghost use Rattle.spiffe_doc.specs.declared.error.AppendError.TheVariants.{Memory};

    ghost from_gives = { λ _ e. e ≡ Memory };

    fn from(_refused: AllocError) -> AppendError {
        AppendError::Memory
    }
}
