//! Why a payload is answered and nothing is asked.
ghost use Rattle.std.specs.Prelude.{◌≡◌};
ghost use Rattle.wire.specs.Refusal.{refusal_number, name_place as place_in_name, refusal_place};
ghost use Rattle.spiffe_doc.specs.Document.{place_of};

use spiffe_doc::{DocError, NameError};
use thiserror::Error;

/// Why a payload is refused. Nothing is asked then, and the session goes on.
#[derive(Clone, Copy, Debug, PartialEq, Eq, Drop, Error)]
pub enum Refusal {
    #[error("the payload is no request")]
    BadRequest,
    #[error("the trust domain: {0}")]
    BadName(NameError),
    #[error("the document: {0}")]
    BadDocument(DocError),
    #[error("the key has a type, a use or a curve that is passed over")]
    PassedOver,
    #[error("out of memory")]
    Memory,
}

impl Refusal {
    /// The number under which replies show the refusal.
    pub fn number(&self) -> u8
        ensures { result ≡ refusal_number self.now }
    {
        match self {
            Refusal::BadRequest => 51,
            Refusal::BadName(fault) => fault.number(),
            Refusal::BadDocument(fault) => fault.number(),
            Refusal::PassedOver => 23,
            Refusal::Memory => 22,
        }
    }

    /// The byte of the name, or the entry of the document, at which the fault stands.
    pub fn place(&self) -> Option<usize>
        ensures { result ≡ refusal_place self.now }
    {
        match self {
            Refusal::BadName(fault) => name_place(*fault),
            Refusal::BadDocument(fault) => document_place(*fault),
            _ => None,
        }
    }
}

fn name_place(fault: NameError) -> Option<usize>
    ensures { result ≡ place_in_name fault }
{
    match fault {
        NameError::BadChar(at) => Some(at as usize),
        _ => None,
    }
}

fn document_place(fault: DocError) -> Option<usize>
    ensures { result ≡ place_of fault }
{
    match fault {
        DocError::BadEntry(place)
        | DocError::BadKey(place)
        | DocError::BadX5c(place)
        | DocError::BadKid(place)
        | DocError::KidTwice(place) => Some(place),
        _ => None,
    }
}

impl From<NameError> for Refusal {
    ghost use Rattle.std.specs.Prelude.{◌≡◌};
    ghost use Rattle.wire.specs.Refusal.{name_refusal};

    ghost from_gives = { λ fault refusal. refusal ≡ name_refusal fault };

    fn from(fault: NameError) -> Refusal {
        match fault {
            NameError::Memory => Refusal::Memory,
            _ => Refusal::BadName(fault),
        }
    }
}

impl From<DocError> for Refusal {
    ghost use Rattle.std.specs.Prelude.{◌≡◌};
    ghost use Rattle.wire.specs.Refusal.{document_refusal};

    ghost from_gives = { λ fault refusal. refusal ≡ document_refusal fault };

    fn from(fault: DocError) -> Refusal {
        match fault {
            DocError::Memory => Refusal::Memory,
            _ => Refusal::BadDocument(fault),
        }
    }
}
