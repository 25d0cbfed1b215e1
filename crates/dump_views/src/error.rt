//! Why a file is not a bundle map.
ghost use Rattle.std.specs.Prelude.{◌≡◌};
ghost use Rattle.dump_views.specs.Number.{map_number};

use spiffe_doc::{DocError, NameError};
use std::alloc::AllocError;
use thiserror::Error;

/// Why no requests are made of a file.
#[derive(Clone, Copy, Debug, PartialEq, Eq, Drop, Error)]
pub enum MapError {
    /// Not a JSON text, or not an object with one member `trust_domains`, which is an object.
    #[error("the file is not a SPIFFE bundle map")]
    NotMap,
    /// The first member of `trust_domains`, by its place from 0, that is not a domain with its bundle.
    #[error("member {place} of trust_domains: {fault}")]
    BadMember { place: usize, fault: MemberFault },
    #[error("out of memory")]
    Memory,
}

/// Why a member of `trust_domains` is not a domain with its bundle.
#[derive(Clone, Copy, Debug, PartialEq, Eq, Drop, Error)]
pub enum MemberFault {
    #[error("{0}")]
    BadName(NameError),
    #[error("the name stands twice")]
    Twice,
    #[error("{0}")]
    BadBundle(DocError),
}

impl MapError {
    /// The number under which fault lines show the error.
    pub fn number(&self) -> u8
        ensures { result ≡ map_number self.now }
    {
        match self {
            MapError::NotMap => 64,
            MapError::BadMember { .. } => 65,
            MapError::Memory => 22,
        }
    }
}

impl From<AllocError> for MapError {
    ghost use Rattle.std.specs.Prelude.{◌≡◌};
    ghost use Rattle.dump_views.specs.declared.error.MapError.TheVariants.{Memory};

    ghost from_gives = { λ _ e. e ≡ Memory };

    fn from(_refused: AllocError) -> MapError {
        MapError::Memory
    }
}
