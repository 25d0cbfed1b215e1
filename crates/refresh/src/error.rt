//! Why texts are not a federation relationship, and why refreshes end early.
ghost use Rattle.std.specs.Prelude.{◌≡◌};
ghost use Rattle.refresh.specs.Number.{relation_number};

use client::ClientError;
use spiffe_doc::{IdError, NameError};
use thiserror::Error;
use wire::FrontError;

/// Why texts are not a federation relationship (SPIFFE Federation, section 5.2).
#[derive(Clone, Copy, Debug, PartialEq, Eq, Drop, Error)]
pub enum RelationError {
    /// The trust domain's name.
    #[error("{0}")]
    Domain(NameError),
    #[error("the endpoint URL is not a URL of at most 2048 bytes with the scheme https and without a user name and a password")]
    BadUrl,
    #[error("the endpoint profile is neither https_web nor https_spiffe")]
    BadProfile,
    #[error("the endpoint profile https_spiffe needs the SPIFFE ID of the endpoint")]
    NoEndpointId,
    /// The SPIFFE ID of the endpoint.
    #[error("the SPIFFE ID of the endpoint: {0}")]
    EndpointId(IdError),
    #[error("out of memory")]
    Memory,
}

impl RelationError {
    /// The number by which fault lines name the refusal: 1 to 5, 22, or 60 to 62.
    pub fn number(&self) -> u8
        ensures { result ≡ relation_number self.now }
    {
        match self {
            RelationError::Domain(error) => error.number(),
            RelationError::BadUrl => 60,
            RelationError::BadProfile => 61,
            RelationError::NoEndpointId => 62,
            RelationError::EndpointId(error) => error.number(),
            RelationError::Memory => 22,
        }
    }
}

/// Why the relationships of a schedule are not refreshed to its end.
#[derive(Clone, Copy, Debug, PartialEq, Eq, Error)]
pub enum RefreshError {
    /// Memory ran out, or a writer failed: that of the requests, or that of the lines.
    #[error(transparent)]
    Front(FrontError),
    /// The exchange with the server failed. Whether its request took effect is not known.
    #[error(transparent)]
    Client(ClientError),
}
