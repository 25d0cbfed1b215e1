//! Why a client ends.
ghost use Rattle.std.specs.Prelude.{◌≡◌};
ghost use Rattle.client.specs.ClientError.{client_number};

use std::alloc::AllocError;
use thiserror::Error;

/// Why a client asks nothing more. The request was begun, and whether it took effect is not known.
#[derive(Clone, Copy, Debug, PartialEq, Eq, Drop, Error)]
pub enum ClientError {
    /// There was no memory for the bundle that a reply carries.
    #[error("out of memory")]
    Memory,
    /// A length of no payload: 0, or more than 1,049,000.
    #[error("a reply has a length of 0 or of more than 1049000")]
    BadLength,
    #[error("what came is no reply to the request")]
    BadReply,
    #[error("the stream ended inside a reply or before it")]
    Truncated,
    #[error("the reader failed")]
    ReadFault,
    #[error("the writer failed")]
    WriteFault,
}

impl ClientError {
    /// The number under which fault lines show the error.
    pub fn number(&self) -> u8
        ensures { result ≡ client_number self.now }
    {
        match self {
            ClientError::Memory => 22,
            ClientError::BadLength => 50,
            ClientError::Truncated => 52,
            ClientError::ReadFault => 53,
            ClientError::WriteFault => 54,
            ClientError::BadReply => 58,
        }
    }
}

impl From<AllocError> for ClientError {
    ghost use Rattle.std.specs.Prelude.{◌≡◌};
    ghost use Rattle.client.specs.declared.client_error.ClientError.TheVariants.{Memory};

    ghost from_gives = { λ _ error. error ≡ Memory };

    fn from(_refused: AllocError) -> ClientError {
        ClientError::Memory
    }
}
