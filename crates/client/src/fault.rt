//! Why asking ended early.
use crate::ClientError;
use std::alloc::AllocError;
use thiserror::Error;
use wire::{EncodeError, FrontError};

/// Why lines are not asked to their end.
#[derive(Clone, Copy, Debug, PartialEq, Eq, Error)]
pub enum AskFault {
    /// The line, from 1, is neither a comment nor a request that a frame carries, or it has over 1,049,300 bytes.
    #[error("line {0} is not a request")]
    BadLine(u64),
    /// The text that the line, from 1, names cannot be read.
    #[error("the text that line {0} names cannot be read")]
    Unreadable(u64),
    /// The exchange with the server failed. Whether its request took effect is not known.
    #[error(transparent)]
    Server(ClientError),
    /// Memory ran out, the lines or the place that is shown failed, or the turns are used up.
    #[error(transparent)]
    Front(FrontError),
}

impl From<ClientError> for AskFault {
    ghost use Rattle.std.specs.Prelude.{◌≡◌};
    ghost use Rattle.client.specs.declared.fault.AskFault.TheVariants.{Server};

    ghost from_gives = { λ error result. result ≡ Server error };

    fn from(error: ClientError) -> AskFault {
        AskFault::Server(error)
    }
}

impl From<FrontError> for AskFault {
    ghost use Rattle.std.specs.Prelude.{◌≡◌};
    ghost use Rattle.client.specs.declared.fault.AskFault.TheVariants.{Front};

    ghost from_gives = { λ error result. result ≡ Front error };

    fn from(error: FrontError) -> AskFault {
        AskFault::Front(error)
    }
}

impl From<AllocError> for AskFault {
    ghost use Rattle.std.specs.Prelude.{◌≡◌};
    ghost use Rattle.wire.specs.declared.error.FrontError.TheVariants.{Memory};
    ghost use Rattle.client.specs.declared.fault.AskFault.TheVariants.{Front};

    ghost from_gives = { λ _ result. result ≡ Front Memory };

    fn from(_refused: AllocError) -> AskFault {
        AskFault::Front(FrontError::Memory)
    }
}

impl From<EncodeError> for AskFault {
    ghost use Rattle.std.specs.Prelude.{◌≡◌};
    ghost use Rattle.client.specs.Private.Steps.{fault_of};

    ghost from_gives = { λ error result. result ≡ fault_of error };

    fn from(error: EncodeError) -> AskFault {
        match error {
            EncodeError::BadLine(line) => AskFault::BadLine(line),
            EncodeError::Unreadable(line) => AskFault::Unreadable(line),
            EncodeError::Memory => AskFault::Front(FrontError::Memory),
        }
    }
}
