//! Why a session ends.
ghost use Rattle.std.specs.Prelude.{◌≡◌};
ghost use Rattle.wire.specs.Error.{front_number};

use thiserror::Error;

/// Why a session ended before the end of its input. Frames before the fault were answered.
#[derive(Clone, Copy, Debug, PartialEq, Eq, Error)]
pub enum FrontError {
    /// There is no memory for the replies of a round, or for what was read.
    #[error("out of memory")]
    Memory,
    /// A length of no payload: 0, or more than 1,049,000.
    #[error("a frame has a length of 0 or of more than 1049000")]
    BadLength,
    #[error("the input ended inside a frame")]
    Truncated,
    #[error("the reader failed")]
    ReadFault,
    #[error("the writer failed")]
    WriteFault,
    #[error("the reads that a session may make are used up")]
    TurnsUsed,
}

impl FrontError {
    /// The number under which fault lines show the error.
    pub fn number(&self) -> u8
        ensures { result ≡ front_number self.now }
    {
        match self {
            FrontError::Memory => 22,
            FrontError::BadLength => 50,
            FrontError::Truncated => 52,
            FrontError::ReadFault => 53,
            FrontError::WriteFault => 54,
            FrontError::TurnsUsed => 55,
        }
    }
}
