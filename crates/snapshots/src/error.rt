//! Why a folder shows no new snapshot.
use std::alloc::AllocError;
use thiserror::Error;

/// Why something is not done in a folder.
#[derive(Clone, Copy, Debug, PartialEq, Eq, Drop, Error)]
pub enum FolderError {
    #[error("the folder of snapshots cannot be read or written")]
    Unusable,
    #[error("out of memory")]
    Memory,
}

impl From<AllocError> for FolderError {
    ghost use Rattle.std.specs.Prelude.{◌≡◌};
    ghost use Rattle.snapshots.specs.declared.error.FolderError.TheVariants.{Memory};

    ghost from_gives = { λ _ e. e ≡ Memory };

    fn from(_refused: AllocError) -> FolderError {
        FolderError::Memory
    }
}
