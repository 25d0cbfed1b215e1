//! What a map holds under a name.
ghost use Rattle.std.specs.Prelude.{◌≡◌, option_copied};
ghost use Rattle.map_core.specs.Table.{standing};

use shared_map::Shared;
use spiffe_doc::Bundle;
use std::alloc::AllocError;

/// What is held under a name: a bundle, or a mark of the sequence of one that was removed.
#[derive(Drop)]
pub enum Holding {
    Published(Bundle),
    Mark(u64),
}

impl Shared for Holding {
    /// The same bundle, shared, or the same mark.
    fn copy(&self) -> Result<Holding, AllocError> {
        match self {
            Holding::Published(bundle) => Ok(Holding::Published(bundle.copy()?)),
            Holding::Mark(sequence) => Ok(Holding::Mark(*sequence)),
        }
    }
}

/// What stands under a name, without what a bundle says.
#[derive(Clone, Copy)]
pub enum Standing {
    Nothing,
    Bundle,
    /// A mark of the sequence of a bundle that was removed.
    Mark,
}

impl Standing {
    /// That which is held there.
    pub(crate) fn of(held: Option<&Holding>) -> Standing
        ensures { result ≡ standing (option_copied held.entry) }
    {
        match held {
            None => Standing::Nothing,
            Some(Holding::Published(_)) => Standing::Bundle,
            Some(Holding::Mark(_)) => Standing::Mark,
        }
    }
}
