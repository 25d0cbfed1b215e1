//! What nodes hold.
ghost use Rattle.std.specs.Prelude.{◌≡◌, IfOk};

use std::alloc::AllocError;

/// A value that a node holds: a copy of it is the same value.
pub trait Shared: Drop + Sized {
    /// The same value. Errors only if memory runs out.
    fn copy(&self) -> Result<Self, AllocError>
        ensures { IfOk result (λ copy. copy ≡ self.now) };
}
