//! The parts of a map, together.
ghost use Rattle.std.specs.Prelude.{◌≡◌, ◌<◌, length, IfOk};
ghost use Rattle.map_core.specs.PlainMap.{PlainMap, bundles};
ghost use Rattle.shard_store.specs.Private.Readings.{ArePartsOf};

use map_core::{Contents, Snapshot, Union};
use std::alloc::{AllocError, Global};
use std::sync::Arc;

/// The map of which these are the parts.
fn join_parts(alloc: Global, parts: &[Arc<Contents>]) -> Result<Union, AllocError>
    requires { 0 < length parts.now }
    ensures { (m : PlainMap) → ArePartsOf m parts.now → IfOk result (λ all. all ≡ m) }
{
    let mut all = Union::new(alloc);
    for part in parts {
        all = all.add(part)?;
    }
    Ok(all)
}

/// All bundles of the map of which these are the parts.
pub(crate) fn all_of(alloc: Global, parts: &[Arc<Contents>]) -> Result<Snapshot, AllocError>
    requires { 0 < length parts.now }
    ensures { (m : PlainMap) → ArePartsOf m parts.now → IfOk result (λ all. all ≡ bundles m) }
{
    join_parts(alloc, parts)?.into_snapshot()
}
