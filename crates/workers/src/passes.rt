//! The passes with which workers begin.
ghost use Rattle.std.specs.Prelude.{◌≡◌, ◌<◌, ◌≤◌, ◌∷◌, [], IfOk, vec_len};
ghost use Rattle.std.specs.List.{All};
ghost use Rattle.shard_store.specs.Pass.{IsOf};
ghost use Rattle.workers.specs.Closing.{AreAll, AreShared, ranges_of};

use shard_store::{Pass, Store};
use std::alloc::{AllocError, Global};

/// A pass for each worker, out of the first pass of a store. Each but the last has one number, and the last has the
/// rest, so that together they have all. Each has seen what the first had seen.
pub fn passes_of(
    alloc: Global,
    store: &Store,
    first: Pass,
    workers: u64,
) -> Result<Vec<Pass>, AllocError>
    requires own { IsOf first store.now }
    requires numbers { first.seen.ranges ≡ (0, 4294967296) ∷ [] }
    requires workers { (0 < workers) × (workers ≤ 64) }
    ensures count { IfOk result (λ passes. vec_len passes ≡ workers) }
    ensures own { IfOk result (λ passes. All (λ pass. IsOf pass store.now) passes.items) }
    ensures all { IfOk result (λ passes. AreAll (ranges_of passes.items)) }
    ensures shared { IfOk result (λ passes. AreShared passes.items) }
    ensures logs { IfOk result (λ passes. All (λ pass. pass.seen.log ≡ first.seen.log) passes.items) }
{
    let mut passes = Vec::new(alloc);
    let mut first = first;
    for _ in 1..workers {
        passes.push(store.split(&mut first, 1))?;
    }
    passes.push(first)?;
    Ok(passes)
}
