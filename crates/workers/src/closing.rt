//! The end of a store that workers shared.
ghost use Rattle.std.specs.Prelude.{◌<◌, vec_len};
ghost use Rattle.std.specs.List.{All, flat_map};
ghost use Rattle.shard_store.specs.Pass.{IsOf};
ghost use Rattle.workers.specs.Closing.{AreAll, ClosesAs};

use crate::ended::Worked;
use map_core::Contents;
use shard_store::{CloseError, Store};

/// Joins the passes of all workers, in their order, and closes the store: no pass is left that could hold a shard.
pub fn close_store(store: Store, worked: Vec<Worked>) -> Result<Contents, CloseError>
    requires some { 0 < vec_len worked }
    requires own { All (λ w. IsOf w.pass store) worked.items }
    requires all { AreAll (flat_map (λ w. w.pass.seen.ranges) worked.items) }
    ensures { ClosesAs worked.items result }
{
    let mut workers = worked.into_iter();
    let Some(first) = workers.next() else {
        unreachable!()
    };
    let mut pass = first.pass;
    for worker in workers {
        pass = store.join(pass, worker.pass);
    }
    store.close(pass)
}
