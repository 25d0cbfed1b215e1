//! What a server says and does when its workers are done.
ghost use Rattle.std.specs.Prelude.{◌≡◌, ◌<◌, ◌-◌, ◌^◌, vec_len, if◌then◌else◌};
ghost use Rattle.std.specs.List.{All, flat_map};
ghost use Rattle.shard_store.specs.Pass.{IsOf};
ghost use Rattle.workers.specs.Closing.{AreAll};
ghost use Rattle.server.specs.Saving.{Keeps};
ghost use Rattle.server.specs.Serve.{Reports};
ghost use Rattle.wire.specs.Output.{end_of};

use crate::lines::{ServerLine, count_begun, say, tell_faults};
use crate::saving::{Keeper, save};
use commands::Fault;
use shard_store::Store;
use std::alloc::Global;
use std::io::Write;
use wire::Counted;
use workers::{Worked, close_store};

/// A store that workers have served, and who keeps the dump of its last map, if somebody does.
#[derive(Drop)]
pub struct Done<K> {
    pub alloc: Global,
    pub store: Store,
    pub worked: Vec<Worked>,
    pub keeper: Option<K>,
}

fn status_of(all_went_well: bool) -> u8
    ensures { result ≡ (if all_went_well then 0 else 1) }
{
    if all_went_well { 0 } else { 1 }
}

/// Says how many sessions there were and how many domains stand at the end, tells the faults of sessions, and has the last
/// map kept; answers the exit status.
pub fn report<K: Keeper, W: Write, E: Write>(
    done: Done<K>,
    out: &mut Counted<W>,
    err: &mut Counted<E>,
    before: u64,
) -> u8
    requires count { before < 2 ^ 64 - 1 }
    requires some { 0 < vec_len done.worked }
    requires own { All (λ w. IsOf w.pass done.store) done.worked.items }
    requires all { AreAll (flat_map (λ w. w.pass.seen.ranges) done.worked.items) }
    ensures { Reports (Keeps K.keeps done.keeper) done.worked.items before result (end_of W.contents out.old) (end_of W.contents out.new)
        (end_of E.contents err.old) (end_of E.contents err.new) }
{
    let Done {
        alloc,
        store,
        worked,
        keeper,
    } = done;
    let served = ServerLine::Served(count_begun(worked.as_slice()));
    let served_taken = say(out, err, before, served);
    let have_come = tell_faults(worked.as_slice(), err, before);
    match close_store(store, worked) {
        Ok(contents) => {
            let domains = ServerLine::Domains(contents.len() as u64);
            let saved = save(alloc, keeper, contents, err, before);
            let domains_taken = say(out, err, before, domains);
            status_of(served_taken & have_come & saved & domains_taken)
        }
        Err(error) => {
            Fault::Close(error).tell_unless_failed(err, before);
            1
        }
    }
}
