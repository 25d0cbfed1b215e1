//! The command `run`: one session over an empty store.
ghost use Rattle.std.specs.Prelude.{◌≡◌, ◌≤◌, ◌<◌, Err};
ghost use Rattle.std.specs.FinMap as finite;
ghost use Rattle.wire.specs.Counted.{MakesReads, end_in, faults_in, next_count, reads_of};
ghost use Rattle.frame_front.specs.PlainSession.{PlainTranscript};
ghost use Rattle.wire.specs.declared.error.FrontError.TheVariants.{ReadFault, WriteFault, TurnsUsed};
ghost use Rattle.map_core.specs.PlainMap.{PlainMap};
ghost use Rattle.step_core.specs.Shards.{ShardsAnswer};
ghost use Rattle.commands.specs.Run.{Runs};
ghost use Rattle.commands.specs.Streams.{streams};

use crate::fault::Fault;
use frame_front::serve;
use std::alloc::Global;
use std::io::{Read, Write};
use std::mem::forget;
use step_core::Shards;
use wire::{Counted, FrontError};

/// Serves one session over an empty store of so many shards, of at most so many reads, and answers the exit status.
pub fn run_over<R: Read, W: Write, E: Write>(
    alloc: Global,
    reader: &mut Counted<R>,
    out: &mut Counted<W>,
    err: &mut Counted<E>,
    shards: usize,
    turns: u64,
) -> u8
    requires some { 0 < shards }
    requires few { turns ≤ 1000000000 }
    ensures runs { Runs turns result
        (streams R.remaining W.contents E.contents reader.old out.old err.old)
        (streams R.remaining W.contents E.contents reader.new out.new err.new) }
    ensures silent { result ≡ 0 → err.new ≡ err.old }
{
    match serve_store(alloc, reader, out, shards, turns) {
        Ok(_) => 0,
        Err(error) => Fault::Front(error).tell(err),
    }
}

fn serve_store<R: Read, W: Write>(
    alloc: Global,
    reader: &mut Counted<R>,
    out: &mut Counted<W>,
    shards: usize,
    turns: u64,
) -> Result<u64, FrontError>
    requires some { 0 < shards }
    requires few { turns ≤ 1000000000 }
    ensures session { (left : PlainMap) × PlainTranscript ShardsAnswer result turns (R.remaining (end_in reader.old))
        (R.remaining (end_in reader.new)) (W.contents (end_in out.old)) (W.contents (end_in out.new)) finite.empty left }
    ensures reads { MakesReads turns (result ≡ Err TurnsUsed) (reads_of reader.old) (reads_of reader.new) }
    ensures read_fault { result ≡ Err ReadFault → faults_in reader.new ≡ next_count (faults_in reader.old) }
    ensures write_fault { result ≡ Err WriteFault → faults_in out.new ≡ next_count (faults_in out.old) }
{
    let Ok(mut store) = Shards::new(alloc, shards) else {
        return Err(FrontError::Memory);
    };
    let served = serve(alloc, reader, out, &mut store, turns);
    // The process ends with the session, and its memory goes back as a whole: no walk over every bundle.
    forget(store);
    served
}
