//! The command `snapshot`: the bundles of a server as files in a folder.
ghost use Rattle.std.specs.Prelude.{◌≡◌, ◌<◌, ◌-◌, ◌^◌, List, ℕ, IfOk, true};
ghost use Rattle.wire.specs.Counted.{faults_in};
ghost use Rattle.bundled.specs.Snapshot.{SnapshotRun};
ghost use Rattle.wire.specs.Output.{Tells, TellsUnlessFailed, end_of};
ghost use Rattle.commands.specs.Streams.{Source};

use crate::snapshot_turns::{Job, Kept, Taken, Trouble, take_turn};
use command_line::Snapshotting;
use commands::{Fault, ended_after};
use std::alloc::Global;
use std::fs::Files;
use std::io::Write;
use std::net::Net;
use std::thread;
use std::time::{Clock, Duration};
use wire::{Counted, FrontError, tell};

/// Writes what a server holds into the folder, once or again and again, and answers the exit status: 0 if that is done, 3 if
/// it has fewer domains than are wanted, 1 after a fault. A line for each snapshot that is shown goes to standard output.
pub fn snapshot_over<H: Files + Clock + Net, W: Write, E: Write>(
    alloc: Global,
    host: &H,
    out: &mut Counted<W>,
    err: &mut Counted<E>,
    wanted: &Snapshotting<'_>,
) -> u8
    requires err_count { faults_in err.old < 2 ^ 64 - 1 }
    ensures { (input : Source) → SnapshotRun wanted.now.at_least result
        (record { input = input; output = end_of W.contents out.old; error = end_of E.contents err.old })
        (record { input = input; output = end_of W.contents out.new; error = end_of E.contents err.new }) }
{
    let before = err.faults();
    let job = Job {
        alloc,
        host,
        wanted: *wanted,
    };
    let end = repeat(&job, out, err);
    ended_after(end, err, before)
}

/// Makes a snapshot, or one after the other until a line of them is not taken. Answers whether there are fewer domains than
/// are wanted.
fn repeat<H: Files + Clock + Net, W: Write, E: Write>(
    job: &Job<'_, H>,
    out: &mut Counted<W>,
    err: &mut Counted<E>,
) -> Result<bool, Fault>
    requires err_count { faults_in err.old < 2 ^ 64 - 1 }
    ensures tells { (lines : List ℕ) × Tells (end_of E.contents err.old) (end_of E.contents err.new) lines }
    ensures few { IfOk result (λ few. few ≡ true → 0 < job.now.wanted.at_least) }
{
    let before = err.faults();
    let mut kept = Kept::new(job.alloc);
    let Some(pause) = job.wanted.every else {
        let taken = take_turn(job, out, &mut kept)?;
        note(err, before, taken.text.as_bytes());
        return Ok(taken.is_few);
    };
    for _ in 0..u64::MAX {
        let taken = take_turn(job, out, &mut kept);
        pass_over(taken, &mut kept, err, before)?;
        thread::sleep(job.host, Duration::from_secs(pause));
    }
    Ok(false)
}

/// Tells what a turn came to, if it is new, and the next turn comes. Only if nobody takes the lines of standard output any
/// more, that fault is given back.
fn pass_over<E: Write>(
    taken: Result<Taken, Fault>,
    kept: &mut Kept,
    err: &mut Counted<E>,
    before: u64,
) -> Result<(), Fault>
    ensures { (line : List ℕ) × TellsUnlessFailed before (end_of E.contents err.old) (end_of E.contents err.new) line }
{
    match taken {
        Ok(taken) => {
            note(err, before, taken.text.as_bytes());
            Ok(())
        }
        Err(Fault::Front(FrontError::WriteFault)) => Err(Fault::Front(FrontError::WriteFault)),
        Err(fault) => {
            if kept.meets(Trouble::Fault(fault.number())) {
                fault.tell_unless_failed(err, before);
            }
            Ok(())
        }
    }
}

/// Tells a text; but nothing if a call of the writer has failed since `before` of them had failed.
fn note<E: Write>(err: &mut Counted<E>, before: u64, text: &[u8])
    ensures { TellsUnlessFailed before (end_of E.contents err.old) (end_of E.contents err.new) text.now }
{
    if err.faults() == before {
        tell(err, text);
    }
}
