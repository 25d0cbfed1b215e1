//! The command `race`: readers beside writers that do not rest.
ghost use Rattle.std.specs.Prelude.{◌≡◌};
ghost use Rattle.wire.specs.Counted.{faults_in};
ghost use Rattle.bundled.specs.Race.{RaceRun, ReportOf, race_status};
ghost use Rattle.wire.specs.Output.{end_of};
ghost use Rattle.commands.specs.Streams.{Source, WritesText};

use commands::{Fault, RefreshFault, write_flushed};
use race_demo::{Findings, RaceError, report_text, run_race};
use std::alloc::Global;
use std::io::Write;
use std::thread::Threads;
use std::time::Clock;
use wire::{Counted, FrontError};

/// Lets writers and readers run beside each other for so many seconds, writes what that has shown, and answers the exit
/// status: 0 if no fetch-all showed a map that never was.
pub fn race_over<H: Clock + Threads + Sync, W: Write, E: Write>(
    alloc: Global,
    host: &H,
    out: &mut Counted<W>,
    err: &mut Counted<E>,
    seconds: u64,
) -> u8
    ensures { (input : Source) → RaceRun result
        (record { input = input; output = end_of W.contents out.old; error = end_of E.contents err.old })
        (record { input = input; output = end_of W.contents out.new; error = end_of E.contents err.new }) }
{
    match race(alloc, host, out, seconds) {
        Ok(found) => status_of(&found),
        Err(fault) => fault.tell(err),
    }
}

fn status_of(found: &Findings) -> u8
    ensures { result ≡ race_status found.now }
{
    if found.all.mixed == 0 { 0 } else { 1 }
}

fn race<H: Clock + Threads + Sync, W: Write>(
    alloc: Global,
    host: &H,
    out: &mut Counted<W>,
    seconds: u64,
) -> Result<Findings, Fault>
    ensures { WritesText ReportOf (λ _. Unit {0}) result (end_of W.contents out.old) (end_of W.contents out.new) }
{
    let found = match run_race(host, alloc, seconds) {
        Ok(found) => found,
        Err(RaceError::Memory) => return Err(Fault::Front(FrontError::Memory)),
        Err(RaceError::NoClock) => return Err(Fault::Refresh(RefreshFault::NoClock)),
    };
    let text = report_text(alloc, &found)?;
    write_flushed(out, text.as_slice())?;
    Ok(found)
}
