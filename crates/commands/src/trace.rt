//! The command `trace`: a run of the machine over a list of events.
ghost use Rattle.std.specs.Prelude.{◌≡◌, ◌<◌, List, ℕ, true, false, Err, length, OnOk, IfOk, IfErr};
ghost use Rattle.commands.specs.declared.input.Extent.TheVariants.{Limited};
ghost use Rattle.std.specs.Io.KnownBytes.{Appends};
ghost use Rattle.wire.specs.Counted.{end_in, faults_in, next_count, reads_of};
ghost use Rattle.wire.specs.Output.{WritesFront, end_of};
ghost use Rattle.wire.specs.declared.error.FrontError.TheVariants.{ReadFault, WriteFault};
ghost use Rattle.step_core.specs.declared.event.Event.{Event};
ghost use Rattle.trace_lines.specs.Events.{lines_in, AreEvents};
ghost use Rattle.commands.specs.Input.{IsInput, ReadsInput};
ghost use Rattle.commands.specs.Streams.{source_of, streams};
ghost use Rattle.commands.specs.Reading.{Filtered, Filters};
ghost use Rattle.commands.specs.Trace.{IsTraceOf, NoRun, RunOf, printed};
ghost use Rattle.commands.specs.declared.fault.Fault.TheVariants.{Front};

use crate::ending::ended;
use crate::fault::Fault;
use crate::input::{Extent, read_input};
use std::alloc::Global;
use std::io::{Read, Write};
use step_core::{Trace, run_events};
use trace_lines::{LinesError, put_picture, put_trace, read_events};
use wire::{Counted, FrontError};

/// Reads events, a line each, runs them over so many shards, a fetch-all in so many rounds, and writes a line for each
/// operation and one for their order; answers the exit status. A line that is not an event is a fault, and then nothing is
/// written.
pub fn trace_over<R: Read, W: Write, E: Write>(
    alloc: Global,
    reader: &mut Counted<R>,
    out: &mut Counted<W>,
    err: &mut Counted<E>,
    shards: usize,
    rounds: usize,
) -> u8
    requires shards { 0 < shards }
    requires rounds { 0 < rounds }
    ensures traces { Filters Limited (RunOf shards rounds false) NoRun result
        (streams R.remaining W.contents E.contents reader.old out.old err.old)
        (streams R.remaining W.contents E.contents reader.new out.new err.new) }
    ensures silent { result ≡ 0 → err.new ≡ err.old }
{
    ended(trace_input(alloc, reader, out, shards, rounds, false), err)
}

/// Does the same, and draws the run above these lines.
pub fn picture_over<R: Read, W: Write, E: Write>(
    alloc: Global,
    reader: &mut Counted<R>,
    out: &mut Counted<W>,
    err: &mut Counted<E>,
    shards: usize,
    rounds: usize,
) -> u8
    requires shards { 0 < shards }
    requires rounds { 0 < rounds }
    ensures traces { Filters Limited (RunOf shards rounds true) NoRun result
        (streams R.remaining W.contents E.contents reader.old out.old err.old)
        (streams R.remaining W.contents E.contents reader.new out.new err.new) }
    ensures silent { result ≡ 0 → err.new ≡ err.old }
{
    ended(trace_input(alloc, reader, out, shards, rounds, true), err)
}

/// Writes the run of the events, as a picture too or not.
fn trace_input<R: Read, W: Write>(
    alloc: Global,
    reader: &mut Counted<R>,
    out: &mut Counted<W>,
    shards: usize,
    rounds: usize,
    picture: bool,
) -> Result<(), Fault>
    requires shards { 0 < shards }
    requires rounds { 0 < rounds }
    ensures { Filtered Limited (RunOf shards rounds picture) NoRun result (source_of R.remaining reader.old) (source_of R.remaining reader.new)
        (end_of W.contents out.old) (end_of W.contents out.new) }
{
    let (events, trace) = traced(alloc, reader, shards, rounds)?;
    Ok(print(out, picture, events, &trace)?)
}

/// Prints a run of so many events.
fn print<W: Write>(
    out: &mut Counted<W>,
    picture: bool,
    events: usize,
    trace: &Trace,
) -> Result<(), FrontError>
    ensures ok { OnOk result (Appends (W.contents (end_in out.old)) (W.contents (end_in out.new)) (printed picture events trace.now.ops.items trace.now.order.items)) }
    ensures fault { IfErr result (λ fault. (fault ≡ FrontError.WriteFault) × (faults_in out.new ≡ next_count (faults_in out.old))) }
    ensures front { WritesFront (W.contents (end_in out.old)) (W.contents (end_in out.new)) (printed picture events trace.now.ops.items trace.now.order.items) }
{
    if picture {
        put_picture(out, events, trace)
    } else {
        put_trace(out, trace)
    }
}

/// How many events an input has, and the trace of them.
fn traced<R: Read>(
    alloc: Global,
    reader: &mut Counted<R>,
    shards: usize,
    rounds: usize,
) -> Result<(usize, Trace), Fault>
    requires shards { 0 < shards }
    requires rounds { 0 < rounds }
    ensures ok { IfOk result (λ traced. (input : List ℕ) × (events : List Event) × IsInput Limited input (R.remaining (end_in reader.old)) (R.remaining (end_in reader.new))
        × AreEvents (lines_in input) events × IsTraceOf shards rounds events traced.1.ops.items traced.1.order.items × (traced.0 ≡ length events)) }
    ensures err { IfErr result (λ fault. NoRun fault (R.remaining (end_in reader.old)) (R.remaining (end_in reader.new))) }
    ensures reads { ReadsInput Limited result (reads_of reader.old) (reads_of reader.new) }
    ensures read_fault { result ≡ Err (Front ReadFault) → faults_in reader.new ≡ next_count (faults_in reader.old) }
    ensures no_write_fault { result ≡ Err (Front WriteFault) → ⊥ }
{
    let input = read_input(alloc, Extent::Limited, reader)?;
    let events = match read_events(alloc, input.as_slice()) {
        Ok(events) => events,
        Err(LinesError::BadLine(line)) => return Err(Fault::BadLine(line)),
        Err(LinesError::Memory) => return Err(Fault::Front(FrontError::Memory)),
    };
    let trace = run_events(alloc, shards, rounds, events.as_slice())?;
    Ok((events.len(), trace))
}
