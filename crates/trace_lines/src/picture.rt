//! What is printed of a run as a picture: a row for each caller, a column for each event.
ghost use Rattle.std.specs.Prelude.{◌≡◌, ◌≤◌, ◌<◌, ◌*◌, ◌++◌, [], ◌∷◌, take, codes, OnOk, IfErr};
ghost use Rattle.std.specs.Io.KnownBytes.{Appends};
ghost use Rattle.std.specs.List.{flat_map};
ghost use Rattle.wire.specs.Counted.{end_in, faults_in, next_count};
ghost use Rattle.wire.specs.Output.{WritesFront};
ghost use Rattle.trace_lines.specs.TraceText.{ended};
ghost use Rattle.trace_lines.specs.Picture.{callers_of, with_caller, caller_line as line_of_caller, event_line as line_of_events, order_row as row_of_order, numbered_band, bands_text, legend, picture_text};
ghost use Rattle.trace_lines.specs.Private.Puts.{Puts, out_of};

use crate::picture_row::{caller_line, drawn, event_line, order_row};
use crate::trace_text::put_text;
use crate::write_buffer::WriteBuffer;
use arrayvec::ArrayVec;
use std::io::Write;
use step_core::{OpRecord, Trace};
use wire::{Counted, FrontError};

/// How many columns stand in one band.
const BAND: usize = 60;

/// How many bytes stand before the columns.
pub(crate) const LABEL: usize = 18;

/// How many events are drawn, and how many operations.
pub(crate) const COLUMNS: usize = 960;

/// How many callers are drawn.
const CALLERS: usize = 16;

/// What stands above a picture.
const LEGEND: &[u8] = b"\
A row for each caller, a column for each event, counted from 0.
[ an operation begins   ] it ends   - it is open   . no operation is open
order: each operation at a moment when it can take effect, by the last digit of
its number, so that one after another they give these replies.
Up to 960 events and 16 callers are drawn.

";

/// Writes a run of so many events as a picture, and below it what `put_trace` writes of it. It takes no memory. If the
/// writer fails, a front of that is written.
pub fn put_picture<W: Write>(
    out: &mut Counted<W>,
    events: usize,
    trace: &Trace,
) -> Result<(), FrontError>
    ensures ok { OnOk result (Appends (W.contents (end_in out.old)) (W.contents (end_in out.new)) (picture_text events trace.now.ops.items trace.now.order.items)) }
    ensures quiet { OnOk result (faults_in out.new ≡ faults_in out.old) }
    ensures fault { IfErr result (λ fault. (fault ≡ FrontError.WriteFault) × (faults_in out.new ≡ next_count (faults_in out.old))) }
    ensures front { WritesFront (W.contents (end_in out.old)) (W.contents (end_in out.new)) (picture_text events trace.now.ops.items trace.now.order.items) }
{
    let mut gathered = WriteBuffer::new();
    put_page(&mut gathered, out, events, trace)?;
    gathered.flush(out)
}

fn put_page<W: Write>(
    gathered: &mut WriteBuffer,
    out: &mut Counted<W>,
    events: usize,
    trace: &Trace,
) -> Result<(), FrontError>
    ensures { Puts result (out_of W.contents out.old gathered.old) (out_of W.contents out.new gathered.new) (picture_text events trace.now.ops.items trace.now.order.items) }
{
    put_legend(gathered, out)?;
    put_drawn(gathered, out, COLUMNS.min(events), trace)?;
    put_text(gathered, out, trace)
}

#[tactic(auto, unfolding(crate::specs::Picture::legend))]
fn put_legend<W: Write>(gathered: &mut WriteBuffer, out: &mut Counted<W>) -> Result<(), FrontError>
    ensures { Puts result (out_of W.contents out.old gathered.old) (out_of W.contents out.new gathered.new) legend }
{
    gathered.put(out, LEGEND, &[])
}

fn put_drawn<W: Write>(
    gathered: &mut WriteBuffer,
    out: &mut Counted<W>,
    events: usize,
    trace: &Trace,
) -> Result<(), FrontError>
    requires few { events ≤ 960 }
    ensures { Puts result (out_of W.contents out.old gathered.old) (out_of W.contents out.new gathered.new)
        (bands_text trace.now.ops.items trace.now.order.items (callers_of [] (take 960 trace.now.ops.items)) events) }
{
    let callers = callers(trace.ops.as_slice());
    put_bands(gathered, out, events, trace, callers.as_slice())
}

fn put_bands<W: Write>(
    gathered: &mut WriteBuffer,
    out: &mut Counted<W>,
    events: usize,
    trace: &Trace,
    callers: &[u32],
) -> Result<(), FrontError>
    requires few { events ≤ 960 }
    ensures { Puts result (out_of W.contents out.old gathered.old) (out_of W.contents out.new gathered.new)
        (bands_text trace.now.ops.items trace.now.order.items callers.now events) }
{
    for band in 0..(events + (BAND - 1)) / BAND {
        put_band(gathered, out, trace, callers, events, band)?;
    }
    Ok(())
}

/// The callers that are drawn, in the order in which they first begin.
fn callers(records: &[OpRecord]) -> ArrayVec<u32, CALLERS>
    ensures { result.items ≡ callers_of [] (take 960 records.now) }
{
    let mut callers = ArrayVec::new();
    let shown = drawn(records);
    for entry in shown {
        add_caller(&mut callers, entry.caller);
    }
    callers
}

/// Adds a caller, if it is new and there is room.
fn add_caller(callers: &mut ArrayVec<u32, CALLERS>, caller: u32)
    ensures { callers.new.items ≡ with_caller callers.old.items caller }
{
    if !callers.contains(&caller) {
        add_new(callers, caller);
    }
}

/// Adds a caller, if there is room.
fn add_new(callers: &mut ArrayVec<u32, CALLERS>, caller: u32)
    ensures { callers.new.items ≡ take 16 (callers.old.items ++ caller ∷ []) }
{
    if callers.len() < CALLERS {
        callers.push(caller);
    }
}

fn put_band<W: Write>(
    gathered: &mut WriteBuffer,
    out: &mut Counted<W>,
    trace: &Trace,
    callers: &[u32],
    events: usize,
    band: usize,
) -> Result<(), FrontError>
    requires few { events ≤ 960 }
    requires inside { 60 * band < events }
    ensures { Puts result (out_of W.contents out.old gathered.old) (out_of W.contents out.new gathered.new)
        (numbered_band trace.now.ops.items trace.now.order.items callers.now events band) }
{
    let from = BAND * band;
    let width = BAND.min(events - from);
    put_events(gathered, out, from, width)?;
    put_rows(gathered, out, trace, callers, from, width)?;
    put_last_row(gathered, out, trace, from, width)
}

fn put_rows<W: Write>(
    gathered: &mut WriteBuffer,
    out: &mut Counted<W>,
    trace: &Trace,
    callers: &[u32],
    from: usize,
    width: usize,
) -> Result<(), FrontError>
    requires few { from ≤ 960 }
    requires narrow { width ≤ 60 }
    ensures { Puts result (out_of W.contents out.old gathered.old) (out_of W.contents out.new gathered.new)
        (flat_map (λ caller. ended (line_of_caller trace.now.ops.items from width caller)) callers.now) }
{
    for caller in callers {
        put_row(gathered, out, trace, *caller, from, width)?;
    }
    Ok(())
}

fn put_row<W: Write>(
    gathered: &mut WriteBuffer,
    out: &mut Counted<W>,
    trace: &Trace,
    caller: u32,
    from: usize,
    width: usize,
) -> Result<(), FrontError>
    requires few { from ≤ 960 }
    requires narrow { width ≤ 60 }
    ensures { Puts result (out_of W.contents out.old gathered.old) (out_of W.contents out.new gathered.new) (ended (line_of_caller trace.now.ops.items from width caller)) }
{
    let line = caller_line(trace.ops.as_slice(), from, width, caller);
    gathered.put(out, line.as_slice(), b"\n")
}

fn put_events<W: Write>(
    gathered: &mut WriteBuffer,
    out: &mut Counted<W>,
    from: usize,
    width: usize,
) -> Result<(), FrontError>
    requires few { from ≤ 960 }
    requires narrow { width ≤ 60 }
    ensures { Puts result (out_of W.contents out.old gathered.old) (out_of W.contents out.new gathered.new) (ended (line_of_events from width)) }
{
    let line = event_line(from, width);
    gathered.put(out, line.as_slice(), b"\n")
}

fn put_last_row<W: Write>(
    gathered: &mut WriteBuffer,
    out: &mut Counted<W>,
    trace: &Trace,
    from: usize,
    width: usize,
) -> Result<(), FrontError>
    requires few { from ≤ 960 }
    requires narrow { width ≤ 60 }
    ensures { Puts result (out_of W.contents out.old gathered.old) (out_of W.contents out.new gathered.new)
        (row_of_order trace.now.ops.items trace.now.order.items from width ++ codes "\n\n") }
{
    let row = order_row(trace.ops.as_slice(), trace.order.as_slice(), from, width);
    gathered.put(out, row.as_slice(), b"\n\n")
}
