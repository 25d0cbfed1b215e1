//! Runs, and their pictures drawn by hand.
use super::printed::{RACE, RACE_TRACE, race, trace_of};
use std::alloc::Global;
use std::test::Fail;
use step_core::{Trace, run_events};
use test_kit::is_equal_at;
use trace_lines::{put_picture, read_events};
use wire::{Counted, FaultyWriter, FrontError};

static LEGEND: &[u8] = b"\
A row for each caller, a column for each event, counted from 0.
[ an operation begins   ] it ends   - it is open   . no operation is open
order: each operation at a moment when it can take effect, by the last digit of
its number, so that one after another they give these replies.
Up to 960 events and 16 callers are drawn.

";

const RACE_PICTURE: &[u8] = b"\
event             0        10
caller 1          [-------------]
caller 2          ..[-][-].......
order             ..1..20........

";

/// The picture of a run of so many events.
fn drawn(alloc: Global, events: usize, trace: &Trace) -> Result<Vec<u8>, Fail> {
    let mut out = Counted::new(Vec::new(alloc));
    put_picture(&mut out, events, trace)?;
    Ok(out.into_end())
}

/// The legend, the picture and the text below it.
fn page(alloc: Global, picture: &[u8], text: &[u8]) -> Result<Vec<u8>, Fail> {
    let mut page = Vec::from_slice(alloc, LEGEND)?;
    page.extend_from_slice(picture)?;
    page.extend_from_slice(text)?;
    Ok(page)
}

/// Lines, how many shards there are, the picture, and the text below it.
static DRAWN: [(&[u8], usize, &[u8], &[u8]); 3] = [
    (RACE, 2, RACE_PICTURE, RACE_TRACE),
    (b"", 1, b"", b"order\n"),
    // The get is given up, and the set is under way and has written.
    (
        b"step 7\nbegin 4294967295 get a\nquit 4294967295 memory\nbegin 7 set a {\"keys\":[]}\nstep 7\nend 9\n",
        1,
        b"\
event             0
caller 4294967295 .[]...
caller 7          ...[--
order             ...1..

",
        b"\
record 0 caller 4294967295 first 1 last 2 reply memory
record 1 caller 7 first 3 last - reply -
order 1
",
    ),
];

/// The picture of the run of these lines, over so many shards and two rounds.
fn drawn_run(alloc: Global, lines: &[u8], shards: usize) -> Result<Vec<u8>, Fail> {
    let events = read_events(alloc, lines)?;
    let trace = run_events(alloc, shards.max(1), 2, events.as_slice())?;
    drawn(alloc, events.len(), &trace)
}

#[test]
fn runs_are_drawn(rt: HostRuntime) -> Result<(), Fail> {
    let alloc = rt.alloc();
    for &(lines, shards, picture, text) in &DRAWN {
        let out = drawn_run(alloc, lines, shards)?;
        let page = page(alloc, picture, text)?;
        is_equal_at(&out.as_slice(), &page.as_slice(), &lines)?;
    }
    Ok(())
}

static BANDS: &[u8] = b"\
event             0        10        20        30        40        50
caller 12         ...........................................................[
order             ............................................................

event            60        70
caller 12         ]..........
order             ...........

";

// An operation from the last column of a band to the first of the next.
#[test]
fn a_long_run_has_bands(rt: HostRuntime) -> Result<(), Fail> {
    let alloc = rt.alloc();
    let mut trace = trace_of(alloc, Some(60), None)?;
    for entry in trace.ops.as_mut_slice() {
        entry.caller = 12;
        entry.first = 59;
    }
    let out = drawn(alloc, 71, &trace);
    drop(trace);
    let out = out?;
    let text = b"record 0 caller 12 first 59 last 60 reply -\norder\n";
    let page = page(alloc, BANDS, text)?;
    is_equal_at(&out.as_slice(), &page.as_slice(), &"71 events")
}

/// A writer that fails has a front of the page.
fn draws_fronts(alloc: Global, trace: &Trace, page: &[u8]) -> Result<(), Fail> {
    for room in 0..page.len() {
        let mut out = Counted::new(FaultyWriter::new(alloc, room));
        let ended = put_picture(&mut out, 15, trace);
        let (front, _) = page.split_at(room);
        is_equal_at(&ended, &Err(FrontError::WriteFault), &room)?;
        is_equal_at(&out.end().taken.as_slice(), &front, &room)?;
    }
    Ok(())
}

#[test]
fn a_writer_that_fails_has_a_front_of_a_picture(rt: HostRuntime) -> Result<(), Fail> {
    let page = page(rt.alloc(), RACE_PICTURE, RACE_TRACE)?;
    let trace = race(rt.alloc())?;
    let is_so = draws_fronts(rt.alloc(), &trace, page.as_slice());
    drop(trace);
    is_so
}
