//! Runs, and what is printed of them.
use map_core::{AskError, Expect, MapRefusal, Op, Reply, Snapshot};
use spiffe_doc::{TrustDomain, read_document};
use std::alloc::Global;
use std::test::Fail;
use step_core::{OpRecord, Trace, run_events};
use test_kit::is_equal_at;
use trace_lines::{put_trace, read_events};
use wire::{Counted, FaultyWriter, FrontError};

/// What an operation was answered: nothing yet, a reply that takes no memory, a bundle by its document, all of these
/// domains with theirs, or an error.
#[derive(Clone, Copy)]
enum Answer<'a> {
    Nothing,
    Stored,
    Unchanged,
    Removed,
    Appended(Option<u64>),
    Found(&'a [u8]),
    All(&'a [(&'a str, &'a [u8])]),
    Refused(MapRefusal),
    Failed(AskError),
}

fn snapshot(alloc: Global, documents: &[(&str, &[u8])]) -> Result<Snapshot, Fail> {
    let mut pairs = Vec::new(alloc);
    for &(name, document) in documents {
        let domain = TrustDomain::parse(alloc, name)?;
        pairs.push((domain, read_document(alloc, document)?))?;
    }
    Ok(Snapshot::from_pairs(pairs))
}

fn reply(alloc: Global, answer: Answer) -> Result<Option<Result<Reply, AskError>>, Fail> {
    let reply = match answer {
        Answer::Nothing => return Ok(None),
        Answer::Failed(error) => return Ok(Some(Err(error))),
        Answer::Stored => Reply::Stored,
        Answer::Unchanged => Reply::Unchanged,
        Answer::Removed => Reply::Removed,
        Answer::Appended(sequence) => Reply::Appended(sequence),
        Answer::Refused(why) => Reply::Refused(why),
        Answer::Found(document) => Reply::Found(read_document(alloc, document)?),
        Answer::All(documents) => Reply::All(snapshot(alloc, documents)?),
    };
    Ok(Some(Ok(reply)))
}

/// A trace of one operation of caller 4,294,967,295, with this reply and no order.
pub(super) fn trace_of(
    alloc: Global,
    last: Option<u64>,
    reply: Option<Result<Reply, AskError>>,
) -> Result<Trace, Fail> {
    let mut ops = Vec::new(alloc);
    ops.push(OpRecord {
        caller: 4294967295,
        op: Op::FetchAll,
        first: 0,
        last,
        reply,
        wrote: false,
    })?;
    Ok(Trace {
        ops,
        order: Vec::new(alloc),
    })
}

/// The output of a trace.
fn printed(alloc: Global, trace: &Trace) -> Result<Vec<u8>, Fail> {
    let mut out = Counted::new(Vec::new(alloc));
    put_trace(&mut out, trace)?;
    Ok(out.into_end())
}

const DOCUMENT: &[u8] = b"{\"spiffe_sequence\": 3, \"keys\": []}";

/// What an operation was answered, and what is printed of it.
static ANSWERS: [(Answer, &str); 23] = [
    (Answer::Nothing, "-"),
    (Answer::Stored, "stored"),
    (Answer::Unchanged, "unchanged"),
    (Answer::Removed, "removed"),
    (Answer::Appended(None), "appended -"),
    (
        Answer::Appended(Some(18446744073709551615)),
        "appended 18446744073709551615",
    ),
    (
        Answer::Found(DOCUMENT),
        "found {\"keys\":[],\"spiffe_sequence\":3}",
    ),
    (Answer::All(&[]), "all 0"),
    (
        Answer::All(&[("a", b"{\"keys\":[]}"), ("b.example", DOCUMENT)]),
        "all 2 a {\"keys\":[]} b.example {\"keys\":[],\"spiffe_sequence\":3}",
    ),
    (Answer::Refused(MapRefusal::NoDomain), "refused 30"),
    (Answer::Refused(MapRefusal::Stale(7)), "refused 31 7"),
    (Answer::Refused(MapRefusal::KidTaken), "refused 32"),
    (Answer::Refused(MapRefusal::TooMany), "refused 33"),
    (Answer::Refused(MapRefusal::TooLong), "refused 34"),
    (Answer::Refused(MapRefusal::SequenceFull), "refused 35"),
    (
        Answer::Refused(MapRefusal::NotExpected(Expect::Absent)),
        "refused 36 absent",
    ),
    (
        Answer::Refused(MapRefusal::NotExpected(Expect::Unnumbered)),
        "refused 36 none",
    ),
    (
        Answer::Refused(MapRefusal::NotExpected(Expect::Sequence(0))),
        "refused 36 0",
    ),
    (Answer::Failed(AskError::Memory), "memory"),
    (Answer::Failed(AskError::Worn { shard: 255 }), "worn 255"),
    (
        Answer::Failed(AskError::Moved {
            shard: 1,
            first: 2,
            second: 18446744073709551615,
        }),
        "moved 1 2 18446744073709551615",
    ),
    (
        Answer::Failed(AskError::Held {
            shard: 0,
            revision: 9,
        }),
        "held 0 9",
    ),
    (Answer::Failed(AskError::GateShut), "shut"),
];

fn is_printed(alloc: Global, answer: Answer, wanted: &str) -> Result<(), Fail> {
    let trace = trace_of(alloc, Some(18446744073709551615), reply(alloc, answer)?)?;
    let out = printed(alloc, &trace)?;
    drop(trace);
    let line = format!(in alloc;
        "record 0 caller 4294967295 first 0 last 18446744073709551615 reply {wanted}\norder\n"
    )?;
    is_equal_at(&out.as_slice(), &line.as_bytes(), &wanted)
}

#[test]
fn answers_are_printed(rt: HostRuntime) -> Result<(), Fail> {
    for &(answer, wanted) in &ANSWERS {
        is_printed(rt.alloc(), answer, wanted)?;
    }
    Ok(())
}

/// Numbers in the order, how many times they stand there, and what is printed of them once.
static ORDERS: [(&[usize], usize, &str); 3] = [
    (&[], 1, ""),
    (&[0, 12], 1, " 0 12"),
    (&[18446744073709551615], 5000, " 18446744073709551615"),
];

/// What is printed of an operation that has not ended, with the numbers in the order so many times.
fn printed_order(alloc: Global, numbers: &[usize], times: usize) -> Result<Vec<u8>, Fail> {
    let mut trace = trace_of(alloc, None, None)?;
    for _ in 0..times {
        trace.order.extend_from_slice(numbers)?;
    }
    let out = printed(alloc, &trace);
    drop(trace);
    out
}

#[test]
fn what_has_not_ended_has_a_dash(rt: HostRuntime) -> Result<(), Fail> {
    let alloc = rt.alloc();
    for &(numbers, times, text) in &ORDERS {
        let out = printed_order(alloc, numbers, times)?;
        let order = text.repeat(alloc, times)?;
        let wanted = format!(in alloc;
            "record 0 caller 4294967295 first 0 last - reply -\norder{order}\n"
        )?;
        is_equal_at(&out.as_slice(), &wanted.as_bytes(), &text)?;
    }
    Ok(())
}

/// The events of examples/race.events, and examples/race.trace.
pub(super) const RACE: &[u8] =
    b"begin 1 fetch\nstep 1\nbegin 2 set b {\"keys\":[]}\nstep 2\nend 2\nbegin 2 set a {\"keys\":[]}\nstep 2\nend 2\nstep 1\nstep 1\nstep 1\nstep 1\nstep 1\nstep 1\nend 1\n";

pub(super) const RACE_TRACE: &[u8] =
    b"record 0 caller 1 first 0 last 14 reply all 2 a {\"keys\":[]} b {\"keys\":[]}\nrecord 1 caller 2 first 2 last 4 reply stored\nrecord 2 caller 2 first 5 last 7 reply stored\norder 1 2 0\n";

/// The trace of the race, over two shards and two rounds.
pub(super) fn race(alloc: Global) -> Result<Trace, Fail> {
    let events = read_events(alloc, RACE)?;
    let trace = run_events(alloc, 2, 2, events.as_slice());
    drop(events);
    Ok(trace?)
}

/// A writer that fails has a front of the text.
fn prints_fronts(alloc: Global, trace: &Trace) -> Result<(), Fail> {
    let out = printed(alloc, trace)?;
    is_equal_at(&out.as_slice(), &RACE_TRACE, &"a race")?;
    for room in 0..RACE_TRACE.len() {
        let mut out = Counted::new(FaultyWriter::new(alloc, room));
        let ended = put_trace(&mut out, trace);
        let (front, _) = RACE_TRACE.split_at(room);
        is_equal_at(&ended, &Err(FrontError::WriteFault), &room)?;
        is_equal_at(&out.end().taken.as_slice(), &front, &room)?;
    }
    Ok(())
}

#[test]
fn a_race_is_printed(rt: HostRuntime) -> Result<(), Fail> {
    let trace = race(rt.alloc())?;
    let is_so = prints_fronts(rt.alloc(), &trace);
    drop(trace);
    is_so
}
