//! Shards of one caller answer alike, however many they are.
use map_core::Op;
use std::alloc::Global;
use std::test::Fail;
use step_core::{Event, Shards, Trace, run_events};
use test_kit::{Shown, is_equal, operation, play};

/// What is asked, and what is answered.
static ROWS: [(&str, &str); 17] = [
    ("fetch", "all 0"),
    // The SHA-256 of the dump of no domains, and of that of `a` below.
    (
        "fetch unless 9cf4b161f3571e751912f9a78ae2015c4fb288afe59c798f5452a18d6254c893",
        "same",
    ),
    (
        "fetch unless ce63fbe9ae39fbb5db7e5c7f35c4630b6e662da041ff81ee66ff807889cc20a2",
        "all 0",
    ),
    ("set a {\"keys\":[]}", "stored"),
    ("get a", "found {\"keys\":[]}"),
    ("fetch", "all 1 a {\"keys\":[]}"),
    (
        "fetch unless ce63fbe9ae39fbb5db7e5c7f35c4630b6e662da041ff81ee66ff807889cc20a2",
        "same",
    ),
    (
        "fetch unless 9cf4b161f3571e751912f9a78ae2015c4fb288afe59c798f5452a18d6254c893",
        "all 1 a {\"keys\":[]}",
    ),
    ("set b {\"keys\":[],\"spiffe_sequence\":9}", "stored"),
    (
        "append b {\"kty\":\"RSA\",\"use\":\"jwt-svid\",\"kid\":\"k\",\"n\":\"AQAB\",\"e\":\"AQAB\"}",
        "appended 10",
    ),
    (
        "append a {\"kty\":\"RSA\",\"use\":\"jwt-svid\",\"kid\":\"k\",\"n\":\"AQAB\",\"e\":\"AQAB\"}",
        "appended -",
    ),
    ("remove a", "removed"),
    ("get a", "refused 30"),
    ("set a-b {\"keys\":[],\"spiffe_sequence\":3}", "stored"),
    ("setif a-b 4 {\"keys\":[]}", "refused 36 3"),
    (
        "setif a-b 3 {\"keys\":[],\"spiffe_sequence\":2}",
        "refused 31 3",
    ),
    (
        "fetch",
        "all 2 a-b {\"keys\":[],\"spiffe_sequence\":3} b {\"keys\":[{\"e\":\"AQAB\",\"kid\":\"k\",\"kty\":\"RSA\",\"n\":\"AQAB\",\"use\":\"jwt-svid\"}],\"spiffe_sequence\":10}",
    ),
];

#[test]
fn shards_answer_alike(rt: HostRuntime) -> Result<(), Fail> {
    for &shards in &[1, 4, 256] {
        let mut shards = Shards::new(rt.alloc(), shards)?;
        play(rt.alloc(), Shown::Whole, &mut shards, &ROWS)?;
    }
    Ok(())
}

fn set_operation(alloc: Global, sequence: u64) -> Result<Op, Fail> {
    let line = format!(in alloc; "set a {sequence}")?;
    operation(alloc, line.as_str())
}

/// Caller 2 stores a bundle of this sequence.
fn push_set(alloc: Global, events: &mut Vec<Event>, sequence: u64) -> Result<(), Fail> {
    events.push(Event::Begin(2, set_operation(alloc, sequence)?))?;
    events.push(Event::Step(2))?;
    Ok(events.push(Event::End(2))?)
}

/// Caller 1 fetches all bundles, and caller 2 stores one between the two steps of it.
fn push_round(alloc: Global, events: &mut Vec<Event>, sequence: u64) -> Result<(), Fail> {
    events.push(Event::Begin(1, Op::FetchAll))?;
    events.push(Event::Step(1))?;
    push_set(alloc, events, sequence)?;
    events.push(Event::Step(1))?;
    Ok(events.push(Event::End(1))?)
}

/// So many such rounds.
fn restless(alloc: Global, count: u64) -> Result<Vec<Event>, Fail> {
    let mut events = Vec::new(alloc);
    for sequence in 0..count {
        push_round(alloc, &mut events, sequence)?;
    }
    Ok(events)
}

/// The order of 14,286 rounds holds the writers alone.
fn holds_writers(trace: &Trace) -> Result<(), Fail> {
    is_equal(&(trace.ops.len(), trace.order.len()), &(28_572, 14_286))?;
    for (place, number) in trace.order.iter().enumerate() {
        is_equal(number, &(2 * place + 1))?;
    }
    Ok(())
}

/// 100,002 events, of seven four a fetch-all's. Each round is thrown away, so the order holds the writers alone.
#[test]
fn many_rounds_are_thrown_away(rt: HostRuntime) -> Result<(), Fail> {
    let events = restless(rt.alloc(), 14_286)?;
    holds_writers(&run_events(rt.alloc(), 1, 1, &events)?)
}
