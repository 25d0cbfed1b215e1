//! Worked examples of the plain map. A row is what is asked and, beside it, what is answered.
//!
//! Maps and operations are dropped by a call of `drop`, before anything may fail: where a scope drops one, the prover follows
//! all its parts on each way out.
mod appends;
mod runs;
mod shown;
mod snapshots;

use map_core::{AskError, Contents, Op, Reply};
use std::alloc::Global;
use std::test::Fail;
use test_kit::{Shown, operation, reply_text, snapshot_text};

/// What is asked and what is answered.
type Row<'a> = (&'a str, &'a str);

/// Asks once more if memory runs out, since nothing has changed then.
fn answer(map: &mut Contents, op: &Op) -> Result<Reply, AskError> {
    match map.ask(op.copy()?) {
        Err(AskError::Memory) => map.ask(op.copy()?),
        other => other,
    }
}

/// The bundles of a copy of the map, and how many the map counts.
fn left_text(alloc: Global, shown: Shown, map: &Contents) -> Result<String, Fail> {
    let all = map.copy()?.into_snapshot()?;
    let text = snapshot_text(alloc, shown, &all)?;
    Ok(format!(in alloc; "{text} of {}", map.len())?)
}

/// The map after an operation: the one that is given, or the one that stands as it was.
fn after_text(
    alloc: Global,
    shown: Shown,
    map: &Contents,
    after: &Option<Contents>,
) -> Result<String, Fail> {
    match after {
        Some(after) => left_text(alloc, shown, after),
        None => left_text(alloc, shown, map),
    }
}

/// The reply, whether the operation changes the map, twice, and the map after it.
fn told_of(
    alloc: Global,
    shown: Shown,
    map: &Contents,
    op: &Op,
    (reply, after): (&Reply, &Option<Contents>),
) -> Result<String, Fail> {
    let reply = reply_text(alloc, shown, reply)?;
    let left = after_text(alloc, shown, map, after)?;
    let changes = map.would_change(op)?;
    let gives = after.is_some();
    Ok(format!(in alloc; "{reply}, {changes} {gives}: {left}")?)
}

/// What is told of an operation beforehand.
fn told(alloc: Global, shown: Shown, map: &Contents, op: &Op) -> Result<String, Fail> {
    let (reply, after) = map.asked(op)?;
    let text = told_of(alloc, shown, map, op, (&reply, &after));
    drop(after);
    text
}

/// The same of an operation that is asked.
fn done(alloc: Global, shown: Shown, map: &mut Contents, op: &Op) -> Result<String, Fail> {
    let reply = answer(map, op)?;
    let changes = reply.is_change();
    let reply = reply_text(alloc, shown, &reply)?;
    let left = left_text(alloc, shown, map)?;
    Ok(format!(in alloc; "{reply}, {changes} {changes}: {left}")?)
}

/// What is done has the expected reply, and what was told beforehand agrees with it.
fn judge(alloc: Global, (line, expected): Row, told: &str, done: &str) -> Result<(), Fail> {
    let (text, _) = done.split_once(", ").unwrap_or(("", ""));
    if text != expected {
        return Err(Fail::from(format!(in alloc; "{line}: {text}, and not {expected}")?));
    }
    if told != done {
        return Err(Fail::from(format!(in alloc; "{line}: {told} was told before {done}")?));
    }
    Ok(())
}

/// Tells of an operation, does it, and judges both.
fn play_operation(
    alloc: Global,
    shown: Shown,
    map: &mut Contents,
    row: Row,
    op: &Op,
) -> Result<(), Fail> {
    let told = told(alloc, shown, map, op)?;
    let done = done(alloc, shown, map, op)?;
    judge(alloc, row, told.as_str(), done.as_str())
}

fn play_row(alloc: Global, shown: Shown, map: &mut Contents, row: Row) -> Result<(), Fail> {
    let (line, _) = row;
    let op = operation(alloc, line)?;
    let is_so = play_operation(alloc, shown, map, row, &op);
    drop(op);
    is_so
}

/// Plays the rows, and says what the map holds then.
fn play(alloc: Global, shown: Shown, map: &mut Contents, rows: &[Row]) -> Result<String, Fail> {
    for &row in rows {
        play_row(alloc, shown, map, row)?;
    }
    left_text(alloc, shown, map)
}
