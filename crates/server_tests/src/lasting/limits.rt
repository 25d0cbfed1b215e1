//! How many reads a session may make.
use super::{ABSENT, GET_A, SET_A, STORED, has_ended, has_got, output, sends, serve_within};
use std::alloc::Global;
use std::process::Abort;
use std::test::Fail;
use wire::FrontError;
use workers::SessionFault;

/// The fault of a session that has made all reads that it may.
const USED_UP: SessionFault = SessionFault::Front(FrontError::TurnsUsed);

/// How many reads a session may make that sets `a` in three pieces of 6 bytes, its faults, and its replies.
type Row<'a> = (u64, &'a [SessionFault], &'a [&'a [u8]]);

// Between two pieces, and before the end, a read finds nothing yet. None of these counts, and neither does the end.
static ROWS: [Row<'static>; 4] = [
    (4, &[], &[STORED]),
    (3, &[USED_UP], &[STORED]),
    (2, &[USED_UP], &[]),
    (0, &[USED_UP], &[]),
];

fn is_limited(rt: &impl Abort, alloc: Global, row: Row<'_>) -> Result<(), Fail> {
    let (turns, faults, replies) = row;
    let ended = serve_within(alloc, &[sends(SET_A, 6)], turns)?;
    has_ended(rt, &ended.ends, 1, faults);
    has_got(rt, alloc, output(&ended, 0), replies)
}

#[test]
fn a_session_that_has_made_its_reads_is_over(rt: HostRuntime) -> Result<(), Fail> {
    for &row in &ROWS {
        is_limited(&rt, rt.alloc(), row)?;
    }
    Ok(())
}

/// One that sends all at once, before the other's set is whole, stands beside one that uses up its reads.
fn others_go_on(rt: &impl Abort, alloc: Global) -> Result<(), Fail> {
    let ended = serve_within(alloc, &[sends(GET_A, 100), sends(SET_A, 6)], 3)?;
    has_ended(rt, &ended.ends, 2, &[USED_UP]);
    has_got(rt, alloc, output(&ended, 1), &[STORED])?;
    has_got(rt, alloc, output(&ended, 0), &[ABSENT])
}

#[test]
fn each_session_has_reads_of_its_own(rt: HostRuntime) -> Result<(), Fail> {
    others_go_on(&rt, rt.alloc())
}
