//! Clients that are left: since they are silent, or since the server stops.
use super::{FOUND, GET_A, Plan, SET_A, STORED, has_ended, has_got, output, sends, serve};
use std::alloc::Global;
use std::process::Abort;
use std::test::Fail;
use wire::FrontError;
use workers::SessionFault;

/// A client that never reads is left after some ticks, and the other one has its replies.
fn one_never_reads(rt: &impl Abort, alloc: Global) -> Result<(), Fail> {
    let deaf = Plan {
        takes: 0,
        ..sends(SET_A, 100)
    };
    let ended = serve(alloc, &[sends(GET_A, 100), deaf], 1_000, 500)?;
    let faults = [SessionFault::Front(FrontError::WriteFault)];
    has_ended(rt, &ended.ends, 2, &faults);
    has_got(rt, alloc, output(&ended, 0), &[FOUND])?;
    has_got(rt, alloc, output(&ended, 1), &[])
}

#[test]
fn a_client_that_never_reads_is_left(rt: HostRuntime) -> Result<(), Fail> {
    one_never_reads(&rt, rt.alloc())
}

/// A stop while clients are connected that give a byte at a time: one has given a whole frame, one is inside another one.
fn stops_inside(rt: &impl Abort, alloc: Global) -> Result<(), Fail> {
    let ended = serve(alloc, &[sends(SET_A, 1)], 10, 0)?;
    let faults = [SessionFault::Front(FrontError::Truncated)];
    has_ended(rt, &ended.ends, 1, &faults);
    has_got(rt, alloc, output(&ended, 0), &[])
}

#[test]
fn a_stop_ends_the_input(rt: HostRuntime) -> Result<(), Fail> {
    stops_inside(&rt, rt.alloc())
}

#[test]
fn a_stop_leaves_nothing_unanswered(rt: HostRuntime) -> Result<(), Fail> {
    let ended = serve(rt.alloc(), &[sends(SET_A, 100)], 1, 0)?;
    has_ended(&rt, &ended.ends, 1, &[]);
    has_got(&rt, rt.alloc(), output(&ended, 0), &[STORED])
}
