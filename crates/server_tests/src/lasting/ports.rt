//! Connections at a port for reads only.
use super::{
    ABSENT, FOUND, GET_A, MOST_ARRIVALS, Plan, SET_A, SHUT, STORED, has_ended, has_got, output,
    sends, serve,
};
use std::alloc::Global;
use std::process::Abort;
use std::test::Fail;

/// One client sets and gets, and one that may only read tries the same before it.
fn only_one_writes(rt: &impl Abort, alloc: Global) -> Result<(), Fail> {
    let mut input = Vec::new(alloc);
    input.extend_from_slice(SET_A)?;
    input.extend_from_slice(GET_A)?;
    let writer = sends(input.as_slice(), 100);
    let reader = Plan {
        reads_only: true,
        ..writer
    };
    let ended = serve(alloc, &[reader, writer, reader], MOST_ARRIVALS, 0)?;
    has_ended(rt, &ended.ends, 3, &[]);
    has_got(rt, alloc, output(&ended, 2), &[SHUT, ABSENT])?;
    has_got(rt, alloc, output(&ended, 1), &[STORED, FOUND])?;
    has_got(rt, alloc, output(&ended, 0), &[SHUT, FOUND])
}

#[test]
fn a_reader_changes_nothing(rt: HostRuntime) -> Result<(), Fail> {
    only_one_writes(&rt, rt.alloc())
}
