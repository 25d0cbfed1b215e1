//! How sessions end that are served beside each other.
use super::{
    ABSENT, FOUND, GET_A, MOST_ARRIVALS, SET_A, STORED, has_ended, has_got, is_equal, output,
    sends, serve,
};
use std::alloc::Global;
use std::process::Abort;
use std::test::Fail;
use wire::FrontError;
use workers::SessionFault;

fn both(alloc: Global, first: &[u8], second: &[u8]) -> Result<Vec<u8>, Fail> {
    let mut bytes = Vec::new(alloc);
    bytes.extend_from_slice(first)?;
    bytes.extend_from_slice(second)?;
    Ok(bytes)
}

/// However its bytes come and go, a client gets its replies.
fn is_answered_in_pieces(
    rt: &impl Abort,
    alloc: Global,
    input: &[u8],
    piece: usize,
) -> Result<(), Fail> {
    let ended = serve(alloc, &[sends(input, piece)], MOST_ARRIVALS, 0)?;
    has_ended(rt, &ended.ends, 1, &[]);
    has_got(rt, alloc, output(&ended, 0), &[STORED, FOUND])
}

#[test]
fn bytes_come_and_go_in_pieces(rt: HostRuntime) -> Result<(), Fail> {
    let input = both(rt.alloc(), SET_A, GET_A)?;
    for piece in [1, 2, 3, 7, 100] {
        is_answered_in_pieces(&rt, rt.alloc(), input.as_slice(), piece)?;
    }
    Ok(())
}

/// One client ends inside a frame, one sends a bad length, one ends well.
fn each_ends_its_way(rt: &impl Abort, alloc: Global) -> Result<(), Fail> {
    let cut = both(alloc, SET_A, b"\x00\x00\x00\x03G")?;
    let bad = both(alloc, b"\x00\x00\x00\x03G\x01b", b"\x00\x00\x00\x00")?;
    let plans = [
        sends(GET_A, 100),
        sends(bad.as_slice(), 100),
        sends(cut.as_slice(), 100),
    ];
    let ended = serve(alloc, &plans, MOST_ARRIVALS, 0)?;
    has_got(rt, alloc, output(&ended, 0), &[FOUND])?;
    has_got(rt, alloc, output(&ended, 1), &[ABSENT])?;
    has_got(rt, alloc, output(&ended, 2), &[STORED])?;
    is_equal(rt, &ended.ends.begun(), &3);
    is_equal(rt, &ended.ends.faults().len(), &2);
    for fault in ended.ends.faults() {
        let is_one_of_these = matches!(
            fault,
            SessionFault::Front(FrontError::BadLength | FrontError::Truncated)
        );
        is_equal(rt, &is_one_of_these, &true);
    }
    Ok(())
}

// The last client of the list comes first, so the set is answered before the get.
#[test]
fn each_session_ends_for_its_own_reason(rt: HostRuntime) -> Result<(), Fail> {
    each_ends_its_way(&rt, rt.alloc())
}
