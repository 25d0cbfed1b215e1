//! Workers whose calls go through a gate.
use super::memory::run_two;
use super::{ABSENT, GET_A, is_equal};
use std::sync::{Mutex, Wait};
use std::test::Fail;
use wire::FrontError;
use workers::{Gate, Open, SessionFault};

/// Which workers have come to their first call.
#[derive(Drop)]
struct ReadOutcome {
    first: bool,
    second: bool,
}

/// A gate that holds the first call of each of two workers until the other's has come to it.
#[derive(Drop)]
struct Meeting<'a, R: Wait> {
    rt: &'a R,
    came: Mutex<ReadOutcome>,
}

impl<'a, R: Wait> Gate for Meeting<'a, R> {
    ghost opens = { λ _ worker call is_open. Unit {0} };

    fn before(&self, worker: u64, call: u64) -> bool {
        if call != 1 {
            return true;
        }
        for _ in 0..20_000_000u64 {
            let mut came = self.came.lock(self.rt);
            if worker == 0 {
                came.first = true;
            } else {
                came.second = true;
            }
            if came.first && came.second {
                return true;
            }
        }
        false
    }

    fn after(&self, _worker: u64, _call: u64) {}
}

// A body that runs the workers one after the other finds the gate shut.
#[test]
fn two_workers_meet(rt: HostRuntime) -> Result<(), Fail> {
    let gate = Meeting {
        rt: &rt,
        came: Mutex::new(ReadOutcome {
            first: false,
            second: false,
        }),
    };
    let ended = run_two(&rt, rt.alloc(), (GET_A, GET_A), 0, &gate)?;
    is_equal(&rt, &ended.first.as_slice(), &ABSENT);
    is_equal(&rt, &ended.second.as_slice(), &ABSENT);
    is_equal(&rt, &(ended.begun, ended.have_come), &(2, true));
    is_equal(&rt, &ended.faults.as_slice(), &[].as_slice());
    Ok(())
}

// The listener fails after the client has left.
#[test]
fn a_listener_that_fails(rt: HostRuntime) -> Result<(), Fail> {
    let cut = b"\x00\x00\x00\x03G\x01a\x00\x00".as_slice();
    let ended = run_two(&rt, rt.alloc(), (GET_A, cut), 1, &Open)?;
    let faults = [
        SessionFault::Listen,
        SessionFault::Front(FrontError::Truncated),
        SessionFault::Listen,
    ];
    is_equal(&rt, &ended.faults.as_slice(), &faults.as_slice());
    is_equal(&rt, &(ended.begun, ended.have_come), &(2, false));
    Ok(())
}
