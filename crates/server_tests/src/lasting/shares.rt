//! Clients that send without pause, beside others.
use super::turns::Steady;
use super::{LIMITS, SET_A, STORED, has_ended, is_equal};
use map_core::Contents;
use std::alloc::{AllocError, Global};
use std::process::Abort;
use std::test::Fail;
use workers::{Arrival, Arrivals, AtPort, Quiet, SessionEnds, Worker, serve_arrivals};

/// How many sets the other client sends.
const SETS: usize = 20;

/// A client that comes first, and another one.
#[derive(Drop)]
struct Script<'i, 'o> {
    first: Option<Steady<'i, 'o>>,
    other: Option<Steady<'i, 'o>>,
    left: u64,
}

/// How much comes: the first client, which is told to be ready ten times though it waits for another turn already; then the
/// other one, which is told so once; and four times nothing.
const ARRIVALS: u64 = 17;

impl<'i, 'o> Arrivals for Script<'i, 'o> {
    type End = Steady<'i, 'o>;

    ghost use Rattle.std.specs.Prelude.{⊤};

    ghost left = { λ script. script.left };

    ghost comes = { λ _ _ _ _. ⊤ };

    fn next(&mut self, _free: usize, _open: usize, _is_busy: bool) -> Arrival<Steady<'i, 'o>> {
        if self.left == 0 {
            return Arrival::Stops;
        }
        self.left -= 1;
        if let Some(end) = self.first.take() {
            return comes(end);
        }
        if self.left > 5 {
            return ready(0);
        }
        if let Some(end) = self.other.take() {
            return comes(end);
        }
        if self.left > 3 {
            return ready(1);
        }
        Arrival::Nothing
    }
}

/// So many sets of `a`, one after the other.
fn sets(alloc: Global, count: usize) -> Result<Vec<u8>, AllocError> {
    let mut input = Vec::new(alloc);
    for _ in 0..count {
        input.extend_from_slice(SET_A)?;
    }
    Ok(input)
}

/// The stream at this place has more without pause: reads go on, though each gives one frame.
fn ready<E>(place: usize) -> Arrival<E> {
    Arrival::Ready {
        place,
        is_closing: true,
    }
}

/// A client comes.
fn comes<E>(end: E) -> Arrival<E> {
    Arrival::Opens {
        end,
        reads_only: false,
    }
}

/// How the sessions of two clients end, of which the first has much to send, and the other one 20 sets.
fn ends_of(
    alloc: Global,
    first: &mut Vec<u8>,
    other: &mut Vec<u8>,
) -> Result<SessionEnds, AllocError> {
    let much = sets(alloc, 1_000)?;
    let some = sets(alloc, SETS)?;
    let mut script = Script {
        first: Some(Steady {
            input: much.as_slice(),
            output: first,
        }),
        other: Some(Steady {
            input: some.as_slice(),
            output: other,
        }),
        left: ARRIVALS,
    };
    let mut port = AtPort::new(Contents::new(alloc), false);
    let worker = Worker {
        number: 0,
        alloc,
        log: &Quiet,
        limits: LIMITS,
    };
    serve_arrivals(&worker, &mut script, &mut port)
}

/// The other one has had its turns, since the first stands before it once and not ten times.
fn waits_once(rt: &impl Abort, alloc: Global) -> Result<(), Fail> {
    let (mut first, mut other) = (Vec::new(alloc), Vec::new(alloc));
    let ends = ends_of(alloc, &mut first, &mut other)?;
    has_ended(rt, &ends, 2, &[]);
    is_equal(rt, &other.len(), &SETS.saturating_mul(STORED.len()));
    Ok(())
}

#[test]
fn a_client_that_is_ready_again_waits_once(rt: HostRuntime) -> Result<(), Fail> {
    waits_once(&rt, rt.alloc())
}
