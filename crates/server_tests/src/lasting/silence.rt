//! Clients that are silent, and clients that are only slow.
use super::{ABSENT, Client, GET_A, LIMITS, Plan, SET_A, has_ended, has_got, is_equal, sends};
use map_core::Contents;
use std::alloc::{AllocError, Global};
use std::process::Abort;
use std::test::Fail;
use wire::FrontError;
use workers::{
    Arrival, Arrivals, AtPort, Quiet, SessionEnds, SessionFault, Worker, serve_arrivals,
};

/// A client comes. Then a tick passes again and again, and its stream is ready between two of them if `is_ready`, until it has
/// left or time is up.
#[derive(Drop)]
struct Ticking<'i, 'o> {
    coming: Option<Client<'i, 'o>>,
    is_ready: bool,
    left: u64,
    ticks: &'o mut u64,
}

/// How much comes: a client, and ticks with as much between them.
const ARRIVALS: u64 = 61;

impl<'i, 'o> Arrivals for Ticking<'i, 'o> {
    type End = Client<'i, 'o>;

    ghost use Rattle.std.specs.Prelude.{⊤};

    ghost left = { λ ticking. ticking.left };

    ghost comes = { λ _ _ _ _. ⊤ };

    fn next(&mut self, _free: usize, open: usize, _is_busy: bool) -> Arrival<Client<'i, 'o>> {
        if self.left == 0 {
            return Arrival::Stops;
        }
        self.left -= 1;
        if let Some(end) = self.coming.take() {
            return Arrival::Opens {
                end,
                reads_only: false,
            };
        }
        if open == 0 {
            return Arrival::Stops;
        }
        if self.left % 2 == 1 {
            *self.ticks = self.ticks.saturating_add(1);
            return Arrival::Tick;
        }
        if !self.is_ready {
            return Arrival::Nothing;
        }
        Arrival::Ready {
            place: 0,
            is_closing: false,
        }
    }
}

/// How the session of a client of this plan ends, what it has got, and how many ticks have passed by then.
#[derive(Drop)]
struct Ended {
    ends: SessionEnds,
    output: Vec<u8>,
    ticks: u64,
}

fn serve(alloc: Global, plan: &Plan<'_>, is_ready: bool) -> Result<Ended, AllocError> {
    let mut output = Vec::new(alloc);
    let mut ticks = 0;
    let mut ticking = Ticking {
        coming: Some(Client {
            input: plan.input,
            output: &mut output,
            gives: plan.gives,
            takes: plan.takes,
            is_awaited: true,
        }),
        is_ready,
        left: ARRIVALS,
        ticks: &mut ticks,
    };
    let mut port = AtPort::new(Contents::new(alloc), false);
    let worker = Worker {
        number: 0,
        alloc,
        log: &Quiet,
        limits: LIMITS,
    };
    let ends = serve_arrivals(&worker, &mut ticking, &mut port)?;
    drop(ticking);
    Ok(Ended {
        ends,
        output,
        ticks,
    })
}

/// A client that gives so many bytes at once, and takes so many.
fn client(input: &[u8], gives: usize, takes: usize) -> Plan<'_> {
    Plan {
        takes,
        ..sends(input, gives)
    }
}

/// The client is given up for this fault at the third tick, though its stream is ready between any two.
fn is_given_up(
    rt: &impl Abort,
    alloc: Global,
    plan: &Plan<'_>,
    fault: FrontError,
) -> Result<(), Fail> {
    let ended = serve(alloc, plan, true)?;
    has_ended(rt, &ended.ends, 1, &[SessionFault::Front(fault)]);
    is_equal(rt, &ended.ticks, &LIMITS.patience.most_silent);
    has_got(rt, alloc, ended.output.as_slice(), &[])
}

#[test]
fn bytes_do_not_make_up_for_replies_that_are_not_taken(rt: HostRuntime) -> Result<(), Fail> {
    let alloc = rt.alloc();
    let gets = repeated(alloc, GET_A, 20)?;
    let plan = client(gets.as_slice(), GET_A.len(), 0);
    is_given_up(&rt, alloc, &plan, FrontError::WriteFault)
}

#[test]
fn bytes_do_not_make_up_for_a_frame_that_is_not_whole(rt: HostRuntime) -> Result<(), Fail> {
    is_given_up(&rt, rt.alloc(), &client(SET_A, 1, 1), FrontError::ReadFault)
}

// The five bytes of the reply are taken one by one, each at a tick, and nothing tells that the stream takes more.
#[test]
fn a_slow_client_is_served(rt: HostRuntime) -> Result<(), Fail> {
    let alloc = rt.alloc();
    let ended = serve(alloc, &client(GET_A, GET_A.len(), 1), false)?;
    has_ended(&rt, &ended.ends, 1, &[]);
    has_got(&rt, alloc, ended.output.as_slice(), &[ABSENT])
}

#[test]
fn a_client_that_asks_now_and_then_is_served(rt: HostRuntime) -> Result<(), Fail> {
    let alloc = rt.alloc();
    let gets = repeated(alloc, GET_A, 4)?;
    let ended = serve(alloc, &client(gets.as_slice(), GET_A.len(), 100), true)?;
    has_ended(&rt, &ended.ends, 1, &[]);
    has_got(&rt, alloc, ended.output.as_slice(), &[ABSENT; 4])
}

fn repeated(alloc: Global, frame: &[u8], count: usize) -> Result<Vec<u8>, AllocError> {
    let mut frames = Vec::new(alloc);
    for _ in 0..count {
        frames.extend_from_slice(frame)?;
    }
    Ok(frames)
}
