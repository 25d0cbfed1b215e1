//! Connections in memory, which come in pieces and wait between them.
mod ends;
mod gates;
mod limits;
mod logs;
mod memory;
mod ports;
mod shares;
mod silence;
mod stops;
mod threads;
mod turns;

use map_core::Contents;
use std::alloc::{AllocError, Global};
use std::fmt::Debug;
use std::io;
use std::io::{ErrorKind, Read, Write};
use std::process::Abort;
use std::test::Fail;
use workers::{
    Arrival, Arrivals, AtPort, Limits, Patience, Quiet, SessionEnds, SessionFault, Stream, Worker,
    serve_arrivals,
};

/// What was found is what is wanted.
fn is_equal<T: PartialEq + Debug>(rt: &impl Abort, found: &T, wanted: &T) {
    assert!(rt; *found == *wanted, "{found:?}, and not {wanted:?}");
}

/// A client in memory. It gives and takes at most so many bytes at once, and has to be waited for between two pieces.
#[derive(Drop)]
struct Client<'i, 'o> {
    input: &'i [u8],
    output: &'o mut Vec<u8>,
    /// How many bytes it gives at once.
    gives: usize,
    /// How many bytes it takes at once: none if it never reads.
    takes: usize,
    is_awaited: bool,
}

impl<'i, 'o> Stream for Client<'i, 'o> {
    ghost use Rattle.std.specs.Prelude.{None, true};

    ghost left = { λ _. None };

    ghost held = { λ _. None };

    ghost may = { λ _. record { read_waits = true; leaves_room = true; read_fails = true; write_waits = true; write_fails = true } };

    fn read(&mut self, buf: &mut [u8]) -> io::Result<usize> {
        self.is_awaited = !self.is_awaited;
        if self.is_awaited {
            return Err(ErrorKind::WouldBlock.into());
        }
        let most = self.gives.min(buf.len());
        let (piece, _) = buf.split_at_mut(most);
        self.input.read(piece)
    }

    fn write(&mut self, buf: &[u8]) -> io::Result<usize> {
        self.is_awaited = !self.is_awaited;
        if self.is_awaited || self.takes == 0 {
            return Err(ErrorKind::WouldBlock.into());
        }
        let most = self.takes.min(buf.len());
        let (piece, _) = buf.split_at(most);
        self.output.write(piece)
    }
}

/// What clients are to do.
#[derive(Clone, Copy, Debug)]
struct Plan<'a> {
    input: &'a [u8],
    gives: usize,
    takes: usize,
    reads_only: bool,
}

/// A client that gives all of its input in pieces of so many bytes, and takes as many at once.
fn sends(input: &[u8], piece: usize) -> Plan<'_> {
    Plan {
        input,
        gives: piece,
        takes: piece,
        reads_only: false,
    }
}

/// How often an arrival may come.
const MOST_ARRIVALS: u64 = 100_000;

/// A client is given up after three ticks, and if it takes a reply, after twenty; reads have no limit.
const LIMITS: Limits = Limits {
    retries: 1_000_000,
    patience: Patience {
        most_silent: 3,
        reply_ticks: 20,
        moments: 2,
    },
    turns: u64::MAX,
};

/// Clients that come one after the other; then each is ready in turn, until all have left or time is up.
#[derive(Drop)]
struct Clients<'i, 'o> {
    coming: Vec<(Client<'i, 'o>, bool)>,
    count: usize,
    next: usize,
    left: u64,
    /// How often nothing has come but time, when so many arrivals are left.
    ticks: u64,
}

impl<'i, 'o> Arrivals for Clients<'i, 'o> {
    type End = Client<'i, 'o>;

    ghost use Rattle.std.specs.Prelude.{⊤};

    ghost left = { λ clients. clients.left };

    ghost comes = { λ _ _ _ _. ⊤ };

    fn next(&mut self, _free: usize, open: usize, _is_busy: bool) -> Arrival<Client<'i, 'o>> {
        if self.left == 0 {
            return Arrival::Stops;
        }
        self.left -= 1;
        if let Some((end, reads_only)) = self.coming.pop() {
            return Arrival::Opens { end, reads_only };
        }
        if open == 0 {
            return Arrival::Stops;
        }
        if self.left < self.ticks {
            return Arrival::Tick;
        }
        self.next = if self.next < self.count {
            self.next.saturating_add(1)
        } else {
            0
        };
        Arrival::Ready {
            place: self.next,
            is_closing: false,
        }
    }
}

/// How the sessions of these clients ended, and what the clients have got.
#[derive(Drop)]
struct Ended {
    ends: SessionEnds,
    outputs: Vec<Vec<u8>>,
}

/// So many sessions were begun, and these are the faults of them.
fn has_ended(rt: &impl Abort, ends: &SessionEnds, begun: u64, faults: &[SessionFault]) {
    is_equal(rt, &ends.begun(), &begun);
    is_equal(rt, &ends.faults(), &faults);
}

/// An output for each client.
fn outputs_of(alloc: Global, count: usize) -> Result<Vec<Vec<u8>>, AllocError> {
    let mut outputs = Vec::new(alloc);
    for _ in 0..count {
        outputs.push(Vec::new(alloc))?;
    }
    Ok(outputs)
}

/// The clients of these plans.
fn clients_of<'i, 'o>(
    alloc: Global,
    plans: &[Plan<'i>],
    outputs: &'o mut [Vec<u8>],
    left: u64,
    ticks: u64,
) -> Result<Clients<'i, 'o>, AllocError> {
    let mut coming = Vec::new(alloc);
    for (plan, output) in plans.iter().zip(outputs.iter_mut()) {
        let client = Client {
            input: plan.input,
            output,
            gives: plan.gives,
            takes: plan.takes,
            is_awaited: true,
        };
        coming.push((client, plan.reads_only))?;
    }
    Ok(Clients {
        coming,
        count: plans.len(),
        next: 0,
        left,
        ticks,
    })
}

/// How the sessions of clients of these plans end, over an empty map.
fn ends_of(
    alloc: Global,
    plans: &[Plan<'_>],
    outputs: &mut [Vec<u8>],
    left: u64,
    ticks: u64,
    turns: u64,
) -> Result<SessionEnds, AllocError> {
    let mut clients = clients_of(alloc, plans, outputs, left, ticks)?;
    let mut port = AtPort::new(Contents::new(alloc), false);
    let worker = Worker {
        number: 0,
        alloc,
        log: &Quiet,
        limits: Limits { turns, ..LIMITS },
    };
    serve_arrivals(&worker, &mut clients, &mut port)
}

/// Serves clients of these plans over an empty map.
fn serve(alloc: Global, plans: &[Plan<'_>], left: u64, ticks: u64) -> Result<Ended, AllocError> {
    let mut outputs = outputs_of(alloc, plans.len())?;
    let ends = ends_of(alloc, plans, outputs.as_mut_slice(), left, ticks, u64::MAX)?;
    Ok(Ended { ends, outputs })
}

/// Serves clients of these plans over an empty map, each of whose sessions may make so many reads.
fn serve_within(alloc: Global, plans: &[Plan<'_>], turns: u64) -> Result<Ended, AllocError> {
    let mut outputs = outputs_of(alloc, plans.len())?;
    let ends = ends_of(
        alloc,
        plans,
        outputs.as_mut_slice(),
        MOST_ARRIVALS,
        0,
        turns,
    )?;
    Ok(Ended { ends, outputs })
}

const SET_A: &[u8] = b"\x00\x00\x00\x0eS\x01a{\"keys\":[]}";

const GET_A: &[u8] = b"\x00\x00\x00\x03G\x01a";

const STORED: &[u8] = b"\x00\x00\x00\x01s";

const FOUND: &[u8] = b"\x00\x00\x00\x0cf{\"keys\":[]}";

const ABSENT: &[u8] = b"\x00\x00\x00\x01\x1e";

const SHUT: &[u8] = b"\x00\x00\x00\x01\x38";

/// The output of a client is these replies.
fn has_got(rt: &impl Abort, alloc: Global, found: &[u8], replies: &[&[u8]]) -> Result<(), Fail> {
    let mut wanted = Vec::new(alloc);
    for reply in replies {
        wanted.extend_from_slice(reply)?;
    }
    is_equal(rt, &found, &wanted.as_slice());
    Ok(())
}

/// The output of the client of this number.
fn output(ended: &Ended, number: usize) -> &[u8] {
    match ended.outputs.as_slice().get(number) {
        Some(output) => output.as_slice(),
        None => &[],
    }
}
