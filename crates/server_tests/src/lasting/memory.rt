//! Two workers that have one client each, over memory.
use super::LIMITS;
use super::threads::store_for_two;
use std::alloc::{AllocError, Global};
use std::io;
use std::io::{Read, Write};
use std::thread::Threads;
use std::time::Clock;
use workers::{
    Arrival, Arrivals, Gate, Log, Quiet, SessionFault, SharedByWorkers, Stream, run_arrivals,
};

/// A client in memory that gives all that it has, and then its end, and takes all.
#[derive(Drop)]
struct Memory<'i, 'o> {
    input: &'i [u8],
    output: &'o mut Vec<u8>,
}

impl<'i, 'o> Stream for Memory<'i, 'o> {
    ghost use Rattle.std.specs.Prelude.{None, true};

    ghost left = { λ _. None };

    ghost held = { λ _. None };

    ghost may = { λ _. record { read_waits = true; leaves_room = true; read_fails = true; write_waits = true; write_fails = true } };

    fn read(&mut self, buf: &mut [u8]) -> io::Result<usize> {
        self.input.read(buf)
    }

    fn write(&mut self, buf: &[u8]) -> io::Result<usize> {
        self.output.write(buf)
    }

    fn peer(&self) -> Option<u16> {
        Some(40_312)
    }
}

/// One client over memory, which is ready until it has left; then the listener fails so often.
#[derive(Drop)]
struct Once<'i, 'o> {
    client: Option<Memory<'i, 'o>>,
    failures: u64,
    left: u64,
}

impl<'i, 'o> Arrivals for Once<'i, 'o> {
    type End = Memory<'i, 'o>;

    ghost use Rattle.std.specs.Prelude.{⊤};

    ghost left = { λ once. once.left };

    ghost comes = { λ _ _ _ _. ⊤ };

    fn next(&mut self, _free: usize, open: usize, _is_busy: bool) -> Arrival<Memory<'i, 'o>> {
        if self.left == 0 {
            return Arrival::Stops;
        }
        self.left -= 1;
        if let Some(end) = self.client.take() {
            return Arrival::Opens {
                end,
                reads_only: false,
            };
        }
        if open > 0 {
            return Arrival::Ready {
                place: 0,
                is_closing: true,
            };
        }
        if self.failures == 0 {
            return Arrival::Stops;
        }
        self.failures -= 1;
        Arrival::Fails
    }
}

/// What two workers wrote, how many sessions they began, whether one came each time, and their faults.
#[derive(Drop)]
pub(super) struct Ended {
    pub first: Vec<u8>,
    pub second: Vec<u8>,
    pub begun: u64,
    pub have_come: bool,
    pub faults: Vec<SessionFault>,
}

/// One client, and so many failures of the listener after it.
fn one_client<'i, 'o>(input: &'i [u8], output: &'o mut Vec<u8>, failures: u64) -> Once<'i, 'o> {
    Once {
        client: Some(Memory { input, output }),
        failures,
        left: 1_000,
    }
}

/// What two workers write and how their sessions end, if each has one client, and so many failures of the listener.
pub(super) fn run_two<R: Threads + Clock + Sync, G: Gate + Sync>(
    rt: &R,
    alloc: Global,
    inputs: (&[u8], &[u8]),
    failures: u64,
    gate: &G,
) -> Result<Ended, AllocError> {
    run_two_noted(rt, alloc, inputs, failures, gate, &Quiet)
}

/// And if a log is told of them.
pub(super) fn run_two_noted<R: Threads + Clock + Sync, G: Gate + Sync, L: Log + Copy + Sync>(
    rt: &R,
    alloc: Global,
    inputs: (&[u8], &[u8]),
    failures: u64,
    gate: &G,
    log: &L,
) -> Result<Ended, AllocError> {
    let (store, passes) = store_for_two(alloc)?;
    let mut first = Vec::new(alloc);
    let mut second = Vec::new(alloc);
    let mut arrivals = Vec::new(alloc);
    arrivals.push(one_client(inputs.0, &mut first, failures))?;
    arrivals.push(one_client(inputs.1, &mut second, failures))?;
    let common = SharedByWorkers {
        rt,
        alloc,
        log,
        limits: LIMITS,
    };
    let worked = run_arrivals(&common, &store, passes, arrivals, gate)?;
    let mut begun: u64 = 0;
    let mut have_come = true;
    let mut faults = Vec::new(alloc);
    for worker in worked.as_slice() {
        begun = begun.saturating_add(worker.ends.begun());
        have_come &= worker.ends.have_come();
        for fault in worker.ends.faults() {
            faults.push(*fault)?;
        }
    }
    Ok(Ended {
        first,
        second,
        begun,
        have_come,
        faults,
    })
}
