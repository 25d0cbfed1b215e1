//! Two workers over a store that they share.
ghost use Rattle.std.specs.Prelude.{◌≡◌, vec_len, IfOk};
ghost use Rattle.std.specs.List.{All};
ghost use Rattle.shard_store.specs.Pass.{IsOf};

use super::{LIMITS, MOST_ARRIVALS, is_equal};
use shard_store::{Pass, Store};
use std::alloc::{AllocError, Global};
use std::io;
use std::io::Read;
use std::sync::atomic::{AtomicU64, Ordering};
use std::test::Fail;
use std::thread::Threads;
use std::time::Clock;
use workers::{Arrival, Arrivals, Open, Quiet, SharedByWorkers, Stream, Worked, run_arrivals};

/// A set of `a` and a get of it.
const SET_AND_GET: &[u8] = b"\x00\x00\x00\x0eS\x01a{\"keys\":[]}\x00\x00\x00\x03G\x01a";

/// How many bytes they are answered: `s` or `u`, and a document of 11 bytes.
const REPLY_BYTES: u64 = 5 + 16;

/// A client that gives all at once, and counts the bytes that it gets.
#[derive(Drop)]
struct Counting<'a> {
    input: &'static [u8],
    taken: &'a AtomicU64,
}

impl<'a> Stream for Counting<'a> {
    ghost use Rattle.std.specs.Prelude.{None, true};

    ghost left = { λ _. None };

    ghost held = { λ _. None };

    ghost may = { λ _. record { read_waits = true; leaves_room = true; read_fails = true; write_waits = true; write_fails = true } };

    fn read(&mut self, buf: &mut [u8]) -> io::Result<usize> {
        self.input.read(buf)
    }

    fn write(&mut self, buf: &[u8]) -> io::Result<usize> {
        self.taken.fetch_add(buf.len() as u64, Ordering::SeqCst);
        Ok(buf.len())
    }
}

/// So many clients, one after the other.
#[derive(Drop)]
struct Queue<'a> {
    clients: u64,
    taken: &'a AtomicU64,
    left: u64,
}

fn queue_of(clients: u64, taken: &AtomicU64) -> Queue<'_> {
    Queue {
        clients,
        taken,
        left: MOST_ARRIVALS,
    }
}

impl<'a> Arrivals for Queue<'a> {
    type End = Counting<'a>;

    ghost use Rattle.std.specs.Prelude.{⊤};

    ghost left = { λ queue. queue.left };

    ghost comes = { λ _ _ _ _. ⊤ };

    fn next(&mut self, _free: usize, _open: usize, _is_busy: bool) -> Arrival<Counting<'a>> {
        if self.left == 0 || self.clients == 0 {
            return Arrival::Stops;
        }
        self.left -= 1;
        self.clients -= 1;
        Arrival::Opens {
            end: Counting {
                input: SET_AND_GET,
                taken: self.taken,
            },
            reads_only: false,
        }
    }
}

/// A store, and a pass for each of two workers.
pub(super) fn store_for_two(alloc: Global) -> Result<(Store, Vec<Pass>), AllocError>
    ensures count { IfOk result (λ made. vec_len made.1 ≡ 2) }
    ensures own { IfOk result (λ made. All (λ pass. IsOf pass made.0) made.1.items) }
{
    let (store, mut first) = Store::new(alloc, 4, 3, 1_000_000)?;
    let second = store.split(&mut first, 1000);
    let mut passes = Vec::new(alloc);
    passes.push(first)?;
    passes.push(second)?;
    Ok((store, passes))
}

/// How many sessions were begun, and how many of them ended by a fault.
fn count_ends(worked: &[Worked]) -> (u64, usize) {
    let mut begun: u64 = 0;
    let mut faults: usize = 0;
    for worker in worked {
        begun = begun.saturating_add(worker.ends.begun());
        faults = faults.saturating_add(worker.ends.faults().len());
    }
    (begun, faults)
}

/// Runs two workers, to each of which so many clients come.
fn run_two<R: Threads + Clock + Sync>(
    rt: &R,
    alloc: Global,
    clients: u64,
    taken: &AtomicU64,
) -> Result<(u64, usize), AllocError> {
    let (store, passes) = store_for_two(alloc)?;
    let mut arrivals = Vec::new(alloc);
    arrivals.push(queue_of(clients, taken))?;
    arrivals.push(queue_of(clients, taken))?;
    let common = SharedByWorkers {
        rt,
        alloc,
        log: &Quiet,
        limits: LIMITS,
    };
    let worked = run_arrivals(&common, &store, passes, arrivals, &Open)?;
    Ok(count_ends(worked.as_slice()))
}

// All clients set and get the same domain, to the same document.
#[test]
fn two_workers_serve_many_clients(rt: HostRuntime) -> Result<(), Fail> {
    let taken = AtomicU64::new(0);
    let ends = run_two(&rt, rt.alloc(), 50, &taken)?;
    is_equal(&rt, &ends, &(100, 0));
    is_equal(&rt, &taken.load(Ordering::SeqCst), &(100 * REPLY_BYTES));
    Ok(())
}
