//! Writers and readers beside each other.
ghost use Rattle.std.specs.Prelude.{◌≤◌, IfOk};
ghost use Rattle.race_demo.specs.Report.{IsHonest};
ghost use Rattle.shard_store.specs.Pass.{IsOf};

use crate::judge::{DOMAINS, RING, Tally};
use crate::report::Findings;
use crate::seats::{read_all, read_each, set_at};
use shard_store::{Pass, Store};
use std::alloc::Global;
use std::thread;
use std::thread::Threads;
use std::time::{Clock, Instant};
use thiserror::Error;

/// The shards of the store, how often a fetch-all reads them, and how often an operation is tried.
const SHARDS: usize = 4;

const ROUNDS: u64 = 16;

const TRIES: u64 = 1000;

/// How many changes each of the writers can make.
const CHANGES: u64 = 1 << 30;

/// Why there was no race.
#[derive(Clone, Copy, Debug, Error)]
pub enum RaceError {
    #[error("out of memory")]
    Memory,
    /// The clock cannot be read.
    #[error("the clock cannot be read")]
    NoClock,
}

/// When a race began, and how many seconds it takes.
#[derive(Clone, Copy)]
struct Time {
    start: Instant,
    seconds: u64,
}

impl Time {
    /// Whether the time has passed, or cannot be told any more.
    fn is_over<H: Clock>(&self, host: &H) -> bool {
        match self.start.elapsed(host) {
            Ok(passed) => self.seconds <= passed.as_secs(),
            Err(_) => true,
        }
    }
}

/// Sets the four domains from this place on in turn, over and over, each to the number of its round, from 1. A set that is
/// refused is tried again, so that none is left out. Answers how many were set.
fn write_restlessly<H: Clock>(
    host: &H,
    alloc: Global,
    store: &Store,
    mut pass: Pass,
    from: usize,
    time: Time,
) -> (Pass, u64)
    requires own { IsOf pass store.now }
    requires small { from ≤ 4 }
    ensures { IsOf result.0 store.now }
{
    let mut sets = 0;
    for _ in 0..CHANGES {
        if time.is_over(host) {
            break;
        }
        let place = from + (sets % RING as u64) as usize;
        if set_at(alloc, store, &mut pass, place, sets / RING as u64 + 1) {
            sets += 1;
        }
    }
    (pass, sets)
}

/// How a reader reads the domains.
#[derive(Clone, Copy)]
enum Way {
    /// One after another.
    Each,
    /// All by a fetch-all.
    All,
}

/// Reads the domains over and over.
fn read_restlessly<H: Clock>(
    host: &H,
    alloc: Global,
    store: &Store,
    mut pass: Pass,
    way: Way,
    time: Time,
) -> (Pass, Tally)
    requires { IsOf pass store.now }
    ensures own { IsOf result.0 store.now }
    ensures honest { IsHonest result.1 }
{
    let mut tally = Tally::NONE;
    for _ in 0..u64::MAX {
        if time.is_over(host) {
            break;
        }
        let reading = match way {
            Way::Each => read_each(alloc, store, &mut pass),
            Way::All => read_all(store, &mut pass),
        };
        if let Some(reading) = reading {
            tally = tally.and(reading);
        }
    }
    (pass, tally)
}

/// Two writers beside each other.
fn write_both<H: Clock + Threads + Sync>(
    host: &H,
    alloc: Global,
    store: &Store,
    one: Pass,
    two: Pass,
    time: Time,
) -> u64
    requires { IsOf one store.now × IsOf two store.now }
{
    let ((_, sets), (_, more)) = thread::join(
        host,
        move ||
            requires { IsOf one store.now }
        { write_restlessly(host, alloc, store, one, 0, time) },
        move ||
            requires { IsOf two store.now }
        { write_restlessly(host, alloc, store, two, RING, time) },
    );
    sets.saturating_add(more)
}

/// Two readers beside each other.
fn read_both<H: Clock + Threads + Sync>(
    host: &H,
    alloc: Global,
    store: &Store,
    one: Pass,
    two: Pass,
    time: Time,
) -> (Tally, Tally)
    requires { IsOf one store.now × IsOf two store.now }
    ensures { IsHonest result.0 × IsHonest result.1 }
{
    let ((_, each), (_, all)) = thread::join(
        host,
        move ||
            requires { IsOf one store.now }
            ensures { IsHonest result.1 }
        { read_restlessly(host, alloc, store, one, Way::Each, time) },
        move ||
            requires { IsOf two store.now }
            ensures { IsHonest result.1 }
        { read_restlessly(host, alloc, store, two, Way::All, time) },
    );
    (each, all)
}

/// Sets each domain to 0.
fn fill(alloc: Global, store: &Store, pass: &mut Pass) -> bool
    requires { IsOf pass.old store.now }
    ensures { IsOf pass.new store.now }
{
    for place in 0..DOMAINS {
        if !set_at(alloc, store, pass, place, 0) {
            return false;
        }
    }
    true
}

/// Lets two writers and two readers run beside each other for so many seconds.
///
/// What it tells is honest: it counts no more maps that never were than readings, and two such writers leave at no moment
/// what it shows as a map that never was. How many readings there are, and how many of them never were, no proof
/// says: that is up to the threads.
pub fn run_race<H: Clock + Threads + Sync>(
    host: &H,
    alloc: Global,
    seconds: u64,
) -> Result<Findings, RaceError>
    ensures { IfOk result (λ found. IsHonest found.each × IsHonest found.all) }
{
    let Ok((store, mut first)) = Store::new(alloc, SHARDS, ROUNDS, TRIES) else {
        return Err(RaceError::Memory);
    };
    let second = store.split(&mut first, CHANGES);
    let reader = store.split(&mut first, 2);
    let fetcher = store.split(&mut first, 1);
    if !fill(alloc, &store, &mut first) {
        return Err(RaceError::Memory);
    }
    let Ok(start) = Instant::now(host) else {
        return Err(RaceError::NoClock);
    };
    let time = Time { start, seconds };
    let store = &store;
    let (sets, (each, all)) = thread::join(
        host,
        move ||
            requires { IsOf first store.now × IsOf second store.now }
        { write_both(host, alloc, store, first, second, time) },
        move ||
            requires { IsOf reader store.now × IsOf fetcher store.now }
            ensures { IsHonest result.0 × IsHonest result.1 }
        { read_both(host, alloc, store, reader, fetcher, time) },
    );
    Ok(Findings { sets, each, all })
}
