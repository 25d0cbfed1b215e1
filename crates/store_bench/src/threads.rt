//! Jobs beside each other.
ghost use Rattle.shard_store.specs.Pass.{IsOf};

use crate::asking::{Job, Tally, do_job, fill};
use shard_store::{Pass, Store};
use std::alloc::Global;
use std::rt::Runtime;
use std::thread::Threads;
use std::time::{Duration, Instant};
use std::{io, thread};

/// The shards of the store, how often a fetch-all reads them, and how often an operation is tried.
const SHARDS: usize = 8;

const ROUNDS: u64 = 16;

const TRIES: u64 = 1000;

fn nanos(took: Duration) -> u64 {
    u64::try_from(took.as_nanos()).unwrap_or(u64::MAX)
}

fn do_two<R: Threads + Sync>(
    rt: &R,
    alloc: Global,
    store: &Store,
    one: Pass,
    two: Pass,
    job: Job,
) -> Tally
    requires { IsOf one store.now × IsOf two store.now }
{
    let other = Job {
        seed: job.seed.wrapping_add(1),
        ..job
    };
    let ((_, mine), (_, more)) = thread::join(
        rt,
        move ||
            requires { IsOf one store.now }
        { do_job(alloc, store, one, job) },
        move ||
            requires { IsOf two store.now }
        { do_job(alloc, store, two, other) },
    );
    mine.and(more)
}

fn do_four<R: Threads + Sync>(
    rt: &R,
    alloc: Global,
    store: &Store,
    one: Pass,
    two: Pass,
    three: Pass,
    four: Pass,
    job: Job,
) -> Tally
    requires { IsOf one store.now × IsOf two store.now × IsOf three store.now × IsOf four store.now }
{
    let other = Job {
        seed: job.seed.wrapping_add(100),
        ..job
    };
    let (mine, more) = thread::join(
        rt,
        move ||
            requires { IsOf one store.now × IsOf two store.now }
        { do_two(rt, alloc, store, one, two, job) },
        move ||
            requires { IsOf three store.now × IsOf four store.now }
        { do_two(rt, alloc, store, three, four, other) },
    );
    mine.and(more)
}

/// Fills a store, and then does the job by 1, 2 or 4 threads. The nanoseconds are those of the job.
pub(crate) fn run_job<R: Runtime + Threads + Sync>(
    rt: &R,
    alloc: Global,
    threads: u64,
    job: Job,
) -> io::Result<(Tally, u64)> {
    let (store, mut one) = Store::new(alloc, SHARDS, ROUNDS, TRIES)?;
    let mut three = store.split(&mut one, 2000);
    let two = store.split(&mut one, 1000);
    let four = store.split(&mut three, 1000);
    let one = fill(alloc, &store, one, job.domains);
    let start = Instant::now(rt)?;
    let tally = match threads {
        1 => {
            let (_, tally) = do_job(alloc, &store, one, job);
            tally
        }
        2 => do_two(rt, alloc, &store, one, two, job),
        _ => do_four(rt, alloc, &store, one, two, three, four, job),
    };
    Ok((tally, nanos(start.elapsed(rt)?)))
}
