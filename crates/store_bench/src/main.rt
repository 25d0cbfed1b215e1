//! How many sets, gets and fetch-alls a second the store that threads share answers, by 1, 2 and 4 threads.
#![tactic(auto)]

mod asking;
mod threads;

use asking::{Job, Kind, Tally};
use std::alloc::Global;
use std::rt::Runtime;
use std::thread::Threads;
use std::{env, io};
use threads::run_job;

/// What the arguments ask for.
#[derive(Clone, Copy, Drop)]
struct Bench {
    kind: Kind,
    domains: u64,
    operations: u64,
}

fn kind_named(word: &str) -> Option<Kind> {
    match word {
        "set" => Some(Kind::Set),
        "get" => Some(Kind::Get),
        "fetch-all" => Some(Kind::FetchAll),
        _ => None,
    }
}

fn read_words(words: &[String]) -> Option<Bench> {
    let [_, kind, domains, operations] = words else {
        return None;
    };
    Some(Bench {
        kind: kind_named(kind.as_str())?,
        domains: domains.as_str().parse::<u64>().ok()?,
        operations: operations.as_str().parse::<u64>().ok()?,
    })
}

/// Runs the operations by so many threads, over a store of 8 shards, and prints one line.
fn run_bench<R: Runtime + Threads + Sync>(
    rt: &R,
    alloc: Global,
    settings: &Bench,
    threads: u64,
) -> io::Result<()> {
    let job = Job {
        kind: settings.kind,
        domains: settings.domains,
        turns: settings.operations / threads.max(1),
        seed: 7,
    };
    let (
        Tally {
            answered,
            held,
            other,
        },
        nanos,
    ) = run_job(rt, alloc, threads, job)?;
    let rate = answered.saturating_mul(1_000_000_000) / nanos.max(1);
    println!(rt;
        "threads {} answered {} held {} other {} a second {}",
        threads, answered, held, other, rate
    )
}

fn main(rt: HostRuntime) -> io::Result<()> {
    let alloc = rt.alloc();
    let mut words = Vec::new(alloc);
    for word in env::args(&rt)? {
        words.push(word)?;
    }
    let Some(settings) = read_words(words.as_slice()) else {
        return println!(rt; "usage: store_bench set|get|fetch-all DOMAINS OPERATIONS");
    };
    for threads in [1u64, 2, 4] {
        run_bench(&rt, alloc, &settings, threads)?;
    }
    Ok(())
}
