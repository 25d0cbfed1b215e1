//! Threads that share a store, each with a pass that is seated there.
ghost use Rattle.std.specs.Prelude.{◌≡◌, ◌≤◌};
ghost use Rattle.shard_store.specs.Pass.{IsOf};

use super::scripts::end_text;
use map_core::{Ask, AskError, Op, Reply, Snapshot};
use shard_store::{Pass, Seated, Store};
use spiffe_doc::{Bundle, TrustDomain};
use std::alloc::Global;
use std::test::Fail;
use std::thread;
use std::thread::Threads;
use test_kit::{Shown, bundle, is_answer, is_equal};

/// Asks again while the shard is held, up to a million times.
fn insist<A: Ask>(map: &mut A, op: &Op) -> Result<Reply, AskError> {
    for _ in 0..1_000_000u64 {
        match map.ask(op.copy()?) {
            Err(AskError::Held { .. }) => {}
            answer => return answer,
        }
    }
    Err(AskError::Memory)
}

/// A bundle of this sequence.
fn numbered(alloc: Global, sequence: u64) -> Option<Bundle> {
    let word = format!(in alloc; "{sequence}").ok()?;
    bundle(alloc, word.as_str()).ok()
}

fn set_op(alloc: Global, name: &str, sequence: u64) -> Option<Op> {
    let bundle = numbered(alloc, sequence)?;
    match TrustDomain::parse(alloc, name) {
        Ok(domain) => Some(Op::Set(domain, bundle)),
        Err(_) => {
            drop(bundle);
            None
        }
    }
}

/// Sets a domain to the sequence. Whether it was stored.
fn is_stored<A: Ask>(alloc: Global, map: &mut A, name: &str, sequence: u64) -> bool {
    let Some(op) = set_op(alloc, name, sequence) else {
        return false;
    };
    let answer = insist(map, &op);
    drop(op);
    matches!(answer, Ok(Reply::Stored))
}

/// Gets a domain. Whether it was found with the sequence.
fn is_found<A: Ask>(alloc: Global, map: &mut A, name: &str, sequence: u64) -> bool {
    let Ok(domain) = TrustDomain::parse(alloc, name) else {
        return false;
    };
    let op = Op::Get(domain);
    let answer = insist(map, &op);
    drop(op);
    match answer {
        Ok(Reply::Found(bundle)) => bundle.sequence() == Some(sequence),
        _ => false,
    }
}

/// Sets a domain to the sequence, and reads it back.
fn is_set<A: Ask>(alloc: Global, map: &mut A, name: &str, sequence: u64) -> bool {
    let stored = is_stored(alloc, map, name, sequence);
    is_found(alloc, map, name, sequence) && stored
}

/// What a worker does: it sets each of its domains, as often as there are turns.
#[derive(Clone, Copy)]
struct Job {
    letter: char,
    domains: u64,
    turns: u64,
}

/// Sets the domains of the job to rising sequences and reads each back. The answer is how many were stored and found.
fn work<A: Ask + Drop>(alloc: Global, mut map: A, job: Job) -> u64 {
    let mut good: u64 = 0;
    for turn in 0..job.turns {
        for number in 0..job.domains {
            let Ok(name) = format!(in alloc; "{}{number}", job.letter) else {
                return good;
            };
            let sequence = turn.saturating_mul(job.domains).saturating_add(number);
            if is_set(alloc, &mut map, name.as_str(), sequence) {
                good = good.saturating_add(1);
            }
        }
    }
    good
}

/// Two workers at once, on domains of their own.
fn work_two<R: Threads + Sync>(
    rt: &R,
    alloc: Global,
    one: Seated,
    two: Seated,
    first: Job,
    second: Job,
) -> (u64, u64) {
    thread::join(
        rt,
        move || work(alloc, one, first),
        move || work(alloc, two, second),
    )
}

/// A hundred domains, once.
fn hundred(letter: char) -> Job {
    Job {
        letter,
        domains: 100,
        turns: 1,
    }
}

/// 25,000 turns over two domains: 50,000 sets, each with its get.
fn hundred_thousand_calls(letter: char) -> Job {
    Job {
        letter,
        domains: 2,
        turns: 25_000,
    }
}

/// A fetch-all is answered so, and the store is closed.
fn ends(alloc: Global, store: Store, mut pass: Pass, wanted: &str, end: &str) -> Result<(), Fail>
    requires { IsOf pass store }
{
    let answer = store.fetch_all(&mut pass);
    is_answer(alloc, Shown::Counted, ("fetch", wanted), &answer)?;
    let told = end_text(alloc, store, pass)?;
    is_equal(&told.as_str(), &end)
}

#[test]
fn two_threads_read_back_what_they_set(rt: HostRuntime) -> Result<(), Fail> {
    let alloc = rt.alloc();
    let (store, mut kept) = Store::new(alloc, 3, 5, 10)?;
    let one = Seated::new(&store, store.split(&mut kept, 1000));
    let two = Seated::new(&store, store.split(&mut kept, 1000));
    let good = work_two(&rt, alloc, one, two, hundred('a'), hundred('b'));
    assert!(rt; good == (100, 100));
    ends(alloc, store, kept, "all 200", "200 domains")
}

/// How many changes the shards have had.
fn count_changes(store: &Store, mut pass: Pass, shards: usize) -> (Pass, u64)
    requires { IsOf pass store.now × (shards ≤ store.now.id.slots) }
    ensures { IsOf result.0 store.now }
{
    let mut total: u64 = 0;
    for shard in 0..shards {
        match store.hold(pass, shard) {
            Ok(held) => {
                total = total.saturating_add(held.revision());
                pass = held.let_go(store);
            }
            Err((back, _)) => pass = back,
        }
    }
    (pass, total)
}

#[test]
fn four_threads_lose_no_change(rt: HostRuntime) -> Result<(), Fail> {
    let alloc = rt.alloc();
    let (store, mut kept) = Store::new(alloc, 8, 3, 1000)?;
    let a = Seated::new(&store, store.split(&mut kept, 1000));
    let b = Seated::new(&store, store.split(&mut kept, 1000));
    let c = Seated::new(&store, store.split(&mut kept, 1000));
    let d = Seated::new(&store, store.split(&mut kept, 1000));
    let (job_a, job_b) = (hundred_thousand_calls('a'), hundred_thousand_calls('b'));
    let (job_c, job_d) = (hundred_thousand_calls('c'), hundred_thousand_calls('d'));
    let threads = &rt;
    let good = thread::join(
        threads,
        move || work_two(threads, alloc, a, b, job_a, job_b),
        move || work_two(threads, alloc, c, d, job_c, job_d),
    );
    assert!(rt; good == ((50_000, 50_000), (50_000, 50_000)));
    let (kept, changes) = count_changes(&store, kept, 8);
    assert!(rt; changes == 200_000);
    let all =
        "all 8 a0 49998/0 a1 49999/0 b0 49998/0 b1 49999/0 c0 49998/0 c1 49999/0 d0 49998/0 d1 49999/0";
    ends(alloc, store, kept, all, "8 domains")
}

/// Sets `a` and then `b` to each sequence from 1 to 100. The answer is how often both were stored.
fn write_both<A: Ask + Drop>(alloc: Global, mut map: A) -> u64 {
    let mut good: u64 = 0;
    for sequence in 1..101u64 {
        let a = is_set(alloc, &mut map, "a", sequence);
        let b = is_set(alloc, &mut map, "b", sequence);
        if a && b {
            good = good.saturating_add(1);
        }
    }
    good
}

/// The sequence of the domain's bundle; 0 for none.
fn sequence_of(all: &Snapshot, name: &str) -> u64 {
    for (domain, bundle) in all.pairs() {
        if domain.as_str() == name {
            return bundle.sequence().unwrap_or(0);
        }
    }
    0
}

/// Whether the snapshot has `a` level with `b` or one ahead of it.
fn is_one_moment(all: &Snapshot) -> bool {
    let (a, b) = (sequence_of(all, "a"), sequence_of(all, "b"));
    a == b || (a > b && a - b == 1)
}

/// What the fetch-alls of a watcher gave: snapshots of one moment, refusals as held or moved, and anything else. Each of the two
/// shards has at most 100 changes, and one that has moved had fewer before.
#[derive(Clone, Copy)]
struct Watched {
    moments: u64,
    refused: u64,
    other: u64,
}

impl Watched {
    fn count(&mut self, answer: &Result<Reply, AskError>) {
        let is_refused = match answer {
            Ok(Reply::All(all)) if is_one_moment(all) => {
                self.moments = self.moments.saturating_add(1);
                return;
            }
            Err(
                AskError::Moved {
                    shard,
                    first,
                    second,
                },
            ) => *shard < 2 && first < second && *second <= 100,
            Err(AskError::Held { shard, revision }) => *shard < 2 && *revision <= 100,
            _ => false,
        };
        if is_refused {
            self.refused = self.refused.saturating_add(1);
        } else {
            self.other = self.other.saturating_add(1);
        }
    }
}

/// A thousand fetch-alls.
fn watch<A: Ask + Drop>(mut map: A) -> Watched {
    let mut watched = Watched {
        moments: 0,
        refused: 0,
        other: 0,
    };
    for _ in 0..1000u64 {
        watched.count(&map.ask(Op::FetchAll));
    }
    watched
}

#[test]
fn a_fetch_all_shows_one_moment_of_a_restless_writer(rt: HostRuntime) -> Result<(), Fail> {
    let alloc = rt.alloc();
    let (store, mut kept) = Store::new(alloc, 2, 3, 1000)?;
    let writer = Seated::new(&store, store.split(&mut kept, 1000));
    let watcher = Seated::new(&store, store.split(&mut kept, 1000));
    let (wrote, seen) = thread::join(
        &rt,
        move || write_both(alloc, writer),
        move || watch(watcher),
    );
    assert!(rt; wrote == 100 && seen.other == 0 && seen.moments > 0);
    assert!(rt; seen.moments.saturating_add(seen.refused) == 1000);
    ends(alloc, store, kept, "all 2 a 100/0 b 100/0", "2 domains")
}
