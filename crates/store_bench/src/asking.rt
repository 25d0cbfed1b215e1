//! The operations of one thread.
ghost use Rattle.shard_store.specs.Pass.{IsOf};

use map_core::{AskError, Reply};
use shard_store::{Pass, Store};
use spiffe_doc::{Bundle, TrustDomain, read_document};
use std::alloc::Global;

/// Which operation is asked.
#[derive(Clone, Copy)]
pub(crate) enum Kind {
    Set,
    Get,
    FetchAll,
}

/// What a thread is to do: so many operations, over domains that follow from the seed.
#[derive(Clone, Copy)]
pub(crate) struct Job {
    pub kind: Kind,
    pub domains: u64,
    pub turns: u64,
    pub seed: u64,
}

/// How many operations were answered, how often a shard was held, and how many answers were others.
#[derive(Clone, Copy)]
pub(crate) struct Tally {
    pub answered: u64,
    pub held: u64,
    pub other: u64,
}

impl Tally {
    pub(crate) const NONE: Tally = Tally {
        answered: 0,
        held: 0,
        other: 0,
    };

    const OTHER: Tally = Tally {
        answered: 0,
        held: 0,
        other: 1,
    };

    /// One answer.
    fn of(answer: Result<Reply, AskError>) -> Tally {
        match answer {
            Ok(_) => Tally {
                answered: 1,
                ..Tally::NONE
            },
            Err(AskError::Held { .. }) => Tally {
                held: 1,
                ..Tally::NONE
            },
            Err(_) => Tally::OTHER,
        }
    }

    pub(crate) fn and(self, more: Tally) -> Tally {
        Tally {
            answered: self.answered.saturating_add(more.answered),
            held: self.held.saturating_add(more.held),
            other: self.other.saturating_add(more.other),
        }
    }
}

/// The next number of a linear congruential generator (Knuth's MMIX).
fn next(state: u64) -> u64 {
    state
        .wrapping_mul(6364136223846793005)
        .wrapping_add(1442695040888963407)
}

fn domain_at(alloc: Global, number: u64) -> Option<TrustDomain> {
    let name = format!(in alloc; "td-{number}.example.org").ok()?;
    TrustDomain::parse(alloc, name.as_str()).ok()
}

/// A bundle that differs from turn to turn, so that a set changes something.
fn bundle_at(alloc: Global, turn: u64) -> Option<Bundle> {
    let hint = turn.saturating_add(1);
    let text = format!(in alloc; "{{\"keys\":[],\"spiffe_refresh_hint\":{hint}}}").ok()?;
    read_document(alloc, text.as_bytes()).ok()
}

/// One operation. If a shard was held in each try, that counts, and it is not asked again.
fn ask_one(
    alloc: Global,
    store: &Store,
    pass: &mut Pass,
    kind: Kind,
    number: u64,
    turn: u64,
) -> Tally
    requires { IsOf pass.old store.now }
    ensures { IsOf pass.new store.now }
{
    let Some(domain) = domain_at(alloc, number) else {
        return Tally::OTHER;
    };
    match kind {
        Kind::Set => {
            let Some(bundle) = bundle_at(alloc, turn) else {
                return Tally::OTHER;
            };
            Tally::of(store.set(pass, domain, bundle))
        }
        Kind::Get => Tally::of(store.get(pass, domain)),
        Kind::FetchAll => Tally::of(store.fetch_all(pass)),
    }
}

/// Sets each domain once.
pub(crate) fn fill(alloc: Global, store: &Store, mut pass: Pass, domains: u64) -> Pass
    requires { IsOf pass store.now }
    ensures { IsOf result store.now }
{
    for number in 0..domains {
        let _ = ask_one(alloc, store, &mut pass, Kind::Set, number, number);
    }
    pass
}

/// The operations of a job, one after another.
pub(crate) fn do_job(alloc: Global, store: &Store, mut pass: Pass, job: Job) -> (Pass, Tally)
    requires { IsOf pass store.now }
    ensures { IsOf result.0 store.now }
{
    let mut tally = Tally::NONE;
    let mut state = job.seed;
    for turn in 0..job.turns {
        state = next(state);
        let number = (state >> 33) % job.domains.max(1);
        tally = tally.and(ask_one(alloc, store, &mut pass, job.kind, number, turn));
    }
    (pass, tally)
}
