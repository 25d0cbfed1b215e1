//! A refresher beside a reader, over the store that threads share.
ghost use Rattle.shard_store.specs.Pass.{IsOf};

use super::{holds, web};
use map_core::{Ask, AskError, MapRefusal, Op, Reply};
use refresh::{Relationship, Source, SourceFault, What, refresh_once};
use shard_store::{Pass, Seated, Store};
use spiffe_doc::TrustDomain;
use std::alloc::{AllocError, Global};
use std::test::Fail;
use std::thread;
use std::thread::Threads;

/// Gives documents of the sequences 1, 2 and so on.
#[derive(Drop)]
struct Rising {
    alloc: Global,
    sequence: u64,
}

impl Source for Rising {
    ghost fetches = { λ before relationship document after. Unit {0} };

    fn fetch(&mut self, _relationship: &Relationship) -> Result<Vec<u8>, SourceFault> {
        self.sequence = self.sequence.saturating_add(1);
        match format!(in self.alloc; "{{\"keys\":[],\"spiffe_sequence\":{}}}", self.sequence) {
            Ok(text) => Ok(text.into_bytes()),
            Err(_) => Err(SourceFault),
        }
    }
}

/// Refreshes a hundred times, and counts how often the bundle was stored.
fn refresh_hundred(alloc: Global, store: &Store, pass: Pass, relationship: &Relationship) -> u64
    requires { IsOf pass store.now }
{
    let mut source = Rising { alloc, sequence: 0 };
    let mut seated = Seated::new(store, pass);
    let mut stored = 0u64;
    for now in 0..100 {
        if let Ok(outcome) = refresh_once(alloc, &mut source, &mut seated, relationship, now) {
            if matches!(outcome.what, What::Taken(Reply::Stored)) {
                stored = stored.saturating_add(1);
            }
        }
    }
    stored
}

/// The sequence last seen after this answer to a Get, unless it is no answer of the kind.
fn seen_after(last: u64, answer: &Result<Reply, AskError>) -> Option<u64> {
    match answer {
        Ok(Reply::Found(bundle)) => bundle.sequence(),
        Ok(Reply::Refused(MapRefusal::NoDomain)) => (last == 0).then_some(0),
        Err(AskError::Held { .. }) => Some(last),
        _ => None,
    }
}

/// Gets the bundle of `a` a thousand times. The answer is whether its sequences were those of the source and never fell.
fn never_fall(alloc: Global, store: &Store, pass: Pass) -> bool
    requires { IsOf pass store.now }
{
    let mut seated = Seated::new(store, pass);
    let mut last = 0;
    for _ in 0..1000 {
        let Ok(name) = TrustDomain::parse(alloc, "a") else {
            return false;
        };
        let seen = seen_after(last, &seated.ask(Op::Get(name)));
        if !seen.is_some_and(|sequence| last <= sequence && sequence <= 100) {
            return false;
        }
        last = seen.unwrap_or(last);
    }
    true
}

/// A refresher and a reader side by side: how often a bundle was stored, and whether the reader saw no sequence fall.
fn side_by_side<R: Threads>(
    rt: &R,
    alloc: Global,
    relationship: &Relationship,
) -> Result<(u64, bool), AllocError> {
    let (store, mut refresher) = Store::new(alloc, 2, 3, 1000)?;
    let reader = store.split(&mut refresher, 1000);
    let lent = &store;
    Ok(thread::join(
        rt,
        move ||
            requires { IsOf refresher lent.now }
        { refresh_hundred(alloc, lent, refresher, relationship) },
        move ||
            requires { IsOf reader lent.now }
        { never_fall(alloc, lent, reader) },
    ))
}

#[test]
fn gets_beside_a_refresher(rt: HostRuntime) -> Result<(), Fail> {
    let relationship = web(rt.alloc(), "a")?;
    let seen = side_by_side(&rt, rt.alloc(), &relationship);
    drop(relationship);
    let (stored, is_so) = seen?;
    holds(&rt, stored > 0 && is_so);
    Ok(())
}
