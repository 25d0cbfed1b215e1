//! Maps beside a `BTreeMap` that takes the same changes. Running out of memory ends a test by an error and never changes an
//! answer, so each may be run with any allocation refused.
//!
//! A map is dropped by a call of `drop`, before anything may fail: where a scope drops it, the prover follows all its parts on
//! each way out.
mod changes;
mod levels;

use shared_map::{Shared, SharedMap};
use spiffe_doc::{NameError, TrustDomain};
use std::alloc::{AllocError, Global};
use std::collections::BTreeMap;
use std::test::Fail;
use test_kit::{holds, holds_at, is_equal, is_equal_at};

/// What stands under a name.
#[derive(Clone, Debug, PartialEq, Eq, Drop)]
struct Number(u64);

impl Shared for Number {
    fn copy(&self) -> Result<Number, AllocError> {
        Ok(Number(self.0))
    }
}

/// How many places there are, each of which has a number below this one, in any of some orders.
const PLACES: u64 = 9000;

/// The number at a place in the order of this step, which has no divisor in common with the number of places.
fn number_at(place: u64, step: u64) -> u64 {
    place.saturating_mul(step) % PLACES
}

/// A name that the number stands for, short or over 24 bytes.
fn name(alloc: Global, number: u64) -> Result<TrustDomain, Fail> {
    let text = if number % 5 == 0 {
        format!(in alloc; "{number}.a-name-of-over-24-bytes.example")?
    } else {
        format!(in alloc; "{number}.example")?
    };
    match TrustDomain::parse(alloc, text.as_str()) {
        Ok(name) => Ok(name),
        Err(NameError::Memory) => Err(Fail::from(AllocError)),
        Err(_) => Err(Fail::from("no name")),
    }
}

/// A plain map gets a value under the name.
fn put_plain(
    plain: &mut BTreeMap<TrustDomain, u64>,
    name: TrustDomain,
    value: u64,
) -> Result<(), Fail> {
    match plain.insert(name, value) {
        Ok(_) => Ok(()),
        Err(_) => Err(Fail::from(AllocError)),
    }
}

/// Both hold the same, in the same order.
fn are_same(map: &SharedMap<Number>, plain: &BTreeMap<TrustDomain, u64>) -> Result<(), Fail> {
    is_equal(&map.len(), &plain.len())?;
    let mut entries = map.iter();
    for (name, &value) in plain.iter() {
        let wanted = Number(value);
        is_equal_at(&map.get(name), &Some(&wanted), &value)?;
        let is_next = entries.next() == Some((name, &wanted));
        holds_at(is_next, &value)?;
    }
    holds(entries.next().is_none())
}

fn sent<T: Send + Sync>(value: T) -> T {
    value
}

#[test]
fn a_map_can_be_sent(rt: HostRuntime) -> Result<(), Fail> {
    let map: SharedMap<Number> = sent(SharedMap::new(rt.alloc()));
    let count = map.len();
    drop(map);
    is_equal(&count, &0)
}
