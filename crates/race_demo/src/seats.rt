//! What writers and readers do with the store, one operation at a time.
ghost use Rattle.std.specs.Prelude.{◌≡◌, ◌<◌};
ghost use Rattle.shard_store.specs.Pass.{IsOf};

use crate::judge::{DOMAINS, Reading};
use map_core::Reply;
use shard_store::{Pass, Store};
use spiffe_doc::{Bundle, TrustDomain, read_document};
use std::alloc::Global;

/// The domains, in the order of their names.
const NAMES: [&str; DOMAINS] = ["a", "b", "c", "d", "e", "f", "g", "h"];

fn domain_at(alloc: Global, place: usize) -> Option<TrustDomain> {
    let name = NAMES.get(place)?;
    TrustDomain::parse(alloc, name).ok()
}

/// A bundle without keys, of this sequence.
fn bundle_of(alloc: Global, sequence: u64) -> Option<Bundle> {
    let text = format!(in alloc; "{{\"keys\":[],\"spiffe_sequence\":{sequence}}}").ok()?;
    read_document(alloc, text.as_bytes()).ok()
}

/// Sets a domain. If it was refused, nothing has changed.
pub(crate) fn set_at(
    alloc: Global,
    store: &Store,
    pass: &mut Pass,
    place: usize,
    sequence: u64,
) -> bool
    requires { IsOf pass.old store.now }
    ensures { IsOf pass.new store.now }
{
    let (Some(domain), Some(bundle)) = (domain_at(alloc, place), bundle_of(alloc, sequence)) else {
        return false;
    };
    match store.set(pass, domain, bundle) {
        Ok(Reply::Stored) => true,
        _ => false,
    }
}

/// The sequence of a domain.
fn get_at(alloc: Global, store: &Store, pass: &mut Pass, place: usize) -> Option<u64>
    requires { IsOf pass.old store.now }
    ensures { IsOf pass.new store.now }
{
    let domain = domain_at(alloc, place)?;
    match store.get(pass, domain) {
        Ok(Reply::Found(bundle)) => bundle.sequence(),
        _ => None,
    }
}

/// Reads the domains one after another, each at a moment of its own.
pub(crate) fn read_each(alloc: Global, store: &Store, pass: &mut Pass) -> Option<Reading>
    requires { IsOf pass.old store.now }
    ensures { IsOf pass.new store.now }
{
    let mut reading = [0; DOMAINS];
    for place in 0..DOMAINS {
        reading[place] = get_at(alloc, store, pass, place)?;
    }
    Some(reading)
}

/// Reads all domains at one moment.
pub(crate) fn read_all(store: &Store, pass: &mut Pass) -> Option<Reading>
    requires { IsOf pass.old store.now }
    ensures { IsOf pass.new store.now }
{
    match store.fetch_all(pass) {
        Ok(Reply::All(snapshot)) => sequences(snapshot.pairs()),
        _ => None,
    }
}

/// The sequences of all domains, which stand in the order of their names.
fn sequences(pairs: &[(TrustDomain, Bundle)]) -> Option<Reading> {
    if pairs.len() != DOMAINS {
        return None;
    }
    let mut reading = [0; DOMAINS];
    for place in 0..DOMAINS {
        let (_, bundle) = &pairs[place];
        reading[place] = bundle.sequence()?;
    }
    Some(reading)
}
