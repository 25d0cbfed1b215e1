//! One refresh: a fetch, a reading, and at most one Set.
ghost use Rattle.std.specs.Prelude.{◌≡◌};
ghost use Rattle.refresh.specs.Due.{due_after};
ghost use Rattle.refresh.specs.Refresh.{KeepsUnlessStored, Refreshes, Sets};

use crate::due::next_due;
use crate::relationship::Relationship;
use crate::source::Source;
use map_core::{Ask, AskError, Op, Reply};
use spiffe_doc::{Bundle, DocError, Memory, read_document};
use std::alloc::{AllocError, Global};

/// What a refresh came to.
#[derive(Drop)]
pub enum What {
    /// The bundle was read, and the map gave this reply to it.
    Taken(Reply),
    /// What was fetched is not a bundle document.
    BadDocument(DocError),
    /// Nothing was fetched.
    NoAnswer,
    /// The bundle was read, and the map was not asked or changed, for this reason.
    Asked(AskError),
}

/// What a refresh came to, and when the next one is due, in seconds.
#[derive(Drop)]
pub struct Outcome {
    pub what: What,
    pub due: u64,
}

impl Outcome {
    fn at(now: u64, hint: Option<u64>, what: What) -> Outcome
        ensures { result ≡ record { what = what; due = due_after now hint } }
    {
        Outcome {
            what,
            due: next_due(now, hint),
        }
    }
}

/// Refreshes the bundle of one relationship: fetches its document once, reads it, and asks one Set of the
/// relationship's trust domain. The next refresh is due by the refresh hint of a document that was read, else after
/// 300 seconds. Only `Taken(Stored)` has changed the map that is shown, if one is. Out of memory, while the document is
/// read or the map is asked, is the error, and then nothing besides the source has changed.
pub fn refresh_once<S: Source, A: Ask>(
    alloc: Global,
    source: &mut S,
    ask: &mut A,
    relationship: &Relationship,
    now: u64,
) -> Result<Outcome, Memory>
    ensures refreshes { Refreshes S.fetches A.answers relationship.now now (source.old, ask.old) result (source.new, ask.new) }
    ensures kept { KeepsUnlessStored A.shows ask.old result ask.new }
{
    let Ok(document) = source.fetch(relationship) else {
        return Ok(Outcome::at(now, None, What::NoAnswer));
    };
    match read_document(alloc, &document) {
        Ok(bundle) => set_bundle(ask, relationship, bundle, now),
        Err(DocError::Memory) => Err(AllocError),
        Err(error) => Ok(Outcome::at(now, None, What::BadDocument(error))),
    }
}

/// Asks to set the bundle that was read.
fn set_bundle<A: Ask>(
    ask: &mut A,
    relationship: &Relationship,
    bundle: Bundle,
    now: u64,
) -> Result<Outcome, AllocError>
    ensures { Sets A.answers relationship.now now bundle ask.old result ask.new }
{
    let hint = bundle.refresh_hint();
    let domain = relationship.domain().copy()?;
    match ask.ask(Op::Set(domain, bundle)) {
        Ok(reply) => Ok(Outcome::at(now, hint, What::Taken(reply))),
        Err(AskError::Memory) => Err(AllocError),
        Err(error) => Ok(Outcome::at(now, hint, What::Asked(error))),
    }
}
