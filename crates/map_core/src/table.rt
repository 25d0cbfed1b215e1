//! The table of operations on one name.
ghost use Rattle.std.specs.Prelude.{◌≡◌, IfOk, Option, Some, option_copied};
ghost use Rattle.spiffe_doc.specs.Append.{appended};
ghost use Rattle.map_core.specs.Op.{expect_eq};
ghost use Rattle.map_core.specs.Private.Outcome.{reply_of, outcome_at};
ghost use Rattle.map_core.specs.Reply.{is_change};
ghost use Rattle.map_core.specs.Table as rows;
ghost use Rattle.map_core.specs.declared.held.Holding.{Holding};

use crate::held::Holding;
use crate::op::Expect;
use crate::reply::{MapRefusal, Reply};
use spiffe_doc::{AppendError, Authority, Bundle};
use std::alloc::{AllocError, Global};

/// What an operation on one name gives: the reply, and what is left under the name.
#[derive(Drop)]
pub(crate) enum RowEffect {
    Kept(Reply),
    Put(Reply, Holding),
    Cleared(Reply),
}

impl RowEffect {
    /// Whether the reply says that the map is changed.
    pub(crate) fn is_change(&self) -> bool
        ensures { result ≡ is_change (reply_of self.now) }
    {
        match self {
            RowEffect::Kept(reply) => reply.is_change(),
            RowEffect::Put(reply, _) => reply.is_change(),
            RowEffect::Cleared(reply) => reply.is_change(),
        }
    }

    /// The same, if that is all that is wanted.
    pub(crate) fn into_is_change(self) -> bool
        ensures { result ≡ is_change (reply_of self) }
    {
        let is_change = self.is_change();
        drop(self);
        is_change
    }

    /// The reply.
    pub(crate) fn into_reply(self) -> Reply
        ensures { result ≡ reply_of self }
    {
        match self {
            RowEffect::Kept(reply) => reply,
            RowEffect::Put(reply, _) => reply,
            RowEffect::Cleared(reply) => reply,
        }
    }
}

/// The name keeps what it held.
fn refused(why: MapRefusal) -> RowEffect
    ensures { (held : Option Holding) → outcome_at held result ≡ rows.keep (Reply.Refused why) held }
{
    RowEffect::Kept(Reply::Refused(why))
}

/// `Set`, at a name that holds this.
pub(crate) fn set(there: Option<&Holding>, bundle: Bundle) -> RowEffect
    ensures { outcome_at (option_copied there.entry) result ≡ rows.set bundle (option_copied there.entry) }
{
    match there {
        None => RowEffect::Put(Reply::Stored, Holding::Published(bundle)),
        Some(Holding::Mark(sequence)) => stored_after(Some(*sequence), bundle),
        Some(Holding::Published(standing)) => {
            if bundle == *standing {
                RowEffect::Kept(Reply::Unchanged)
            } else {
                stored_after(standing.sequence(), bundle)
            }
        }
    }
}

/// The bundle is stored, unless its sequence is lower than the one before.
fn stored_after(before: Option<u64>, bundle: Bundle) -> RowEffect
    ensures { (held : Option Holding) → outcome_at held result ≡ rows.store_after before bundle held }
{
    match (bundle.sequence(), before) {
        (Some(sequence), Some(before)) if sequence < before => refused(MapRefusal::Stale(before)),
        _ => RowEffect::Put(Reply::Stored, Holding::Published(bundle)),
    }
}

/// The expectation that fits.
fn expectation(there: Option<&Holding>) -> Expect
    ensures { result ≡ rows.expectation (option_copied there.entry) }
{
    match there {
        None => Expect::Absent,
        Some(Holding::Mark(_)) => Expect::Absent,
        Some(Holding::Published(bundle)) => match bundle.sequence() {
            Some(sequence) => Expect::Sequence(sequence),
            None => Expect::Unnumbered,
        },
    }
}

/// Whether what was found is what was expected.
fn is_expected(expect: Expect, found: Expect) -> bool
    ensures { result ≡ expect_eq expect found }
{
    expect == found
}

/// `SetIf`, at a name that holds this.
pub(crate) fn set_if(there: Option<&Holding>, expect: Expect, bundle: Bundle) -> RowEffect
    ensures { outcome_at (option_copied there.entry) result ≡ rows.set_if expect bundle (option_copied there.entry) }
{
    let found = expectation(there);
    if is_expected(expect, found) {
        set(there, bundle)
    } else {
        refused(MapRefusal::NotExpected(found))
    }
}

/// `Append`, at a name that holds this.
pub(crate) fn append(
    alloc: Global,
    there: Option<&Holding>,
    authority: &Authority,
) -> Result<RowEffect, AllocError>
    ensures { IfOk result (λ outcome.
        outcome_at (option_copied there.entry) outcome ≡ rows.append authority.now (option_copied there.entry)) }
{
    match there {
        Some(Holding::Published(bundle)) => append_to(alloc, bundle, authority),
        _ => Ok(refused(MapRefusal::NoDomain)),
    }
}

/// `Append` to a bundle.
fn append_to(alloc: Global, bundle: &Bundle, authority: &Authority) -> Result<RowEffect, AllocError>
    ensures { IfOk result (λ outcome.
        outcome_at (Some (Holding.Published bundle.now)) outcome ≡ rows.append_to bundle.now (appended bundle.now authority.now)) }
{
    match bundle.appended(alloc, authority) {
        Ok(longer) => {
            let sequence = longer.sequence();
            Ok(RowEffect::Put(Reply::Appended(sequence), Holding::Published(longer)))
        }
        Err(AppendError::Memory) => Err(AllocError),
        Err(AppendError::Present) => Ok(RowEffect::Kept(Reply::Unchanged)),
        Err(AppendError::KidTaken) => Ok(refused(MapRefusal::KidTaken)),
        Err(AppendError::TooMany) => Ok(refused(MapRefusal::TooMany)),
        Err(AppendError::SequenceFull) => Ok(refused(MapRefusal::SequenceFull)),
        Err(AppendError::TooLong) => Ok(refused(MapRefusal::TooLong)),
    }
}

/// `Remove`, at a name that holds this.
pub(crate) fn remove(there: Option<&Holding>) -> RowEffect
    ensures { outcome_at (option_copied there.entry) result ≡ rows.remove (option_copied there.entry) }
{
    match there {
        Some(Holding::Published(bundle)) => match bundle.sequence() {
            Some(sequence) => RowEffect::Put(Reply::Removed, Holding::Mark(sequence)),
            None => RowEffect::Cleared(Reply::Removed),
        },
        _ => refused(MapRefusal::NoDomain),
    }
}

/// The reply to `Get`, at a name that holds this. The name keeps it.
pub(crate) fn get(there: Option<&Holding>) -> Result<Reply, AllocError>
    ensures { IfOk result (λ reply. reply ≡ (rows.get (option_copied there.entry)).reply) }
{
    match there {
        Some(Holding::Published(bundle)) => Ok(Reply::Found(bundle.copy()?)),
        _ => Ok(Reply::Refused(MapRefusal::NoDomain)),
    }
}
