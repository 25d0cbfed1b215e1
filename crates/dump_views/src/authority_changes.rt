//! What changed of the authorities of a bundle, as words of its line.
ghost use Rattle.std.specs.Prelude.{◌≡◌, ◌+◌, ◌<◌, ◌^◌, ◌++◌, ◌&&◌, ◌==◌, if◌then◌else◌, true, length, is_some, IfSome, OnOk, OnErr};
ghost use Rattle.spiffe_doc.specs.Bundle.{is_x509, is_among};
ghost use Rattle.dump_views.specs.ChangeLines.{authority_words, count_words, have_same, jwt_beyond, order_words, x509_beyond};
ghost use Rattle.dump_views.specs.Private.Fronts.{IsFront};

use itoa::Buffer;
use spiffe_doc::{Authorities, Entry};
use std::alloc::AllocError;

/// How many authorities there are of each kind.
#[derive(Clone, Copy)]
struct Counts {
    x509: usize,
    jwt: usize,
}

/// Appends what changed of the authorities.
#[tactic(auto, using(crate::proofs::FrontLemmas::front_same, crate::proofs::FrontLemmas::front_more, crate::proofs::FrontLemmas::front_through), unfolding(crate::specs::ChangeLines::authority_words))]
pub(crate) fn put_authority_words(
    old: &Authorities<'_>,
    new: &Authorities<'_>,
    out: &mut Vec<u8>,
) -> Result<(), AllocError>
    ensures ok { OnOk result (out.new.items ≡ out.old.items ++ authority_words old.now new.now) }
    ensures err { OnErr result (IsFront out.old.items out.new.items) }
{
    let added = count_beyond(old, new);
    let removed = count_beyond(new, old);
    put_counts(b" x509", added.x509, removed.x509, out)?;
    put_counts(b" jwt", added.jwt, removed.jwt, out)?;
    put_order(old, new, are_zero(added, removed), out)?;
    Ok(())
}

/// Appends that the order changed, if nothing else did.
#[tactic(auto, using(crate::proofs::FrontLemmas::front_same), unfolding(crate::specs::ChangeLines::order_words))]
fn put_order(
    old: &Authorities<'_>,
    new: &Authorities<'_>,
    are_same: bool,
    out: &mut Vec<u8>,
) -> Result<(), AllocError>
    requires { are_same ≡ have_same old.now new.now }
    ensures ok { OnOk result (out.new.items ≡ out.old.items ++ order_words old.now new.now) }
    ensures err { OnErr result (IsFront out.old.items out.new.items) }
{
    if !are_same || old == new {
        return Ok(());
    }
    out.extend_from_slice(b" order")
}

/// Whether none was added and none was removed.
fn are_zero(added: Counts, removed: Counts) -> bool
    ensures { result ≡ ((added.x509 == 0) && (added.jwt == 0) && ((removed.x509 == 0) && (removed.jwt == 0))) }
{
    added.is_zero() && removed.is_zero()
}

impl Counts {
    /// Whether nothing was counted.
    fn is_zero(&self) -> bool
        ensures { result ≡ ((self.now.x509 == 0) && (self.now.jwt == 0)) }
    {
        self.x509 == 0 && self.jwt == 0
    }

    /// Counts one more authority.
    fn add(&mut self, authority: &Entry<'_>)
        requires x509 { self.old.x509 + 1 < 2 ^ 64 }
        requires jwt { self.old.jwt + 1 < 2 ^ 64 }
        ensures x509 { self.new.x509 ≡ self.old.x509 + (if is_x509 authority.now then 1 else 0) }
        ensures jwt { self.new.jwt ≡ self.old.jwt + (if is_x509 authority.now then 0 else 1) }
    {
        if authority.is_x509() {
            self.x509 += 1;
        } else {
            self.jwt += 1;
        }
    }
}

/// How many authorities of each kind these have that the others have not. Those that stand in the same order in both
/// are found with one comparison each; each other one is compared with all, so the worst case takes 1,024 times 1,024.
fn count_beyond(others: &Authorities<'_>, these: &Authorities<'_>) -> Counts
    ensures x509 { result.x509 ≡ x509_beyond others.now these.now }
    ensures jwt { result.jwt ≡ jwt_beyond others.now these.now }
{
    let mut counts = Counts { x509: 0, jwt: 0 };
    let mut next = 0;
    for authority in these.iter() {
        match place_of(others, next, &authority) {
            Some(place) => next = place + 1,
            None => counts.add(&authority),
        }
    }
    counts
}

/// Where the authority is among these, if it is. The place where it may be is tried first.
fn place_of(these: &Authorities<'_>, maybe: usize, authority: &Entry<'_>) -> Option<usize>
    ensures among { is_some result ≡ is_among these.now authority.now }
    ensures within { IfSome result (λ place. place < length these.now) }
    ensures few { length these.now < 2 ^ 64 }
{
    if maybe < these.len() && is_at(these, maybe, authority) {
        return Some(maybe);
    }
    first_place_of(these, authority)
}

/// Whether the authority is at this place.
#[tactic(auto, using(crate::proofs::CountLemmas::among_at))]
fn is_at(these: &Authorities<'_>, place: usize, authority: &Entry<'_>) -> bool
    ensures among { result ≡ true → is_among these.now authority.now ≡ true }
    ensures within { result ≡ true → place < length these.now }
{
    match these.get(place) {
        Some(there) => there == *authority,
        None => false,
    }
}

fn first_place_of(these: &Authorities<'_>, authority: &Entry<'_>) -> Option<usize>
    ensures among { is_some result ≡ is_among these.now authority.now }
    ensures within { IfSome result (λ place. place < length these.now) }
{
    let mut place = 0;
    for other in these.iter() {
        if other == *authority {
            return Some(place);
        }
        place += 1;
    }
    None
}

/// Appends how many were added and removed, if any.
#[tactic(auto, using(crate::proofs::FrontLemmas::front_same, crate::proofs::FrontLemmas::front_more, crate::proofs::FrontLemmas::front_through), unfolding(crate::specs::ChangeLines::count_words))]
fn put_counts(
    label: &[u8],
    added: usize,
    removed: usize,
    out: &mut Vec<u8>,
) -> Result<(), AllocError>
    ensures ok { OnOk result (out.new.items ≡ out.old.items ++ count_words label.now added removed) }
    ensures err { OnErr result (IsFront out.old.items out.new.items) }
{
    if added == 0 && removed == 0 {
        return Ok(());
    }
    let mut digits = Buffer::new();
    out.extend_from_slice(label)?;
    out.extend_from_slice(b" +")?;
    out.extend_from_slice(digits.format(added).as_bytes())?;
    out.extend_from_slice(b" -")?;
    out.extend_from_slice(digits.format(removed).as_bytes())?;
    Ok(())
}
