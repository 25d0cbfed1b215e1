//! Appending an authority to a bundle.
ghost use Rattle.std.specs.Prelude.{◌≡◌, ◌⊎◌, ◌++◌, ◌∷◌, [], ◌&&◌, not, Err, IsOk, IfOk};
ghost use Rattle.spiffe_doc.specs.Answer.{Gives};
ghost use Rattle.spiffe_doc.specs.Authority.{IsAuthority};
ghost use Rattle.spiffe_doc.specs.Append.{appended, next_sequence as sequence_after};
ghost use Rattle.spiffe_doc.specs.Equal.{authority_eq};
ghost use Rattle.spiffe_doc.specs.Bundle.{is_x509 as of_x509, same_kid, is_among as among, is_kid_taken as kid_taken};
ghost use Rattle.spiffe_doc.specs.Private.Fronts.{listed, IsWholeFront};

use crate::authority::Authority;
use crate::bundle::{Bundle, MAX_AUTHORITIES, bundle_from};
use crate::entries::{Authorities, Entry};
use crate::error::AppendError;
use crate::front::Front;
use crate::matching::{has_kid_of, is_text_of};
use crate::text::write_entry;
use std::alloc::{AllocError, Global};

impl Bundle {
    /// The bundle with one more authority at the end, and a present sequence one higher. Refused, in this order, if an
    /// equal authority is there, if its key id is there with another key, if there are 1,024, if the sequence is
    /// the greatest, and if the canonical text would have over 1,048,576 bytes. The first four take no memory.
    #[tactic(auto, unfolding(crate::specs::Append::appended))]
    pub fn appended(&self, alloc: Global, authority: &Authority) -> Result<Bundle, AppendError>
        ensures value { Gives AppendError.Memory result (appended self.now authority.now) }
        ensures memory { result ≡ Err AppendError.Memory
            → IsOk (appended self.now authority.now) ⊎ (appended self.now authority.now ≡ Err AppendError.TooLong) }
    {
        let present = self.authorities();
        if is_among(&present, authority) {
            return Err(AppendError::Present);
        }
        if is_kid_taken(&present, authority) {
            return Err(AppendError::KidTaken);
        }
        if present.len() >= MAX_AUTHORITIES {
            return Err(AppendError::TooMany);
        }
        let Some(sequence) = next_sequence(self.sequence()) else {
            return Err(AppendError::SequenceFull);
        };
        let front = front_and(alloc, self, authority)?;
        match bundle_from(alloc, sequence, self.refresh_hint(), front)? {
            Some(bundle) => Ok(bundle),
            None => Err(AppendError::TooLong),
        }
    }
}

/// The text up to the last entry, with the entry of one more authority.
fn front_and(alloc: Global, bundle: &Bundle, last: &Authority) -> Result<Front<Global>, AllocError>
    ensures whole { IfOk result IsWholeFront }
    ensures value { IfOk result (λ front. listed front ≡ bundle.now.authorities ++ last.now ∷ []) }
    ensures valid { IsAuthority last.now }
{
    last.recall_valid();
    let mut front = bundle.front(alloc)?;
    let text = write_entry(alloc, last)?;
    front.push(&Entry::new(&text, is_x509(last)))?;
    Ok(front)
}

fn is_x509(authority: &Authority) -> bool
    ensures { result ≡ of_x509 authority.now }
{
    matches!(authority, Authority::X509 { .. })
}

/// The sequence after a change, or `None` if it is the greatest.
fn next_sequence(sequence: Option<u64>) -> Option<Option<u64>>
    ensures { result ≡ sequence_after sequence }
{
    match sequence {
        None => Some(None),
        Some(u64::MAX) => None,
        Some(n) => Some(Some(n + 1)),
    }
}

fn is_among(kept: &Authorities<'_>, authority: &Authority) -> bool
    ensures { result ≡ among kept.now authority.now }
{
    for other in kept.iter() {
        if is_equal(&other, authority) {
            return true;
        }
    }
    false
}

/// Whether an entry is of this authority.
fn is_equal(other: &Entry<'_>, authority: &Authority) -> bool
    ensures { result ≡ authority_eq other.now authority.now }
{
    authority.recall_valid();
    is_text_of(other.text(), authority)
}

fn is_kid_taken(kept: &Authorities<'_>, authority: &Authority) -> bool
    ensures { result ≡ kid_taken kept.now authority.now }
{
    for other in kept.iter() {
        if takes_kid(&other, authority) {
            return true;
        }
    }
    false
}

/// Whether an entry is of another authority with this one's key id.
fn takes_kid(other: &Entry<'_>, authority: &Authority) -> bool
    ensures { result ≡ (same_kid other.now authority.now && not (authority_eq other.now authority.now)) }
{
    has_kid_of(other.text(), authority) && !is_equal(other, authority)
}
