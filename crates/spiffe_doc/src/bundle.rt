//! Trust bundles (SPIFFE Trust Domain and Bundle, section 3).
ghost use Rattle.spiffe_doc.specs.Bundle.{AreAuthorities};
ghost use Rattle.spiffe_doc.specs.Text.{text_of};
ghost use Rattle.spiffe_doc.specs.Private.Fronts.{listed, IsWholeFront};
ghost use Rattle.std.specs.Prelude.{◌≡◌, ◌<◌, ◌≤◌, length, IfOk, MatchOption};

use crate::Memory;
use crate::entries::Authorities;
use crate::front::Front;
use crate::numbers::Numbers;
use crate::place::Place;
use crate::text::push_rest;
use std::alloc::{AllocError, Allocator, Global};
use std::marker::Model;
use std::sync::Arc;

/// The most bytes of a document, an entry and a canonical text.
pub(crate) const MAX_TEXT: usize = 1048576;

/// The most authorities of a bundle.
pub(crate) const MAX_AUTHORITIES: usize = 1024;

/// The canonical text of a bundle, its numbers, and where its entries stand.
#[derive(Drop)]
pub(crate) struct BundleParts {
    pub(crate) text: Vec<u8>,
    pub(crate) places: Vec<Place>,
    pub(crate) numbers: Numbers,
}

/// What a trust domain publishes: a sequence number, a refresh hint in seconds, and its authorities. No two are equal,
/// no two JWT authorities have one key id, there are at most 1,024, and the canonical text has at most 1,048,576 bytes.
/// It is kept as its canonical text, which its copies share. Bundles are equal if their numbers are, and their authorities
/// in order.
#[derive(Drop)]
pub struct Bundle {
    pub(crate) published: Arc<BundleParts>,
}

impl Model for Bundle {
    ghost use Rattle.std.specs.Arc.{arc_value};
    ghost use Rattle.spiffe_doc.specs.Authority.{BundleValue};
    ghost use Rattle.spiffe_doc.specs.Private.Places.{authorities_in};
    ghost use Rattle.spiffe_doc.specs.Private.Kept.{IsKept};

    ghost Value = { BundleValue };

    ghost view = { λ bundle. record { sequence = (arc_value bundle.published).numbers.sequence; refresh_hint = (arc_value bundle.published).numbers.refresh_hint; authorities = authorities_in (arc_value bundle.published).text.items (arc_value bundle.published).places.items } };

    ghost invariant = { λ bundle. IsKept (arc_value bundle.published).text.items (arc_value bundle.published).numbers.front_len (arc_value bundle.published).places.items (record { sequence = (arc_value bundle.published).numbers.sequence; refresh_hint = (arc_value bundle.published).numbers.refresh_hint; authorities = authorities_in (arc_value bundle.published).text.items (arc_value bundle.published).places.items }) };
}

impl Bundle {
    ghost use Rattle.spiffe_doc.specs.Bundle.{IsBundle};

    /// The sequence number, if the document had one.
    pub fn sequence(&self) -> Option<u64>
        ensures { result ≡ self.now.sequence }
    {
        self.published.numbers.sequence()
    }

    /// The refresh hint in seconds, if the document had one.
    pub fn refresh_hint(&self) -> Option<u64>
        ensures { result ≡ self.now.refresh_hint }
    {
        self.published.numbers.refresh_hint()
    }

    /// The authorities, in the document's order.
    pub fn authorities(&self) -> Authorities<'_>
        ensures value { result ≡ self.now.authorities }
        ensures valid { IsBundle self.now }
    {
        let published: &BundleParts = &self.published;
        Authorities::new(published.text.as_slice(), published.places.as_slice())
    }

    /// The canonical text, as it is kept.
    pub fn text(&self) -> &[u8]
        ensures { result.now ≡ text_of self.now }
    {
        self.published.text.as_slice()
    }

    /// How many bytes the canonical text has.
    pub fn text_len(&self) -> usize
        ensures { result ≡ length (text_of self.now) }
    {
        self.published.text.len()
    }

    /// A copy of the text up to the last entry.
    pub(crate) fn front(&self, alloc: Global) -> Result<Front<Global>, AllocError>
        ensures whole { IfOk result IsWholeFront }
        ensures value { IfOk result (λ front. listed front ≡ self.now.authorities) }
    {
        let published: &BundleParts = &self.published;
        let text = published.text.as_slice();
        Ok(Front {
            text: text[..published.numbers.front_len()].to_vec(alloc)?,
            places: published.places.as_slice().to_vec(alloc)?,
        })
    }

    /// The same bundle, shared: it costs a count.
    pub fn copy(&self) -> Result<Bundle, Memory>
        ensures { IfOk result (λ copy. copy ≡ self.now) }
    {
        Ok(Bundle {
            published: Arc::try_clone(&self.published)?,
        })
    }
}

/// The bundle of these numbers and the entries of a text that begins so; `None` if that text is too long.
pub(crate) fn bundle_from<A: Allocator>(
    alloc: Global,
    sequence: Option<u64>,
    refresh_hint: Option<u64>,
    front: Front<A>,
) -> Result<Option<Bundle>, AllocError>
    requires valid { AreAuthorities (listed front) }
    requires whole { IsWholeFront front }
    ensures { IfOk result (λ found. MatchOption found
        (1048576 < length (text_of (record { sequence = sequence; refresh_hint = refresh_hint; authorities = listed front })))
        (λ bundle. (bundle ≡ record { sequence = sequence; refresh_hint = refresh_hint; authorities = listed front })
        × (length (text_of bundle) ≤ 1048576))) }
{
    let Front { mut text, places } = front;
    let front_len = text.len();
    push_rest(alloc, &mut text, sequence, refresh_hint)?;
    if text.len() > MAX_TEXT {
        return Ok(None);
    }
    let published = Arc::new(
        alloc,
        BundleParts {
            text: text.as_slice().to_vec(alloc)?,
            places: places.as_slice().to_vec(alloc)?,
            numbers: Numbers::new(sequence, refresh_hint, front_len),
        },
    )?;
    Ok(Some(Bundle { published }))
}

impl PartialEq for Bundle {
    ghost use Rattle.std.specs.Cmp.{partial_equiv_from_equiv, decided};
    ghost use Rattle.spiffe_doc.specs.Equal.{bundle_eq};
    ghost use Rattle.spiffe_doc.specs.Private.Equality.{bundle_decides};

    ghost eq = { bundle_eq };

    ghost laws = { partial_equiv_from_equiv (decided bundle_eq bundle_decides) };

    fn eq(&self, other: &Bundle) -> bool {
        let ours: &BundleParts = &self.published;
        let theirs: &BundleParts = &other.published;
        ours.text.as_slice() == theirs.text.as_slice()
    }
}
