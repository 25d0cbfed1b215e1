//! The entries of a document that give authorities, each authority once.
ghost use Rattle.std.specs.Prelude.{◌≡◌, ◌⊎◌, ◌<◌, ◌||◌, ◌++◌, ◌∷◌, [], List, ℕ, length, get_or, bytes_eq, cond, true, false, Some, Ok, Err, IfOk, OnOk, MatchResult};
ghost use Rattle.spiffe_doc.specs.declared.authority.Authority.{Authority};
ghost use Rattle.spiffe_doc.specs.Authority.{IsAuthority};
ghost use Rattle.spiffe_doc.specs.Equal.{authority_eq};
ghost use Rattle.spiffe_doc.specs.Bundle.{is_among as among, is_kid_taken};
ghost use Rattle.spiffe_doc.specs.Private.EntrySet.{AreIndexed, admission, with_new, has, place_of_kid};
ghost use Rattle.spiffe_doc.specs.Private.Given.{authority_given};
ghost use Rattle.spiffe_doc.specs.Private.Fronts.{listed, IsWholeFront};

use crate::bundle::MAX_AUTHORITIES;
use crate::entries::{Authorities, Entry};
use crate::error::DocError;
use crate::front::Front;
use crate::given::Given;
use crate::text_key::TextKey;
use std::alloc::{AllocError, Allocator};
use std::collections::{BTreeMap, BTreeSet};

/// Entries in order, no two of one authority, with the text that a document of them begins with. A JWT authority is
/// found by its key id. An X.509 authority is looked for only if its certificate is there: then it is compared with each.
#[derive(Drop)]
pub(crate) struct EntrySet<'a, A: Allocator> {
    pub(crate) front: Front<A>,
    /// The texts of the certificates of the X.509 authorities.
    pub(crate) certificates: BTreeSet<TextKey<'a>, A>,
    /// Where the JWT authority of a key id is.
    pub(crate) kids: BTreeMap<TextKey<'a>, usize, A>,
}

impl<'a, A: Allocator + Copy> EntrySet<'a, A> {
    ghost use Rattle.spiffe_doc.specs.Private.WholeSet.{IsWhole};

    /// No entries. There is room for a text of so many bytes, which then need not grow.
    pub(crate) fn new(alloc: A, room: usize) -> Result<EntrySet<'a, A>, AllocError>
        ensures whole { IfOk result IsWhole }
        ensures none { IfOk result (λ set. listed set.front ≡ []) }
    {
        Ok(EntrySet {
            front: Front::new(alloc, room)?,
            certificates: BTreeSet::new(alloc),
            kids: BTreeMap::new(alloc),
        })
    }

    /// Adds the entry that stands at this place of the document and gives this, unless an equal authority is there.
    pub(crate) fn admit(
        &mut self,
        place: usize,
        given: &Given<'a>,
        entry: &Entry<'_>,
    ) -> Result<(), DocError>
        requires whole { IsWhole self.old }
        requires valid { IsAuthority entry.now }
        requires given { entry.now ≡ authority_given given.now }
        ensures whole { OnOk result (IsWhole self.new) }
        ensures exact { MatchResult result
            (λ _. admission place (listed self.old.front) entry.now ≡ Ok (listed self.new.front))
            (λ e. (e ≡ DocError.Memory) ⊎ (admission place (listed self.old.front) entry.now ≡ Err e)) }
    {
        if self.admits(place, given, entry)? {
            self.add(given, entry)?;
        }
        Ok(())
    }

    /// Whether the authority is new; refused if another one has its key id, or if the set is full.
    fn admits(&self, place: usize, given: &Given<'a>, entry: &Entry<'_>) -> Result<bool, DocError>
        requires whole { IsWhole self.now }
        requires given { entry.now ≡ authority_given given.now }
        ensures { MatchResult result
            (λ new. admission place (listed self.now.front) entry.now ≡ Ok (with_new new (listed self.now.front) entry.now))
            (λ e. admission place (listed self.now.front) entry.now ≡ Err e) }
    {
        if self.holds(place, given, entry)? {
            return Ok(false);
        }
        if self.front.places.len() >= MAX_AUTHORITIES {
            return Err(DocError::TooMany);
        }
        Ok(true)
    }

    /// Whether an equal authority is there; refused if another one has its key id.
    fn holds(&self, place: usize, given: &Given<'a>, entry: &Entry<'_>) -> Result<bool, DocError>
        requires whole { IsWhole self.now }
        requires given { entry.now ≡ authority_given given.now }
        ensures { MatchResult result
            (λ there. (is_kid_taken (listed self.now.front) entry.now ≡ false) × (there ≡ among (listed self.now.front) entry.now))
            (λ e. (is_kid_taken (listed self.now.front) entry.now ≡ true) × (e ≡ DocError.KidTwice place)) }
    {
        let present = self.front.authorities();
        match given {
            Given::X509 { x5c, .. } => {
                let text = TextKey::new(x5c.text());
                Ok(self.certificates.contains(&text) && is_among(&present, entry))
            }
            Given::Jwt { kid, .. } => {
                let Some(at) = self.kids.get(&TextKey::new(kid)) else {
                    return Ok(false);
                };
                if is_at(&present, *at, entry) {
                    Ok(true)
                } else {
                    Err(DocError::KidTwice(place))
                }
            }
        }
    }

    /// Adds the entry of a new authority at the end.
    fn add(&mut self, given: &Given<'a>, entry: &Entry<'_>) -> Result<(), AllocError>
        requires whole { IsWholeFront self.old.front }
        requires indexed { AreIndexed self.old.certificates self.old.kids (listed self.old.front) }
        requires given { entry.now ≡ authority_given given.now }
        ensures added { OnOk result (listed self.new.front ≡ listed self.old.front ++ entry.now ∷ []) }
        ensures whole { OnOk result (IsWholeFront self.new.front) }
        ensures indexed { OnOk result (AreIndexed self.new.certificates self.new.kids (listed self.new.front)) }
    {
        let at = self.front.places.len();
        self.front.push(entry)?;
        match given {
            Given::X509 { x5c, .. } => put_text(&mut self.certificates, TextKey::new(x5c.text()))?,
            Given::Jwt { kid, .. } => put_kid(&mut self.kids, TextKey::new(kid), at)?,
        }
        Ok(())
    }
}

/// Whether the authority of an entry is among these.
fn is_among(present: &Authorities<'_>, entry: &Entry<'_>) -> bool
    ensures { result ≡ among present.now entry.now }
{
    for other in present.iter() {
        if other == *entry {
            return true;
        }
    }
    false
}

/// Whether the authority of an entry is the one at this place.
fn is_at(present: &Authorities<'_>, at: usize, entry: &Entry<'_>) -> bool
    requires { at < length present.now }
    ensures { (any : Authority) → result ≡ authority_eq (get_or present.now at any) entry.now }
{
    match present.get(at) {
        Some(other) => other == *entry,
        None => false,
    }
}

/// Adds a text.
fn put_text<'a, A: Allocator + Copy>(
    set: &mut BTreeSet<TextKey<'a>, A>,
    text: TextKey<'a>,
) -> Result<(), AllocError>
    ensures { OnOk result ((other : List ℕ) → has set.new other ≡ (bytes_eq text.entry other || has set.old other)) }
{
    set.insert(text)?;
    Ok(())
}

/// Adds a key id with its place.
fn put_kid<'a, A: Allocator + Copy>(
    kids: &mut BTreeMap<TextKey<'a>, usize, A>,
    kid: TextKey<'a>,
    at: usize,
) -> Result<(), AllocError>
    ensures { OnOk result ((other : List ℕ) → place_of_kid kids.new other ≡ cond (bytes_eq kid.entry other) (Some at) (place_of_kid kids.old other)) }
{
    match kids.insert(kid, at) {
        Ok(_) => Ok(()),
        Err(_) => Err(AllocError),
    }
}
