//! The authorities of a bundle, as they stand in its canonical text.
ghost use Rattle.std.specs.Prelude.{◌≡◌, ◌<◌, ◌==◌, ◌^◌, length, slice_get, IfOk};
ghost use Rattle.std.specs.List.{AllByRecursion};
ghost use Rattle.std.specs.Iterator.{YieldsFirst, item_count};
ghost use Rattle.spiffe_doc.specs.Authority.{IsAuthority};
ghost use Rattle.spiffe_doc.specs.Text.{entry_text};
ghost use Rattle.spiffe_doc.specs.Bundle.{is_x509 as of_x509};
ghost use Rattle.spiffe_doc.specs.Private.Entries.{authority_in};
ghost use Rattle.spiffe_doc.specs.Private.Places.{piece, authorities_in, IsEntryAt};

use crate::Memory;
use crate::authority::Authority;
use crate::entry::judge;
use crate::place::Place;
use crate::tree::read_tree;
use json::Scratch;
use std::alloc::{AllocError, Global};
use std::marker::Model;

/// The authorities of a bundle, in the document's order. They are read where they stand in its canonical text, so this
/// takes no memory. Two are equal if all are, in order.
#[derive(Drop)]
pub struct Authorities<'a> {
    text: &'a [u8],
    places: &'a [Place],
}

impl<'a> Model for Authorities<'a> {
    ghost use Rattle.std.specs.Prelude.{List};
    ghost use Rattle.std.specs.List.{AllByRecursion};
    ghost use Rattle.spiffe_doc.specs.declared.authority.Authority.{Authority};
    ghost use Rattle.spiffe_doc.specs.Private.Places.{authorities_in, IsEntryAt};

    ghost Value = { List Authority };

    ghost view = { λ it. authorities_in it.text.now it.places.now };

    ghost invariant = { λ it. AllByRecursion (IsEntryAt it.text.now) it.places.now };
}

impl<'a> Authorities<'a> {
    /// Those that stand at these places of a text.
    pub(crate) fn new(text: &'a [u8], places: &'a [Place]) -> Authorities<'a>
        requires placed { AllByRecursion (IsEntryAt text.now) places.now }
        ensures { result ≡ authorities_in text.now places.now }
    {
        Authorities { text, places }
    }

    /// How many there are.
    pub fn len(&self) -> usize
        ensures { result ≡ length self.now }
    {
        self.places.len()
    }

    /// Whether there are no authorities.
    pub fn is_empty(&self) -> bool
        ensures { result ≡ (length self.now == 0) }
    {
        self.places.is_empty()
    }

    /// The one at a place, counted from 0, if there is one.
    pub fn get(&self, place: usize) -> Option<Entry<'a>>
        ensures { result ≡ slice_get self.now place }
    {
        match self.places.get(place) {
            Some(found) => Some(Entry::at(self.text, found)),
            None => None,
        }
    }

    /// One after another.
    pub fn iter(&self) -> Entries<'a>
        ensures value { result ≡ self.now }
        ensures few { length result < 2 ^ 64 }
    {
        Entries {
            text: self.text,
            places: self.places,
        }
    }
}

impl<'a> PartialEq for Authorities<'a> {
    ghost use Rattle.std.specs.Cmp.{partial_equiv_from_equiv, decided};
    ghost use Rattle.std.specs.Cmp.Lexicographic.{pointwise, pointwise_decides};
    ghost use Rattle.spiffe_doc.specs.Equal.{authority_eq};
    ghost use Rattle.spiffe_doc.specs.Private.Equality.{authority_decides};

    ghost eq = { pointwise authority_eq };

    ghost laws = { partial_equiv_from_equiv (decided (pointwise authority_eq) (pointwise_decides authority_decides)) };

    fn eq(&self, other: &Authorities<'a>) -> bool {
        let mut others = other.iter();
        for entry in self.iter() {
            match others.next() {
                Some(other) if entry == other => {}
                _ => return false,
            }
        }
        others.next().is_none()
    }
}

/// Authorities one after another. Contracts see those that are still to come.
#[derive(Drop)]
pub struct Entries<'a> {
    text: &'a [u8],
    places: &'a [Place],
}

impl<'a> Model for Entries<'a> {
    ghost use Rattle.std.specs.Prelude.{List};
    ghost use Rattle.std.specs.List.{AllByRecursion};
    ghost use Rattle.spiffe_doc.specs.declared.authority.Authority.{Authority};
    ghost use Rattle.spiffe_doc.specs.Private.Places.{authorities_in, IsEntryAt};

    ghost Value = { List Authority };

    ghost view = { λ it. authorities_in it.text.now it.places.now };

    ghost invariant = { λ it. AllByRecursion (IsEntryAt it.text.now) it.places.now };
}

impl<'a> Iterator for Entries<'a> {
    type Item = Entry<'a>;

    ghost next_gives = { YieldsFirst (λ rest. rest) };

    ghost remaining = { item_count (λ rest. rest) };

    fn next(&mut self) -> Option<Entry<'a>> {
        let (first, rest) = self.places.split_first()?;
        self.places = rest;
        Some(Entry::at(self.text, first))
    }
}

/// An authority, as it stands in a canonical text. It takes no memory.
#[derive(Drop)]
pub struct Entry<'a> {
    text: &'a [u8],
    is_x509: bool,
}

impl<'a> Model for Entry<'a> {
    ghost use Rattle.spiffe_doc.specs.declared.authority.Authority.{Authority};
    ghost use Rattle.spiffe_doc.specs.Private.Entries.{authority_in, IsEntry};

    ghost Value = { Authority };

    ghost view = { λ entry. authority_in entry.text.now };

    ghost invariant = { λ entry. IsEntry entry.text.now entry.is_x509 };
}

impl<'a> Entry<'a> {
    ghost use Rattle.spiffe_doc.specs.Private.Entries.{IsEntry};

    /// The one of this text, which is of an X.509 authority or not.
    pub(crate) fn new(text: &'a [u8], is_x509: bool) -> Entry<'a>
        requires { IsEntry text.now is_x509 }
        ensures { result ≡ authority_in text.now }
    {
        Entry { text, is_x509 }
    }

    /// The one at this place of a text.
    fn at(text: &'a [u8], place: &Place) -> Entry<'a>
        requires { IsEntryAt text.now place.now }
        ensures { result ≡ authority_in (piece text.now place.now) }
    {
        Entry {
            text: &text[place.start..place.end],
            is_x509: place.is_x509,
        }
    }

    /// Its canonical text: compact JSON of a JWK (RFC 7517, section 4).
    pub fn text(&self) -> &'a [u8]
        ensures value { result.now ≡ entry_text self.now }
        ensures valid { IsAuthority self.now }
    {
        self.text
    }

    /// Whether it signs X.509-SVIDs; otherwise it signs JWT-SVIDs.
    pub fn is_x509(&self) -> bool
        ensures { result ≡ of_x509 self.now }
    {
        self.is_x509
    }

    /// The authority by itself. Errors only if memory runs out.
    pub fn decode(&self, alloc: Global) -> Result<Authority, Memory>
        ensures { IfOk result (λ authority. authority ≡ self.now) }
    {
        let mut scratch = Scratch::new(alloc);
        let Ok(tree) = read_tree(alloc, self.text, &mut scratch) else {
            return Err(AllocError);
        };
        match judge(alloc, 0, &tree) {
            Ok(Some(given)) => given.decode(alloc),
            // It is the text of an authority: only memory can have run out.
            _ => Err(AllocError),
        }
    }
}

impl<'a> PartialEq for Entry<'a> {
    ghost use Rattle.std.specs.Cmp.{partial_equiv_from_equiv, decided};
    ghost use Rattle.spiffe_doc.specs.Equal.{authority_eq};
    ghost use Rattle.spiffe_doc.specs.Private.Equality.{authority_decides};

    ghost eq = { authority_eq };

    ghost laws = { partial_equiv_from_equiv (decided authority_eq authority_decides) };

    fn eq(&self, other: &Entry<'a>) -> bool {
        self.text == other.text
    }
}
