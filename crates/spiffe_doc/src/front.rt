//! A document's canonical text up to its last entry.
ghost use Rattle.std.specs.Prelude.{◌≡◌, ◌++◌, ◌∷◌, [], IfOk, OnOk};
ghost use Rattle.spiffe_doc.specs.Private.Fronts.{IsWholeFront, listed};

use crate::entries::{Authorities, Entry};
use crate::place::Place;
use crate::text::push_entry;
use std::alloc::{AllocError, Allocator};

/// The canonical text of a document up to its last entry, and where its entries stand.
#[derive(Drop)]
pub(crate) struct Front<A: Allocator> {
    pub(crate) text: Vec<u8, A>,
    pub(crate) places: Vec<Place, A>,
}

impl<A: Allocator> Front<A> {
    /// Adds an entry at the end.
    pub(crate) fn push(&mut self, entry: &Entry<'_>) -> Result<(), AllocError>
        requires whole { IsWholeFront self.old }
        ensures whole { OnOk result (IsWholeFront self.new) }
        ensures value { OnOk result (listed self.new ≡ listed self.old ++ entry.now ∷ []) }
    {
        let text = entry.text();
        push_entry(&mut self.text, self.places.is_empty(), text)?;
        let end = self.text.len();
        let place = Place {
            start: end - text.len(),
            end,
            is_x509: entry.is_x509(),
        };
        self.places.push(place)?;
        Ok(())
    }

    /// The authorities of the entries.
    pub(crate) fn authorities(&self) -> Authorities<'_>
        requires whole { IsWholeFront self.now }
        ensures { result ≡ listed self.now }
    {
        Authorities::new(self.text.as_slice(), self.places.as_slice())
    }
}

impl<A: Allocator + Copy> Front<A> {
    /// No entries. There is room for a text of so many bytes, which then need not grow.
    pub(crate) fn new(alloc: A, room: usize) -> Result<Front<A>, AllocError>
        ensures whole { IfOk result IsWholeFront }
        ensures value { IfOk result (λ front. listed front ≡ []) }
    {
        let mut text = Vec::with_capacity(alloc, room)?;
        text.extend_from_slice(b"{\"keys\":[")?;
        Ok(Front {
            text,
            places: Vec::new(alloc),
        })
    }
}
