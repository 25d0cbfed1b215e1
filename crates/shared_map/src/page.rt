//! What one node holds.
ghost use Rattle.std.specs.Prelude.{◌≡◌, ◌<◌, length, IfOk, OnOk, OnErr, vec_len, vec_capacity};
ghost use Rattle.std.specs.Arc.{arc_value};
ghost use Rattle.shared_map.specs.Places.{IsSplit};

use crate::Shared;
use crate::hints::Hints;
use spiffe_doc::TrustDomain;
use std::alloc::AllocError;
use std::sync::Arc;

/// How many places a full page grows by: few, so that few are empty.
pub(crate) const STEP: usize = 4;

/// The most names of a page that is not halved. A change of a page that is shared copies it, and counts the owners of all
/// that stands in it; but the more names a page has, the fewer levels a search goes through.
pub(crate) const MOST: usize = 31;

/// Names, with what stands under each.
#[derive(Drop)]
pub(crate) struct Page<X> {
    pub(crate) slots: Vec<(TrustDomain, X)>,
    /// Where a search begins: no part of what the page shows.
    pub(crate) hints: Hints,
}

impl<X: Shared> Page<X> {
    /// The same page, with room for one more name.
    fn copy(&self) -> Result<Page<X>, AllocError>
        ensures { IfOk result (λ copy. copy.slots.items ≡ self.now.slots.items) }
    {
        let room = (self.slots.len() | (STEP - 1)).saturating_add(1);
        let mut slots = Vec::with_capacity(*self.slots.allocator(), room)?;
        for slot in &self.slots {
            slots.push((slot.0.copy()?, slot.1.copy()?))?;
        }
        Ok(Page {
            slots,
            hints: self.hints,
        })
    }

    /// Makes the hints anew.
    fn note_all(&mut self)
        ensures { self.new.slots ≡ self.old.slots }
    {
        self.hints = Hints::of(&self.slots);
    }

    /// Minds a name that was put in at a place.
    pub(crate) fn note_new(&mut self, place: usize)
        ensures { self.new.slots ≡ self.old.slots }
    {
        self.hints.take_in(&self.slots, place);
    }

    /// Minds that the name at a place was taken out.
    pub(crate) fn note_gone(&mut self, place: usize)
        ensures { self.new.slots ≡ self.old.slots }
    {
        self.hints.take_out(place);
    }

    /// Has room for one more name.
    pub(crate) fn make_room(&mut self) -> Result<(), AllocError>
        ensures items { self.new.slots.items ≡ self.old.slots.items }
        ensures ok { OnOk result (vec_len self.new.slots < vec_capacity self.new.slots) }
    {
        if self.slots.len() < self.slots.capacity() {
            return Ok(());
        }
        self.slots.reserve_exact(STEP)
    }

    /// Keeps the first half and gives the second, and the name that it begins with. Errors if memory runs out, and nothing
    /// has changed.
    pub(crate) fn split(&mut self) -> Result<(TrustDomain, Arc<Page<X>>), AllocError>
        requires { 1 < length self.old.slots.items }
        ensures ok { IfOk result (λ half. IsSplit self.old.slots.items self.new.slots.items half.0 (arc_value half.1).slots.items) }
        ensures err { OnErr result (self.new.slots.items ≡ self.old.slots.items) }
    {
        let half = self.slots.len() / 2;
        let name = self.slots[half].0.copy()?;
        let alloc = *self.slots.allocator();
        let slots = Vec::new(alloc);
        let hints = Hints::new();
        let Ok(mut other) = Arc::new(alloc, Page { slots, hints }) else {
            return Err(AllocError);
        };
        let Some(page) = Arc::get_mut(&mut other) else {
            return Err(AllocError);
        };
        page.slots = self.slots.split_off(half)?;
        page.note_all();
        self.slots.shrink_to_fit();
        self.note_all();
        Ok((name, other))
    }
}

impl<X: Shared> Clone for Page<X> {
    ghost use Rattle.std.specs.Prelude.{◌≡◌};

    ghost is_clone = { λ page clone. clone.slots.items ≡ page.slots.items };

    fn clone(&self) -> Result<Page<X>, AllocError> {
        self.copy()
    }
}
