//! A shared node.
ghost use Rattle.std.specs.Prelude.{◌≡◌, ◌≢◌, ◌<◌, ◌≤◌, List, ℕ, [], ◌∷◌, ◌++◌, length, IfOk, OnOk, OnErr, MatchOption, IsTrue, ◌↔◌};
ghost use Rattle.std.specs.List.{insert, remove};
ghost use Rattle.shared_map.specs.Places.{Around, IsSplit};

use crate::Shared;
use crate::hints::Hints;
use crate::page::{MOST, Page, STEP};
use spiffe_doc::TrustDomain;
use std::alloc::{AllocError, Global};
use std::marker::Model;
use std::sync::Arc;

/// Names, with what stands under each, in one shared node. Clauses see the list of them.
#[derive(Drop)]
pub(crate) struct Run<X> {
    pub(crate) page: Arc<Page<X>>,
}

impl<X> Model for Run<X> {
    ghost use Rattle.std.specs.Prelude.{List, ℕ};
    ghost use Rattle.std.specs.Arc.{arc_value};

    ghost Value = { List (List ℕ × X) };

    ghost view = { λ run. (arc_value run.page).slots.items };
}

impl<X: Shared> Shared for Run<X> {
    fn copy(&self) -> Result<Run<X>, AllocError> {
        Ok(Run {
            page: Arc::try_clone(&self.page)?,
        })
    }
}

impl<X: Shared> Run<X> {
    /// One name.
    pub(crate) fn one(alloc: Global, name: TrustDomain, held: X) -> Result<Run<X>, AllocError>
        ensures { IfOk result (λ run. run ≡ (name, held) ∷ []) }
    {
        let mut slots = Vec::with_capacity(alloc, STEP)?;
        slots.push((name, held))?;
        Run::from_slots(alloc, slots)
    }

    fn from_slots(alloc: Global, slots: Vec<(TrustDomain, X)>) -> Result<Run<X>, AllocError>
        ensures { IfOk result (λ run. run ≡ slots.items) }
    {
        let hints = Hints::of(&slots);
        match Arc::new(alloc, Page { slots, hints }) {
            Ok(page) => Ok(Run { page }),
            Err(_) => Err(AllocError),
        }
    }

    /// Where its memory is from.
    pub(crate) fn alloc(&self) -> Global {
        *self.page.slots.allocator()
    }

    /// The names in order.
    pub(crate) fn slots(&self) -> &[(TrustDomain, X)]
        ensures { result.now ≡ self.now }
    {
        &self.page.slots
    }

    /// A place where a search for the name should begin.
    pub(crate) fn guess(&self, name: &TrustDomain) -> usize {
        self.page.hints.guess(name)
    }

    /// Puts this under the name at a place.
    pub(crate) fn set(&mut self, place: usize, held: X) -> Result<(), AllocError>
        requires { place < length self.old }
        ensures ok { OnOk result ((a : Around self.old place) → self.new ≡ a.front ++ (a.item.0, held) ∷ a.back) }
        ensures err { OnErr result (self.new ≡ self.old) }
    {
        let page: &mut Page<X> = Arc::make_mut(&mut self.page)?;
        page.slots[place].1 = held;
        Ok(())
    }

    /// Puts a name in at a place.
    pub(crate) fn insert(
        &mut self,
        place: usize,
        name: TrustDomain,
        held: X,
    ) -> Result<(), AllocError>
        requires { place ≤ length self.old }
        ensures ok { OnOk result (self.new ≡ insert self.old place (name, held)) }
        ensures err { OnErr result (self.new ≡ self.old) }
    {
        let page: &mut Page<X> = Arc::make_mut(&mut self.page)?;
        page.make_room()?;
        match page.slots.insert(place, (name, held)) {
            Ok(()) => {
                page.note_new(place);
                Ok(())
            }
            Err(_) => Err(AllocError),
        }
    }

    /// Takes out the name at a place.
    pub(crate) fn remove(&mut self, place: usize) -> Result<(), AllocError>
        requires { place < length self.old }
        ensures ok { OnOk result (self.new ≡ remove self.old place) }
        ensures err { OnErr result (self.new ≡ self.old) }
    {
        let page: &mut Page<X> = Arc::make_mut(&mut self.page)?;
        page.slots.remove(place);
        page.note_gone(place);
        Ok(())
    }

    /// Whether it has as many names as a node may have, or more.
    pub(crate) fn is_long(&self) -> bool
        ensures { IsTrue result ↔ 31 ≤ length self.now }
    {
        self.slots().len() >= MOST
    }

    /// Keeps the first half and gives the second, and the name that it begins with. None if it has few.
    /// Errors if memory runs out, and nothing has changed.
    pub(crate) fn split(&mut self) -> Result<Option<(TrustDomain, Run<X>)>, AllocError>
        ensures ok { IfOk result (λ half. MatchOption half (self.new ≡ self.old) (λ half. IsSplit self.old self.new half.0 half.1)) }
        ensures err { OnErr result (self.new ≡ self.old) }
    {
        if !self.is_long() {
            return Ok(None);
        }
        let page: &mut Page<X> = Arc::make_mut(&mut self.page)?;
        let (name, page) = page.split()?;
        Ok(Some((name, Run { page })))
    }
}
