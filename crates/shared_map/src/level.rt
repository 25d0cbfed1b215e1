//! A node of parts.
ghost use Rattle.std.specs.Prelude.{◌≡◌, ◌<◌, [], ◌∷◌, ◌++◌, length, not, is_some, IfOk, IfSome, OnOk, OnErr};
ghost use Rattle.std.specs.FinMap.Entries.{find};
ghost use Rattle.shared_map.specs.Name.{name_cmp};
ghost use Rattle.shared_map.specs.Places.{IsReached};
ghost use Rattle.shared_map.specs.Marks.{IsSorted, IsSameBut, plain, with, without, marks_of};

use crate::Shared;
use crate::page::Page;
use crate::part::Part;
use crate::run::Run;
use crate::search::reach;
use spiffe_doc::TrustDomain;
use std::alloc::{AllocError, Global};
use std::sync::Arc;

/// Parts in order. Each but the first has a fence: a name that is at most those of its entries, and after all before.
#[derive(Drop)]
pub(crate) struct Level<P> {
    parts: Run<P>,
}

impl<P: Shared> Shared for Level<P> {
    fn copy(&self) -> Result<Level<P>, AllocError> {
        Ok(Level {
            parts: self.parts.copy()?,
        })
    }
}

impl<P: Shared> Level<P> {
    /// The parts in order.
    pub(crate) fn parts(&self) -> &[(TrustDomain, P)]
        ensures { result.now ≡ self.now.parts }
    {
        self.parts.slots()
    }

    /// The two halves of a part, which itself stays. None if it is short. Errors if memory runs out.
    pub(crate) fn of_halves<V>(alloc: Global, part: &P) -> Result<Option<Level<P>>, AllocError>
    where
        P: Part<V>,
        ensures { IfOk result (λ halves. IfSome halves (λ level. IsSameBut (marks_of P.marks level.parts) (P.marks part.now))) }
    {
        if !part.is_long() {
            return Ok(None);
        }
        let mut first = part.copy()?;
        let Some((name, second)) = first.halve()? else {
            return Ok(None);
        };
        Ok(Some(Level::of_two(alloc, first, name, second)?))
    }

    fn of_two(alloc: Global, first: P, name: TrustDomain, second: P) -> Result<Level<P>, AllocError>
        ensures { IfOk result (λ level. level.parts ≡ (name, first) ∷ (name, second) ∷ []) }
    {
        let mut parts = Run::one(alloc, name.copy()?, first)?;
        parts.insert(1, name, second)?;
        Ok(Level { parts })
    }
}

impl<V: Shared, P: Part<V>> Part<V> for Level<P> {
    ghost use Rattle.shared_map.specs.Marks.{marks_of};

    ghost marks = { λ level. marks_of P.marks level.parts };

    fn of(alloc: Global, name: TrustDomain, value: V) -> Result<Level<P>, AllocError> {
        let fence = name.copy()?;
        let part = P::of(alloc, name, value)?;
        Ok(Level {
            parts: Run::one(alloc, fence, part)?,
        })
    }

    fn get(&self, name: &TrustDomain) -> Option<&V> {
        let parts = self.parts.slots();
        let place = reach(parts, name, self.parts.guess(name))?;
        parts[place].1.get(name)
    }

    fn make_room(&mut self, name: &TrustDomain) -> Result<(), AllocError> {
        match reach(self.parts.slots(), name, self.parts.guess(name)) {
            None => Ok(()),
            Some(place) => make_room_at::<V, P>(&mut self.parts, place, name),
        }
    }

    fn put(&mut self, name: TrustDomain, value: V) -> Result<bool, AllocError> {
        match reach(self.parts.slots(), &name, self.parts.guess(&name)) {
            None => {
                let alloc = self.parts.alloc();
                let fence = name.copy()?;
                let part = P::of(alloc, name, value)?;
                self.parts = Run::one(alloc, fence, part)?;
                Ok(true)
            }
            Some(place) => put_at(&mut self.parts, place, name, value),
        }
    }

    fn take_out(&mut self, name: &TrustDomain) -> Result<(), AllocError> {
        if let Some(place) = reach(self.parts.slots(), name, self.parts.guess(name)) {
            take_at::<V, P>(&mut self.parts, place, name)?;
        }
        Ok(())
    }

    fn is_empty(&self) -> bool {
        self.parts.slots().is_empty()
    }

    fn is_long(&self) -> bool {
        self.parts.is_long()
    }

    fn halve(&mut self) -> Result<Option<(TrustDomain, Level<P>)>, AllocError> {
        let Some((name, parts)) = self.parts.split()? else {
            return Ok(None);
        };
        Ok(Some((name, Level { parts })))
    }
}

/// Puts a value under the name in the part at a place, and tells whether the name is new.
fn put_at<V: Shared, P: Part<V>>(
    parts: &mut Run<P>,
    place: usize,
    name: TrustDomain,
    value: V,
) -> Result<bool, AllocError>
    requires { IsReached name parts.old place }
    ensures ok { OnOk result (IsSorted (marks_of P.marks parts.old) → IsSameBut (marks_of P.marks parts.new) (with name value (marks_of P.marks parts.old))) }
    ensures is_new { IfOk result (λ is_new. IsSorted (marks_of P.marks parts.old) → is_new ≡ not (is_some (find name_cmp name (plain (marks_of P.marks parts.old))))) }
    ensures err { OnErr result (parts.new ≡ parts.old) }
{
    let page = Arc::make_mut(&mut parts.page)?;
    page.slots[place].1.put(name, value)
}

/// Takes away what stands under the name in the part at a place, and the part if nothing is left of it.
fn take_at<V, P: Part<V>>(
    parts: &mut Run<P>,
    place: usize,
    name: &TrustDomain,
) -> Result<(), AllocError>
    requires { IsReached name.now parts.old place }
    ensures ok { OnOk result (IsSorted (marks_of P.marks parts.old) → IsSameBut (marks_of P.marks parts.new) (without name.now (marks_of P.marks parts.old))) }
    ensures err { OnErr result (parts.new ≡ parts.old) }
{
    let page = Arc::make_mut(&mut parts.page)?;
    page.slots[place].1.take_out(name)?;
    if page.slots[place].1.is_empty() {
        page.slots.remove(place);
        page.note_gone(place);
    }
    Ok(())
}

/// Halves what is long on the way to the name in the part at a place, and then that part, if it is long.
fn make_room_at<V, P: Part<V>>(
    parts: &mut Run<P>,
    place: usize,
    name: &TrustDomain,
) -> Result<(), AllocError>
    requires { IsReached name.now parts.old place }
    ensures { IsSameBut (marks_of P.marks parts.new) (marks_of P.marks parts.old) }
{
    let page = Arc::make_mut(&mut parts.page)?;
    page.slots[place].1.make_room(name)?;
    halve_in::<V, P>(page, place)
}

/// Makes two parts of the one at a place, if it is long.
fn halve_in<V, P: Part<V>>(page: &mut Page<P>, place: usize) -> Result<(), AllocError>
    requires { place < length page.old.slots.items }
    ensures { IsSameBut (marks_of P.marks page.new.slots.items) (marks_of P.marks page.old.slots.items) }
{
    if !page.slots[place].1.is_long() {
        return Ok(());
    }
    page.make_room()?;
    if let Some(half) = page.slots[place].1.halve()? {
        let _ = page.slots.insert(place + 1, half);
        page.note_new(place + 1);
    }
    Ok(())
}
