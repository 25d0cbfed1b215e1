//! What a level is made of: a run of entries, or a level again.
ghost use Rattle.std.specs.Prelude.{◌≡◌, [], ◌∷◌, ◌++◌, not, is_some, IfOk, OnOk, OnErr, IsTrue, MatchOption, option_copied};
ghost use Rattle.std.specs.FinMap.Entries.{find};
ghost use Rattle.shared_map.specs.Name.{name_cmp};
ghost use Rattle.shared_map.specs.Marks.{Marks, IsSorted, IsSameBut, entry, fence, plain, with, without};

use crate::Shared;
use crate::run::Run;
use crate::search::{Seat, seat_of};
use spiffe_doc::TrustDomain;
use std::alloc::{AllocError, Global};

/// Entries under names, with fences between them. The order of both is no promise of a part: what it does is told of
/// one in order.
pub(crate) trait Part<V>: Shared {
    /// The entries and the fences, in order.
    ghost marks: { Self → Marks V };

    /// One entry.
    fn of(alloc: Global, name: TrustDomain, value: V) -> Result<Self, AllocError>
        ensures { IfOk result (λ part. marks part ≡ entry (name, value) ∷ []) };

    /// What stands under the name.
    fn get(&self, name: &TrustDomain) -> Option<&V>
        ensures { IsSorted (marks self.now) → option_copied result ≡ find name_cmp name.now (plain (marks self.now)) };

    /// Halves what is long on the way to the name, so that an entry more finds room. Errors if memory runs out. What it
    /// shows is the same.
    fn make_room(&mut self, name: &TrustDomain) -> Result<(), AllocError>
        ensures { IsSameBut (marks self.new) (marks self.old) };

    /// Puts a value under the name, and tells whether the name is new.
    fn put(&mut self, name: TrustDomain, value: V) -> Result<bool, AllocError>
        ensures ok { OnOk result (IsSorted (marks self.old) → IsSameBut (marks self.new) (with name value (marks self.old))) }
        ensures is_new { IfOk result (λ is_new. IsSorted (marks self.old) → is_new ≡ not (is_some (find name_cmp name (plain (marks self.old))))) }
        ensures err { OnErr result (self.new ≡ self.old) };

    /// Takes away what stands under the name, if anything does.
    fn take_out(&mut self, name: &TrustDomain) -> Result<(), AllocError>
        ensures ok { OnOk result (IsSorted (marks self.old) → IsSameBut (marks self.new) (without name.now (marks self.old))) }
        ensures err { OnErr result (self.new ≡ self.old) };

    /// Whether nothing is left of it.
    fn is_empty(&self) -> bool
        ensures { IsTrue result → marks self.now ≡ [] };

    /// Whether it has as many entries or parts as it may have, so that it should be halved before it gets one more.
    fn is_long(&self) -> bool;

    /// Gives its second half, with the fence before it. None if it is short. Errors if memory runs out, and nothing has
    /// changed.
    fn halve(&mut self) -> Result<Option<(TrustDomain, Self)>, AllocError>
        ensures ok { IfOk result (λ half. MatchOption half (self.new ≡ self.old) (λ half. IsSameBut (marks self.new ++ (fence half.0 ∷ marks half.1)) (marks self.old))) }
        ensures err { OnErr result (self.new ≡ self.old) };
}

impl<V: Shared> Part<V> for Run<V> {
    ghost use Rattle.shared_map.specs.Marks.{entries_only};

    ghost marks = { entries_only };

    fn of(alloc: Global, name: TrustDomain, value: V) -> Result<Run<V>, AllocError> {
        Run::one(alloc, name, value)
    }

    fn get(&self, name: &TrustDomain) -> Option<&V> {
        let slots = self.slots();
        match seat_of(slots, name, self.guess(name)) {
            Seat::Taken(place) => Some(&slots[place].1),
            Seat::Free(_) => None,
        }
    }

    fn make_room(&mut self, _name: &TrustDomain) -> Result<(), AllocError> {
        Ok(())
    }

    fn put(&mut self, name: TrustDomain, value: V) -> Result<bool, AllocError> {
        match seat_of(self.slots(), &name, self.guess(&name)) {
            Seat::Taken(place) => {
                self.set(place, value)?;
                Ok(false)
            }
            Seat::Free(place) => {
                self.insert(place, name, value)?;
                Ok(true)
            }
        }
    }

    fn take_out(&mut self, name: &TrustDomain) -> Result<(), AllocError> {
        match seat_of(self.slots(), name, self.guess(name)) {
            Seat::Taken(place) => self.remove(place),
            Seat::Free(_) => Ok(()),
        }
    }

    fn is_empty(&self) -> bool {
        self.slots().is_empty()
    }

    fn is_long(&self) -> bool {
        Run::is_long(self)
    }

    fn halve(&mut self) -> Result<Option<(TrustDomain, Run<V>)>, AllocError> {
        self.split()
    }
}
