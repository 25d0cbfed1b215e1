//! The top of a map.
ghost use Rattle.std.specs.Prelude.{◌≡◌, [], ◌∷◌, not, is_some, IfOk, IfSome, OnOk, OnErr, option_copied};
ghost use Rattle.std.specs.FinMap.Entries.{find};
ghost use Rattle.shared_map.specs.Name.{name_cmp};
ghost use Rattle.shared_map.specs.Marks.{IsSorted, IsSameBut, entry, plain, with, without};
ghost use Rattle.shared_map.specs.Top.{marks};

use crate::Shared;
use crate::entries::Entries;
use crate::level::Level;
use crate::part::Part;
use crate::run::Run;
use spiffe_doc::TrustDomain;
use std::alloc::{AllocError, Global};

/// All entries of a map. A map begins as one run, and gets a level over it when that is long: each level is one more
/// node on the way of a search, and in a small map that shows.
#[derive(Drop)]
pub(crate) enum Top<V> {
    Run(Run<V>),
    /// Runs.
    Group(Level<Run<V>>),
    /// Groups of runs.
    Region(Level<Level<Run<V>>>),
    /// Regions of groups. It is never raised.
    Whole(Level<Level<Level<Run<V>>>>),
}

impl<V: Shared> Shared for Top<V> {
    fn copy(&self) -> Result<Top<V>, AllocError> {
        Ok(match self {
            Top::Run(run) => Top::Run(run.copy()?),
            Top::Group(group) => Top::Group(group.copy()?),
            Top::Region(region) => Top::Region(region.copy()?),
            Top::Whole(whole) => Top::Whole(whole.copy()?),
        })
    }
}

impl<V: Shared> Top<V> {
    /// One entry.
    pub(crate) fn of(alloc: Global, name: TrustDomain, value: V) -> Result<Top<V>, AllocError>
        ensures { IfOk result (λ top. marks top ≡ entry (name, value) ∷ []) }
    {
        Ok(Top::Run(Run::one(alloc, name, value)?))
    }

    /// What stands under the name.
    pub(crate) fn get(&self, name: &TrustDomain) -> Option<&V>
        ensures { IsSorted (marks self.now) → option_copied result ≡ find name_cmp name.now (plain (marks self.now)) }
    {
        match self {
            Top::Run(run) => run.get(name),
            Top::Group(group) => group.get(name),
            Top::Region(region) => region.get(name),
            Top::Whole(whole) => whole.get(name),
        }
    }

    /// The entries in order.
    pub(crate) fn entries(&self) -> Entries<'_, V>
        ensures { result ≡ plain (marks self.now) }
    {
        match self {
            Top::Run(run) => Entries::new(run.slots(), &[], &[], &[]),
            Top::Group(group) => Entries::new(&[], group.parts(), &[], &[]),
            Top::Region(region) => Entries::new(&[], &[], region.parts(), &[]),
            Top::Whole(whole) => Entries::new(&[], &[], &[], whole.parts()),
        }
    }

    /// Halves what is long on the way to the name, and at last the whole, so that an entry more finds room. Errors if memory
    /// runs out. What it shows is the same.
    pub(crate) fn make_room(&mut self, alloc: Global, name: &TrustDomain) -> Result<(), AllocError>
        ensures { IsSameBut (marks self.new) (marks self.old) }
    {
        self.make_room_in(name)?;
        if let Some(raised) = self.raised(alloc)? {
            *self = raised;
        }
        Ok(())
    }

    fn make_room_in(&mut self, name: &TrustDomain) -> Result<(), AllocError>
        ensures { IsSameBut (marks self.new) (marks self.old) }
    {
        match self {
            Top::Run(run) => run.make_room(name),
            Top::Group(group) => group.make_room(name),
            Top::Region(region) => region.make_room(name),
            Top::Whole(whole) => whole.make_room(name),
        }
    }

    /// Puts a value under the name, and tells whether the name is new. Errors if memory runs out, and nothing has changed.
    pub(crate) fn put(&mut self, name: TrustDomain, value: V) -> Result<bool, AllocError>
        ensures ok { OnOk result (IsSorted (marks self.old) → IsSameBut (marks self.new) (with name value (marks self.old))) }
        ensures is_new { IfOk result (λ is_new. IsSorted (marks self.old) → is_new ≡ not (is_some (find name_cmp name (plain (marks self.old))))) }
        ensures err { OnErr result (self.new ≡ self.old) }
    {
        match self {
            Top::Run(run) => run.put(name, value),
            Top::Group(group) => group.put(name, value),
            Top::Region(region) => region.put(name, value),
            Top::Whole(whole) => whole.put(name, value),
        }
    }

    /// Takes away what stands under the name, if anything does. The levels stay.
    pub(crate) fn take_out(&mut self, name: &TrustDomain) -> Result<(), AllocError>
        ensures ok { OnOk result (IsSorted (marks self.old) → IsSameBut (marks self.new) (without name.now (marks self.old))) }
        ensures err { OnErr result (self.new ≡ self.old) }
    {
        match self {
            Top::Run(run) => run.take_out(name),
            Top::Group(group) => group.take_out(name),
            Top::Region(region) => region.take_out(name),
            Top::Whole(whole) => whole.take_out(name),
        }
    }

    /// The same with a level over its two halves. None if it is short. Errors if memory runs out.
    fn raised(&self, alloc: Global) -> Result<Option<Top<V>>, AllocError>
        ensures { IfOk result (λ raised. IfSome raised (λ raised. IsSameBut (marks raised) (marks self.now))) }
    {
        Ok(match self {
            Top::Run(run) => Level::of_halves(alloc, run)?.map(|halves| Top::Group(halves)),
            Top::Group(group) => Level::of_halves(alloc, group)?.map(|halves| Top::Region(halves)),
            Top::Region(region) => Level::of_halves(alloc, region)?.map(|halves| Top::Whole(
                halves,
            )),
            Top::Whole(_) => None,
        })
    }
}
