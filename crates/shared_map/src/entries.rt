//! The entries of a map, one after another.
ghost use Rattle.std.specs.Prelude.{◌≡◌, length};
ghost use Rattle.std.specs.Iterator.{at_most};
ghost use Rattle.std.specs.Map.Iter.{TakesFirst, deref_pair};
ghost use Rattle.shared_map.specs.Walk.{left};

use crate::Shared;
use crate::level::Level;
use crate::run::Run;
use spiffe_doc::TrustDomain;
use std::marker::Model;

/// The entries of a map in order. Clauses see the list of those that are still to come.
#[derive(Drop)]
pub struct Entries<'a, V> {
    pub(crate) slots: &'a [(TrustDomain, V)],
    pub(crate) runs: &'a [(TrustDomain, Run<V>)],
    pub(crate) groups: &'a [(TrustDomain, Level<Run<V>>)],
    pub(crate) regions: &'a [(TrustDomain, Level<Level<Run<V>>>)],
}

impl<'a, V> Model for Entries<'a, V> {
    ghost use Rattle.std.specs.Prelude.{List, ℕ};

    ghost Value = { List (List ℕ × V) };

    ghost use Rattle.shared_map.specs.Walk.{left};

    ghost view = { λ entries. left entries.slots.now entries.runs.now entries.groups.now entries.regions.now };
}

impl<'a, V> Entries<'a, V> {
    /// Those of a run, then those of runs, of groups and of regions.
    pub(crate) fn new(
        slots: &'a [(TrustDomain, V)],
        runs: &'a [(TrustDomain, Run<V>)],
        groups: &'a [(TrustDomain, Level<Run<V>>)],
        regions: &'a [(TrustDomain, Level<Level<Run<V>>>)],
    ) -> Entries<'a, V>
        ensures { result ≡ left slots.now runs.now groups.now regions.now }
    {
        Entries {
            slots,
            runs,
            groups,
            regions,
        }
    }
}

impl<'a, V: Shared> Iterator for Entries<'a, V> {
    type Item = (&'a TrustDomain, &'a V);

    ghost next_gives = { TakesFirst deref_pair };

    ghost remaining = { λ entries. at_most (length entries) };

    fn next(&mut self) -> Option<(&'a TrustDomain, &'a V)> {
        while self.slots.is_empty() {
            if let Some((run, rest)) = self.runs.split_first() {
                self.slots = run.1.slots();
                self.runs = rest;
            } else if let Some((group, rest)) = self.groups.split_first() {
                self.runs = group.1.parts();
                self.groups = rest;
            } else {
                let (region, rest) = self.regions.split_first()?;
                self.groups = region.1.parts();
                self.regions = rest;
            }
        }
        let (slot, rest) = self.slots.split_first()?;
        self.slots = rest;
        Some((&slot.0, &slot.1))
    }
}
