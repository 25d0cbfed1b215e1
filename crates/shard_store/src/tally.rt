//! What the changes of a pass have brought to the map, and what they have taken away.
ghost use Rattle.std.specs.Prelude.{◌≡◌};
ghost use Rattle.shard_store.specs.Tally.{both_flows, both_tallies, is_bundle, is_mark, moved, no_tally, tallied};

use map_core::Standing;

/// What stood under the name of a change before it, and what stands there by it.
#[derive(Clone, Copy)]
pub(crate) struct Shift {
    pub before: Standing,
    pub after: Standing,
}

/// How many have come, and how many have gone. Neither goes beyond what a u64 holds.
#[derive(Clone, Copy)]
pub struct Flow {
    pub come: u64,
    pub gone: u64,
}

impl Flow {
    /// The flow after a name where one was, or was not, and where one is now, or is not.
    fn moved(self, was: bool, is: bool) -> Flow
        ensures { result ≡ moved was is self }
    {
        let Flow { come, gone } = self;
        match (was, is) {
            (false, true) => Flow {
                come: come.saturating_add(1),
                gone,
            },
            (true, false) => Flow {
                come,
                gone: gone.saturating_add(1),
            },
            _ => self,
        }
    }

    fn with(self, other: Flow) -> Flow
        ensures { result ≡ both_flows self other }
    {
        Flow {
            come: self.come.saturating_add(other.come),
            gone: self.gone.saturating_add(other.gone),
        }
    }
}

/// What the changes of a pass have brought and taken: bundles, and marks of removed ones.
#[derive(Clone, Copy)]
pub struct Tally {
    pub bundles: Flow,
    pub marks: Flow,
}

impl Tally {
    /// That of a pass that has changed nothing.
    pub(crate) fn new() -> Tally
        ensures { result ≡ no_tally }
    {
        let none = Flow { come: 0, gone: 0 };
        Tally {
            bundles: none,
            marks: none,
        }
    }

    /// The tally after one change more.
    pub(crate) fn counted(self, shift: Shift) -> Tally
        ensures { result ≡ tallied shift.before shift.after self }
    {
        let Shift { before, after } = shift;
        Tally {
            bundles: self.bundles.moved(bundle_in(before), bundle_in(after)),
            marks: self.marks.moved(mark_in(before), mark_in(after)),
        }
    }

    /// That of two passes together.
    pub(crate) fn with(self, other: Tally) -> Tally
        ensures { result ≡ both_tallies self other }
    {
        Tally {
            bundles: self.bundles.with(other.bundles),
            marks: self.marks.with(other.marks),
        }
    }
}

fn bundle_in(standing: Standing) -> bool
    ensures { result ≡ is_bundle standing }
{
    matches!(standing, Standing::Bundle)
}

fn mark_in(standing: Standing) -> bool
    ensures { result ≡ is_mark standing }
{
    matches!(standing, Standing::Mark)
}
