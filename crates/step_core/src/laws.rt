//! Laws of the machine, for every number of shards and rounds and every list of events.
ghost use Rattle.step_core.specs.Laws.{RunsMachine, HasPlaces, NamesAreAnswered, HoldsBetween, ConfirmedStood, FetchesAreAnswered, HasOneOrder, ShowsOneMoment};
ghost use Rattle.step_core.specs.Disturbance.{MovedWasDisturbed};

/// The run of a list of events is a run of the machine.
pub fn runs_machine()
    ensures { RunsMachine }
{}

/// The order by points holds each operation that took effect, once, and no other; each has a linearization point between
/// its first event and its last, and these rise.
pub fn has_places()
    ensures { HasPlaces }
{}

/// The plain map, asked along the order by points, gives each finished operation on one name its reply.
pub fn names_are_answered()
    ensures { NamesAreAnswered }
{}

/// A shard whose revision is the same at two moments has held the same part at every moment between.
pub fn holds_between()
    ensures { HoldsBetween }
{}

/// A shard that is confirmed at the revision that was read has held the part that was read ever since.
pub fn confirmed_stood()
    ensures { ConfirmedStood }
{}

/// The plain map, asked along the order by points, gives each fetch-all that was answered its reply.
pub fn fetches_are_answered()
    ensures { FetchesAreAnswered }
{}

/// A fetch-all that is refused as moved was disturbed by other callers at least once a round.
pub fn moved_was_disturbed()
    ensures { MovedWasDisturbed }
{}

/// The order by points is a linearization: each operation that took effect has a moment between its first event and its
/// last, and the plain map, asked in the order of these moments, gives every reply.
pub fn one_order()
    ensures { HasOneOrder }
{}

/// A fetch-all that is answered shows all bundles as they stood together at one moment of that order, or says that they
/// had the digest that it knows then.
pub fn shows_one_moment()
    ensures { ShowsOneMoment }
{}
