//! What follows from the definitions. Each law is the contract of a function that does nothing.
ghost use Rattle.refresh.specs.Laws.{DueIsLater, EqualIsUnchanged, OlderIsRefused, OnlyStoredChanges, OthersStay};

use map_core::Ask;

/// A due time is never before now, and later unless now is the end of time.
pub fn due_is_later()
    ensures { DueIsLater }
{}

/// A refresh of a plain map leaves what all names but the relationship's hold, whatever was fetched.
pub fn others_stay()
    ensures { OthersStay }
{}

/// A document of the bundle that is held is answered by Unchanged, and the map stays.
pub fn equal_is_unchanged()
    ensures { EqualIsUnchanged }
{}

/// A document of a lower sequence than that of the bundle that is held is refused, and the map stays.
pub fn older_is_refused()
    ensures { OlderIsRefused }
{}

/// A refresh over whoever shows a map changes that map only if it comes to Stored, whatever was fetched.
pub fn only_stored_changes<A: Ask>()
    ensures { OnlyStoredChanges A.answers A.shows }
{}
