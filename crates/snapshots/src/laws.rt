//! What follows from the definitions.
ghost use Rattle.snapshots.specs.Laws.{AreApart, StayInside};
ghost use Rattle.snapshots.specs.Seen.{OneMoment};

/// Each file of a snapshot is in its folder, whatever the trust domains are called.
pub fn files_stay_inside()
    ensures { StayInside }
{}

/// Files of different domains and of different kinds have different names.
pub fn files_are_apart()
    ensures { AreApart }
{}

/// Whenever a reader looks while a snapshot is written and shown, it sees the files of one snapshot: all of the one before, or
/// all of the new one.
pub fn readers_see_one_moment()
    ensures { OneMoment }
{}
