//! Laws of what passes have seen.
ghost use Rattle.shard_store.specs.Laws.{AloneHasSeenAll, AnswersContinue, ChangesAsAsked, KeepsOwnChanges, LaterIsLater, RepliesFollow, UnchangedIsLater};

/// A list that extends what a pass has seen holds, under each number of the pass, just the changes that it had seen.
pub fn keeps_own_changes()
    ensures { KeepsOwnChanges }
{}

/// A pass that is alone has seen all changes.
pub fn alone_has_seen_all()
    ensures { AloneHasSeenAll }
{}

/// What was seen later is later than all that was seen before.
pub fn later_is_later()
    ensures { LaterIsLater }
{}

/// The change of an operation leaves the map that the operation leaves.
pub fn changes_as_asked()
    ensures { ChangesAsAsked }
{}

/// After an answer that tells of no change, a pass has seen what it had, and besides that only changes of others.
pub fn unchanged_is_later()
    ensures { UnchangedIsLater }
{}

/// What a pass is answered after it has seen more is also an answer to what it had seen before.
pub fn answers_continue()
    ensures { AnswersContinue }
{}

/// Two replies to a pass, one after the other, are replies of one history.
pub fn replies_follow()
    ensures { RepliesFollow }
{}
