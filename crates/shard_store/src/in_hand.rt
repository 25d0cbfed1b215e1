//! An operation on a shard's version where it is: nothing is copied if nobody else owns the version.
ghost use Rattle.std.specs.Prelude.{◌≡◌, ◌^◌, ◌<◌, IfOk, IfSome};
ghost use Rattle.shard_store.specs.Private.Seat.{IsAtHome, Holds, AsksInHand};

use crate::holds::Hold;
use crate::one_shard::LAST_REVISION;
use crate::rule::StoreSeat;
use crate::store::Store;
use crate::tally::Shift;
use map_core::{Op, Reply};
use std::alloc::AllocError;
use std::sync::Arc;

impl Store {
    /// Asks the version in hand, and tells what stood there under the name before, and what stands there now. None if others own it, if the operation is a get, whose version is to be remembered, or if
    /// the shard takes no more changes.
    pub(crate) fn ask_in_hand(
        &self,
        seat: &mut StoreSeat,
        hold: Hold,
        op: &Op,
    ) -> Result<Option<(Reply, Shift)>, AllocError>
        requires held { Holds self.now.id hold seat.old }
        requires home { IsAtHome self.now.id op.now hold.shard }
        ensures seat { (seat.new.table_id ≡ self.now.id) × (seat.new.me.0 ≡ seat.old.me.0) }
        ensures asked { AsksInHand self.now.id.slots hold.shard op.now seat.old.me.0.seen result seat.new.me }
        ensures within { IfOk result (λ found. IfSome found (λ _. hold.word < 2 ^ 63)) }
    {
        if hold.word / 2 >= LAST_REVISION || matches!(op, Op::Get(_)) {
            return Ok(None);
        }
        let Some(version) = seat.slot_mut(&self.shards.shared, hold.shard) else {
            return Ok(None);
        };
        let Some(contents) = Arc::get_mut(version) else {
            return Ok(None);
        };
        let copy = op.copy()?;
        let before = contents.standing(op);
        match contents.ask(copy) {
            Ok(reply) => {
                let after = contents.standing(op);
                Ok(Some((reply, Shift { before, after })))
            }
            Err(_) => Err(AllocError),
        }
    }
}
