//! A pass that holds a shard from one call to the next.
ghost use Rattle.std.specs.Prelude.{◌≡◌, ◌<◌};
ghost use Rattle.shard_store.specs.Changes.{count};
ghost use Rattle.shard_store.specs.Pass.{IsOf};

use crate::desk::Desk;
use crate::holds::Hold;
use crate::pass::Pass;
use crate::store::Store;
use crate::tally::Tally;
use std::marker::Model;

/// A pass that holds a shard. If it is dropped, the shard stays held.
#[derive(Drop)]
pub struct HeldPass {
    pub(crate) desk: Desk,
    pub(crate) numbers: u64,
    pub(crate) hold: Hold,
    pub(crate) tally: Tally,
}

impl Model for HeldPass {
    ghost use Rattle.std.specs.Prelude.{◌≡◌};
    ghost use Rattle.shard_store.specs.Pass.{HeldPassView};
    ghost use Rattle.shard_store.specs.Changes.{own_count};
    ghost use Rattle.shard_store.specs.Private.Seat.{Holds};
    ghost use Rattle.shard_store.specs.Private.LastReads.{AreLastReads};

    ghost Value = { HeldPassView };

    ghost view = { λ h. record { store = h.desk.seat.table_id; seen = h.desk.seat.me.0.seen; tally = h.tally; shard = h.hold.shard } };

    ghost invariant = { λ h. Holds h.desk.seat.table_id h.hold h.desk.seat × (own_count h.desk.seat.me.0.seen.ranges ≡ h.numbers) × AreLastReads h.desk.seat.table_id.slots h.desk.seat.me.0.seen.log h.desk.last_reads.by_shard.items };
}

impl HeldPass {
    /// The shard that is held.
    pub fn shard(&self) -> usize
        ensures { result ≡ self.now.shard }
    {
        self.hold.shard
    }

    /// How many changes the shard has had.
    pub fn revision(&self) -> u64
        ensures { result ≡ count self.now.store.slots self.now.seen.log self.now.shard }
    {
        self.hold.word / 2
    }

    /// Lets the shard go, unchanged.
    pub fn let_go(self, store: &Store) -> Pass
        requires { self.store ≡ store.now.id }
        ensures own { IsOf result store.now }
        ensures seen { result.seen ≡ self.seen }
        ensures tally { result.tally ≡ self.tally }
    {
        let HeldPass {
            mut desk,
            numbers,
            hold,
            tally,
        } = self;
        store.release(&mut desk.seat, hold);
        Pass {
            desk,
            numbers,
            last_all: None,
            tally,
        }
    }
}
