//! A seat, and what was read there.
ghost use Rattle.std.specs.Prelude.{◌≡◌, ◌-◌, ◌<◌, ◌≤◌, ◌++◌, []};
ghost use Rattle.shard_store.specs.Changes.{Extends, own_count, without_last, just_last};
ghost use Rattle.shard_store.specs.Private.Seat.{IsFree};

use crate::last_reads::LastReads;
use crate::rule::StoreSeat;
use crate::steps::{Look, NamesShare, SplitOff, TakeIn};
use crate::store::Store;

/// A seat, and what was read there last of each shard.
#[derive(Drop)]
pub(crate) struct Desk {
    pub seat: StoreSeat,
    pub last_reads: LastReads,
}

impl Store {
    /// Splits the last numbers off, for a new seat that has seen as much.
    pub(crate) fn split_off<N: NamesShare>(&self, seat: &mut StoreSeat, share: u64) -> StoreSeat
        requires free { IsFree self.now.id seat.old }
        requires share { (N.share ≡ share) × (0 < share) × (share < own_count seat.old.me.0.seen.ranges) }
        ensures free { IsFree self.now.id seat.new × IsFree self.now.id result }
        ensures logs { (seat.new.me.0.seen.log ≡ seat.old.me.0.seen.log) × (result.me.0.seen.log ≡ seat.old.me.0.seen.log) }
        ensures numbers { (seat.new.me.0.seen.ranges ≡ without_last share seat.old.me.0.seen.ranges) × (result.me.0.seen.ranges ≡ just_last share seat.old.me.0.seen.ranges) }
    {
        self.shards.shared.split_seat::<SplitOff<N>>(seat)
    }

    /// Takes in what the other seat has seen, and its numbers. The load shows a list that begins with both logs.
    pub(crate) fn join_seats(&self, seat: &mut StoreSeat, other: StoreSeat)
        requires free { IsFree self.now.id seat.old × IsFree self.now.id other }
        ensures free { IsFree self.now.id seat.new }
        ensures log { Extends seat.new.me.0.seen.log seat.old.me.0.seen × Extends seat.new.me.0.seen.log other.me.0.seen }
        ensures ranges { seat.new.me.0.seen.ranges ≡ seat.old.me.0.seen.ranges ++ other.me.0.seen.ranges }
    {
        self.shards.shared.join_seat::<TakeIn>(seat, other);
        self.shards.shared.load::<Look>(seat, 0);
    }
}
