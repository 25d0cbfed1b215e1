//! Reads that hold nothing: what a pass read of a shard last is still the shard's, if its revision is.
ghost use Rattle.std.specs.Prelude.{◌≡◌, ◌<◌, IfSome};
ghost use Rattle.map_core.specs.declared.op.Op.TheVariants.{Get};
ghost use Rattle.shard_store.specs.Private.Seat.{IsFree, HasLooked, IsAtHome, ShardAnswer};
ghost use Rattle.shard_store.specs.Private.LastReads.{AreLastReads, IsAsRead};
ghost use Rattle.shard_store.specs.Private.Desk.{IsReady};

use crate::desk::Desk;
use crate::last_reads::{LastRead, LastReads};
use crate::rule::StoreSeat;
use crate::store::Store;
use crate::tally::Tally;
use map_core::{AskError, Op, Reply};
use spiffe_doc::TrustDomain;

impl Store {
    /// What was read of the shard last, if the shard is as it was then. One load tells, whether the shard is held or not.
    pub(crate) fn recall<'a>(
        &self,
        seat: &mut StoreSeat,
        last_reads: &'a LastReads,
        shard: usize,
    ) -> Option<&'a LastRead>
        requires free { IsFree self.now.id seat.old }
        requires shard { shard < self.now.id.slots }
        requires told { AreLastReads self.now.id.slots seat.old.me.0.seen.log last_reads.now.by_shard.items }
        ensures looked { HasLooked self.now.id seat.old seat.new }
        ensures told { AreLastReads self.now.id.slots seat.new.me.0.seen.log last_reads.now.by_shard.items }
        ensures read { IfSome result (λ r. IsAsRead self.now.id.slots shard seat.new.me.0.seen.log r.now) }
    {
        let revision = self.look(seat, shard) / 2;
        last_reads.at(shard, revision)
    }

    /// A get that has to hold its shard. It becomes an operation, which takes the room of any; most gets never come here.
    #[inline(never)]
    pub(crate) fn get_name(
        &self,
        desk: &mut Desk,
        shard: usize,
        domain: &TrustDomain,
    ) -> Result<Reply, AskError>
        requires ready { IsReady self.now.id desk.old }
        requires home { IsAtHome self.now.id (Get domain.now) shard }
        ensures ready { IsReady self.now.id desk.new }
        ensures answer { ShardAnswer self.now.id.slots (Get domain.now) desk.old.seat.me.0.seen result desk.new.seat.me.0.seen }
    {
        let op = Op::Get(domain.copy()?);
        // It changes nothing.
        let mut tally = Tally::new();
        let answer = self.ask_name(desk, &mut tally, shard, &op);
        drop(op);
        answer
    }
}
