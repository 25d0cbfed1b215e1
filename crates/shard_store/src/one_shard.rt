//! One operation on one name, at the shard where the name is at home.
ghost use Rattle.std.specs.Prelude.{◌≡◌, ◌/◌, ◌^◌, ◌<◌, ◌≤◌, [], ◌∷◌, ◌++◌, MatchResult};
ghost use Rattle.std.specs.Arc.{arc_value};
ghost use Rattle.shard_store.specs.Numbers.{IsPart};
ghost use Rattle.shard_store.specs.Promise.{IsLater, IsRefusedAt};
ghost use Rattle.shard_store.specs.Tally.{CountsAnswer};
ghost use Rattle.shard_store.specs.Private.Desk.{IsReady};
ghost use Rattle.shard_store.specs.Private.Seat.{IsFree, IsAtHome, Holds, IsWordOf, Missed, ShardAnswer, Writes, Tried, change_by};

use crate::desk::Desk;
use crate::holds::Hold;
use crate::last_reads::LastRead;
use crate::rule::StoreSeat;
use crate::store::Store;
use crate::tally::{Shift, Tally};
use map_core::{AskError, Contents, Op, Reply};
use std::marker::Brand;
use std::sync::Arc;
use std::thread;

/// A shard takes no more changes than this.
pub(crate) const LAST_REVISION: u64 = 1 << 62;

/// What one try gave: a reply, with what was read for it if nothing was written, and what it found and left under the name; or the
/// word that was found in place of the one expected.
pub(crate) enum Attempt {
    Replied(Reply, Option<LastRead>, Shift),
    Blocked(u64),
}

/// Before the next try, lets other threads run if the shard is held: its holder may be one that is not running.
pub(crate) fn make_way(word: u64) {
    if word % 2 == 1 {
        thread::yield_now();
    }
}

/// The answer if as many tries have failed as may be made. The word is the one that the last of them found.
pub(crate) fn given_up(tries: u64, failed: u64, shard: usize, word: u64) -> AskError
    requires all { failed ≡ tries }
    requires some { 0 < failed }
    ensures { result ≡ AskError.Held shard (word / 2) }
{
    prove!(failed == tries);
    AskError::Held {
        shard,
        revision: word / 2,
    }
}

impl Store {
    /// One operation on one name, at the shard where it is at home. A get is answered by what was read of the shard last, if
    /// that is still the shard's part; else what it reads under a hold is remembered. Before any other operation it is
    /// forgotten, so that nobody but the store owns the version, which is changed where it is then. A change is counted.
    pub(crate) fn ask_name(
        &self,
        desk: &mut Desk,
        tally: &mut Tally,
        shard: usize,
        op: &Op,
    ) -> Result<Reply, AskError>
        requires ready { IsReady self.now.id desk.old }
        requires home { IsAtHome self.now.id op.now shard }
        ensures ready { IsReady self.now.id desk.new }
        ensures answer { ShardAnswer self.now.id.slots op.now desk.old.seat.me.0.seen result desk.new.seat.me.0.seen }
        ensures counted { CountsAnswer result desk.new.seat.me.0.seen.log tally.old tally.new }
    {
        if let Op::Get(domain) = op {
            if let Some(last) = self.recall(&mut desk.seat, &desk.last_reads, shard) {
                return Ok(last.version.get(domain)?);
            }
            desk.last_reads.make_room(self.shards.slot_count())?;
        } else {
            desk.last_reads.keep(shard, None);
        }
        let mut word = 0;
        let mut failed = 0;
        for _ in 0..self.tries {
            match self.try_once(&mut desk.seat, shard, op)? {
                Attempt::Replied(reply, read, shift) => {
                    desk.last_reads.keep(shard, read);
                    *tally = tally.counted(shift);
                    return Ok(reply);
                }
                Attempt::Blocked(found) => word = found,
            }
            failed += 1;
            make_way(word);
        }
        Err(given_up(self.tries, failed, shard, word))
    }

    // One try. A change is made where the version is, if nobody else owns it, and the shard is let go.
    fn try_once(&self, seat: &mut StoreSeat, shard: usize, op: &Op) -> Result<Attempt, AskError>
        requires free { IsFree self.now.id seat.old }
        requires home { IsAtHome self.now.id op.now shard }
        ensures free { IsFree self.now.id seat.new }
        ensures tried { MatchResult result
            (Tried self.now.id.slots shard op.now seat.old.me.0.seen seat.new.me.0.seen)
            (IsRefusedAt self.now.id.slots op.now seat.old.me.0.seen seat.new.me.0.seen) }
    {
        let word = match self.try_hold(seat, shard) {
            Ok(word) => word,
            Err(found) => return Ok(Attempt::Blocked(found)),
        };
        let hold = Hold { shard, word };
        match self.ask_in_hand(seat, hold, op) {
            Ok(None) => self.try_held(seat, hold, op),
            Ok(Some((reply, shift))) => {
                if reply.is_change() {
                    self.let_go_changed::<Brand>(seat, hold, op);
                    return Ok(Attempt::Replied(reply, None, shift));
                }
                self.release(seat, hold);
                Ok(Attempt::Replied(reply, None, shift))
            }
            Err(_) => {
                self.release(seat, hold);
                Err(AskError::Memory)
            }
        }
    }

    // One try at a shard that is held: its version is read, and the one after it made while nothing is held.
    fn try_held(&self, seat: &mut StoreSeat, hold: Hold, op: &Op) -> Result<Attempt, AskError>
        requires held { Holds self.now.id hold seat.old × (hold.word ≤ 2 ^ 63) }
        requires home { IsAtHome self.now.id op.now hold.shard }
        ensures free { IsFree self.now.id seat.new }
        ensures tried { MatchResult result
            (Tried self.now.id.slots hold.shard op.now seat.old.me.0.seen seat.new.me.0.seen)
            (IsRefusedAt self.now.id.slots op.now seat.old.me.0.seen seat.new.me.0.seen) }
    {
        let version = self.read_version(seat, hold)?;
        let (reply, next) = version.asked(op)?;
        let revision = hold.word / 2;
        let before = version.standing(op);
        let Some(next) = next else {
            let read = LastRead { revision, version };
            let shift = Shift {
                before,
                after: before,
            };
            return Ok(Attempt::Replied(reply, Some(read), shift));
        };
        let after = next.standing(op);
        drop(version);
        if revision >= LAST_REVISION {
            drop((reply, next));
            return Err(AskError::Worn { shard: hold.shard });
        }
        let Ok(next) = Arc::new(self.alloc, next) else {
            drop(reply);
            return Err(AskError::Memory);
        };
        match self.store_version(seat, hold, next, op) {
            Ok(()) => Ok(Attempt::Replied(reply, None, Shift { before, after })),
            Err(found) => {
                drop(reply);
                Ok(Attempt::Blocked(found))
            }
        }
    }

    // Takes the shard if its word is still the one from which the new version was made, and lets it go with that.
    fn store_version(
        &self,
        seat: &mut StoreSeat,
        hold: Hold,
        version: Arc<Contents>,
        op: &Op,
    ) -> Result<(), u64>
        requires free { IsFree self.now.id seat.old }
        requires word { IsWordOf self.now.id hold seat.old.me.0.seen × (hold.word < 2 ^ 63) }
        requires home { IsAtHome self.now.id op.now hold.shard }
        requires version { IsPart self.now.id.slots hold.shard (seat.old.me.0.seen.log ++ change_by op.now seat.old.me.0.seen ∷ []) (arc_value version) }
        ensures free { IsFree self.now.id seat.new }
        ensures written { MatchResult result
            (λ _. Writes self.now.id.slots hold.shard op.now seat.old.me.0.seen seat.new.me.0.seen)
            (λ n. IsLater seat.new.me.0.seen seat.old.me.0.seen × Missed self.now.id.slots hold.shard seat.old.me.0.seen n seat.new.me.0.seen) }
    {
        self.hold_from(seat, hold)?;
        self.publish::<Brand>(seat, hold, version, op);
        Ok(())
    }
}
