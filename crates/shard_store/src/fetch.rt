//! A fetch-all: each shard is read, and then each revision is confirmed by one load, which holds nothing.
ghost use Rattle.std.specs.Prelude.{◌≡◌, ◌<◌, [], ◌∷◌, ◌++◌, length, None, OnOk, MatchResult, MatchOption};
ghost use Rattle.map_core.specs.declared.op.Op.{Op};
ghost use Rattle.map_core.specs.PlainMap.{shard_of};
ghost use Rattle.shard_store.specs.Promise.{IsLater, IsReply, IsRefusedAt, IsRefused};
ghost use Rattle.shard_store.specs.Private.Seat.{IsFree, HasLooked};
ghost use Rattle.shard_store.specs.Private.Desk.{IsReady};
ghost use Rattle.shard_store.specs.Private.LastReads.{IsAsRead};
ghost use Rattle.shard_store.specs.Private.LastAll.{IsFetched, IsLastAll};
ghost use Rattle.shard_store.specs.Private.Readings.{WereRead, AreConfirmed, IsMovement, IsSnapshot};

use crate::desk::Desk;
use crate::holds::Hold;
use crate::last_all::LastAll;
use crate::last_reads::LastRead;
use crate::one_shard::{given_up, make_way};
use crate::parts::all_of;
use crate::rule::StoreSeat;
use crate::store::Store;
use map_core::{AskError, Contents, Op, Reply};
use std::alloc::{AllocError, Global};
use std::sync::Arc;

/// The revisions and versions of the shards, in order.
#[derive(Drop)]
pub(crate) struct Readings {
    pub revisions: Vec<u64>,
    pub versions: Vec<Arc<Contents>>,
}

impl Readings {
    fn new(alloc: Global) -> Readings
        ensures { (result.revisions.items ≡ []) × (result.versions.items ≡ []) }
    {
        Readings {
            revisions: Vec::new(alloc),
            versions: Vec::new(alloc),
        }
    }

    fn push(&mut self, read: LastRead) -> Result<(), AllocError>
        ensures revisions { OnOk result (self.new.revisions.items ≡ self.old.revisions.items ++ read.revision ∷ []) }
        ensures versions { OnOk result (self.new.versions.items ≡ self.old.versions.items ++ read.version ∷ []) }
    {
        self.revisions.push(read.revision)?;
        self.versions.push(read.version)?;
        Ok(())
    }
}

/// A shard whose revision was another one when it was to be confirmed.
#[derive(Clone, Copy)]
pub(crate) struct Movement {
    pub shard: usize,
    pub first: u64,
    pub second: u64,
}

impl Movement {
    pub(crate) fn into_error(self) -> AskError
        ensures { result ≡ AskError.Moved self.shard self.first self.second }
    {
        AskError::Moved {
            shard: self.shard,
            first: self.first,
            second: self.second,
        }
    }
}

impl Store {
    /// Answers an operation on all names, by the bundles as they stood together at one moment. By what the last one was
    /// answered, this one is answered too if no shard has changed since.
    pub(crate) fn ask_all(
        &self,
        desk: &mut Desk,
        last_all: &mut Option<LastAll>,
        op: &Op,
    ) -> Result<Reply, AskError>
        requires each { shard_of self.now.id.slots op.now ≡ None }
        requires ready { IsReady self.now.id desk.old }
        requires all { IsLastAll self.now.id.slots desk.old.seat.me.0.seen.log last_all.old }
        ensures ready { IsReady self.now.id desk.new }
        ensures all { IsLastAll self.now.id.slots desk.new.seat.me.0.seen.log last_all.new }
        ensures answer { MatchResult result
            (λ reply. IsReply op.now desk.old.seat.me.0.seen reply desk.new.seat.me.0.seen)
            (IsRefused self.now op.now desk.old.seat.me.0.seen desk.new.seat.me.0.seen) }
    {
        let known = op.known();
        if let Some(recalled) = self.recall_all(&mut desk.seat, last_all, known)? {
            return Ok(recalled);
        }
        *last_all = None;
        let mut last = self.fetch_anew(desk)?;
        let reply = last.reply(self.alloc, known)?;
        *last_all = Some(last);
        Ok(reply)
    }

    // All bundles, read from the shards.
    fn fetch_anew(&self, desk: &mut Desk) -> Result<LastAll, AskError>
        requires ready { IsReady self.now.id desk.old }
        ensures ready { IsReady self.now.id desk.new }
        ensures answer { MatchResult result
            (λ fetched. IsFetched self.now.id.slots desk.old.seat.me.0.seen desk.new.seat.me.0.seen fetched)
            (IsRefused self.now Op.FetchAll desk.old.seat.me.0.seen desk.new.seat.me.0.seen) }
    {
        desk.last_reads.make_room(self.shards.slot_count())?;
        let Readings {
            revisions,
            versions,
        } = self.fetch_parts(desk)?;
        let all = all_of(self.alloc, versions.as_slice())?;
        Ok(LastAll {
            revisions,
            all,
            digest: None,
        })
    }

    // The parts of the map after one list: rounds until no shard has moved in one.
    fn fetch_parts(&self, desk: &mut Desk) -> Result<Readings, AskError>
        requires ready { IsReady self.now.id desk.old }
        ensures ready { IsReady self.now.id desk.new }
        ensures parts { MatchResult result
            (λ read. IsSnapshot self.now.id.slots desk.old.seat.me.0.seen desk.new.seat.me.0.seen read.revisions.items read.versions.items)
            (IsRefused self.now Op.FetchAll desk.old.seat.me.0.seen desk.new.seat.me.0.seen) }
    {
        let mut last = Movement {
            shard: 0,
            first: 0,
            second: 0,
        };
        for _ in 0..self.rounds {
            let read = self.collect_all(desk)?;
            match self.confirm_all(&mut desk.seat, read.revisions.as_slice()) {
                None => return Ok(read),
                Some(movement) => last = movement,
            }
        }
        Err(last.into_error())
    }

    // Reads each shard, in order.
    fn collect_all(&self, desk: &mut Desk) -> Result<Readings, AskError>
        requires ready { IsReady self.now.id desk.old }
        ensures ready { IsReady self.now.id desk.new }
        ensures read { MatchResult result
            (λ r. IsLater desk.new.seat.me.0.seen desk.old.seat.me.0.seen × (length r.versions.items ≡ self.now.id.slots)
            × WereRead self.now.id.slots desk.old.seat.me.0.seen.log desk.new.seat.me.0.seen.log r.revisions.items r.versions.items)
            (IsRefusedAt self.now.id.slots Op.FetchAll desk.old.seat.me.0.seen desk.new.seat.me.0.seen) }
    {
        let mut readings = Readings::new(self.alloc);
        for shard in 0..self.shards.slot_count() {
            let read = self.collect(desk, shard)?;
            readings.push(read)?;
        }
        Ok(readings)
    }

    // Reads one shard. One that is as it was when it was read last is not held.
    fn collect(&self, desk: &mut Desk, shard: usize) -> Result<LastRead, AskError>
        requires ready { IsReady self.now.id desk.old }
        requires shard { shard < self.now.id.slots }
        ensures ready { IsReady self.now.id desk.new }
        ensures read { MatchResult result
            (λ r. IsLater desk.new.seat.me.0.seen desk.old.seat.me.0.seen × IsAsRead self.now.id.slots shard desk.new.seat.me.0.seen.log r)
            (IsRefusedAt self.now.id.slots Op.FetchAll desk.old.seat.me.0.seen desk.new.seat.me.0.seen) }
    {
        if let Some(last) = self.recall(&mut desk.seat, &desk.last_reads, shard) {
            return Ok(last.copy()?);
        }
        let read = self.collect_held(&mut desk.seat, shard)?;
        let copy = read.copy()?;
        desk.last_reads.keep(shard, Some(copy));
        Ok(read)
    }

    // The same under a hold.
    fn collect_held(&self, seat: &mut StoreSeat, shard: usize) -> Result<LastRead, AskError>
        requires free { IsFree self.now.id seat.old }
        requires shard { shard < self.now.id.slots }
        ensures free { IsFree self.now.id seat.new }
        ensures read { MatchResult result
            (λ r. IsLater seat.new.me.0.seen seat.old.me.0.seen × IsAsRead self.now.id.slots shard seat.new.me.0.seen.log r)
            (IsRefusedAt self.now.id.slots Op.FetchAll seat.old.me.0.seen seat.new.me.0.seen) }
    {
        let mut word = 0;
        let mut failed = 0;
        for _ in 0..self.tries {
            match self.try_hold(seat, shard) {
                Ok(found) => {
                    let hold = Hold { shard, word: found };
                    let version = self.read_version(seat, hold)?;
                    let revision = found / 2;
                    return Ok(LastRead { revision, version });
                }
                Err(found) => word = found,
            }
            failed += 1;
            make_way(word);
        }
        Err(given_up(self.tries, failed, shard, word))
    }

    /// Loads each word once. The first shard that has another revision ends it.
    pub(crate) fn confirm_all(&self, seat: &mut StoreSeat, revisions: &[u64]) -> Option<Movement>
        requires free { IsFree self.now.id seat.old }
        requires each { length revisions.now ≡ self.now.id.slots }
        ensures looked { HasLooked self.now.id seat.old seat.new }
        ensures found { MatchOption result
            (AreConfirmed self.now.id.slots seat.old.me.0.seen.log revisions.now)
            (IsMovement self.now.id.slots seat.old.me.0.seen.log seat.new.me.0.seen.log revisions.now) }
    {
        for shard in 0..revisions.len() {
            let first = revisions[shard];
            let second = self.look(seat, shard) / 2;
            if second != first {
                return Some(Movement {
                    shard,
                    first,
                    second,
                });
            }
        }
        None
    }
}
