//! How a seat takes one shard, and lets it go.
ghost use Rattle.std.specs.Prelude.{◌≡◌, ◌*◌, ◌+◌, ◌/◌, ◌%◌, ◌^◌, ◌<◌, ◌≤◌, [], ◌∷◌, ◌++◌, None, Some, IfOk, MatchResult};
ghost use Rattle.std.specs.Arc.{arc_value};
ghost use Rattle.shard_store.specs.Changes.{count};
ghost use Rattle.shard_store.specs.Numbers.{IsPart};
ghost use Rattle.shard_store.specs.Promise.{IsLater, IsAlone};
ghost use Rattle.shard_store.specs.Private.Seat.{IsFree, IsAtHome, HasLooked, HasInHand, Holds, IsWordOf, Missed, Writes, change_by};

use crate::rule::StoreSeat;
use crate::steps::{Look, NamesChange, Publish, Release, Take};
use crate::store::Store;
use map_core::{Contents, Op};
use std::alloc::AllocError;
use std::sync::Arc;

/// A shard, and the word that it has while no pass holds it.
#[derive(Clone, Copy)]
pub(crate) struct Hold {
    pub shard: usize,
    pub word: u64,
}

impl Store {
    /// The shard's word: twice its revision, and one more while a pass holds it.
    pub(crate) fn look(&self, seat: &mut StoreSeat, shard: usize) -> u64
        requires free { IsFree self.now.id seat.old }
        requires shard { shard < self.now.id.slots }
        ensures looked { HasLooked self.now.id seat.old seat.new }
        ensures found { (result / 2 ≡ count self.now.id.slots seat.new.me.0.seen.log shard) × (result / 2 ≤ 2 ^ 62) }
        ensures alone { IsAlone seat.old.me.0.seen → result % 2 ≡ 0 }
    {
        self.shards.shared.load::<Look>(seat, shard)
    }

    /// Takes the shard by one exchange from exactly this word. Otherwise gives the word found.
    pub(crate) fn hold_from(&self, seat: &mut StoreSeat, hold: Hold) -> Result<(), u64>
        requires free { IsFree self.now.id seat.old }
        requires word { IsWordOf self.now.id hold seat.old.me.0.seen }
        ensures later { IsLater seat.new.me.0.seen seat.old.me.0.seen }
        ensures found { MatchResult result
            (λ _. Holds self.now.id hold seat.new)
            (λ n. IsFree self.now.id seat.new × Missed self.now.id.slots hold.shard seat.old.me.0.seen n seat.new.me.0.seen) }
    {
        let Hold { shard, word } = hold;
        let found = self
            .shards
            .shared
            .compare_exchange::<Take>(seat, shard, word, word + 1);
        if found == word { Ok(()) } else { Err(found) }
    }

    /// One try: a load and, if the shard is free, an exchange. `Ok` is the word while it was free, `Err` the word found.
    pub(crate) fn try_hold(&self, seat: &mut StoreSeat, shard: usize) -> Result<u64, u64>
        requires free { IsFree self.now.id seat.old }
        requires shard { shard < self.now.id.slots }
        ensures later { IsLater seat.new.me.0.seen seat.old.me.0.seen }
        ensures found { MatchResult result
            (λ word. Holds self.now.id (record { shard = shard; word = word }) seat.new × (word ≤ 2 ^ 63))
            (λ n. IsFree self.now.id seat.new × Missed self.now.id.slots shard seat.old.me.0.seen n seat.new.me.0.seen) }
    {
        let word = self.look(seat, shard);
        if word % 2 == 1 {
            return Err(word);
        }
        self.hold_from(seat, Hold { shard, word })?;
        Ok(word)
    }

    /// Another owner of the version in hand. If none can be had, the version is in its slot again all the same.
    fn copy_version(&self, seat: &mut StoreSeat, hold: Hold) -> Result<Arc<Contents>, AllocError>
        requires held { Holds self.now.id hold seat.old }
        ensures held { Holds self.now.id hold seat.new × (seat.new.me.0 ≡ seat.old.me.0) }
        ensures version { IfOk result (λ v. IsPart self.now.id.slots hold.shard seat.old.me.0.seen.log (arc_value v)) }
    {
        let shard = hold.shard;
        let version = self.shards.shared.exchange(seat, shard, None).unwrap();
        let copy = Arc::try_clone(&version);
        self.shards.shared.exchange(seat, shard, Some(version));
        copy
    }

    /// Lets the shard go as it was taken.
    pub(crate) fn release(&self, seat: &mut StoreSeat, hold: Hold)
        requires held { Holds self.now.id hold seat.old }
        ensures own { seat.new.table_id ≡ self.now.id }
        ensures view { seat.new.me ≡ (record seat.old.me.0 { held = None }, []) }
    {
        let Hold { shard, word } = hold;
        self.shards.shared.store::<Release>(seat, shard, word);
    }

    /// Reads the version of a shard that is held, and lets the shard go.
    pub(crate) fn read_version(
        &self,
        seat: &mut StoreSeat,
        hold: Hold,
    ) -> Result<Arc<Contents>, AllocError>
        requires held { Holds self.now.id hold seat.old }
        ensures free { IsFree self.now.id seat.new × (seat.new.me.0.seen ≡ seat.old.me.0.seen) }
        ensures version { IfOk result (λ v. IsPart self.now.id.slots hold.shard seat.old.me.0.seen.log (arc_value v)) }
    {
        let copy = self.copy_version(seat, hold);
        self.release(seat, hold);
        copy
    }

    /// Lets the shard go with the version in hand, which the operation has left.
    pub(crate) fn let_go_changed<W: NamesChange>(&self, seat: &mut StoreSeat, hold: Hold, op: &Op)
        requires own { seat.old.table_id ≡ self.now.id }
        requires holds { HasInHand self.now.id.slots hold.shard (seat.old.me.0.seen.log ++ change_by op.now seat.old.me.0.seen ∷ []) seat.old.me }
        requires word { IsWordOf self.now.id hold seat.old.me.0.seen × (hold.word < 2 ^ 63) }
        requires change { (W.change ≡ change_by op.now seat.old.me.0.seen) × IsAtHome self.now.id op.now hold.shard }
        ensures free { IsFree self.now.id seat.new }
        ensures written { Writes self.now.id.slots hold.shard op.now seat.old.me.0.seen seat.new.me.0.seen }
    {
        let Hold { shard, word } = hold;
        self.shards
            .shared
            .store::<Publish<W>>(seat, shard, word + 2);
    }

    /// Lets the shard go with a new version.
    pub(crate) fn publish<W: NamesChange>(
        &self,
        seat: &mut StoreSeat,
        hold: Hold,
        version: Arc<Contents>,
        op: &Op,
    )
        requires held { Holds self.now.id hold seat.old × (hold.word < 2 ^ 63) }
        requires change { (W.change ≡ change_by op.now seat.old.me.0.seen) × IsAtHome self.now.id op.now hold.shard }
        requires version { IsPart self.now.id.slots hold.shard (seat.old.me.0.seen.log ++ change_by op.now seat.old.me.0.seen ∷ []) (arc_value version) }
        ensures free { IsFree self.now.id seat.new }
        ensures written { Writes self.now.id.slots hold.shard op.now seat.old.me.0.seen seat.new.me.0.seen }
    {
        let _old = self.shards.shared.exchange(seat, hold.shard, Some(version));
        self.let_go_changed::<W>(seat, hold, op);
    }
}
