//! The store: what threads do with it, each with a pass of its own.
ghost use Rattle.std.specs.Prelude.{◌≡◌, ◌<◌, ◌≤◌, ◌++◌, [], ◌∷◌, length, replicate, IfOk, MatchResult, Some};
ghost use Rattle.std.specs.List.{All};
ghost use Rattle.map_core.specs.Ask.{ShowsGet};
ghost use Rattle.map_core.specs.declared.op.Op.{Op};
ghost use Rattle.shard_store.specs.Changes.{Extends, own_count, without_last, just_last};
ghost use Rattle.shard_store.specs.Close.{CloseAnswer};
ghost use Rattle.shard_store.specs.Pass.{IsOf};
ghost use Rattle.shard_store.specs.Promise.{StoreAnswer, HoldAnswer};
ghost use Rattle.shard_store.specs.Tally.{CountsAnswer, both_tallies, no_tally};
ghost use Rattle.shard_store.specs.Private.Fresh.{IsEmptyVersion};
ghost use Rattle.shard_store.specs.Private.Seat.{IsFree};

use crate::close::{CloseError, first_held, join_slots, take_all};
use crate::desk::Desk;
use crate::held_pass::HeldPass;
use crate::holds::Hold;
use crate::last_reads::LastReads;
use crate::pass::Pass;
use crate::rule::{ShardTable, Slot, StoreSeat};
use crate::tally::Tally;
use atomic_table::Table;
use map_core::home::{home, shard_of};
use map_core::{AskError, Contents, DumpDigest, Expect, Op, Reply, Viewer};
use spiffe_doc::{Authority, Bundle, Memory, TrustDomain};
use std::alloc::{AllocError, Global};
use std::marker::{Brand, Model};
use std::sync::Arc;

/// A map of trust bundles in shards, for threads that each have a pass.
#[derive(Drop)]
pub struct Store {
    pub(crate) alloc: Global,
    pub(crate) shards: ShardTable,
    pub(crate) rounds: u64,
    pub(crate) tries: u64,
}

impl Model for Store {
    ghost use Rattle.std.specs.Prelude.{◌<◌};
    ghost use Rattle.shard_store.specs.Pass.{StoreView};
    ghost use Rattle.shard_store.specs.Private.Seat.{IsPaired};

    ghost Value = { StoreView };

    ghost view = { λ s. record { id = s.shards.shared.table_id; rounds = s.rounds; tries = s.tries } };

    ghost invariant = { λ s. IsPaired s.shards.shared.table_id × (0 < s.rounds) × (0 < s.tries) };
}

impl Store {
    /// An empty store of 1 to 256 shards, and its first pass, which has all 4,294,967,296 numbers.
    /// A fetch-all gives up after this many rounds, and a call on a shard that others hold after this many tries.
    pub fn new(
        alloc: Global,
        shards: usize,
        rounds: u64,
        tries: u64,
    ) -> Result<(Store, Pass), Memory>
        requires shards { (0 < shards) × (shards ≤ 256) }
        requires rounds { 0 < rounds }
        requires tries { 0 < tries }
        ensures own { IfOk result (λ made. IsOf made.1 made.0 × (made.0.id.slots ≡ shards)) }
        ensures limits { IfOk result (λ made. (made.0.rounds ≡ rounds) × (made.0.tries ≡ tries)) }
        ensures seen { IfOk result (λ made. (made.1.seen.log ≡ []) × (made.1.seen.ranges ≡ (0, 4294967296) ∷ [])) }
        ensures tally { IfOk result (λ made. made.1.tally ≡ no_tally) }
    {
        let words = zeros(alloc, shards)?;
        let slots = empty_slots(alloc, shards)?;
        let Ok((shards, seat)) = Table::new(alloc, words.as_slice(), slots, &()) else {
            return Err(AllocError);
        };
        let store = Store {
            alloc,
            shards,
            rounds,
            tries,
        };
        let pass = store.first_pass(seat, 1 << 32);
        Ok((store, pass))
    }

    /// A pass for another thread. It has seen as much, and gets the last `share` numbers of this one.
    pub fn split(&self, pass: &mut Pass, share: u64) -> Pass
        requires own { IsOf pass.old self.now }
        requires share { (0 < share) × (share < own_count pass.old.seen.ranges) }
        ensures own { IsOf pass.new self.now × IsOf result self.now }
        ensures logs { (pass.new.seen.log ≡ pass.old.seen.log) × (result.seen.log ≡ pass.old.seen.log) }
        ensures numbers { (pass.new.seen.ranges ≡ without_last share pass.old.seen.ranges) × (result.seen.ranges ≡ just_last share pass.old.seen.ranges) }
        ensures tallies { (pass.new.tally ≡ pass.old.tally) × (result.tally ≡ no_tally) }
    {
        let seat = self.split_off::<Brand>(&mut pass.desk.seat, share);
        pass.numbers -= share;
        self.first_pass(seat, share)
    }

    // A pass that remembers nothing yet, and has changed nothing.
    fn first_pass(&self, seat: StoreSeat, numbers: u64) -> Pass
        requires free { IsFree self.now.id seat }
        requires numbers { own_count seat.me.0.seen.ranges ≡ numbers }
        ensures own { IsOf result self.now }
        ensures seen { result.seen ≡ seat.me.0.seen }
        ensures tally { result.tally ≡ no_tally }
    {
        let desk = Desk {
            seat,
            last_reads: LastReads::new(self.alloc),
        };
        Pass {
            desk,
            numbers,
            last_all: None,
            tally: Tally::new(),
        }
    }

    /// One pass in place of two. It has seen all that they have seen, has the first one's numbers, and has taken in
    /// those of the other. What both have changed is counted together.
    pub fn join(&self, mut pass: Pass, other: Pass) -> Pass
        requires own { IsOf pass self.now × IsOf other self.now }
        ensures own { IsOf result self.now }
        ensures log { Extends result.seen.log pass.seen × Extends result.seen.log other.seen }
        ensures numbers { result.seen.ranges ≡ pass.seen.ranges ++ other.seen.ranges }
        ensures tally { result.tally ≡ both_tallies pass.tally other.tally }
    {
        pass.tally = pass.tally.with(other.tally);
        self.join_seats(&mut pass.desk.seat, other.desk.seat);
        pass
    }

    /// Answers an operation as the plain map does, after some list of changes that begins with what the pass has
    /// seen. After an error the pass has changed nothing.
    pub(crate) fn ask(&self, pass: &mut Pass, op: Op) -> Result<Reply, AskError>
        requires own { IsOf pass.old self.now }
        ensures own { IsOf pass.new self.now }
        ensures answer { StoreAnswer self.now op pass.old.seen result pass.new.seen }
        ensures counted { CountsAnswer result pass.new.seen.log pass.old.tally pass.new.tally }
    {
        match shard_of(&op, self.shards.slot_count()) {
            Some(shard) => {
                let answer = self.ask_name(&mut pass.desk, &mut pass.tally, shard, &op);
                drop(op);
                answer
            }
            None => {
                let answer = self.ask_all(&mut pass.desk, &mut pass.last_all, &op);
                drop(op);
                answer
            }
        }
    }

    /// Answers a get of the name. The bundle that is found by what was read last is shown to the viewer where it is kept: then
    /// there is no reply.
    pub(crate) fn show<V: Viewer>(
        &self,
        pass: &mut Pass,
        domain: &TrustDomain,
        viewer: &mut V,
    ) -> Result<Option<Reply>, AskError>
        requires own { IsOf pass.old self.now }
        ensures own { IsOf pass.new self.now }
        ensures shown { ShowsGet V.notes (λ answer. StoreAnswer self.now (Op.Get domain.now) pass.old.seen answer pass.new.seen) (V.noted viewer.old) result (V.noted viewer.new) }
        ensures tally { pass.new.tally ≡ pass.old.tally }
    {
        let shard = home(domain, self.shards.slot_count());
        if let Some(last) = self.recall(&mut pass.desk.seat, &pass.desk.last_reads, shard) {
            return Ok(last.version.show(domain, viewer)?);
        }
        let reply = self.get_name(&mut pass.desk, shard, domain)?;
        Ok(Some(reply))
    }

    /// Puts a bundle under the name.
    pub fn set(
        &self,
        pass: &mut Pass,
        domain: TrustDomain,
        bundle: Bundle,
    ) -> Result<Reply, AskError>
        requires own { IsOf pass.old self.now }
        ensures own { IsOf pass.new self.now }
        ensures answer { StoreAnswer self.now (Op.Set domain bundle) pass.old.seen result pass.new.seen }
        ensures counted { CountsAnswer result pass.new.seen.log pass.old.tally pass.new.tally }
    {
        self.ask(pass, Op::Set(domain, bundle))
    }

    /// Puts a bundle under the name if what stands there is as expected.
    pub fn set_if(
        &self,
        pass: &mut Pass,
        domain: TrustDomain,
        expect: Expect,
        bundle: Bundle,
    ) -> Result<Reply, AskError>
        requires own { IsOf pass.old self.now }
        ensures own { IsOf pass.new self.now }
        ensures answer { StoreAnswer self.now (Op.SetIf domain expect bundle) pass.old.seen result pass.new.seen }
        ensures counted { CountsAnswer result pass.new.seen.log pass.old.tally pass.new.tally }
    {
        self.ask(pass, Op::SetIf(domain, expect, bundle))
    }

    /// Appends an authority to the bundle under the name.
    pub fn append(
        &self,
        pass: &mut Pass,
        domain: TrustDomain,
        authority: Authority,
    ) -> Result<Reply, AskError>
        requires own { IsOf pass.old self.now }
        ensures own { IsOf pass.new self.now }
        ensures answer { StoreAnswer self.now (Op.Append domain authority) pass.old.seen result pass.new.seen }
        ensures counted { CountsAnswer result pass.new.seen.log pass.old.tally pass.new.tally }
    {
        self.ask(pass, Op::Append(domain, authority))
    }

    /// Removes the bundle under the name.
    pub fn remove(&self, pass: &mut Pass, domain: TrustDomain) -> Result<Reply, AskError>
        requires own { IsOf pass.old self.now }
        ensures own { IsOf pass.new self.now }
        ensures answer { StoreAnswer self.now (Op.Remove domain) pass.old.seen result pass.new.seen }
        ensures counted { CountsAnswer result pass.new.seen.log pass.old.tally pass.new.tally }
    {
        self.ask(pass, Op::Remove(domain))
    }

    /// Finds the bundle under the name.
    pub fn get(&self, pass: &mut Pass, domain: TrustDomain) -> Result<Reply, AskError>
        requires own { IsOf pass.old self.now }
        ensures own { IsOf pass.new self.now }
        ensures answer { StoreAnswer self.now (Op.Get domain) pass.old.seen result pass.new.seen }
        ensures counted { CountsAnswer result pass.new.seen.log pass.old.tally pass.new.tally }
    {
        self.ask(pass, Op::Get(domain))
    }

    /// All bundles, as they stood together at one moment.
    pub fn fetch_all(&self, pass: &mut Pass) -> Result<Reply, AskError>
        requires own { IsOf pass.old self.now }
        ensures own { IsOf pass.new self.now }
        ensures answer { StoreAnswer self.now Op.FetchAll pass.old.seen result pass.new.seen }
        ensures counted { CountsAnswer result pass.new.seen.log pass.old.tally pass.new.tally }
    {
        self.ask(pass, Op::FetchAll)
    }

    /// The same, unless they had this digest then: the SHA-256 of their dump. The pass remembers the digest of what it was
    /// answered last: while no shard changes, nothing is hashed again.
    pub fn fetch_unless(&self, pass: &mut Pass, known: DumpDigest) -> Result<Reply, AskError>
        requires own { IsOf pass.old self.now }
        ensures own { IsOf pass.new self.now }
        ensures answer { StoreAnswer self.now (Op.FetchUnless known) pass.old.seen result pass.new.seen }
        ensures counted { CountsAnswer result pass.new.seen.log pass.old.tally pass.new.tally }
    {
        self.ask(pass, Op::FetchUnless(known))
    }

    /// Takes the shard, by one try. Other passes are refused there until the shard is let go. If another pass has it,
    /// this pass comes back, with the error `Held`.
    pub fn hold(&self, mut pass: Pass, shard: usize) -> Result<HeldPass, (Pass, AskError)>
        requires own { IsOf pass self.now }
        requires shard { shard < self.now.id.slots }
        ensures held { HoldAnswer self.now shard pass.seen result }
        ensures tally { MatchResult result (λ h. h.tally ≡ pass.tally) (λ r. r.0.tally ≡ pass.tally) }
    {
        match self.try_hold(&mut pass.desk.seat, shard) {
            Ok(word) => Ok(HeldPass {
                desk: pass.desk,
                numbers: pass.numbers,
                hold: Hold { shard, word },
                tally: pass.tally,
            }),
            Err(found) => {
                let error = AskError::Held {
                    shard,
                    revision: found / 2,
                };
                Err((pass, error))
            }
        }
    }

    /// Ends the store and gives its map, unless a pass still holds a shard.
    pub fn close(self, pass: Pass) -> Result<Contents, CloseError>
        requires { IsOf pass self }
        ensures { CloseAnswer self pass.seen result }
    {
        let alloc = self.alloc;
        let desk = pass.desk;
        let closed = self.shards.close_with(desk.seat);
        let held = first_held(&closed);
        let slots = take_all(alloc, closed)?;
        if let Some(shard) = held {
            return Err(CloseError::HeldAtEnd(shard));
        }
        Ok(join_slots(alloc, slots.as_slice())?)
    }
}

fn zeros(alloc: Global, shards: usize) -> Result<Vec<u64>, AllocError>
    ensures { IfOk result (λ words. words.items ≡ replicate shards 0) }
{
    let mut words = Vec::with_capacity(alloc, shards)?;
    for _ in 0..shards {
        words.push(0)?;
    }
    Ok(words)
}

fn empty_slots(alloc: Global, shards: usize) -> Result<Vec<Slot>, AllocError>
    ensures { IfOk result (λ slots. (length slots.items ≡ shards) × All IsEmptyVersion slots.items) }
{
    let mut slots = Vec::with_capacity(alloc, shards)?;
    for _ in 0..shards {
        let version = Arc::new(alloc, Contents::new(alloc))?;
        slots.push(Some(version))?;
    }
    Ok(slots)
}
