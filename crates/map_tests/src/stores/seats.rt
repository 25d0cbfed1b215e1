//! Up to three passes at one store, of which one may hold a shard, and what they do there, as words.
ghost use Rattle.std.specs.Prelude.{◌≡◌, IfOk};
ghost use Rattle.shard_store.specs.Pass.{IsOf};

use map_core::{AskError, Op, Reply};
use shard_store::{HeldPass, Pass, Store, Tally};
use std::alloc::Global;
use std::marker::Model;
use std::test::Fail;
use test_kit::{Shown, answer_text, operation};

/// The passes `p`, `q` and `r` at a store of so many shards, and the one that holds a shard.
#[derive(Drop)]
pub(crate) struct Seats<'a> {
    store: &'a Store,
    shards: usize,
    p: Option<Pass>,
    q: Option<Pass>,
    r: Option<Pass>,
    held: Option<HeldPass>,
}

impl<'a> Model for Seats<'a> {
    ghost use Rattle.std.specs.Prelude.{◌≡◌, IfSome};
    ghost use Rattle.shard_store.specs.Pass.{StoreView, IsOf};

    ghost Value = { StoreView };

    ghost view = { λ seats. seats.store.now };

    ghost invariant = { λ seats. (seats.store.now.id.slots ≡ seats.shards) × IfSome seats.p (λ p. IsOf p seats.store.now) × IfSome seats.q (λ q. IsOf q seats.store.now) × IfSome seats.r (λ r. IsOf r seats.store.now) × IfSome seats.held (λ held. held.store ≡ seats.store.now.id) };
}

/// Asks by the call that has the operation's name.
fn call(store: &Store, pass: &mut Pass, op: Op) -> Result<Reply, AskError>
    requires { IsOf pass.old store.now }
    ensures { IsOf pass.new store.now }
{
    match op {
        Op::Set(domain, bundle) => store.set(pass, domain, bundle),
        Op::SetIf(domain, expect, bundle) => store.set_if(pass, domain, expect, bundle),
        Op::Append(domain, authority) => store.append(pass, domain, authority),
        Op::Remove(domain) => store.remove(pass, domain),
        Op::Get(domain) => store.get(pass, domain),
        Op::FetchAll => store.fetch_all(pass),
        Op::FetchUnless(known) => store.fetch_unless(pass, known),
    }
}

impl<'a> Seats<'a> {
    pub(crate) fn new(store: &'a Store, shards: usize, p: Pass, q: Pass) -> Seats<'a>
        requires own { IsOf p store.now × IsOf q store.now }
        requires shards { store.now.id.slots ≡ shards }
        ensures { result ≡ store.now }
    {
        Seats {
            store,
            shards,
            p: Some(p),
            q: Some(q),
            r: None,
            held: None,
        }
    }

    /// The store's only pass, as `p`.
    pub(crate) fn alone(store: &'a Store, shards: usize, p: Pass) -> Seats<'a>
        requires own { IsOf p store.now }
        requires shards { store.now.id.slots ≡ shards }
        ensures { result ≡ store.now }
    {
        Seats {
            store,
            shards,
            p: Some(p),
            q: None,
            r: None,
            held: None,
        }
    }

    /// The pass, which leaves its seat.
    pub(crate) fn take(&mut self, who: char) -> Result<Pass, Fail>
        ensures store { self.new ≡ self.old }
        ensures own { IfOk result (λ pass. IsOf pass self.new) }
    {
        let taken = match who {
            'p' => self.p.take(),
            'q' => self.q.take(),
            _ => self.r.take(),
        };
        match taken {
            Some(pass) => Ok(pass),
            None => Err(Fail::from("the pass is not there")),
        }
    }

    /// Seats the pass.
    fn put(&mut self, who: char, pass: Pass)
        requires own { IsOf pass self.old }
        ensures store { self.new ≡ self.old }
    {
        match who {
            'p' => self.p = Some(pass),
            'q' => self.q = Some(pass),
            _ => self.r = Some(pass),
        }
    }

    /// Asks an operation.
    fn ask(&mut self, alloc: Global, who: char, line: &str) -> Result<String, Fail>
        ensures store { self.new ≡ self.old }
    {
        let op = operation(alloc, line)?;
        let answer = self.asked(who, op)?;
        Ok(answer_text(alloc, Shown::Counted, &answer)?)
    }

    fn asked(&mut self, who: char, op: Op) -> Result<Result<Reply, AskError>, Fail>
        ensures store { self.new ≡ self.old }
    {
        match self.take(who) {
            Ok(mut pass) => {
                let answer = call(self.store, &mut pass, op);
                self.put(who, pass);
                Ok(answer)
            }
            Err(fail) => {
                drop(op);
                Err(fail)
            }
        }
    }

    /// Holds a shard: `holds`, or why it doesn't.
    fn hold(&mut self, alloc: Global, who: char, shard: usize) -> Result<String, Fail>
        ensures store { self.new ≡ self.old }
    {
        if shard >= self.shards {
            return Err(Fail::from("there are not so many shards"));
        }
        let pass = self.take(who)?;
        match self.store.hold(pass, shard) {
            Ok(held) => {
                self.held = Some(held);
                Ok(String::from_str(alloc, "holds")?)
            }
            Err((pass, why)) => {
                self.put(who, pass);
                Ok(answer_text(alloc, Shown::Counted, &Err(why))?)
            }
        }
    }

    /// The shard that is held, and how many changes it has had.
    fn held_text(&self, alloc: Global) -> Result<String, Fail> {
        match &self.held {
            Some(held) => Ok(format!(in alloc; "{} {}", held.shard(), held.revision())?),
            None => Err(Fail::from("no shard is held")),
        }
    }

    /// Lets the shard go. The answer is the numbers of the pass.
    fn free(&mut self, alloc: Global, who: char) -> Result<String, Fail>
        ensures store { self.new ≡ self.old }
    {
        let Some(held) = self.held.take() else {
            return Err(Fail::from("no shard is held"));
        };
        let pass = held.let_go(self.store);
        let numbers = pass.numbers();
        self.put(who, pass);
        Ok(format!(in alloc; "{numbers}")?)
    }

    /// Splits the last numbers off, for `r`. The answer is what is left.
    fn split(&mut self, alloc: Global, who: char, share: u64) -> Result<String, Fail>
        ensures store { self.new ≡ self.old }
    {
        let mut pass = self.take(who)?;
        if share == 0 || share >= pass.numbers() {
            return Err(Fail::from("the pass has too few numbers"));
        }
        let other = self.store.split(&mut pass, share);
        let numbers = pass.numbers();
        self.put('r', other);
        self.put(who, pass);
        Ok(format!(in alloc; "{numbers}")?)
    }

    /// Takes another pass in. The answer is the numbers of the pass.
    fn join(&mut self, alloc: Global, who: char, other: char) -> Result<String, Fail>
        ensures store { self.new ≡ self.old }
    {
        let pass = self.take(who)?;
        let other = self.take(other)?;
        let pass = self.store.join(pass, other);
        let numbers = pass.numbers();
        self.put(who, pass);
        Ok(format!(in alloc; "{numbers}")?)
    }

    /// How many bundles the changes of the pass have brought and taken, and how many marks.
    fn tally(&mut self, alloc: Global, who: char) -> Result<String, Fail>
        ensures store { self.new ≡ self.old }
    {
        let pass = self.take(who)?;
        let Tally { bundles, marks } = pass.tally();
        self.put(who, pass);
        let (came, went) = (bundles.come, bundles.gone);
        Ok(format!(in alloc; "{came} {went} {} {}", marks.come, marks.gone)?)
    }

    /// What a pass does by this line, and what it is told: it holds a shard, lets it go, is split or joined, tells its tally, or
    /// asks.
    pub(crate) fn act(&mut self, alloc: Global, who: char, line: &str) -> Result<String, Fail>
        ensures store { self.new ≡ self.old }
    {
        let (verb, rest) = line.split_once(' ').unwrap_or((line, ""));
        match verb {
            "hold" => self.hold(alloc, who, rest.parse()?),
            "held" => self.held_text(alloc),
            "free" => self.free(alloc, who),
            "split" => self.split(alloc, who, rest.parse()?),
            "join" => self.join(alloc, who, rest.parse()?),
            "tally" => self.tally(alloc, who),
            _ => self.ask(alloc, who, line),
        }
    }

    /// Fails unless the pass is told this.
    pub(crate) fn play(&mut self, alloc: Global, row: (char, &str, &str)) -> Result<(), Fail>
        ensures store { self.new ≡ self.old }
    {
        let (who, line, wanted) = row;
        let told = self.act(alloc, who, line)?;
        if told.as_str() == wanted {
            return Ok(());
        }
        Err(Fail::from(format!(in alloc; "{who} {line}: {told}, and not {wanted}")?))
    }
}
