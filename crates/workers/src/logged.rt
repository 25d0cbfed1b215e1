//! A store that a worker asks, and whose changes it tells.
ghost use Rattle.std.specs.Prelude.{◌≡◌, Some, IfOk, option_copied, option_map};
ghost use Rattle.map_core.specs.Table.{expect_sequence};
ghost use Rattle.shard_store.specs.Pass.{IsOf};
ghost use Rattle.shard_store.specs.Promise.{IsLater};
ghost use Rattle.map_core.specs.Name.{Name};
ghost use Rattle.workers.specs.Log.{change_told, change_view, found_in, HasLooked};
ghost use Rattle.workers.specs.Private.Names.{changed_name};
ghost use Rattle.workers.specs.Private.RefusedChange.{refused_told, refused_view, shut_told};

use crate::at_port::BehindPort;
use crate::log::{ChangeRefusal, Changed, How, Log, RefusedChange};
use crate::retrying::Retrying;
use map_core::{Ask, AskError, Expect, MapRefusal, Op, Reply, Viewer};
use shard_store::{Pass, Seated, Store};
use spiffe_doc::{Memory, TrustDomain};
use std::alloc::{AllocError, Global};
use std::time::Clock;

/// A pass at its store, asked again while others are in the way. The worker of this number tells its log what it changes, what
/// it refuses, what it answers and how often it asks again.
#[derive(Drop)]
pub struct Logged<'a, C, L> {
    pub patient: Retrying<'a, Seated<'a>, C>,
    pub log: L,
    pub worker: u64,
}

fn numbered(sequence: Option<u64>) -> Expect
    ensures { result ≡ expect_sequence sequence }
{
    match sequence {
        Some(sequence) => Expect::Sequence(sequence),
        None => Expect::Unnumbered,
    }
}

/// The name of the bundle that an operation asks to change, if it asks for a change.
fn name_to_change(op: &Op) -> Option<&TrustDomain>
    ensures { option_copied result ≡ changed_name op.now }
{
    if op.is_read() { None } else { op.domain() }
}

/// What stands under a name by the answer to a get, if that says so. Errors only if memory ran out.
fn found_by(answer: Result<Reply, AskError>) -> Result<Option<Expect>, AllocError>
    ensures { result ≡ found_in answer }
{
    match answer {
        Ok(Reply::Found(bundle)) => Ok(Some(numbered(bundle.sequence()))),
        Ok(Reply::Refused(_)) => Ok(Some(Expect::Absent)),
        Err(AskError::Memory) => Err(AllocError),
        _ => Ok(None),
    }
}

/// The change that the answer to an operation tells of, if it tells of one.
fn change_by<'a>(
    op: &'a Op,
    before: Option<Expect>,
    answer: &Result<Reply, AskError>,
) -> Option<Changed<'a>>
    ensures { option_map change_view result ≡ change_told before op.now answer.now }
{
    let (how, domain, after) = match (op, answer) {
        (Op::Set(domain, bundle), Ok(Reply::Stored)) => {
            (How::Set, domain, numbered(bundle.sequence()))
        }
        (Op::SetIf(domain, _, bundle), Ok(Reply::Stored)) => {
            (How::Set, domain, numbered(bundle.sequence()))
        }
        (Op::Append(domain, _), Ok(Reply::Appended(sequence))) => {
            (How::Appended, domain, numbered(*sequence))
        }
        (Op::Remove(domain), Ok(Reply::Removed)) => (How::Removed, domain, Expect::Absent),
        _ => return None,
    };
    Some(Changed {
        how,
        domain: domain.as_str(),
        before,
        after,
    })
}

/// That a request to change the bundle of this name was refused by 31 or 36, if the answer to it says so.
fn refused_by<'a>(
    domain: Option<&'a TrustDomain>,
    answer: &Result<Reply, AskError>,
) -> Option<RefusedChange<'a>>
    ensures { option_map refused_view result ≡ refused_told (option_copied domain.entry) answer.now }
{
    let (domain, refusal) = match (domain, answer) {
        (Some(domain), Ok(Reply::Refused(MapRefusal::Stale(sequence)))) => {
            (domain, MapRefusal::Stale(*sequence))
        }
        (Some(domain), Ok(Reply::Refused(MapRefusal::NotExpected(found)))) => {
            (domain, MapRefusal::NotExpected(*found))
        }
        _ => return None,
    };
    let name = domain.as_str();
    Some(RefusedChange {
        domain: name,
        refusal: ChangeRefusal::Map(refusal),
    })
}

/// That a request to change the bundle of this name was refused at a port for reads only, if it was one.
fn shut_to(domain: Option<&TrustDomain>) -> Option<RefusedChange<'_>>
    ensures { option_map refused_view result ≡ shut_told (option_copied domain.entry) }
{
    let name = domain?.as_str();
    Some(RefusedChange {
        domain: name,
        refusal: ChangeRefusal::ReadOnly,
    })
}

impl<'a, C: Clock, L: Log> Logged<'a, C, L> {
    /// Seats the pass at its store. An operation is asked again at most `retries` times.
    pub fn new(
        store: &'a Store,
        pass: Pass,
        clock: &'a C,
        retries: u64,
        log: L,
        worker: u64,
    ) -> Logged<'a, C, L>
        requires own { IsOf pass store.now }
        ensures store { result.patient.ask.store ≡ store.now }
        ensures seen { result.patient.ask.seen ≡ pass.seen }
        ensures log { result.log ≡ log }
        ensures worker { result.worker ≡ worker }
    {
        Logged {
            patient: Retrying::new(Seated::new(store, pass), clock, retries),
            log,
            worker,
        }
    }

    /// The pass again.
    pub fn into_pass(self) -> Pass
        ensures own { IsOf result self.entry.patient.ask.store }
        ensures seen { result.seen ≡ self.entry.patient.ask.seen }
    {
        let Logged {
            patient,
            log: _,
            worker: _,
        } = self;
        let Retrying {
            ask: seated,
            clock: _,
            retries: _,
            asked_again: _,
        } = patient;
        seated.into_pass()
    }

    /// Tells the log if the change was refused by 31 or 36.
    fn tell_refused(&self, op: &Op, answer: &Result<Reply, AskError>) {
        if let Some(refused) = refused_by(name_to_change(op), answer) {
            self.log.refused(self.worker, &refused);
        }
    }

    /// Tells the log how often the store was asked again since it had been so often.
    fn tell_again(&self, before: u64) {
        let times = self.patient.asked_again.saturating_sub(before);
        if times > 0 {
            self.log.asked_again(self.worker, times);
        }
    }

    /// Tells the log what the changes of the pass have brought and taken, if the answer tells of one more.
    fn tell_tally(&self, answer: &Result<Reply, AskError>) {
        if let Ok(reply) = answer {
            if reply.is_change() {
                self.log.tallied(self.worker, self.patient.ask.pass.tally());
            }
        }
    }

    /// What stands now under the name of the bundle that the operation asks to change, if the store says so. Errors only if
    /// memory runs out.
    fn look(&mut self, op: &Op) -> Result<Option<Expect>, AllocError>
        ensures same { (self.new.log ≡ self.old.log) × (self.new.worker ≡ self.old.worker) }
        ensures later { (self.new.patient.ask.store ≡ self.old.patient.ask.store) × IsLater self.new.patient.ask.seen self.old.patient.ask.seen }
        ensures looked { IfOk result (λ before. (domain : Name) → changed_name op.now ≡ Some domain → HasLooked domain self.old.patient.ask self.new.patient.ask before) }
    {
        let Some(domain) = name_to_change(op) else {
            return Ok(None);
        };
        let copy = domain.copy()?;
        found_by(self.patient.ask(Op::Get(copy)))
    }
}

impl<'a, C: Clock, L: Log> Ask for Logged<'a, C, L> {
    ghost use Rattle.std.specs.Prelude.{None};
    ghost use Rattle.std.proofs.lemmas.Option.{none-some};
    ghost use Rattle.workers.specs.Log.{LoggedAnswer};

    ghost answers = { λ old op answer new. (new.worker ≡ old.worker)
        × LoggedAnswer L.tells L.wants old.worker (old.patient.ask, old.log) op answer (new.patient.ask, new.log) };

    ghost shows = { λ _. None };

    ghost answers_plainly = { λ old op answer new m none answered. absurd (none-some m none) };

    /// Asks. If changes are to be told, it looks at what stands there before, and tells of the change that the answer tells
    /// of. It is out of memory, and has changed nothing, if there is no room for a copy of the operation or for the look.
    fn ask(&mut self, op: Op) -> Result<Reply, AskError> {
        let asked_before = self.patient.asked_again;
        if !self.log.is_on() {
            let plain = self.patient.ask(op);
            self.tell_again(asked_before);
            self.tell_tally(&plain);
            return plain;
        }
        let Ok(copy) = op.copy() else {
            drop(op);
            return Err(AskError::Memory);
        };
        let Ok(before) = self.look(&copy) else {
            drop(op);
            drop(copy);
            return Err(AskError::Memory);
        };
        let answer = self.patient.ask(op);
        self.tell_again(asked_before);
        self.tell_tally(&answer);
        self.tell_refused(&copy, &answer);
        if let Some(change) = change_by(&copy, before, &answer) {
            self.log.changed(self.worker, &change);
        }
        drop(copy);
        answer
    }

    /// The same for a get, which changes nothing.
    fn show_get<V: Viewer>(
        &mut self,
        domain: TrustDomain,
        viewer: &mut V,
    ) -> Result<Option<Reply>, AskError> {
        let asked_before = self.patient.asked_again;
        let shown = self.patient.show_get(domain, viewer);
        self.tell_again(asked_before);
        shown
    }

    fn answered(&self, letter: u8, code: u8) {
        self.log.answered(self.worker, letter, code);
    }

    fn counts(&self, alloc: Global) -> Result<Vec<u8>, Memory> {
        self.log.counts(alloc)
    }
}

impl<C: Clock, L: Log> BehindPort for Logged<'_, C, L> {
    fn refused_at_port(&self, op: &Op) {
        if let Some(refused) = shut_to(name_to_change(op)) {
            self.log.refused(self.worker, &refused);
        }
    }

    fn turned_away_at_port(&self, count: u64) {
        self.log.turned_away(self.worker, count);
    }
}
