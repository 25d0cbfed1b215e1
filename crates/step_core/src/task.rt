//! One operation, one step at a time.
ghost use Rattle.std.specs.Prelude.{◌≡◌, ◌<◌, ◌⊎◌, IfOk, true, false};
ghost use Rattle.map_core.specs.Op.{known_of};
ghost use Rattle.step_core.specs.Phase.{start_phase, wants, give, is_done, wrote_shard, has_point, Done};
ghost use Rattle.step_core.specs.Task.{phase_of, observation_of, IsWantOf, is_last_confirm, out_of_memory};
ghost use Rattle.step_core.specs.Private.Progress.{IsInside, HasRoom, is_out_of_memory};

use crate::home::shard_of;
use crate::round;
use crate::round::{Reading, Terms};
use map_core::{AskError, Contents, Op, Reply};
use spiffe_doc::Memory;
use std::alloc::Global;
use std::marker::Model;
use std::sync::Arc;

/// What a task wants to be told next.
#[derive(Clone, Copy, Debug, PartialEq, Eq, Drop)]
pub enum Want {
    /// The answer of this shard to the operation.
    Do(usize),
    /// This shard's revision and contents.
    Collect(usize),
    /// This shard's revision.
    Confirm(usize),
    /// Nothing: the reply is there.
    Done,
}

/// What a task is told.
#[derive(Drop)]
pub enum Answer {
    /// The answer of the shard to the operation.
    Replied(Result<Reply, AskError>),
    /// A shard as it was read.
    Seen {
        revision: u64,
        contents: Arc<Contents>,
    },
    /// A shard's revision.
    Revision(u64),
}

#[derive(Drop)]
pub(crate) enum State {
    Waiting(usize),
    Collecting(usize, Vec<Reading>),
    Confirming(usize, Vec<Reading>, usize),
    Done(Result<Reply, AskError>),
}

/// An operation that is under way over some shards. One on a name is one step of its shard. A fetch-all collects all
/// shards in order and then confirms that each still has the revision that was collected; if one has not, all
/// readings are thrown away and a new round begins, or the rounds are used up.
#[derive(Drop)]
pub struct Task {
    alloc: Global,
    terms: Terms,
    state: State,
}

impl Model for Task {
    ghost use Rattle.std.specs.Coded.{codes};
    ghost use Rattle.map_core.specs.Private.Codes.{plain_map_code};
    ghost use Rattle.step_core.specs.TaskView.{TaskView};
    ghost use Rattle.step_core.specs.Task.{phase_of};
    ghost use Rattle.step_core.specs.Private.Progress.{IsInside, HasRoom};

    ghost Value = { TaskView };

    ghost coded = { Prim.hlevel (codes, plain_map_code) };

    ghost view = { λ task. record { shards = task.terms.shards; rounds = task.terms.rounds; known = task.terms.known; phase = phase_of task.state } };

    ghost invariant = { λ task. IsInside task.terms.shards task.terms.rounds (phase_of task.state) × HasRoom task.terms.shards task.state };
}

impl Task {
    /// Begins the operation over this many shards, within this many rounds.
    pub fn begin(alloc: Global, op: &Op, shards: usize, rounds: usize) -> Result<Task, Memory>
        requires shards { 0 < shards }
        requires rounds { 0 < rounds }
        ensures { IfOk result (λ task. task ≡ record { shards = shards; rounds = rounds; known = known_of op.now; phase = start_phase shards op.now }) }
    {
        let state = match shard_of(op, shards) {
            Some(shard) => State::Waiting(shard),
            None => State::Collecting(1, Vec::with_capacity(alloc, shards)?),
        };
        let terms = Terms {
            shards,
            rounds,
            known: op.known(),
        };
        Ok(Task {
            alloc,
            terms,
            state,
        })
    }

    /// What it wants to be told next.
    pub fn wants(&self) -> Want
        ensures want { result ≡ wants self.now.phase }
        ensures inside { IsWantOf self.now.shards result }
    {
        match &self.state {
            State::Waiting(shard) => Want::Do(*shard),
            State::Collecting(_, readings) => Want::Collect(readings.len()),
            State::Confirming(_, _, place) => Want::Confirm(*place),
            State::Done(_) => Want::Done,
        }
    }

    /// Takes what it wanted to be told; anything else changes nothing. Only the last confirm takes memory, since with it
    /// the reply is put together; if memory runs out there, the task is done with that.
    pub fn give(&mut self, answer: Answer)
        ensures shards { self.new.shards ≡ self.old.shards }
        ensures rounds { self.new.rounds ≡ self.old.rounds }
        ensures known { self.new.known ≡ self.old.known }
        ensures phase { (self.new.phase ≡ give self.old.shards self.old.rounds self.old.known self.old.phase (observation_of answer)) ⊎ (self.new.phase ≡ out_of_memory) }
        ensures exact { is_last_confirm self.old.shards self.old.phase (observation_of answer) ≡ false → self.new.phase ≡ give self.old.shards self.old.rounds self.old.known self.old.phase (observation_of answer) }
    {
        let state = std::mem::replace(&mut self.state, State::Done(Err(AskError::Memory)));
        self.state = give(self.alloc, self.terms, state, answer);
    }

    /// Whether the operation has its place among all operations.
    pub(crate) fn has_point(&self) -> bool
        ensures { result ≡ has_point self.now.phase }
    {
        match &self.state {
            State::Waiting(_) => false,
            State::Collecting(_, _) => false,
            State::Confirming(_, _, _) => true,
            State::Done(Ok(_)) => true,
            State::Done(Err(_)) => false,
        }
    }

    /// Whether the operation has changed its shard.
    pub(crate) fn has_written(&self) -> bool
        ensures { result ≡ wrote_shard self.now.phase }
    {
        match &self.state {
            State::Waiting(_) => false,
            State::Collecting(_, _) => false,
            State::Confirming(_, _, _) => false,
            State::Done(Ok(reply)) => reply.is_change(),
            State::Done(Err(_)) => false,
        }
    }

    /// Whether the reply is there.
    pub(crate) fn is_done(&self) -> bool
        ensures { result ≡ is_done self.now.phase }
    {
        match &self.state {
            State::Waiting(_) => false,
            State::Collecting(_, _) => false,
            State::Confirming(_, _, _) => false,
            State::Done(_) => true,
        }
    }

    /// Whether it is done because it found no memory.
    pub(crate) fn is_out_of_memory(&self) -> bool
        ensures { result ≡ is_out_of_memory self.now.phase }
    {
        match &self.state {
            State::Waiting(_) => false,
            State::Collecting(_, _) => false,
            State::Confirming(_, _, _) => false,
            State::Done(Ok(_)) => false,
            State::Done(Err(AskError::Memory)) => true,
            State::Done(Err(AskError::Worn { .. })) => false,
            State::Done(Err(AskError::Moved { .. })) => false,
            State::Done(Err(AskError::Held { .. })) => false,
            State::Done(Err(AskError::GateShut)) => false,
        }
    }

    /// The reply, if nothing more is wanted.
    pub fn reply(self) -> Result<Reply, AskError>
        requires { wants self.phase ≡ Want.Done }
        ensures { self.phase ≡ Done result }
    {
        match self.state {
            State::Waiting(_) => Err(AskError::Memory),
            State::Collecting(_, _) => Err(AskError::Memory),
            State::Confirming(_, _, _) => Err(AskError::Memory),
            State::Done(reply) => reply,
        }
    }
}

// The state after an answer.
fn give(alloc: Global, terms: Terms, state: State, answer: Answer) -> State
    requires inside { IsInside terms.shards terms.rounds (phase_of state) }
    requires room { HasRoom terms.shards state }
    ensures inside { IsInside terms.shards terms.rounds (phase_of result) }
    ensures room { HasRoom terms.shards result }
    ensures phase { (phase_of result ≡ give terms.shards terms.rounds terms.known (phase_of state) (observation_of answer)) ⊎ (phase_of result ≡ out_of_memory) }
    ensures exact { is_last_confirm terms.shards (phase_of state) (observation_of answer) ≡ false → phase_of result ≡ give terms.shards terms.rounds terms.known (phase_of state) (observation_of answer) }
{
    match (state, answer) {
        (State::Waiting(_), Answer::Replied(reply)) => State::Done(reply),
        (State::Collecting(round, readings), Answer::Seen { revision, contents }) => {
            round::after_reading(
                terms.shards,
                terms.rounds,
                round,
                readings,
                Reading::new(revision, contents),
            )
        }
        (State::Confirming(round, readings, place), Answer::Revision(now)) => {
            round::compare(alloc, terms, round, readings, place, now)
        }
        (state, _) => state,
    }
}
