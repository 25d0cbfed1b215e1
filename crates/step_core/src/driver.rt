//! The program's machine: shards, callers with their operations, and what each event does.
ghost use Rattle.std.specs.Prelude.{◌≡◌, ◌<◌, ℕ, IfOk, OnOk, None, length, get_or, slice_set};
ghost use Rattle.step_core.specs.World.{refusal};
ghost use Rattle.step_core.specs.Shard.{of_shard, step_on, reading, fresh_shard};
ghost use Rattle.step_core.specs.Run.{Run, act, fresh_run};
ghost use Rattle.step_core.specs.Records.{no_record};
ghost use Rattle.step_core.specs.Task.{observation_of, IsWantOf};
ghost use Rattle.step_core.specs.Private.Driver.{observation_by, left_by, update_positions, place_after, with_wrote, with_end};
ghost use Rattle.step_core.specs.Private.Shown.{IsShown};
ghost use Rattle.step_core.specs.declared.event.Event.TheVariants.{Begin, Step, Quit, End};

use crate::event::{Event, Why};
use crate::shard::{Shard, at_shard, fresh_shards};
use crate::task::{Answer, Task, Want};
use crate::trace::OpRecord;
use map_core::{AskError, Op, Reply};
use std::alloc::{AllocError, Global};
use std::collections::BTreeMap;

/// An operation that is not finished: its number among the records, how far it is, and the place of its point
/// among the points, once it has one.
#[derive(Drop)]
struct Running {
    number: usize,
    task: Task,
    place: usize,
}

/// The shards, the operations under way by their callers, and what was recorded.
#[derive(Drop)]
pub(crate) struct Driver {
    alloc: Global,
    rounds: usize,
    shards: Vec<Shard>,
    callers: BTreeMap<u32, Running>,
    pub(crate) ops: Vec<OpRecord>,
    pub(crate) points: Vec<Option<usize>>,
}

// What the shards tell to the operation.
fn observe(shards: &mut [Shard], op: &Op, want: Want) -> Result<Answer, AllocError>
    requires { IsWantOf (length shards.old) want }
    ensures left { OnOk result (shards.new ≡ left_by shards.old op.now want) }
    ensures observed { IfOk result (λ answer. observation_of answer ≡ observation_by shards.old op.now want) }
{
    match want {
        Want::Do(place) => {
            let reply = step_shard(&mut shards[place], op.copy()?)?;
            Ok(Answer::Replied(at_shard(place, reply)))
        }
        Want::Collect(place) => {
            let (revision, contents) = shards[place].share()?;
            Ok(Answer::Seen { revision, contents })
        }
        Want::Confirm(place) => {
            let (revision, _) = shards[place].look();
            Ok(Answer::Revision(revision))
        }
        Want::Done => Ok(Answer::Revision(0)),
    }
}

// The answer of one shard's step, unless there is no memory.
fn step_shard(shard: &mut Shard, op: Op) -> Result<Result<Reply, AskError>, AllocError>
    ensures answer { IfOk result (λ answer. answer ≡ (step_on shard.old op).answer) }
    ensures shard { OnOk result (shard.new ≡ (step_on shard.old op).shard) }
{
    match shard.step(op) {
        Ok(reply) => Ok(Ok(reply)),
        Err(AskError::Memory) => Err(AllocError),
        Err(AskError::Worn { shard }) => Ok(Err(AskError::Worn { shard })),
        Err(
            AskError::Moved {
                shard,
                first,
                second,
            },
        ) => Ok(Err(AskError::Moved {
            shard,
            first,
            second,
        })),
        Err(AskError::Held { shard, revision }) => Ok(Err(AskError::Held { shard, revision })),
        Err(AskError::GateShut) => Ok(Err(AskError::GateShut)),
    }
}

// The points after an operation has gone on whose own stood at this place, and the place of its own then. The place
// of a point that is given up stays, empty, so that no other point moves.
fn repoint(
    points: &mut Vec<Option<usize>>,
    had_point: bool,
    has_point: bool,
    number: usize,
    place: usize,
) -> Result<usize, AllocError>
    ensures points { OnOk result (points.new.items ≡ update_positions had_point has_point number place points.old.items) }
    ensures place { IfOk result (λ now. now ≡ place_after had_point has_point place points.old.items) }
{
    if had_point {
        if !has_point {
            clear(points, place);
        }
        return Ok(place);
    }
    if !has_point {
        return Ok(place);
    }
    let place = points.len();
    points.push(Some(number))?;
    Ok(place)
}

fn clear(points: &mut [Option<usize>], place: usize)
    ensures { points.new ≡ slice_set points.old place None }
{
    if place < points.len() {
        points[place] = None;
    }
}

// The operation has gone on.
fn mark(ops: &mut [OpRecord], number: usize, wrote: bool)
    requires { number < length ops.old }
    ensures marked { ops.new ≡ slice_set ops.old number (with_wrote (get_or ops.old number no_record) wrote) }
{
    ops[number].wrote = wrote;
}

// The operation has ended.
fn finish(ops: &mut [OpRecord], number: usize, now: u64, reply: Result<Reply, AskError>)
    requires { number < length ops.old }
    ensures ended { ops.new ≡ slice_set ops.old number (with_end (get_or ops.old number no_record) now reply) }
{
    let entry = &mut ops[number];
    entry.last = Some(now);
    entry.reply = Some(reply);
}

fn refusal_of(why: Why) -> AskError
    ensures { result ≡ refusal why }
{
    match why {
        Why::Held { shard, revision } => AskError::Held { shard, revision },
        Why::Memory => AskError::Memory,
    }
}

impl Driver {
    pub(crate) fn new(alloc: Global, shards: usize, rounds: usize) -> Result<Driver, AllocError>
        ensures { IfOk result (λ driver. IsShown shards rounds driver fresh_run) }
    {
        Ok(Driver {
            alloc,
            rounds,
            shards: fresh_shards(alloc, shards)?,
            callers: BTreeMap::new(alloc),
            ops: Vec::new(alloc),
            points: Vec::new(alloc),
        })
    }

    pub(crate) fn act(&mut self, event: &Event, now: u64) -> Result<(), AllocError>
        requires shards { 0 < length self.old.shards.items }
        requires rounds { 0 < self.old.rounds }
        requires shown { (run : Run) × IsShown (length self.old.shards.items) self.old.rounds self.old run }
        ensures acts { OnOk result ((n rounds : ℕ) (run : Run) → run.events ≡ now → IsShown n rounds self.old run → IsShown n rounds self.new (act n rounds run event.now)) }
        ensures rounds { self.new.rounds ≡ self.old.rounds }
        ensures shards { length self.new.shards.items ≡ length self.old.shards.items }
    {
        match event {
            Event::Begin(caller, op) => self.begin(*caller, op, now),
            Event::Step(caller) => self.step(*caller),
            Event::Quit(caller, why) => self.quit(*caller, *why, now),
            Event::End(caller) => self.end(*caller, now),
        }
    }

    fn begin(&mut self, caller: u32, op: &Op, now: u64) -> Result<(), AllocError>
        requires shards { 0 < length self.old.shards.items }
        requires rounds { 0 < self.old.rounds }
        requires shown { (run : Run) × IsShown (length self.old.shards.items) self.old.rounds self.old run }
        ensures acts { OnOk result ((n rounds : ℕ) (run : Run) → run.events ≡ now → IsShown n rounds self.old run → IsShown n rounds self.new (act n rounds run (Begin caller op.now))) }
        ensures rounds { self.new.rounds ≡ self.old.rounds }
        ensures shards { length self.new.shards.items ≡ length self.old.shards.items }
    {
        if self.callers.contains_key(&caller) {
            return Ok(());
        }
        let task = Task::begin(self.alloc, op, self.shards.len(), self.rounds)?;
        let number = self.ops.len();
        let record = OpRecord {
            caller,
            op: op.copy()?,
            first: now,
            last: None,
            reply: None,
            wrote: false,
        };
        self.ops.push(record)?;
        let running = Running {
            number,
            task,
            place: 0,
        };
        drop(self.callers.insert(caller, running)?);
        Ok(())
    }

    fn step(&mut self, caller: u32) -> Result<(), AllocError>
        requires shown { (run : Run) × IsShown (length self.old.shards.items) self.old.rounds self.old run }
        ensures acts { OnOk result ((n rounds : ℕ) (run : Run) → IsShown n rounds self.old run → IsShown n rounds self.new (act n rounds run (Step caller))) }
        ensures rounds { self.new.rounds ≡ self.old.rounds }
        ensures shards { length self.new.shards.items ≡ length self.old.shards.items }
    {
        let Some(mut running) = self.callers.remove(&caller) else {
            return Ok(());
        };
        if running.task.is_done() {
            drop(self.callers.insert(caller, running)?);
            return Ok(());
        }
        let number = running.number;
        let had_point = running.task.has_point();
        let want = running.task.wants();
        let answer = observe(&mut self.shards, &self.ops[number].op, want)?;
        running.task.give(answer);
        if running.task.is_out_of_memory() {
            drop(running);
            return Err(AllocError);
        }
        let has_point = running.task.has_point();
        running.place = repoint(
            &mut self.points,
            had_point,
            has_point,
            number,
            running.place,
        )?;
        mark(&mut self.ops, number, running.task.has_written());
        drop(self.callers.insert(caller, running)?);
        Ok(())
    }

    fn quit(&mut self, caller: u32, why: Why, now: u64) -> Result<(), AllocError>
        requires shown { (run : Run) × IsShown (length self.old.shards.items) self.old.rounds self.old run }
        ensures acts { OnOk result ((n rounds : ℕ) (run : Run) → run.events ≡ now → IsShown n rounds self.old run → IsShown n rounds self.new (act n rounds run (Quit caller why))) }
        ensures rounds { self.new.rounds ≡ self.old.rounds }
        ensures shards { length self.new.shards.items ≡ length self.old.shards.items }
    {
        let Some(running) = self.callers.remove(&caller) else {
            return Ok(());
        };
        if running.task.is_done() {
            drop(self.callers.insert(caller, running)?);
            return Ok(());
        }
        let number = running.number;
        let had_point = running.task.has_point();
        repoint(&mut self.points, had_point, false, number, running.place)?;
        mark(&mut self.ops, number, false);
        finish(&mut self.ops, number, now, Err(refusal_of(why)));
        drop(running);
        Ok(())
    }

    fn end(&mut self, caller: u32, now: u64) -> Result<(), AllocError>
        requires shown { (run : Run) × IsShown (length self.old.shards.items) self.old.rounds self.old run }
        ensures acts { OnOk result ((n rounds : ℕ) (run : Run) → run.events ≡ now → IsShown n rounds self.old run → IsShown n rounds self.new (act n rounds run (End caller))) }
        ensures rounds { self.new.rounds ≡ self.old.rounds }
        ensures shards { length self.new.shards.items ≡ length self.old.shards.items }
    {
        let Some(running) = self.callers.remove(&caller) else {
            return Ok(());
        };
        if !running.task.is_done() {
            drop(self.callers.insert(caller, running)?);
            return Ok(());
        }
        finish(&mut self.ops, running.number, now, running.task.reply());
        Ok(())
    }
}
