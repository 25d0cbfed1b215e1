//! The shards of one caller.
ghost use Rattle.std.specs.Prelude.{◌≡◌, ◌<◌, ◌≤◌, ◌⊎◌, ◌+◌, ℕ, IfOk, OnOk, IfErr, OnErr, length, Some, None};
ghost use Rattle.std.specs.FinMap as finite;
ghost use Rattle.map_core.specs.Ask.{ShowsGet};
ghost use Rattle.map_core.specs.PlainMap.{ask, shard_of};
ghost use Rattle.map_core.specs.declared.op.Op.TheVariants.{Get};
ghost use Rattle.step_core.specs.Phase.{Waiting};
ghost use Rattle.step_core.specs.Shard.{fresh_shard, reading};
ghost use Rattle.step_core.specs.Shards.{map_of, after_step, after_step_at, IsWorn, Refuses, ShardsAnswer};

use crate::home::{home, shard_of};
use crate::shard::{Shard, at_shard, fresh_shards};
use crate::task::{Answer, Task};
use map_core::{Ask, AskError, Op, Reply, Viewer};
use spiffe_doc::{Memory, TrustDomain};
use std::alloc::Global;
use std::marker::Model;

/// Shards that one caller owns. They answer as the plain map that they are together, but for a worn shard.
#[derive(Drop)]
pub struct Shards {
    alloc: Global,
    shards: Vec<Shard>,
}

impl Model for Shards {
    ghost use Rattle.std.specs.Prelude.{List};
    ghost use Rattle.std.specs.Coded.{coded_list};
    ghost use Rattle.step_core.specs.Shard.{ShardVersion};
    ghost use Rattle.step_core.specs.Private.Codes.{version_code};
    ghost use Rattle.step_core.specs.Private.Parts.{AreParts};

    ghost Value = { List ShardVersion };

    ghost coded = { coded_list version_code };

    ghost view = { λ shards. shards.shards.items };

    ghost invariant = { λ shards. AreParts shards.shards.items };
}

impl Shards {
    /// This many empty shards of revision 0.
    pub fn new(alloc: Global, count: usize) -> Result<Shards, Memory>
        requires { 0 < count }
        ensures count { IfOk result (λ shards. length shards ≡ count) }
        ensures fresh { IfOk result (λ shards. (i : ℕ) → i < count → reading shards i ≡ fresh_shard) }
        ensures empty { IfOk result (λ shards. map_of shards ≡ finite.empty) }
    {
        let shards = fresh_shards(alloc, count)?;
        Ok(Shards { alloc, shards })
    }

    /// Answers an operation as the plain map does. The shard that it is for makes one step, and the others stay. It is
    /// refused if memory runs out, and as worn if it would change a shard at its last revision; then nothing has changed.
    pub fn ask(&mut self, op: Op) -> Result<Reply, AskError>
        ensures reply { IfOk result (λ reply. reply ≡ (ask (map_of self.old) op).reply) }
        ensures left { OnOk result (map_of self.new ≡ (ask (map_of self.old) op).map) }
        ensures shards { OnOk result (self.new ≡ after_step self.old op) }
        ensures fit { OnOk result ((i : ℕ) → IsWorn self.old op i → ⊥) }
        ensures refused { IfErr result (λ e. Refuses self.old op e) }
        ensures err { OnErr result (self.new ≡ self.old) }
    {
        match shard_of(&op, self.shards.len()) {
            Some(place) => self.ask_name(place, op),
            None => {
                let answer = self.fetch_all(&op);
                drop(op);
                answer
            }
        }
    }

    // A `Get` of the name, answered to a viewer. No shard makes a step for it.
    fn show<V: Viewer>(
        &self,
        domain: &TrustDomain,
        viewer: &mut V,
    ) -> Result<Option<Reply>, AskError>
        ensures { ShowsGet V.notes (λ answer. ShardsAnswer self.now (Get domain.now) answer self.now) (V.noted viewer.old) result (V.noted viewer.new) }
    {
        let place = home(domain, self.shards.len());
        Ok(self.shards[place].show(domain, viewer)?)
    }

    // Answers an operation on a name of the shard at this place, by a task: it wants that shard's step, and no more.
    fn ask_name(&mut self, place: usize, op: Op) -> Result<Reply, AskError>
        requires home { shard_of (length self.old) op ≡ Some place }
        requires place { place < length self.old }
        ensures reply { IfOk result (λ reply. reply ≡ (ask (map_of self.old) op).reply) }
        ensures left { OnOk result (map_of self.new ≡ (ask (map_of self.old) op).map) }
        ensures shards { OnOk result (self.new ≡ after_step_at self.old op (Some place)) }
        ensures fit { OnOk result ((i : ℕ) → IsWorn self.old op i → ⊥) }
        ensures refused { IfErr result (λ e. Refuses self.old op e) }
        ensures err { OnErr result (self.new ≡ self.old) }
    {
        let Ok(task) = Task::begin(self.alloc, &op, self.shards.len(), 1) else {
            drop(op);
            return Err(AskError::Memory);
        };
        let answer = at_shard(place, self.shards[place].step(op));
        replied(task, answer)
    }

    // Answers an operation on all names. Nobody else changes a shard, so one round is enough.
    fn fetch_all(&self, op: &Op) -> Result<Reply, AskError>
        requires all { shard_of (length self.now) op.now ≡ None }
        ensures reply { IfOk result (λ reply. reply ≡ (ask (map_of self.now) op.now).reply) }
        ensures refused { IfErr result (λ e. e ≡ AskError.Memory) }
    {
        let mut task = Task::begin(self.alloc, op, self.shards.len(), 1)?;
        for shard in &self.shards {
            let (revision, contents) = shard.share()?;
            task.give(Answer::Seen { revision, contents });
        }
        for shard in &self.shards {
            let (revision, _) = shard.look();
            task.give(Answer::Revision(revision));
        }
        task.reply()
    }
}

/// The reply of a task that waits for the step of a shard, once it is told the answer of that step.
fn replied(mut task: Task, answer: Result<Reply, AskError>) -> Result<Reply, AskError>
    requires { (place : ℕ) × (task.phase ≡ Waiting place) }
    ensures { result ≡ answer }
{
    task.give(Answer::Replied(answer));
    task.reply()
}

impl Ask for Shards {
    ghost use Rattle.std.specs.Prelude.{Some};
    ghost use Rattle.step_core.specs.Shards.{map_of, ShardsAnswer};
    ghost use Rattle.step_core.specs.ShardsPlain.{shards_answer_plainly};

    ghost answers = { ShardsAnswer };

    ghost shows = { λ versions. Some (map_of versions) };

    ghost answers_plainly = { shards_answer_plainly };

    fn ask(&mut self, op: Op) -> Result<Reply, AskError> {
        Shards::ask(self, op)
    }

    fn show_get<V: Viewer>(
        &mut self,
        domain: TrustDomain,
        viewer: &mut V,
    ) -> Result<Option<Reply>, AskError> {
        Shards::show(self, &domain, viewer)
    }
}
