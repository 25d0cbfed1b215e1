//! One shard: a part of the map, and how often it was changed.
ghost use Rattle.std.specs.Prelude.{◌≡◌, ◌<◌, ◌≤◌, ◌⊎◌, ℕ, length, IfOk, IfErr, OnOk, OnErr, Ok, Err, false};
ghost use Rattle.std.specs.Arc.{arc_value};
ghost use Rattle.map_core.specs.Ask.{ShowsGet};
ghost use Rattle.map_core.specs.PlainMap.{ask};
ghost use Rattle.map_core.specs.Reply.{is_change};
ghost use Rattle.map_core.specs.declared.op.Op.TheVariants.{Get};
ghost use Rattle.step_core.specs.Shard.{fresh_shard, last_revision, of_shard, reading, step_on};

use map_core::{AskError, Contents, Op, Reply, Viewer};
use spiffe_doc::{Memory, TrustDomain};
use std::alloc::{AllocError, Global};
use std::marker::Model;
use std::sync::Arc;

const LAST_REVISION: u64 = 4611686018427387904;

/// A part of the map, with its revision: how often it was changed. A version that was shared stays as it is,
/// whatever the shard does then.
#[derive(Drop)]
pub struct Shard {
    alloc: Global,
    revision: u64,
    version: Arc<Contents>,
}

impl Model for Shard {
    ghost use Rattle.std.specs.Prelude.{◌≤◌};
    ghost use Rattle.std.specs.Arc.{arc_value};
    ghost use Rattle.step_core.specs.Shard.{ShardVersion, last_revision};
    ghost use Rattle.step_core.specs.Private.Codes.{version_code};

    ghost Value = { ShardVersion };

    ghost coded = { version_code };

    ghost view = { λ shard. record { revision = shard.revision; part = arc_value shard.version } };

    ghost invariant = { λ shard. shard.revision ≤ last_revision };
}

impl Shard {
    /// An empty shard of revision 0.
    pub fn new(alloc: Global) -> Result<Shard, Memory>
        ensures { IfOk result (λ shard. shard ≡ fresh_shard) }
    {
        Shard::with(alloc, 0, Contents::new(alloc))
    }

    /// A shard of this revision and these contents. If memory runs out the contents are gone.
    pub fn with(alloc: Global, revision: u64, contents: Contents) -> Result<Shard, Memory>
        requires { revision ≤ last_revision }
        ensures { IfOk result (λ shard. shard ≡ record { revision = revision; part = contents }) }
    {
        let version = Arc::new(alloc, contents)?;
        Ok(Shard {
            alloc,
            revision,
            version,
        })
    }

    /// The revision and the contents.
    pub fn look(&self) -> (u64, &Contents)
        ensures revision { result.0 ≡ self.now.revision }
        ensures small { result.0 ≤ last_revision }
        ensures part { result.1.now ≡ self.now.part }
    {
        (self.revision, &self.version)
    }

    /// The revision and the version, to keep. Later steps leave it.
    pub fn share(&self) -> Result<(u64, Arc<Contents>), Memory>
        ensures revision { IfOk result (λ shared. shared.0 ≡ self.now.revision) }
        ensures part { IfOk result (λ shared. arc_value shared.1 ≡ self.now.part) }
    {
        Ok((self.revision, Arc::try_clone(&self.version)?))
    }

    /// A `Get` of the name, answered to a viewer by the version as it stands. Nobody needs to know whether others share it.
    pub(crate) fn show<V: Viewer>(
        &self,
        domain: &TrustDomain,
        viewer: &mut V,
    ) -> Result<Option<Reply>, AllocError>
        ensures { ShowsGet V.notes (λ answer. IfOk answer (λ reply. reply ≡ (ask self.now.part (Get domain.now)).reply)) (V.noted viewer.old) result (V.noted viewer.new) }
    {
        self.version.show(domain, viewer)
    }

    /// Answers an operation on one name. The revision rises by one if and only if the contents change; at the last
    /// revision such a step is refused as worn, of shard 0. A refusal changes nothing.
    pub fn step(&mut self, op: Op) -> Result<Reply, AskError>
        ensures answer { IfOk result (λ r. (step_on self.old op).answer ≡ Ok r) }
        ensures shard { OnOk result (self.new ≡ (step_on self.old op).shard) }
        ensures refused { IfErr result (λ e. (e ≡ AskError.Memory) ⊎ ((step_on self.old op).answer ≡ Err e)) }
        ensures err { OnErr result (self.new ≡ self.old) }
    {
        if let Err(why) = self.refuse_worn(&op) {
            drop(op);
            return Err(why);
        }
        let alloc = self.alloc;
        let reply = ask_version(alloc, &mut self.version, op)?;
        if reply.is_change() {
            self.revision += 1;
        }
        Ok(reply)
    }

    // Refuses an operation that would change a shard of the last revision.
    fn refuse_worn(&self, op: &Op) -> Result<(), AskError>
        ensures taken { OnOk result (self.now.revision ≡ last_revision → is_change (ask self.now.part op.now).reply ≡ false) }
        ensures refused { IfErr result (λ e. (e ≡ AskError.Memory) ⊎ ((step_on self.now op.now).answer ≡ Err e)) }
    {
        if self.revision == LAST_REVISION && self.version.would_change(op)? {
            return Err(AskError::Worn { shard: 0 });
        }
        Ok(())
    }
}

// Asks a version that nobody shares in its place.
fn ask_version(alloc: Global, version: &mut Arc<Contents>, op: Op) -> Result<Reply, AskError>
    ensures reply { IfOk result (λ r. r ≡ (ask (arc_value version.old) op).reply) }
    ensures left { OnOk result (arc_value version.new ≡ (ask (arc_value version.old) op).map) }
    ensures refused { IfErr result (λ e. e ≡ AskError.Memory) }
    ensures err { OnErr result (arc_value version.new ≡ arc_value version.old) }
{
    if let Some(contents) = Arc::get_mut(version) {
        return contents.ask(op);
    }
    let reply = ask_shared(alloc, version, &op);
    drop(op);
    reply
}

// Asks a version that others share too: it stays, and if the operation would change it, another one takes its place.
fn ask_shared(alloc: Global, version: &mut Arc<Contents>, op: &Op) -> Result<Reply, AskError>
    ensures reply { IfOk result (λ r. r ≡ (ask (arc_value version.old) op.now).reply) }
    ensures left { OnOk result (arc_value version.new ≡ (ask (arc_value version.old) op.now).map) }
    ensures refused { IfErr result (λ e. e ≡ AskError.Memory) }
    ensures err { OnErr result (arc_value version.new ≡ arc_value version.old) }
{
    let (reply, after) = version.asked(op)?;
    if let Some(after) = after {
        let Ok(after) = Arc::new(alloc, after) else {
            drop(reply);
            return Err(AskError::Memory);
        };
        *version = after;
    }
    Ok(reply)
}

/// This many empty shards.
pub(crate) fn fresh_shards(alloc: Global, count: usize) -> Result<Vec<Shard>, AllocError>
    ensures len { IfOk result (λ v. length v.items ≡ count) }
    ensures fresh { IfOk result (λ v. (i : ℕ) → i < count → reading v.items i ≡ fresh_shard) }
{
    let mut shards = Vec::new(alloc);
    for _ in 0..count {
        let shard = Shard::new(alloc)?;
        shards.push(shard)?;
    }
    Ok(shards)
}

/// The answer of the shard at this place: a worn one does not know its number.
pub(crate) fn at_shard(place: usize, answer: Result<Reply, AskError>) -> Result<Reply, AskError>
    ensures { result ≡ of_shard place answer }
{
    match answer {
        Err(AskError::Worn { .. }) => Err(AskError::Worn { shard: place }),
        answer => answer,
    }
}
