//! What a pass remembers: of each shard, what it read when it held it last.
ghost use Rattle.std.specs.Prelude.{◌≡◌, ℕ, List, [], None, Some, slice_index_or, IfOk, IfSome};
ghost use Rattle.std.specs.Arc.{arc_value};
ghost use Rattle.shard_store.specs.declared.change.Change.{Change};
ghost use Rattle.shard_store.specs.Private.LastReads.{AreLastReads, IsLastRead};

use map_core::Contents;
use std::alloc::{AllocError, Global};
use std::sync::Arc;

/// What was read of a shard while it was held.
#[derive(Drop)]
pub(crate) struct LastRead {
    pub revision: u64,
    pub version: Arc<Contents>,
}

impl LastRead {
    /// The same, with another owner of the version.
    pub(crate) fn copy(&self) -> Result<LastRead, AllocError>
        ensures { IfOk result (λ r. (r.revision ≡ self.now.revision) × (arc_value r.version ≡ arc_value self.now.version)) }
    {
        let version = Arc::try_clone(&self.version)?;
        Ok(LastRead {
            revision: self.revision,
            version,
        })
    }
}

/// For each shard what was read of it last, if anything. It has room for no shard until one is read.
#[derive(Drop)]
pub(crate) struct LastReads {
    pub by_shard: Vec<Option<LastRead>>,
}

impl LastReads {
    pub(crate) fn new(alloc: Global) -> LastReads
        ensures { result.by_shard.items ≡ [] }
    {
        LastReads {
            by_shard: Vec::new(alloc),
        }
    }

    /// What was read of the shard last, if it had this revision then.
    pub(crate) fn at(&self, shard: usize, revision: u64) -> Option<&LastRead>
        ensures { IfSome result (λ r. (slice_index_or self.now.by_shard.items shard None ≡ Some r.now) × (r.now.revision ≡ revision)) }
    {
        if shard >= self.by_shard.len() {
            return None;
        }
        match &self.by_shard[shard] {
            Some(last) if last.revision == revision => Some(last),
            _ => None,
        }
    }

    /// Remembers what was read of a shard, for which there is room, in place of what was read of it before; or that
    /// nothing was.
    pub(crate) fn keep(&mut self, shard: usize, read: Option<LastRead>)
        ensures { (n : ℕ) (log : List Change) → AreLastReads n log self.old.by_shard.items → IsLastRead n shard log read → AreLastReads n log self.new.by_shard.items }
    {
        if shard >= self.by_shard.len() {
            return;
        }
        self.by_shard[shard] = read;
    }

    /// Makes room for so many shards. It is made before a shard is asked, so that nothing changes if it is refused.
    pub(crate) fn make_room(&mut self, shards: usize) -> Result<(), AllocError>
        ensures { (n : ℕ) (log : List Change) → AreLastReads n log self.old.by_shard.items → AreLastReads n log self.new.by_shard.items }
    {
        for _ in self.by_shard.len()..shards {
            self.by_shard.push(None)?;
        }
        Ok(())
    }
}
