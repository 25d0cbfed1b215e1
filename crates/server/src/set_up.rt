//! The store of a server and the passes of its workers, before anything is accepted.
ghost use Rattle.std.specs.Prelude.{◌≡◌, vec_len, IfOk, IfErr};
ghost use Rattle.std.specs.List.{All};
ghost use Rattle.shard_store.specs.Pass.{IsOf};
ghost use Rattle.workers.specs.Workers.{IsFurther};
ghost use Rattle.server.specs.Serve.{Filled, IsSetUp, NotFilled, NotSetUp};

use crate::counts::Counts;
use command_line::Settings;
use shard_store::{Pass, Store};
use std::alloc::Global;
use wire::FrontError;
use workers::{FillError, fill_store, passes_of};

/// A store, and a pass of it for each worker.
#[derive(Drop)]
pub struct SetUp {
    pub store: Store,
    pub passes: Vec<Pass>,
}

/// The first pass of an empty store, once it is filled with what the requests hold, if there are any.
fn filled(alloc: Global, store: &Store, first: Pass, requests: &[u8]) -> Result<Pass, FrontError>
    requires own { IsOf first store.now }
    ensures own { IfOk result (λ pass. IsOf pass store.now) }
    ensures further { IfOk result (λ pass. IsFurther pass.seen first.seen) }
    ensures filled { IfOk result (λ pass. Filled requests.now store.now first.seen pass.seen) }
    ensures refused { IfErr result (λ error. NotFilled requests.now store.now first.seen error) }
{
    if requests.is_empty() {
        return Ok(first);
    }
    match fill_store(alloc, store, first, requests) {
        Ok(pass) => Ok(pass),
        Err(FillError::Front(error)) => Err(error),
        // Over an empty store each request of a dump stores a bundle, unless memory runs out.
        Err(FillError::NotStored) => Err(FrontError::Memory),
    }
}

impl SetUp {
    /// A store of these settings, filled with what the requests hold, if there are any, and a pass for each worker.
    pub fn new(alloc: Global, settings: Settings, requests: &[u8]) -> Result<SetUp, FrontError>
        ensures set_up { IfOk result (λ made. IsSetUp settings requests.now made.store made.passes.items) }
        ensures own { IfOk result (λ made. All (λ pass. IsOf pass made.store) made.passes.items) }
        ensures refused { IfErr result (λ error. NotSetUp requests.now error) }
    {
        let (shards, rounds, tries) = (settings.shards, settings.rounds, settings.tries);
        let Ok((store, first)) = Store::new(alloc, shards, rounds, tries) else {
            return Err(FrontError::Memory);
        };
        let first = filled(alloc, &store, first, requests)?;
        match passes_of(alloc, &store, first, settings.workers) {
            Ok(passes) => Ok(SetUp { store, passes }),
            Err(_) => Err(FrontError::Memory),
        }
    }

    /// Counts what is stored already.
    pub fn count(&self, counts: &Counts) {
        for (worker, pass) in self.passes.as_slice().iter().enumerate() {
            counts.tallied(worker as u64, pass.tally());
        }
    }
}
