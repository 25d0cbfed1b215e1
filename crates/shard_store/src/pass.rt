//! What a thread asks a store with.
ghost use Rattle.std.specs.Prelude.{◌≡◌};
ghost use Rattle.shard_store.specs.Changes.{own_count};

use crate::desk::Desk;
use crate::last_all::LastAll;
use crate::tally::Tally;
use std::marker::Model;

/// A thread's leave to ask its store. Contracts see a log of the changes that the pass has seen, and its numbers:
/// a change that a call makes bears the first number of its pass.
#[derive(Drop)]
pub struct Pass {
    pub(crate) desk: Desk,
    pub(crate) numbers: u64,
    pub(crate) last_all: Option<LastAll>,
    pub(crate) tally: Tally,
}

impl Model for Pass {
    ghost use Rattle.std.specs.Prelude.{◌≡◌};
    ghost use Rattle.shard_store.specs.Pass.{PassView};
    ghost use Rattle.shard_store.specs.Changes.{own_count};
    ghost use Rattle.shard_store.specs.Private.Desk.{IsReady};
    ghost use Rattle.shard_store.specs.Private.LastAll.{IsLastAll};

    ghost Value = { PassView };

    ghost view = { λ p. record { store = p.desk.seat.table_id; seen = p.desk.seat.me.0.seen; tally = p.tally } };

    ghost invariant = { λ p. IsReady p.desk.seat.table_id p.desk × (own_count p.desk.seat.me.0.seen.ranges ≡ p.numbers) × IsLastAll p.desk.seat.table_id.slots p.desk.seat.me.0.seen.log p.last_all };
}

impl Pass {
    /// How many numbers the pass has, besides those that it took in by `join`.
    pub fn numbers(&self) -> u64
        ensures { result ≡ own_count self.now.seen.ranges }
    {
        self.numbers
    }

    /// What its changes have brought and taken.
    pub fn tally(&self) -> Tally
        ensures { result ≡ self.now.tally }
    {
        self.tally
    }
}
