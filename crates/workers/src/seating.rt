//! How workers ask the store that they share.
ghost use Rattle.std.specs.Prelude.{◌≡◌};
ghost use Rattle.shard_store.specs.Pass.{IsOf};

use crate::ended::SessionFault;
use crate::log::{Client, Log};
use crate::logged::Logged;
use map_core::Ask;
use shard_store::{Pass, Seated, Store};
use std::time::Clock;

/// A store as workers ask it: what each makes of its pass, and how it gets its pass again. The store itself is one; what
/// asks it again while others are in the way, or tells a log of it, is another.
pub trait Seating {
    ghost use Rattle.std.specs.Prelude.{◌≡◌, Result};
    ghost use Rattle.map_core.specs.declared.op.Op.{Op};
    ghost use Rattle.map_core.specs.declared.reply.Reply.{Reply};
    ghost use Rattle.map_core.specs.declared.reply.AskError.{AskError};
    ghost use Rattle.shard_store.specs.Pass.{StoreView, SeatedView, IsOf};
    ghost use Rattle.shard_store.specs.Seated.{SeatedAnswer};

    /// A pass at its store.
    type Seat: Ask + Drop + Send;

    // The store.
    ghost store: { Self → StoreView };

    // The pass of a seat, and its store.
    ghost seated: { Self.Seat → SeatedView };

    /// Seats the pass of the worker of this number.
    fn seat(&self, pass: Pass, worker: u64) -> Self::Seat
        requires own { IsOf pass (store self.now) }
        ensures seated { seated result ≡ record { store = store self.now; seen = pass.seen } };

    /// The pass again.
    fn leave(&self, seat: Self::Seat) -> Pass
        ensures own { IsOf result (seated seat).store }
        ensures seen { result.seen ≡ (seated seat).seen };

    /// A session of the worker has begun. The answer is the number of its client, or 0 if clients have none.
    fn began(&self, _worker: u64) -> u64 {
        0
    }

    /// The worker turns to this client.
    fn serves(&self, _worker: u64, _client: Client) {}

    /// A session of the worker with this client has ended so; or none came.
    fn ended(&self, _worker: u64, _end: &Result<u64, SessionFault>, _client: Option<Client>) {}

    // What a seat answers, the store answers to its pass.
    ghost answers_as_seated: { (old : Self.Seat) (op : Op) (answer : Result Reply AskError) (new : Self.Seat)
        → Self.Seat.answers old op answer new → SeatedAnswer (seated old) op answer (seated new) };
}

impl<'a> Seating for &'a Store {
    type Seat = Seated<'a>;

    ghost store = { λ store. store.now };

    ghost seated = { λ seat. seat };

    ghost answers_as_seated = { λ old op answer new answered. answered };

    fn seat(&self, pass: Pass, _worker: u64) -> Seated<'a> {
        Seated::new(*self, pass)
    }

    fn leave(&self, seat: Seated<'a>) -> Pass {
        seat.into_pass()
    }
}

/// A store that is asked again while others are in the way, at most `retries` times an operation. The log is told of
/// changes and of the ends of sessions.
#[derive(Clone, Copy)]
pub struct Patient<'a, C, L> {
    pub store: &'a Store,
    pub clock: &'a C,
    pub retries: u64,
    pub log: &'a L,
}

impl<'a, C: Clock + Sync, L: Log + Copy + Send + Sync> Seating for Patient<'a, C, L> {
    type Seat = Logged<'a, C, L>;

    ghost store = { λ patient. patient.store.now };

    ghost seated = { λ seat. seat.patient.ask };

    ghost answers_as_seated = { λ old op answer new answered. answered.1.answered };

    fn seat(&self, pass: Pass, worker: u64) -> Logged<'a, C, L> {
        Logged::new(
            self.store,
            pass,
            self.clock,
            self.retries,
            *self.log,
            worker,
        )
    }

    fn leave(&self, seat: Logged<'a, C, L>) -> Pass {
        seat.into_pass()
    }

    fn began(&self, worker: u64) -> u64 {
        self.log.began(worker)
    }

    fn serves(&self, worker: u64, client: Client) {
        self.log.serves(worker, client);
    }

    fn ended(&self, worker: u64, end: &Result<u64, SessionFault>, client: Option<Client>) {
        self.log.ended(worker, end, client);
    }
}
