//! A map that is asked again while others are in the way.
ghost use Rattle.std.specs.Prelude.{◌≡◌};
ghost use Rattle.workers.specs.Retrying.{is_transient};

use map_core::{Ask, AskError, Op, Reply, Viewer};
use spiffe_doc::{Memory, TrustDomain};
use std::alloc::Global;
use std::thread;
use std::time::{Clock, Duration};

/// How many microseconds it waits before it asks again, so that whoever holds a shard may get the processor.
const PAUSE: u64 = 20;

/// A map that is asked again after an answer that has done nothing and may be another soon: a shard that another caller
/// holds, or shards that changed in each round of a fetch-all.
#[derive(Drop)]
pub struct Retrying<'a, A, C> {
    pub ask: A,
    pub clock: &'a C,
    /// How often an operation may be asked again.
    pub retries: u64,
    /// How often one was. It stays at 2^64 - 1 once there.
    pub asked_again: u64,
}

impl<'a, A, C> Retrying<'a, A, C> {
    pub fn new(ask: A, clock: &'a C, retries: u64) -> Retrying<'a, A, C>
        ensures ask { result.ask ≡ ask }
        ensures retries { result.retries ≡ retries }
        ensures asked_again { result.asked_again ≡ 0 }
    {
        Retrying {
            ask,
            clock,
            retries,
            asked_again: 0,
        }
    }
}

/// Whether the same operation may be answered otherwise soon.
fn may_change<T>(answer: &Result<T, AskError>) -> bool
    ensures { result ≡ is_transient answer.now }
{
    matches!(answer, Err(AskError::Held { .. } | AskError::Moved { .. }))
}

impl<'a, A: Ask, C: Clock> Ask for Retrying<'a, A, C> {
    ghost use Rattle.workers.specs.Retrying.{Retried, retried_answers_plainly};

    ghost answers = { λ old op answer new. (new.retries ≡ old.retries) × Retried A.answers old.retries old.ask op answer new.ask };

    ghost shows = { λ retrying. A.shows retrying.ask };

    ghost answers_plainly = { λ old op answer new m shown answered. retried_answers_plainly A.answers A.shows A.answers_plainly old.retries old.ask op answer new.ask m shown answered.1 };

    /// Asks, and asks again while the answer may change. The last answer counts; it is out of memory if there is no room
    /// for a copy of the operation.
    fn ask(&mut self, op: Op) -> Result<Reply, AskError> {
        for _ in 0..self.retries {
            let Ok(copy) = op.copy() else {
                drop(op);
                return Err(AskError::Memory);
            };
            let answer = self.ask.ask(copy);
            if !may_change(&answer) {
                drop(op);
                return answer;
            }
            self.asked_again = self.asked_again.saturating_add(1);
            thread::sleep(self.clock, Duration::from_micros(PAUSE));
        }
        self.ask.ask(op)
    }

    /// The same for a get, of which only the name is copied. The viewer sees nothing before the last answer.
    fn show_get<V: Viewer>(
        &mut self,
        domain: TrustDomain,
        viewer: &mut V,
    ) -> Result<Option<Reply>, AskError> {
        for _turn in 0..self.retries {
            let Ok(copy) = domain.copy() else {
                return Err(AskError::Memory);
            };
            let shown = self.ask.show_get(copy, viewer);
            if !may_change(&shown) {
                return shown;
            }
            self.asked_again = self.asked_again.saturating_add(1);
            thread::sleep(self.clock, Duration::from_micros(PAUSE));
        }
        self.ask.show_get(domain, viewer)
    }

    fn answered(&self, letter: u8, code: u8) {
        self.ask.answered(letter, code);
    }

    fn counts(&self, alloc: Global) -> Result<Vec<u8>, Memory> {
        self.ask.counts(alloc)
    }
}
