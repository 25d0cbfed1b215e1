//! A map that is asked through a gate.
ghost use Rattle.std.specs.Prelude.{◌≡◌};
ghost use Rattle.wire.specs.Counted.{next_count};

use crate::at_port::BehindPort;
use crate::gate::Gate;
use map_core::{Ask, AskError, Op, Reply, Viewer};
use spiffe_doc::{Memory, TrustDomain};
use std::alloc::Global;

/// A map that one worker asks through a gate. Its calls are counted from 1; the count stays at 2^64 - 1 once there.
#[derive(Drop)]
pub struct Gated<'a, A, G> {
    pub ask: A,
    pub gate: &'a G,
    pub worker: u64,
    pub calls: u64,
}

impl<'a, A, G> Gated<'a, A, G> {
    /// No call has been made yet.
    pub fn new(ask: A, gate: &'a G, worker: u64) -> Gated<'a, A, G>
        ensures ask { result.ask ≡ ask }
        ensures gate { result.gate.now ≡ gate.now }
        ensures worker { result.worker ≡ worker }
        ensures calls { result.calls ≡ 0 }
    {
        Gated {
            ask,
            gate,
            worker,
            calls: 0,
        }
    }
}

impl<'a, A, G: Gate> Gated<'a, A, G> {
    /// Counts a call, and tells whether the gate is open to it.
    fn enters(&mut self) -> bool
        ensures open { G.opens self.old.gate.now self.old.worker self.new.calls result }
        ensures calls { self.new.calls ≡ next_count self.old.calls }
        ensures same { (self.new.ask ≡ self.old.ask) × (self.new.gate.now ≡ self.old.gate.now) × (self.new.worker ≡ self.old.worker) }
    {
        self.calls = self.calls.saturating_add(1);
        self.gate.before(self.worker, self.calls)
    }
}

impl<'a, A: Ask, G: Gate> Ask for Gated<'a, A, G> {
    ghost use Rattle.workers.specs.Gate.{GatedAnswer, gated_answers_plainly};

    ghost answers = { λ old op answer new. (new.worker ≡ old.worker) × (new.gate.now ≡ old.gate.now) × (new.calls ≡ next_count old.calls)
        × GatedAnswer A.answers (G.opens old.gate.now old.worker new.calls) old.ask op answer new.ask };

    // What stands behind the gate is shown.
    ghost shows = { λ gated. A.shows gated.ask };

    ghost answers_plainly = { λ old op answer new m shown answered. gated_answers_plainly (G.opens old.gate.now old.worker new.calls) A.answers A.shows A.answers_plainly old.ask op answer new.ask m shown answered.3 };

    /// Asks once if the gate is open; else nothing is asked.
    fn ask(&mut self, op: Op) -> Result<Reply, AskError> {
        if !self.enters() {
            drop(op);
            return Err(AskError::GateShut);
        }
        let answer = self.ask.ask(op);
        self.gate.after(self.worker, self.calls);
        answer
    }

    /// The same for a get.
    fn show_get<V: Viewer>(
        &mut self,
        domain: TrustDomain,
        viewer: &mut V,
    ) -> Result<Option<Reply>, AskError> {
        if !self.enters() {
            return Err(AskError::GateShut);
        }
        let answer = self.ask.show_get(domain, viewer);
        self.gate.after(self.worker, self.calls);
        answer
    }

    fn answered(&self, letter: u8, code: u8) {
        self.ask.answered(letter, code);
    }

    fn counts(&self, alloc: Global) -> Result<Vec<u8>, Memory> {
        self.ask.counts(alloc)
    }
}

impl<A: BehindPort, G: Gate> BehindPort for Gated<'_, A, G> {
    fn refused_at_port(&self, op: &Op) {
        self.ask.refused_at_port(op);
    }

    fn turned_away_at_port(&self, count: u64) {
        self.ask.turned_away_at_port(count);
    }
}
