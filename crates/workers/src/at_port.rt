//! A map that is asked at a port.
ghost use Rattle.std.specs.Prelude.{◌≡◌};

use map_core::{Ask, AskError, Contents, Op, Reply, Viewer};
use spiffe_doc::{Memory, TrustDomain};
use std::alloc::Global;

/// Whoever is asked behind a port, and may take note of what the port refuses.
pub trait BehindPort: Ask {
    /// The port is for reads only, and this operation came to it. It is not asked. (A session that may only read turns a change
    /// away before that; so no operation comes here from one.)
    fn refused_at_port(&self, _op: &Op) {}

    /// So many changes were turned away by their letter in a session at a port for reads only.
    fn turned_away_at_port(&self, _count: u64) {}
}

impl BehindPort for Contents {}

/// A map that is asked at a port. At a port for reads only, gets and fetch-alls are answered by the map behind it; to each
/// other operation the answer is that the gate is shut (number 56), and the map behind it is not asked, but told. This is a
/// second wall: the sessions of such a port turn changes away themselves, so that they cost no document. What a reader can
/// change rests on neither alone.
#[derive(Drop)]
pub struct AtPort<A> {
    pub ask: A,
    pub reads_only: bool,
}

impl<A> AtPort<A> {
    /// The map behind it is this one.
    pub fn new(ask: A, reads_only: bool) -> AtPort<A>
        ensures ask { result.ask ≡ ask }
        ensures reads_only { result.reads_only ≡ reads_only }
    {
        AtPort { ask, reads_only }
    }
}

impl<A: BehindPort> AtPort<A> {
    /// Tells the map behind it how many changes its sessions have turned away, if some were.
    pub(crate) fn tell_turned_away(&self, before: u64, after: u64) {
        let count = after.saturating_sub(before);
        if count > 0 {
            self.ask.turned_away_at_port(count);
        }
    }
}

impl<A: BehindPort> Ask for AtPort<A> {
    ghost use Rattle.workers.specs.AtPort.{PortAnswer, port_answers_plainly};

    ghost answers = { λ old op answer new. (new.reads_only ≡ old.reads_only) × PortAnswer A.answers old.reads_only old.ask op answer new.ask };

    ghost shows = { λ port. A.shows port.ask };

    ghost answers_plainly = { λ old op answer new m shown answered. port_answers_plainly A.answers A.shows A.answers_plainly old.reads_only old.ask op answer new.ask m shown answered.1 };

    fn ask(&mut self, op: Op) -> Result<Reply, AskError> {
        if self.reads_only && !op.is_read() {
            self.ask.refused_at_port(&op);
            drop(op);
            return Err(AskError::GateShut);
        }
        self.ask.ask(op)
    }

    fn show_get<V: Viewer>(
        &mut self,
        domain: TrustDomain,
        viewer: &mut V,
    ) -> Result<Option<Reply>, AskError> {
        self.ask.show_get(domain, viewer)
    }

    fn answered(&self, letter: u8, code: u8) {
        self.ask.answered(letter, code);
    }

    fn counts(&self, alloc: Global) -> Result<Vec<u8>, Memory> {
        self.ask.counts(alloc)
    }
}
