//! What a front asks: one operation after another, of whoever keeps a map.
ghost use Rattle.map_core.specs.declared.op.Op.TheVariants.{Get};

use crate::contents::Contents;
use crate::op::Op;
use crate::reply::{AskError, Reply};
use spiffe_doc::{Bundle, Memory, TrustDomain};
use std::alloc::Global;

/// Whoever is shown the bundle that a get has found, where it is kept, in place of being given it.
pub trait Viewer {
    ghost use Rattle.std.specs.Prelude.{◌≡◌, ℕ, List, OnOk, OnErr};
    ghost use Rattle.spiffe_doc.specs.Authority.{BundleValue};

    // The bytes that it has noted.
    ghost noted: { Self → List ℕ };

    // With the first bytes noted, it may have noted the others after a look at the bundle.
    ghost notes: { List ℕ → BundleValue → List ℕ → Type 0 };

    /// Looks at the bundle, and notes what it wants of it. Errors only if memory runs out, and then nothing was noted.
    fn see(&mut self, bundle: &Bundle) -> Result<(), Memory>
        ensures ok { OnOk result (notes (noted self.old) bundle.now (noted self.new)) }
        ensures err { OnErr result (noted self.new ≡ noted self.old) };
}

/// A map of trust bundles that can be asked. A front is written once for all of them.
pub trait Ask {
    ghost use Rattle.std.specs.Prelude.{◌≡◌, Option, Some, Result};
    ghost use Rattle.map_core.specs.declared.op.Op.{Op};
    ghost use Rattle.map_core.specs.declared.reply.Reply.{Reply};
    ghost use Rattle.map_core.specs.declared.reply.AskError.{AskError};
    ghost use Rattle.map_core.specs.PlainMap.{PlainMap};
    ghost use Rattle.map_core.specs.Ask.{AnswersPlainly, ShowsGet};

    // In the state before, the operation may be answered so and leave the state after.
    ghost answers: { Self → Op → Result Reply AskError → Self → Type 0 };

    // The map that a state shows, if any.
    ghost shows: { Self → Option PlainMap };

    /// Answers the operation. After an error what is shown stays as it was.
    fn ask(&mut self, op: Op) -> Result<Reply, AskError>
        ensures answered { answers self.old op result self.new };

    /// Answers a `Get` of the name, with the same answers and errors as `ask`. A bundle that was found may be shown to the
    /// viewer where it is kept: then there is no reply, and nobody has counted its owners.
    fn show_get<V: Viewer>(
        &mut self,
        domain: TrustDomain,
        viewer: &mut V,
    ) -> Result<Option<Reply>, AskError>
        ensures shown { ShowsGet V.notes (λ answer. answers self.old (Get domain) answer self.new) (V.noted viewer.old) result (V.noted viewer.new) }
    {
        Ok(Some(self.ask(Op::Get(domain))?))
    }

    /// Takes note that a front has answered a request of this letter by a reply of this code: their first bytes, a letter each, or
    /// the number of a refusal or an error. Nothing is asked.
    fn answered(&self, _letter: u8, _code: u8) {}

    /// What it has counted, as words `name=value` with single spaces between; nothing if it counts nothing. Nothing is asked.
    fn counts(&self, alloc: Global) -> Result<Vec<u8>, Memory> {
        Ok(Vec::new(alloc))
    }

    // If a map is shown, the answers are the plain map's.
    ghost answers_plainly: { AnswersPlainly answers shows };
}

impl Ask for Contents {
    ghost use Rattle.std.specs.Prelude.{Some};
    ghost use Rattle.map_core.specs.Ask.{ContentsAnswer};
    ghost use Rattle.map_core.specs.AskLaws.{contents_answer_plainly};

    ghost answers = { ContentsAnswer };

    ghost shows = { λ m. Some m };

    ghost answers_plainly = { contents_answer_plainly };

    fn ask(&mut self, op: Op) -> Result<Reply, AskError> {
        Contents::ask(self, op)
    }
}
