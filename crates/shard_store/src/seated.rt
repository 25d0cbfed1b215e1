//! A pass at its store, as a front asks it.
ghost use Rattle.std.specs.Prelude.{◌≡◌};
ghost use Rattle.shard_store.specs.Pass.{IsOf};

use crate::pass::Pass;
use crate::store::Store;
use map_core::{Ask, AskError, Op, Reply, Viewer};
use spiffe_doc::TrustDomain;
use std::marker::Model;

/// A pass at its store.
#[derive(Drop)]
pub struct Seated<'a> {
    pub store: &'a Store,
    pub pass: Pass,
    pub ghost own: { IsOf pass store.now },
}

impl<'a> Model for Seated<'a> {
    ghost use Rattle.shard_store.specs.Pass.{SeatedView};

    ghost Value = { SeatedView };

    ghost view = { λ seated. record { store = seated.store.now; seen = seated.pass.seen } };
}

impl<'a> Seated<'a> {
    /// Seats the pass at its store.
    pub fn new(store: &'a Store, pass: Pass) -> Seated<'a>
        requires own { IsOf pass store.now }
        ensures store { result.store ≡ store.now }
        ensures seen { result.seen ≡ pass.seen }
    {
        Seated { store, pass }
    }

    /// The pass again.
    pub fn into_pass(self) -> Pass
        ensures own { IsOf result self.entry.store }
        ensures seen { result.seen ≡ self.entry.seen }
    {
        let Seated { store: _, pass } = self;
        pass
    }
}

impl<'a> Ask for Seated<'a> {
    ghost use Rattle.std.specs.Prelude.{None};
    ghost use Rattle.shard_store.specs.Seated.{SeatedAnswer};
    ghost use Rattle.map_core.specs.AskLaws.{shows_nothing};

    ghost answers = { SeatedAnswer };

    ghost shows = { λ _. None };

    ghost answers_plainly = { shows_nothing SeatedAnswer };

    fn ask(&mut self, op: Op) -> Result<Reply, AskError> {
        self.store.ask(&mut self.pass, op)
    }

    fn show_get<V: Viewer>(
        &mut self,
        domain: TrustDomain,
        viewer: &mut V,
    ) -> Result<Option<Reply>, AskError> {
        self.store.show(&mut self.pass, &domain, viewer)
    }
}
