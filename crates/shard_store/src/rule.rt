//! The rule of the shared table.
use crate::change::View;
use atomic_table::{Seat, Table, TableRule};
use map_core::Contents;
use std::alloc::Global;
use std::sync::Arc;

pub type Slot = Option<Arc<Contents>>;

/// Word `i` is twice the number of changes of shard `i`, and one more while a pass holds it.
pub struct OneList;

impl TableRule<Slot, View, ()> for OneList {
    ghost use Rattle.shard_store.specs.Rule.{MeetsRule, first_view};

    ghost holds = { λ _. MeetsRule };

    ghost first = { λ _. first_view };
}

pub type ShardTable = Table<Slot, View, (), OneList, Global>;

pub type StoreSeat = Seat<Slot, View>;
