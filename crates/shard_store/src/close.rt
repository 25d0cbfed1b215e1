//! The end of a store.
ghost use Rattle.std.specs.Prelude.{◌≡◌, ℕ, ◌%◌, ◌<◌, ◌++◌, ◌∷◌, [], false, length, slice_index, IfOk, MatchOption};
ghost use Rattle.std.specs.Mem.Slots.{slots_items, slots_len, IsFull};
ghost use Rattle.map_core.specs.PlainMap.{PlainMap};
ghost use Rattle.shard_store.specs.Private.Readings.{HoldPartsOf};

use crate::rule::Slot;
use atomic_table::Closed;
use map_core::{Contents, Union};
use std::alloc::{AllocError, Global};
use thiserror::Error;

/// Why a store gave no map at its end. The store and what it held are gone.
#[derive(Clone, Copy, Debug, PartialEq, Eq, Drop, Error)]
pub enum CloseError {
    #[error("out of memory")]
    Memory,
    /// Another pass still holds this shard.
    #[error("shard {0} was held when the store was closed")]
    HeldAtEnd(usize),
}

impl CloseError {
    ghost use Rattle.shard_store.specs.Close.{close_number};

    /// The number under which texts show the error.
    pub fn number(&self) -> u8
        ensures { result ≡ close_number self.now }
    {
        match self {
            CloseError::Memory => 22,
            CloseError::HeldAtEnd(_) => 43,
        }
    }
}

impl From<AllocError> for CloseError {
    ghost use Rattle.std.specs.Prelude.{◌≡◌};
    ghost use Rattle.shard_store.specs.declared.close.CloseError.TheVariants.{Memory};

    ghost from_gives = { λ _ e. e ≡ Memory };

    fn from(_refused: AllocError) -> CloseError {
        CloseError::Memory
    }
}

/// The first shard that some pass still holds.
pub(crate) fn first_held(closed: &Closed<Slot, Global>) -> Option<usize>
    requires { IsFull closed.now.words × (slots_len closed.now.words ≡ slots_len closed.now.slots) }
    ensures { MatchOption result ((k : ℕ) → k < slots_len closed.now.slots → slice_index (slots_items closed.now.words) k % 2 ≡ 0) (λ i. (i < slots_len closed.now.slots) × (slice_index (slots_items closed.now.words) i % 2 ≡ 1)) }
{
    for shard in 0..closed.slot_count() {
        if closed.word(shard) % 2 == 1 {
            return Some(shard);
        }
    }
    None
}

// What stands in the slots, in order. All are taken out, even if there is no room for some.
pub(crate) fn take_all(
    alloc: Global,
    mut closed: Closed<Slot, Global>,
) -> Result<Vec<Slot>, AllocError>
    requires { IsFull closed.slots }
    ensures { IfOk result (λ slots. slots.items ≡ slots_items closed.slots) }
{
    let mut slots = Vec::new(alloc);
    let mut is_short = false;
    for shard in 0..closed.slot_count() {
        let slot = closed.take(shard);
        is_short = keep(&mut slots, slot, is_short);
    }
    closed.free();
    if is_short { Err(AllocError) } else { Ok(slots) }
}

// One slot more, unless an earlier one found no room. The answer is whether one did not.
fn keep(slots: &mut Vec<Slot>, slot: Slot, is_short: bool) -> bool
    ensures { result ≡ false → (is_short ≡ false) × (slots.new.items ≡ slots.old.items ++ slot ∷ []) }
{
    if is_short {
        return true;
    }
    slots.push(slot).is_err()
}

// The map of which these slots hold the parts.
pub(crate) fn join_slots(alloc: Global, slots: &[Slot]) -> Result<Contents, AllocError>
    requires { 0 < length slots.now }
    ensures { (m : PlainMap) → HoldPartsOf m slots.now → IfOk result (λ all. all ≡ m) }
{
    let mut all = Union::new(alloc);
    for slot in slots {
        if let Some(version) = slot {
            all = all.add(version)?;
        }
    }
    all.into_contents()
}
