//! One round of a fetch-all: it collects all shards, and then confirms each.
ghost use Rattle.std.specs.Prelude.{◌≡◌, ◌<◌, ◌≤◌, ◌⊎◌, ◌++◌, ◌∷◌, ◌==◌, [], false, length, vec_capacity, IfOk};
ghost use Rattle.std.specs.Arc.{arc_value};
ghost use Rattle.step_core.specs.Phase.{Confirming, Revision, after_reading, confirm, after_confirming, snapshot_reply};
ghost use Rattle.step_core.specs.Task.{phase_of, is_last_confirm, out_of_memory};
ghost use Rattle.step_core.specs.Private.Progress.{IsInside, HasRoom};

use crate::task::State;
use map_core::{AskError, Contents, DumpDigest, Reply, Union};
use std::alloc::{AllocError, Global};
use std::marker::Model;
use std::sync::Arc;

/// Over how many shards an operation is, and within how many rounds; and the digest of the bundles that whoever fetches
/// has already, if it is told.
#[derive(Clone, Copy)]
pub(crate) struct Terms {
    pub shards: usize,
    pub rounds: usize,
    pub known: Option<DumpDigest>,
}

/// A shard as it was read.
#[derive(Drop)]
pub(crate) struct Reading {
    revision: u64,
    contents: Arc<Contents>,
}

impl Model for Reading {
    ghost use Rattle.std.specs.Arc.{arc_value};
    ghost use Rattle.step_core.specs.Shard.{ShardVersion};
    ghost use Rattle.step_core.specs.Private.Codes.{version_code};

    ghost Value = { ShardVersion };

    ghost coded = { version_code };

    ghost view = { λ reading. record { revision = reading.revision; part = arc_value reading.contents } };
}

impl Reading {
    pub(crate) fn new(revision: u64, contents: Arc<Contents>) -> Reading
        ensures { result ≡ record { revision = revision; part = arc_value contents } }
    {
        Reading { revision, contents }
    }

    fn revision(&self) -> u64
        ensures { result ≡ self.now.revision }
    {
        self.revision
    }

    fn contents(&self) -> &Contents
        ensures { result.now ≡ self.now.part }
    {
        &self.contents
    }
}

/// One more reading, for which there is room.
pub(crate) fn after_reading(
    shards: usize,
    rounds: usize,
    round: usize,
    mut readings: Vec<Reading>,
    reading: Reading,
) -> State
    requires few { length readings.items < shards }
    requires room { shards ≤ vec_capacity readings }
    requires round { round ≤ rounds }
    ensures inside { IsInside shards rounds (phase_of result) }
    ensures room { HasRoom shards result }
    ensures phase { phase_of result ≡ after_reading shards round (readings.items ++ reading ∷ []) }
{
    if readings.push(reading).is_err() {
        return State::Done(Err(AskError::Memory));
    }
    if readings.len() == shards {
        State::Confirming(round, readings, 0)
    } else {
        State::Collecting(round, readings)
    }
}

/// The revision that the shard at this place has now is compared with the one that was read.
pub(crate) fn compare(
    alloc: Global,
    terms: Terms,
    round: usize,
    mut readings: Vec<Reading>,
    place: usize,
    now: u64,
) -> State
    requires all { length readings.items ≡ terms.shards }
    requires room { terms.shards ≤ vec_capacity readings }
    requires place { place < terms.shards }
    requires round { round ≤ terms.rounds }
    ensures inside { IsInside terms.shards terms.rounds (phase_of result) }
    ensures room { HasRoom terms.shards result }
    ensures phase { (phase_of result ≡ confirm terms.shards terms.rounds terms.known round readings.items place now) ⊎ (phase_of result ≡ out_of_memory) }
    ensures exact { is_last_confirm terms.shards (Confirming round readings.items place) (Revision now) ≡ false → phase_of result ≡ confirm terms.shards terms.rounds terms.known round readings.items place now }
{
    let read = readings[place].revision();
    if read == now {
        return after_confirming(alloc, terms, round, readings, place + 1);
    }
    if round == terms.rounds {
        let moved = AskError::Moved {
            shard: place,
            first: read,
            second: now,
        };
        return State::Done(Err(moved));
    }
    readings.clear();
    State::Collecting(round + 1, readings)
}

// This many readings are confirmed.
fn after_confirming(
    alloc: Global,
    terms: Terms,
    round: usize,
    readings: Vec<Reading>,
    count: usize,
) -> State
    requires all { length readings.items ≡ terms.shards }
    requires room { terms.shards ≤ vec_capacity readings }
    requires count { count ≤ terms.shards }
    requires round { round ≤ terms.rounds }
    ensures inside { IsInside terms.shards terms.rounds (phase_of result) }
    ensures room { HasRoom terms.shards result }
    ensures phase { (phase_of result ≡ after_confirming terms.shards terms.known round readings.items count) ⊎ (phase_of result ≡ out_of_memory) }
    ensures exact { (count == terms.shards) ≡ false → phase_of result ≡ after_confirming terms.shards terms.known round readings.items count }
{
    if count != terms.shards {
        return State::Confirming(round, readings, count);
    }
    match merge_readings(alloc, terms.known, &readings) {
        Ok(reply) => State::Done(Ok(reply)),
        Err(_) => State::Done(Err(AskError::Memory)),
    }
}

// The reply of a fetch-all on these readings, together, by the digest that it knows.
fn merge_readings(
    alloc: Global,
    known: Option<DumpDigest>,
    readings: &[Reading],
) -> Result<Reply, AskError>
    ensures { IfOk result (λ r. r ≡ snapshot_reply (length readings.now) known readings.now) }
{
    let mut all = Union::new(alloc);
    for reading in readings {
        all = all.add(reading.contents())?;
    }
    Ok(all.into_snapshot()?.into_reply(known))
}
