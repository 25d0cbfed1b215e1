//! When each of many relationships is due.
ghost use Rattle.std.specs.Prelude.{◌≡◌, ◌<◌, length, slice_get, slice_index, slice_set, replicate, MatchOption, MatchResult, IfOk, IfSome, Some};
ghost use Rattle.refresh.specs.Relationship.{RelationshipValue};
ghost use Rattle.refresh.specs.Refresh.{KeepsUnlessStored, Refreshes};
ghost use Rattle.refresh.specs.Schedule.{IsNext};

use crate::outcome::{Outcome, refresh_once};
use crate::relationship::Relationship;
use crate::source::Source;
use map_core::Ask;
use spiffe_doc::Memory;
use std::alloc::Global;
use std::marker::Model;

/// Relationships, in the order in which they were given, and when each of them is due, in seconds.
#[derive(Drop)]
pub struct Schedule {
    relationships: Vec<Relationship>,
    due_times: Vec<u64>,
}

impl Model for Schedule {
    ghost use Rattle.std.specs.Prelude.{◌≡◌, length};
    ghost use Rattle.refresh.specs.Schedule.{ScheduleValue};

    ghost Value = { ScheduleValue };

    ghost view = { λ s. record { relationships = s.relationships.items; due_times = s.due_times.items } };

    ghost invariant = { λ s. length s.due_times.items ≡ length s.relationships.items };
}

impl Schedule {
    /// A schedule of these relationships, each due at 0. Out of memory, the relationships are gone.
    pub fn new(alloc: Global, relationships: Vec<Relationship>) -> Result<Schedule, Memory>
        ensures { IfOk result (λ s. (s.relationships ≡ relationships.items) × (s.due_times ≡ replicate (length relationships.items) 0)) }
    {
        let mut due_times = Vec::with_capacity(alloc, relationships.len())?;
        for _ in 0..relationships.len() {
            due_times.push(0)?;
        }
        Ok(Schedule {
            relationships,
            due_times,
        })
    }

    /// The place of the relationship that is due first, from 0, and when it is due; of several that are due then, the
    /// first place. None if there is no relationship. It looks at all of them.
    pub fn next(&self) -> Option<(usize, u64)>
        ensures least { MatchOption result (length self.now.due_times ≡ 0) (λ next. IsNext self.now.due_times next.0 next.1) }
        ensures inside { IfSome result (λ next. next.0 < length self.now.relationships) }
    {
        let mut least = (0, *self.due_times.first()?);
        for place in 1..self.due_times.len() {
            let due = self.due_times[place];
            if due < least.1 {
                least = (place, due);
            }
        }
        Some(least)
    }

    /// How many relationships there are.
    pub fn len(&self) -> usize
        ensures { result ≡ length self.now.relationships }
    {
        self.relationships.len()
    }

    /// The relationship at a place, from 0.
    pub fn relationship(&self, place: usize) -> &Relationship
        requires { place < length self.now.relationships }
        ensures { slice_get self.now.relationships place ≡ Some result.now }
    {
        &self.relationships[place]
    }

    /// When the relationship at a place is due, in seconds.
    pub fn due(&self, place: usize) -> u64
        requires { place < length self.now.relationships }
        ensures { result ≡ slice_index self.now.due_times place }
    {
        self.due_times[place]
    }
}

/// Refreshes the relationship at a place of the schedule, from 0, as `refresh_once` does, and then it is due as the
/// outcome says; the others stay as they are. Out of memory, the schedule stays as it is.
pub fn refresh_at<S: Source, A: Ask>(
    alloc: Global,
    source: &mut S,
    ask: &mut A,
    schedule: &mut Schedule,
    place: usize,
    now: u64,
) -> Result<Outcome, Memory>
    requires { place < length schedule.old.relationships }
    ensures refreshes { (r : RelationshipValue) × (slice_get schedule.old.relationships place ≡ Some r)
        × Refreshes S.fetches A.answers r now (source.old, ask.old) result (source.new, ask.new) }
    ensures kept { KeepsUnlessStored A.shows ask.old result ask.new }
    ensures due { MatchResult result
        (λ outcome. schedule.new ≡ record schedule.old { due_times = slice_set schedule.old.due_times place outcome.due })
        (λ _. schedule.new ≡ schedule.old) }
{
    let outcome = refresh_once(alloc, source, ask, schedule.relationship(place), now)?;
    schedule.due_times[place] = outcome.due;
    Ok(outcome)
}
