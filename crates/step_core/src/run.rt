//! A run of the machine over a list of events.
ghost use Rattle.std.specs.Prelude.{◌≡◌, ◌<◌, IfOk, length, filter, get_or};
ghost use Rattle.step_core.specs.Run.{run_of, order_of};
ghost use Rattle.step_core.specs.Records.{no_record, took_effect, IsLinearized};
ghost use Rattle.step_core.specs.Private.Driver.{positions};
ghost use Rattle.step_core.specs.Trace.{records_of};

use crate::driver::Driver;
use crate::event::Event;
use crate::trace::{OpRecord, Trace};
use spiffe_doc::Memory;
use std::alloc::{AllocError, Global};

/// Runs the events over this many empty shards; a fetch-all has this many rounds. The order that comes with the
/// records is a linearization: each operation that took effect has a moment of its own between its first event and its
/// last, and the plain map, asked in the order of these moments, gives every reply.
pub fn run_events(
    alloc: Global,
    shards: usize,
    rounds: usize,
    events: &[Event],
) -> Result<Trace, Memory>
    requires shards { 0 < shards }
    requires rounds { 0 < rounds }
    ensures ops { IfOk result (λ trace. trace.ops.items ≡ records_of (run_of shards rounds events.now)) }
    ensures order { IfOk result (λ trace. trace.order.items ≡ order_of (run_of shards rounds events.now)) }
    ensures linearized { IfOk result (λ trace. IsLinearized (length events.now) trace.ops.items trace.order.items) }
{
    let trace = traced(alloc, shards, rounds, events)?;
    Ok(trace)
}

fn traced(
    alloc: Global,
    shards: usize,
    rounds: usize,
    events: &[Event],
) -> Result<Trace, AllocError>
    requires shards { 0 < shards }
    requires rounds { 0 < rounds }
    ensures ops { IfOk result (λ trace. trace.ops.items ≡ records_of (run_of shards rounds events.now)) }
    ensures order { IfOk result (λ trace. trace.order.items ≡ order_of (run_of shards rounds events.now)) }
{
    let mut driver = Driver::new(alloc, shards, rounds)?;
    for (now, event) in events.iter().enumerate() {
        driver.act(event, now as u64)?;
    }
    let numbers = numbers(alloc, &driver.points)?;
    let order = effective(alloc, &driver.ops, &numbers)?;
    Ok(Trace {
        ops: driver.ops,
        order,
    })
}

// The numbers at the points.
fn numbers(alloc: Global, points: &[Option<usize>]) -> Result<Vec<usize>, AllocError>
    ensures { IfOk result (λ numbers. numbers.items ≡ positions points.now) }
{
    let mut numbers = Vec::new(alloc);
    for point in points {
        if let Some(number) = point {
            numbers.push(*number)?;
        }
    }
    Ok(numbers)
}

// The numbers whose operations took effect.
fn effective(alloc: Global, ops: &[OpRecord], numbers: &[usize]) -> Result<Vec<usize>, AllocError>
    ensures { IfOk result (λ order. order.items ≡ filter (λ q. took_effect (get_or ops.now q no_record)) numbers.now) }
{
    let mut order = Vec::new(alloc);
    for number in numbers {
        if took_effect_at(ops, *number) {
            order.push(*number)?;
        }
    }
    Ok(order)
}

fn took_effect_at(ops: &[OpRecord], number: usize) -> bool
    ensures { result ≡ took_effect (get_or ops.now number no_record) }
{
    match ops.get(number) {
        Some(entry) => took_effect(entry),
        None => false,
    }
}

// An operation that was answered took effect, and so did one that is under way and has written.
fn took_effect(entry: &OpRecord) -> bool
    ensures { result ≡ took_effect entry.now }
{
    match &entry.reply {
        Some(Ok(_)) => true,
        Some(Err(_)) => false,
        None => entry.wrote,
    }
}
