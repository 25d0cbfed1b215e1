//! Workers: each serves its sessions with a pass of its own.
ghost use Rattle.std.specs.Prelude.{◌≡◌, ◌++◌, ◌∷◌, [], Ok, map, IfOk, OnOk, vec_len};
ghost use Rattle.std.specs.List.{All};
ghost use Rattle.shard_store.specs.Pass.{IsOf};
ghost use Rattle.workers.specs.Connection.{opened};
ghost use Rattle.workers.specs.Followed.{AllFollowed, AllServed, HasFollowed};
ghost use Rattle.workers.specs.Private.Numbers.{AreNumbered};

use crate::arrivals::Arrivals;
use crate::at_port::AtPort;
use crate::serving::serve_arrivals;
use crate::worker::{SharedByWorkers, Worker};
use crate::{Gate, Gated, Log, Logged, Worked};
use shard_store::{Pass, Store};
use std::alloc::{AllocError, Global};
use std::thread;
use std::thread::Threads;
use std::time::Clock;

/// What a worker is to do, before it begins.
#[derive(Drop)]
struct Task<V> {
    number: u64,
    pass: Pass,
    arrivals: V,
}

/// Serves the connections of one worker.
fn work<H: Clock, V: Arrivals + Drop, G: Gate, L: Log + Copy>(
    common: &SharedByWorkers<'_, H, L>,
    store: &Store,
    gate: &G,
    task: Task<V>,
) -> Result<Worked, AllocError>
    requires own { IsOf task.pass store.now }
    ensures { IfOk result (λ worked. HasFollowed (G.opens gate.now) common.now.limits.patience common.now.limits.turns (λ reads_only end. opened reads_only common.now.limits.turns (V.End.may end) (V.End.left end) (V.End.held end)) V.comes store.now task.number task.pass task.arrivals worked) }
{
    let Task {
        number,
        pass,
        mut arrivals,
    } = task;
    let limits = common.limits;
    let logged = Logged::new(store, pass, common.rt, limits.retries, *common.log, number);
    let mut port = AtPort::new(Gated::new(logged, gate, number), false);
    let worker = Worker {
        number,
        alloc: common.alloc,
        log: common.log,
        limits,
    };
    let ends = serve_arrivals(&worker, &mut arrivals, &mut port)?;
    let AtPort {
        ask: gated,
        reads_only: _,
    } = port;
    let Gated {
        ask: logged,
        gate: _,
        worker: _,
        calls: _,
    } = gated;
    Ok(Worked {
        pass: logged.into_pass(),
        ends,
    })
}

/// Adds what one more worker is to do, under the next number.
#[tactic(auto, using(crate::proofs::WorkedLists::numbered_pushed))]
fn add_task<V: Drop>(tasks: &mut Vec<Task<V>>, pass: Pass, arrivals: V) -> Result<(), AllocError>
    requires numbers { AreNumbered 0 (map (λ t. t.number) tasks.old.items) }
    ensures passes { OnOk result (map (λ t. t.pass) tasks.new.items ≡ map (λ t. t.pass) tasks.old.items ++ pass ∷ []) }
    ensures arrivals { OnOk result (map (λ t. t.arrivals) tasks.new.items ≡ map (λ t. t.arrivals) tasks.old.items ++ arrivals ∷ []) }
    ensures numbers { OnOk result (AreNumbered 0 (map (λ t. t.number) tasks.new.items)) }
{
    let number = tasks.len() as u64;
    tasks.push(Task {
        number,
        pass,
        arrivals,
    })?;
    Ok(())
}

/// Gives each pass its arrivals, in order, and each worker its number, from 0.
fn tasks_of<V: Drop>(
    alloc: Global,
    passes: Vec<Pass>,
    arrivals: Vec<V>,
) -> Result<Vec<Task<V>>, AllocError>
    requires same { vec_len passes ≡ vec_len arrivals }
    ensures passes { IfOk result (λ tasks. map (λ t. t.pass) tasks.items ≡ passes.items) }
    ensures arrivals { IfOk result (λ tasks. map (λ t. t.arrivals) tasks.items ≡ arrivals.items) }
    ensures numbers { IfOk result (λ tasks. AreNumbered 0 (map (λ t. t.number) tasks.items)) }
{
    let mut tasks = Vec::with_capacity(alloc, passes.len())?;
    let mut left = arrivals.into_iter();
    for pass in passes {
        let Some(arrivals) = left.next() else {
            unreachable!()
        };
        add_task(&mut tasks, pass, arrivals)?;
    }
    Ok(tasks)
}

/// What all workers gave back, unless one of them had no room for it.
fn all_worked(
    alloc: Global,
    given: Vec<Result<Worked, AllocError>>,
) -> Result<Vec<Worked>, AllocError>
    ensures { IfOk result (λ all. map Ok all.items ≡ given.items) }
{
    let mut all = Vec::with_capacity(alloc, given.len())?;
    for worked in given {
        all.push(worked?)?;
    }
    Ok(all)
}

/// Runs a worker for each pass, in a thread of its own if one can be made, and joins them. Each serves its connections
/// through the gate, beside each other, and goes with its clients as far as the limits say. The log is told of changes and
/// of the ends of sessions. What the workers give back stands in the order of the passes. If memory runs out, the passes
/// are gone, and sessions may have been served.
pub fn run_arrivals<
    H: Threads + Clock + Sync,
    V: Arrivals + Send + Drop,
    G: Gate + Sync,
    L: Log + Copy + Sync,
>(
    common: &SharedByWorkers<'_, H, L>,
    store: &Store,
    passes: Vec<Pass>,
    arrivals: Vec<V>,
    gate: &G,
) -> Result<Vec<Worked>, AllocError>
    requires same { vec_len passes ≡ vec_len arrivals }
    requires own { All (λ pass. IsOf pass store.now) passes.items }
    ensures served { IfOk result (λ all. AllServed (G.opens gate.now) common.now.limits.patience common.now.limits.turns store.now 0 passes.items all.items) }
    ensures followed { IfOk result (λ all. AllFollowed (G.opens gate.now) common.now.limits.patience common.now.limits.turns (λ reads_only end. opened reads_only common.now.limits.turns (V.End.may end) (V.End.left end) (V.End.held end)) V.comes store.now passes.items arrivals.items all.items) }
{
    let tasks = tasks_of(common.alloc, passes, arrivals)?;
    let run = |task: Task<V>| -> Result<Worked, AllocError>
        requires { IsOf task.pass store.now }
        ensures { IfOk result (λ worked. HasFollowed (G.opens gate.entry.now) common.entry.now.limits.patience common.entry.now.limits.turns (λ reads_only end. opened reads_only common.entry.now.limits.turns (V.End.may end) (V.End.left end) (V.End.held end)) V.comes store.entry.now task.number task.pass task.arrivals worked) }
    { work(common, store, gate, task) };
    let given = thread::map_vec(common.rt, tasks, &run)?;
    all_worked(common.alloc, given)
}
