//! Workers: each serves its sessions with a pass of its own.
ghost use Rattle.std.specs.Prelude.{◌≡◌, ◌++◌, ◌∷◌, [], Ok, map, IfOk, OnOk, vec_len};
ghost use Rattle.std.specs.List.{All};
ghost use Rattle.shard_store.specs.Pass.{IsOf};
ghost use Rattle.workers.specs.Run.{AllWorked, HasWorked, kept};
ghost use Rattle.workers.specs.Private.Numbers.{AreNumbered};

use crate::ended::{SessionEnds, SessionFault, Worked};
use crate::gate::Gate;
use crate::gated::Gated;
use crate::seating::Seating;
use crate::sessions::{Sessions, serve_sessions};
use shard_store::Pass;
use std::alloc::{AllocError, Global};
use std::thread;
use std::thread::Threads;

/// A worker before it begins.
#[derive(Drop)]
struct Worker<S> {
    number: u64,
    pass: Pass,
    sessions: S,
}

/// What a worker gives back: its pass, and how each of its sessions ended, in their order: after so many frames that were
/// answered, or by a fault.
#[derive(Drop)]
pub struct Finished {
    pub pass: Pass,
    pub results: Vec<Result<u64, SessionFault>>,
}

/// What is kept of what the workers gave back, in their order: each pass, how many sessions there were, and their first
/// faults. Errors only if memory runs out, and then the passes are gone.
pub fn kept_all(alloc: Global, finished: Vec<Finished>) -> Result<Vec<Worked>, AllocError>
    ensures { IfOk result (λ all. all.items ≡ map kept finished.items) }
{
    let mut all = Vec::with_capacity(alloc, finished.len())?;
    for worker in finished {
        let ends = SessionEnds::of(alloc, worker.results.as_slice())?;
        all.push(Worked {
            pass: worker.pass,
            ends,
        })?;
    }
    Ok(all)
}

/// Serves the sessions of one worker.
fn work<P: Seating, S: Sessions + Drop, G: Gate>(
    alloc: Global,
    place: &P,
    gate: &G,
    worker: Worker<S>,
) -> Result<Finished, AllocError>
    requires own { IsOf worker.pass (P.store place.now) }
    ensures { IfOk result (λ finished. HasWorked (G.opens gate.now) S.Reader.remaining S.Writer.contents S.takes_back S.comes (P.store place.now) worker.number worker.pass worker.sessions finished) }
{
    let Worker {
        number,
        pass,
        mut sessions,
    } = worker;
    let mut ask = Gated::new(place.seat(pass, number), gate, number);
    let results = serve_sessions(alloc, &mut sessions, &mut ask, place, number)?;
    let Gated {
        ask: seat,
        gate: _,
        worker: _,
        calls: _,
    } = ask;
    Ok(Finished {
        pass: place.leave(seat),
        results,
    })
}

/// Adds a worker, under the next number.
#[tactic(auto, using(crate::proofs::FinishedLists::numbered_pushed))]
fn add_worker<S: Drop>(
    workers: &mut Vec<Worker<S>>,
    pass: Pass,
    sessions: S,
) -> Result<(), AllocError>
    requires numbers { AreNumbered 0 (map (λ w. w.number) workers.old.items) }
    ensures passes { OnOk result (map (λ w. w.pass) workers.new.items ≡ map (λ w. w.pass) workers.old.items ++ pass ∷ []) }
    ensures sessions { OnOk result (map (λ w. w.sessions) workers.new.items ≡ map (λ w. w.sessions) workers.old.items ++ sessions ∷ []) }
    ensures numbers { OnOk result (AreNumbered 0 (map (λ w. w.number) workers.new.items)) }
{
    let number = workers.len() as u64;
    workers.push(Worker {
        number,
        pass,
        sessions,
    })?;
    Ok(())
}

/// Gives each pass its sessions, in order, and each worker its number, from 0.
fn workers_of<S: Drop>(
    alloc: Global,
    passes: Vec<Pass>,
    sessions: Vec<S>,
) -> Result<Vec<Worker<S>>, AllocError>
    requires same { vec_len passes ≡ vec_len sessions }
    ensures passes { IfOk result (λ workers. map (λ w. w.pass) workers.items ≡ passes.items) }
    ensures sessions { IfOk result (λ workers. map (λ w. w.sessions) workers.items ≡ sessions.items) }
    ensures numbers { IfOk result (λ workers. AreNumbered 0 (map (λ w. w.number) workers.items)) }
{
    let mut workers = Vec::with_capacity(alloc, passes.len())?;
    let mut left = sessions.into_iter();
    for pass in passes {
        let Some(sessions) = left.next() else {
            unreachable!()
        };
        add_worker(&mut workers, pass, sessions)?;
    }
    Ok(workers)
}

/// What all workers gave back, unless one of them had no room for it.
fn all_finished(
    alloc: Global,
    given: Vec<Result<Finished, AllocError>>,
) -> Result<Vec<Finished>, AllocError>
    ensures { IfOk result (λ all. map Ok all.items ≡ given.items) }
{
    let mut all = Vec::with_capacity(alloc, given.len())?;
    for finished in given {
        all.push(finished?)?;
    }
    Ok(all)
}

/// Runs a worker for each pass, in a thread of its own, or in the caller's if none can be made, and joins them. Each serves
/// its sessions one after the other, and asks the store through the gate. `store` is a `&Store`, or what is asked in its
/// place. The answer stands in the order of the passes: each pass again, and how the sessions of its worker ended. Errors
/// only if memory runs out; then the passes are gone, and sessions may have been served.
pub fn run_workers<
    R: Threads + Sync,
    P: Seating + Sync + Drop,
    S: Sessions + Send + Drop,
    G: Gate + Sync,
>(
    rt: &R,
    alloc: Global,
    store: P,
    passes: Vec<Pass>,
    sessions: Vec<S>,
    gate: &G,
) -> Result<Vec<Finished>, AllocError>
    requires same { vec_len passes ≡ vec_len sessions }
    requires own { All (λ pass. IsOf pass (P.store store)) passes.items }
    ensures { IfOk result (λ all. AllWorked (G.opens gate.now) S.Reader.remaining S.Writer.contents S.takes_back S.comes (P.store store) 0 passes.items sessions.items all.items) }
{
    let workers = workers_of(alloc, passes, sessions)?;
    let run = |worker: Worker<S>| -> Result<Finished, AllocError>
        requires { IsOf worker.pass (P.store store) }
        ensures { IfOk result (λ finished. HasWorked (G.opens gate.entry.now) S.Reader.remaining S.Writer.contents S.takes_back S.comes (P.store store) worker.number worker.pass worker.sessions finished) }
    { work(alloc, &store, gate, worker) };
    let given = thread::map_vec(rt, workers, &run)?;
    all_finished(alloc, given)
}
