//! A server that lasts: each worker serves many clients beside each other.
ghost use Rattle.std.specs.Prelude.{◌≡◌, false, ◌<◌, ◌-◌, ◌^◌, ◌⊎◌, ◌+◌, IfOk, OnOk, vec_len};
ghost use Rattle.std.specs.List.{All};
ghost use Rattle.shard_store.specs.Pass.{IsOf};
ghost use Rattle.workers.specs.Closing.{AreAll, ranges_of};
ghost use Rattle.server.specs.Saving.{Keeps};
ghost use Rattle.server.specs.Serve.{EndsEarly, ServeRun, TellsFault};
ghost use Rattle.wire.specs.Output.{end_of};
ghost use Rattle.commands.specs.declared.fault.Fault.TheVariants.{Front, Listen};
ghost use Rattle.wire.specs.Counted.{faults_in};
ghost use Rattle.wire.specs.declared.error.FrontError.TheVariants.{Memory};
ghost use Rattle.server.specs.Serving.{ServedBeside, patience, ticks};

use crate::ending::{Done, report};
use crate::lines::{ServerLine, say};
use crate::saving::Keeper;
use crate::server_log::ServerLog;
use crate::serving::host::Host;
use crate::serving::incoming::{Incoming, TICKS_A_SECOND};
use crate::serving::ports::Ports;
use crate::serving::ready::WorkerPoll;
use crate::serving::shared::{Seat, Shared, Watch};
use crate::set_up::SetUp;
use crate::told::tell_in_words;
use command_line::{Lasting, Settings};
use commands::Fault;
use mio::{Poll, Waker};
use shard_store::{Pass, Store};
use std::alloc::{AllocError, Global};
use std::io::{Read, Write};
use std::thread;
use std::thread::Threads;
use std::time::Clock;
use wire::{Counted, FrontError};
use workers::{Limits, Open, Patience, SharedByWorkers, Worked, run_arrivals};

/// Why a server that is to stop at the end of the input does not begin.
const NO_THREAD: &str = "no thread can be made that waits for the end of the input";

/// A server that listens, and whose store is set up; and who keeps the last map, if somebody does.
#[derive(Drop)]
pub struct Task<K> {
    pub ports: Ports,
    pub waits: WorkerPolls,
    pub settings: Settings,
    pub lasting: Lasting,
    pub set_up: SetUp,
    pub keeper: Option<K>,
}

/// What the workers run over.
#[derive(Drop)]
struct Work<'h, 'r, 's, 'd, H, L> {
    host: &'r Host<'h, H, L>,
    store: &'s Store,
    shared: &'d Shared,
    settings: Settings,
    lasting: Lasting,
}

/// What the workers wait with, and their seats.
#[derive(Drop)]
pub struct WorkerPolls {
    pub all: Vec<WorkerPoll>,
    seats: Vec<Seat>,
}

impl WorkerPolls {
    /// Those of no worker yet.
    pub fn new(alloc: Global) -> WorkerPolls
        ensures { vec_len result.all ≡ 0 }
    {
        WorkerPolls {
            all: Vec::new(alloc),
            seats: Vec::new(alloc),
        }
    }

    /// Those of one more worker: what waits for clients at the ports, and what ends its waits.
    pub fn push(&mut self, alloc: Global, poll: Poll, waker: Waker) -> Result<(), AllocError>
        ensures { OnOk result (vec_len self.new.all ≡ vec_len self.old.all + 1) }
    {
        let ready = WorkerPoll::new(alloc, poll)?;
        self.seats.push(Seat::new(waker))?;
        self.all.push(ready)?;
        Ok(())
    }
}

/// What comes to each worker.
fn incoming_of<'a, H: Clock, L: ServerLog>(
    alloc: Global,
    clock: &'a H,
    log: &'a L,
    shared: &'a Shared,
    waits: Vec<WorkerPoll>,
) -> Result<Vec<Incoming<'a, H, L>>, AllocError>
    ensures { IfOk result (λ all. vec_len all ≡ vec_len waits) }
{
    let mut all = Vec::new(alloc);
    for ready in waits {
        let worker = all.len();
        all.push(Incoming::new(clock, log, shared, worker, ready))?;
    }
    Ok(all)
}

/// A number of seconds in ticks.
fn ticks_of(seconds: u64) -> u64
    ensures { result ≡ ticks seconds }
{
    seconds.saturating_mul(TICKS_A_SECOND)
}

/// How long the workers wait for their clients.
fn patience_of(lasting: Lasting) -> Patience
    ensures { result ≡ patience lasting }
{
    Patience {
        most_silent: ticks_of(lasting.idle),
        reply_ticks: ticks_of(lasting.reply_seconds),
        moments: lasting.moments,
    }
}

/// Runs the workers.
fn run<H: Threads + Clock + Sync, L: ServerLog + Copy + Sync>(
    work: &Work<'_, '_, '_, '_, H, L>,
    passes: Vec<Pass>,
    incoming: Vec<Incoming<'_, H, L>>,
) -> Result<Vec<Worked>, AllocError>
    requires same { vec_len passes ≡ vec_len incoming }
    requires own { All (λ pass. IsOf pass work.now.store.now) passes.items }
    ensures { IfOk result (λ all. ServedBeside work.now.lasting work.now.settings.turns work.now.store.now passes.items all.items) }
{
    let (host, settings) = (work.host, work.settings);
    let common = SharedByWorkers {
        rt: host.rt,
        alloc: host.alloc,
        log: host.log,
        limits: Limits {
            retries: settings.retries,
            patience: patience_of(work.lasting),
            turns: settings.turns,
        },
    };
    run_arrivals(&common, work.store, passes, incoming, &Open)
}

/// Runs the workers, and beside them waits for the end of the input: then they are to stop.
fn run_until_end<H: Threads + Clock + Sync, I: Read, L: ServerLog + Copy + Sync>(
    work: &Work<'_, '_, '_, '_, H, L>,
    passes: Vec<Pass>,
    incoming: Vec<Incoming<'_, H, L>>,
    end: &mut Watch<'_, '_, I>,
) -> Result<Vec<Worked>, AllocError>
    requires same { vec_len passes ≡ vec_len incoming }
    requires own { All (λ pass. IsOf pass work.now.store.now) passes.items }
    ensures { IfOk result (λ all. ServedBeside work.now.lasting work.now.settings.turns work.now.store.now passes.items all.items) }
{
    let run = || -> Result<Vec<Worked>, AllocError>
        requires same { vec_len passes ≡ vec_len incoming }
        requires own { All (λ pass. IsOf pass work.now.store.now) passes.items }
        ensures { IfOk result (λ all. ServedBeside work.entry.now.lasting work.entry.now.settings.turns work.entry.now.store.now passes.items all.items) }
    { run(work, passes, incoming) };
    let (worked, ()) = thread::join(work.host.rt, run, || end.stop_at_end());
    worked
}

/// Runs the workers; if they are to stop at the end of the input, that is waited for beside them.
fn run_all<H: Threads + Clock + Sync, I: Read, L: ServerLog + Copy + Sync>(
    work: &Work<'_, '_, '_, '_, H, L>,
    passes: Vec<Pass>,
    incoming: Vec<Incoming<'_, H, L>>,
    input: &mut Counted<I>,
) -> Result<Vec<Worked>, AllocError>
    requires same { vec_len passes ≡ vec_len incoming }
    requires own { All (λ pass. IsOf pass work.now.store.now) passes.items }
    ensures served { IfOk result (λ all. ServedBeside work.now.lasting work.now.settings.turns work.now.store.now passes.items all.items) }
    ensures read { work.now.lasting.until_eof ≡ false → input.new ≡ input.old }
{
    if !work.lasting.until_eof {
        return run(work, passes, incoming);
    }
    let shared = work.shared;
    run_until_end(work, passes, incoming, &mut Watch { input, shared })
}

/// Whether a thread can be made now: the end of the input is waited for beside the workers, and without a thread it would be
/// waited for before them, while nobody is served.
fn can_make_thread<R: Threads>(rt: &R) -> bool {
    match thread::spawn(rt, || ()) {
        Ok(made) => {
            made.join(rt);
            true
        }
        Err(_) => false,
    }
}

/// Serves at the ports, until the end of the input if the server is to stop then; answers the exit status.
///
/// `listening` goes to the output first, with the address, and if there is one for reads only, `read-only` and that behind it
/// on the same line; no connection is taken if it is not taken. If the server is to stop at the end of the input and no thread
/// can be made to wait for that, it is a fault, and nothing is said. At the end come `served N`, how many sessions were begun, and
/// `domains M`, how many domains have a bundle then. The faults of sessions are told in between, in order of the workers;
/// they don't change the status, except that a listener that failed does. The log is told of changes and of the ends of
/// sessions while it serves.
pub fn serve_at<
    H: Threads + Clock + Sync,
    L: ServerLog + Copy + Sync,
    K: Keeper,
    I: Read,
    W: Write,
    E: Write,
>(
    host: &Host<'_, H, L>,
    task: Task<K>,
    input: &mut Counted<I>,
    out: &mut Counted<W>,
    err: &mut Counted<E>,
) -> u8
    requires count { faults_in err.old < 2 ^ 64 - 1 }
    requires workers { vec_len task.set_up.passes ≡ task.settings.workers }
    requires waits { vec_len task.waits.all ≡ task.settings.workers }
    requires own { All (λ pass. IsOf pass task.set_up.store) task.set_up.passes.items }
    requires all { AreAll (ranges_of task.set_up.passes.items) }
    ensures run { EndsEarly (Front Memory) result (end_of W.contents out.old) (end_of W.contents out.new) (end_of E.contents err.old) (end_of E.contents err.new)
        ⊎ ServeRun (Keeps K.keeps task.keeper) (ServedBeside task.lasting task.settings.turns) task.set_up.store task.set_up.passes.items result
        (end_of W.contents out.old) (end_of W.contents out.new) (end_of E.contents err.old) (end_of E.contents err.new) }
    ensures read { task.lasting.until_eof ≡ false → input.new ≡ input.old }
{
    let before = err.faults();
    let Task {
        ports,
        waits: WorkerPolls { all: polls, seats },
        settings,
        lasting,
        set_up: SetUp { store, passes },
        keeper,
    } = task;
    let shared = Shared::new(ports, seats, lasting.most_open);
    let Ok(incoming) = incoming_of(host.alloc, host.rt, host.log, &shared, polls) else {
        return Fault::Front(FrontError::Memory).tell(err);
    };
    if lasting.until_eof && !can_make_thread(host.rt) {
        return tell_in_words(host.alloc, Fault::Listen, Some(NO_THREAD), err);
    }
    let (all, reads) = shared.ports().addresses();
    if !say(out, err, before, ServerLine::Listening(all, reads)) {
        return 1;
    }
    let work = Work {
        host,
        store: &store,
        shared: &shared,
        settings,
        lasting,
    };
    match run_all(&work, passes, incoming, input) {
        Ok(worked) => {
            let done = Done {
                alloc: host.alloc,
                store,
                worked,
                keeper,
            };
            report(done, out, err, before)
        }
        Err(_) => {
            Fault::Front(FrontError::Memory).tell_unless_failed(err, before);
            1
        }
    }
}

/// Tells why there is no listener: memory ran out, or the system has none.
pub fn tell_early<E: Write>(fault: Fault, err: &mut Counted<E>) -> u8
    ensures status { result ≡ 1 }
    ensures tells { TellsFault Listen (end_of E.contents err.old) (end_of E.contents err.new)
        ⊎ TellsFault (Front Memory) (end_of E.contents err.old) (end_of E.contents err.new) }
{
    match fault {
        Fault::Front(FrontError::Memory) => Fault::Front(FrontError::Memory).tell(err),
        _ => Fault::Listen.tell(err),
    }
}
