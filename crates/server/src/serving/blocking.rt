//! The form of a server in which each worker serves its clients one after the other, and waits in each.
ghost use Rattle.std.specs.Prelude.{◌≡◌, ◌<◌, ◌≤◌, ◌-◌, ◌^◌, ◌⊎◌, List, map, IfOk, vec_len};
ghost use Rattle.std.specs.List.{All};
ghost use Rattle.shard_store.specs.Pass.{IsOf};
ghost use Rattle.wire.specs.Counted.{faults_in};
ghost use Rattle.workers.specs.Run.{AllWorked, kept};
ghost use Rattle.workers.specs.declared.run.Finished.{Finished};
ghost use Rattle.wire.specs.Output.{end_of};
ghost use Rattle.server.specs.Saving.{Keeps};
ghost use Rattle.server.specs.Serve.{EndsEarly, ServeRun, always_open};
ghost use Rattle.workers.specs.Closing.{AreAll, ranges_of};
ghost use Rattle.commands.specs.declared.fault.Fault.TheVariants.{Front};
ghost use Rattle.wire.specs.declared.error.FrontError.TheVariants.{Memory};
ghost use Rattle.server.specs.Serving.{ClientComes, EndsClient, MayTake, ServedInTurn, most_taken as taken_by, most_turns as turns_of, unknown};

use crate::counts::{Count, Counts};
use crate::ending::{Done, report};
use crate::lines::{ServerLine, say};
use crate::saving::Keeper;
use crate::server_log::ServerLog;
use crate::serving::clients::Clients;
use crate::serving::host::Host;
use crate::serving::sockets::{ClientStream, Listener};
use crate::serving::stream::close;
use crate::set_up::SetUp;
use command_line::{Connections, Settings};
use commands::Fault;
use shard_store::{Pass, Store};
use std::alloc::{AllocError, Global};
use std::io;
use std::io::{Read, Write};
use std::thread::Threads;
use std::time::Clock;
use wire::{Counted, FrontError};
use workers::{ListenFault, Log, Open, Patient, Session, Sessions, Worked, kept_all, run_workers};

/// The most reads that may be made of a client.
const MOST_TURNS: u64 = 1_000_000_000;

/// One direction of a client's connection, whose bytes the worker counts.
#[derive(Drop)]
pub struct CountedStream<'a> {
    inner: ClientStream,
    counts: &'a Counts,
    worker: u64,
    /// As what its bytes are counted.
    count: Count,
}

impl CountedStream<'_> {
    /// So many bytes have gone this way.
    fn add(&self, bytes: usize) {
        self.counts.add(self.worker, self.count, bytes as u64);
    }
}

impl Read for CountedStream<'_> {
    fn read(&mut self, buf: &mut [u8]) -> io::Result<usize> {
        let read = self.inner.read(buf);
        if let Ok(bytes) = &read {
            self.add(*bytes);
        }
        read
    }
}

impl Write for CountedStream<'_> {
    fn write(&mut self, buf: &[u8]) -> io::Result<usize> {
        let written = self.inner.write(buf);
        if let Ok(bytes) = &written {
            self.add(*bytes);
        }
        written
    }

    fn flush(&mut self) -> io::Result<()> {
        self.inner.flush()
    }
}

/// What a client sends. Once it is dropped, the connection is closed.
pub struct Client<'a>(CountedStream<'a>);

impl Read for Client<'_> {
    fn read(&mut self, buf: &mut [u8]) -> io::Result<usize> {
        self.0.read(buf)
    }
}

impl Drop for Client<'_> {
    fn drop(self) {
        let Client(CountedStream { inner, .. }) = self;
        let _ = inner.set_nonblocking(true);
        close(inner);
    }
}

impl<'a> Clients<'a> {
    /// Waits for the next client.
    fn accept(&self) -> io::Result<Session<Client<'a>, CountedStream<'a>>>
        ensures { IfOk result (λ session. session.turns ≡ self.now.turns) }
    {
        let reader = self.listener.accept()?;
        // A reply is not to wait until the client has taken the one before.
        reader.set_nodelay(true)?;
        let writer = reader.try_clone()?;
        let peer = reader.peer_port();
        Ok(Session {
            reader: Client(self.counted(reader, Count::BytesRead)),
            writer: self.counted(writer, Count::BytesWritten),
            turns: self.turns,
            peer,
        })
    }

    fn counted(&self, inner: ClientStream, count: Count) -> CountedStream<'a> {
        CountedStream {
            inner,
            counts: self.counts,
            worker: self.worker,
            count,
        }
    }
}

impl<'a> Sessions for Clients<'a> {
    type Reader = Client<'a>;

    type Writer = CountedStream<'a>;

    ghost use Rattle.server.specs.Serving.{ClientComes, EndsClient};

    ghost left = { λ clients. clients.left };

    ghost comes = { ClientComes };

    ghost takes_back = { EndsClient };

    fn next(&mut self) -> Result<Option<Session<Client<'a>, CountedStream<'a>>>, ListenFault> {
        if self.left == 0 {
            return Ok(None);
        }
        let Ok(session) = self.accept() else {
            return Err(ListenFault);
        };
        self.left -= 1;
        Ok(Some(session))
    }

    fn take_back(&mut self, reader: Counted<Client<'a>>, writer: Counted<CountedStream<'a>>)
        ensures no_more { self.new.left ≤ self.old.left }
        ensures taken { EndsClient self.old reader.entry writer.entry self.new }
    {
        drop(writer);
        drop(reader);
    }
}

/// How many clients each worker takes.
fn most_taken(connections: Connections) -> u64
    ensures { result ≡ taken_by connections }
{
    match connections {
        Connections::Each(count) => count,
        Connections::Unlimited(_) => u64::MAX,
    }
}

/// What comes to each worker.
fn clients_of<'a>(
    alloc: Global,
    listener: &'a Listener,
    counts: &'a Counts,
    settings: Settings,
) -> Result<Vec<Clients<'a>>, AllocError>
    ensures count { IfOk result (λ all. vec_len all ≡ settings.workers) }
    ensures may { IfOk result (λ all. MayTake (taken_by settings.connections) (turns_of settings.turns) all.items) }
{
    let left = most_taken(settings.connections);
    let turns = settings.turns.min(MOST_TURNS);
    let mut all = Vec::new(alloc);
    for _ in 0..settings.workers {
        let worker = all.len() as u64;
        all.push(Clients {
            listener,
            counts,
            worker,
            left,
            turns,
        })?;
    }
    Ok(all)
}

/// Runs the workers, each of which has a pass and takes its clients. If memory runs out, clients may have been served.
fn run_in_turn<R: Threads + Clock + Sync, L: Log + Copy + Send + Sync>(
    host: &Host<'_, R, L>,
    store: &Store,
    retries: u64,
    passes: Vec<Pass>,
    clients: Vec<Clients<'_>>,
) -> Result<Vec<Worked>, AllocError>
    requires same { vec_len passes ≡ vec_len clients }
    requires own { All (λ pass. IsOf pass store.now) passes.items }
    ensures { IfOk result (λ worked. (finished : List Finished) × AllWorked always_open unknown unknown EndsClient ClientComes store.now 0 passes.items clients.entry.items finished × (worked.items ≡ map kept finished)) }
{
    let patient = Patient {
        store,
        clock: host.rt,
        retries,
        log: host.log,
    };
    let finished = run_workers(host.rt, host.alloc, patient, passes, clients, &Open)?;
    kept_all(host.alloc, finished)
}

/// Where clients come who are served one after the other, how they are served and over which store, which is set up; whether it
/// was said how many each worker serves; and who keeps the last map, if somebody does.
#[derive(Drop)]
pub struct InTurn<'a, K> {
    pub listener: &'a Listener,
    pub says_connections: bool,
    pub settings: Settings,
    pub set_up: SetUp,
    pub keeper: Option<K>,
}

/// Serves the clients of the listener over the store, each worker so many, one after the other; answers the exit status.
///
/// `listening` goes to the output first, with the address; no client is taken if it is not taken. The log is told then how many
/// clients are served, if nobody has said that. At the end come `served N`, how many sessions there were, and `domains M`, how
/// many domains have a bundle then. The faults of sessions are told in between, in order of the workers; they don't change the
/// status, except that a listener that failed does.
pub fn serve_on<
    R: Threads + Clock + Sync,
    L: ServerLog + Copy + Send + Sync,
    K: Keeper,
    W: Write,
    E: Write,
>(host: &Host<'_, R, L>, task: InTurn<'_, K>, out: &mut Counted<W>, err: &mut Counted<E>) -> u8
    requires count { faults_in err.old < 2 ^ 64 - 1 }
    requires workers { vec_len task.set_up.passes ≡ task.settings.workers }
    requires own { All (λ pass. IsOf pass task.set_up.store) task.set_up.passes.items }
    requires all { AreAll (ranges_of task.set_up.passes.items) }
    ensures { EndsEarly (Front Memory) result (end_of W.contents out.old) (end_of W.contents out.new) (end_of E.contents err.old) (end_of E.contents err.new)
        ⊎ ServeRun (Keeps K.keeps task.entry.keeper) (ServedInTurn (taken_by task.entry.settings.connections) (turns_of task.entry.settings.turns)) task.entry.set_up.store task.entry.set_up.passes.items result
        (end_of W.contents out.old) (end_of W.contents out.new) (end_of E.contents err.old) (end_of E.contents err.new) }
{
    let before = err.faults();
    let InTurn {
        listener,
        says_connections,
        settings,
        set_up: SetUp { store, passes },
        keeper,
    } = task;
    let Ok(clients) = clients_of(host.alloc, listener, host.counts, settings) else {
        return Fault::Front(FrontError::Memory).tell(err);
    };
    let Ok(address) = listener.address() else {
        return Fault::Listen.tell(err);
    };
    if !say(out, err, before, ServerLine::Listening(&address, None)) {
        return 1;
    }
    if !says_connections {
        let each = most_taken(settings.connections);
        host.log.ends_after(each.saturating_mul(settings.workers));
    }
    match run_in_turn(host, &store, settings.retries, passes, clients) {
        Ok(worked) => {
            let done = Done {
                alloc: host.alloc,
                store,
                worked,
                keeper,
            };
            report(done, out, err, before)
        }
        Err(_) => {
            Fault::Front(FrontError::Memory).tell_unless_failed(err, before);
            1
        }
    }
}
