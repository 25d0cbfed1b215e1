//! The command `serve`, in the form that its settings have.
ghost use Rattle.std.specs.Prelude.{◌≡◌, ◌<◌, ◌-◌, ◌^◌, ◌⊎◌, ℕ, List, false, IfErr, IfOk, option_map, vec_len};
ghost use Rattle.std.specs.List.{All};
ghost use Rattle.shard_store.specs.Pass.{IsOf};
ghost use Rattle.workers.specs.Closing.{AreAll, ranges_of};
ghost use Rattle.wire.specs.Counted.{faults_in};
ghost use Rattle.command_line.specs.Serving.{stops_at_end};
ghost use Rattle.wire.specs.Output.{end_of};
ghost use Rattle.server.specs.Saving.{IsUnknown};
ghost use Rattle.server.specs.Serve.{IsLoad, IsNotBegun, IsNotKept, IsSetUp, ServeCommand, SetUpRun, TellsFault};
ghost use Rattle.server.specs.Serving.{ServedInTurn, most_taken, most_turns};
ghost use Rattle.bundled.specs.Serve.{ServedAs};

use crate::serving::lasting::{At, serve_many};
use crate::serving::ports::{Bound, listener_or_told};
use crate::serving::reasons::{not_loaded, not_written};
use command_line::{Connections, Places, Settings};
use commands::Fault;
use server::{
    Host, InTurn, SavedFile, ServerLog, SetUp, save_fault, serve_on, set_up_of, tell_in_words,
};
use std::alloc::Global;
use std::fs::Files;
use std::io::{Read, Write};
use std::net::{Net, TcpListener, TcpStream};
use std::thread::Threads;
use std::time::Clock;
use wire::Counted;

/// What a server is asked for: where it listens; the file whose dump fills the store before, and the file in which the last
/// map is kept, if they are named; its settings, and whether it was said which connections it serves.
#[derive(Clone, Copy, Debug)]
pub struct Serving<'a> {
    pub places: Places<'a>,
    pub load: Option<&'a str>,
    pub save: Option<&'a str>,
    pub says_connections: bool,
    pub settings: Settings,
}

/// Why a server does not begin; and in words, if there are any.
#[derive(Drop)]
struct NotBegun {
    fault: Fault,
    words: Option<String>,
}

impl NotBegun {
    /// Tells it; answers the exit status.
    fn tell<E: Write>(&self, alloc: Global, err: &mut Counted<E>) -> u8
        requires { faults_in err.old < 2 ^ 64 - 1 }
        ensures status { result ≡ 1 }
        ensures tells { TellsFault self.now.fault (end_of E.contents err.old) (end_of E.contents err.new) }
    {
        tell_in_words(alloc, self.fault, self.words.as_deref(), err)
    }
}

/// The file in which the last map is kept, if one is named. It is tried: one that can't be written is told before anything is
/// served, and not when the map is lost.
fn saved_file<'a, H: Files>(
    alloc: Global,
    files: &'a H,
    path: Option<&'a str>,
) -> Result<Option<SavedFile<'a, H>>, NotBegun>
    ensures ok { IfOk result (λ file. option_map (λ file. file.path) file ≡ path.entry) }
    ensures err { IfErr result (λ why. IsNotKept path.entry why.fault) }
{
    let Some(path) = path else {
        return Ok(None);
    };
    let file = SavedFile { alloc, files, path };
    match file.trial() {
        Ok(()) => Ok(Some(file)),
        Err(error) => Err(NotBegun {
            fault: save_fault(&error),
            words: not_written(alloc, path, &error),
        }),
    }
}

/// A store that is set up, and filled if a file is named.
fn filled_store<H: Files>(alloc: Global, host: &H, serving: Serving<'_>) -> Result<SetUp, NotBegun>
    ensures set_up { IfOk result (λ made. (requests : List ℕ) × IsLoad serving.entry.load requests × IsSetUp serving.entry.settings requests made.store made.passes.items) }
    ensures own { IfOk result (λ made. All (λ pass. IsOf pass made.store) made.passes.items) }
    ensures err { IfErr result (λ why. IsNotBegun serving.entry.load why.fault) }
{
    match set_up_of(alloc, host, serving.load, serving.settings) {
        Ok(made) => Ok(made),
        Err(fault) => {
            let words = match serving.load {
                Some(path) => not_loaded(alloc, host, path, fault),
                None => None,
            };
            Err(NotBegun { fault, words })
        }
    }
}

/// What is asked for, and what a server has of it before there is a place where clients come: a store that is set up, and the
/// file in which its last map is kept, if one is named.
#[derive(Drop)]
struct Begun<'a, H> {
    serving: Serving<'a>,
    set_up: SetUp,
    keeper: Option<SavedFile<'a, H>>,
}

/// Serves at the place, each worker its clients one after the other.
fn serve_in_turn<
    H: Files + Threads + Clock + Net<Listener = TcpListener, Stream = TcpStream> + Sync,
    W: Write,
    E: Write,
    L: ServerLog + Copy + Send + Sync,
>(host: &Host<'_, H, L>, begun: Begun<'_, H>, out: &mut Counted<W>, err: &mut Counted<E>) -> u8
    requires count { faults_in err.old < 2 ^ 64 - 1 }
    requires workers { vec_len begun.set_up.passes ≡ begun.serving.settings.workers }
    requires own { All (λ pass. IsOf pass begun.set_up.store) begun.set_up.passes.items }
    requires all { AreAll (ranges_of begun.set_up.passes.items) }
    ensures { SetUpRun IsUnknown (ServedInTurn (most_taken begun.entry.serving.settings.connections) (most_turns begun.entry.serving.settings.turns)) begun.entry.set_up.store begun.entry.set_up.passes.items result
        (end_of W.contents out.old) (end_of W.contents out.new) (end_of E.contents err.old) (end_of E.contents err.new) }
{
    let Bound {
        listener,
        file: _file,
    } = match listener_or_told(host.rt, host.alloc, begun.serving.places.all, err) {
        Ok(bound) => bound,
        Err(status) => return status,
    };
    let Begun {
        serving,
        set_up,
        keeper,
    } = begun;
    let task = InTurn {
        listener: &listener,
        says_connections: serving.says_connections,
        settings: serving.settings,
        set_up,
        keeper,
    };
    serve_on(host, task, out, err)
}

/// Serves in the form of the settings; answers the exit status.
fn serve_as<
    H: Files + Threads + Clock + Net<Listener = TcpListener, Stream = TcpStream> + Sync,
    I: Read,
    W: Write,
    E: Write,
    L: ServerLog + Copy + Send + Sync,
>(
    host: &Host<'_, H, L>,
    begun: Begun<'_, H>,
    input: &mut Counted<I>,
    out: &mut Counted<W>,
    err: &mut Counted<E>,
) -> u8
    requires count { faults_in err.old < 2 ^ 64 - 1 }
    requires workers { vec_len begun.set_up.passes ≡ begun.serving.settings.workers }
    requires own { All (λ pass. IsOf pass begun.set_up.store) begun.set_up.passes.items }
    requires all { AreAll (ranges_of begun.set_up.passes.items) }
    ensures run { SetUpRun IsUnknown (ServedAs begun.entry.serving.settings.connections begun.entry.serving.settings.turns) begun.entry.set_up.store begun.entry.set_up.passes.items result
        (end_of W.contents out.old) (end_of W.contents out.new) (end_of E.contents err.old) (end_of E.contents err.new) }
    ensures read { stops_at_end begun.entry.serving.settings.connections ≡ false → input.new ≡ input.old }
{
    match begun.serving.settings.connections {
        Connections::Each(_) => serve_in_turn(host, begun, out, err),
        Connections::Unlimited(lasting) => {
            let Begun {
                serving,
                set_up,
                keeper,
            } = begun;
            let at = At {
                places: serving.places,
                settings: serving.settings,
                lasting,
                set_up,
                keeper,
            };
            serve_many(host, at, input, out, err)
        }
    }
}

/// Serves as it is asked for; answers the exit status. The file in which the last map is kept is tried first, and then the
/// store is filled: a file that can't be written, or that can't be read or is not a dump, is a fault before anybody can connect.
pub fn serve_over<
    H: Files + Threads + Clock + Net<Listener = TcpListener, Stream = TcpStream> + Sync,
    I: Read,
    W: Write,
    E: Write,
    L: ServerLog + Copy + Send + Sync,
>(
    host: &Host<'_, H, L>,
    serving: Serving<'_>,
    input: &mut Counted<I>,
    out: &mut Counted<W>,
    err: &mut Counted<E>,
) -> u8
    requires { faults_in err.old < 2 ^ 64 - 1 }
    ensures run { ServeCommand IsUnknown (ServedAs serving.entry.settings.connections serving.entry.settings.turns) serving.entry.load serving.entry.save serving.entry.settings result
        (end_of W.contents out.old) (end_of W.contents out.new) (end_of E.contents err.old) (end_of E.contents err.new) }
    ensures read { stops_at_end serving.entry.settings.connections ≡ false → input.new ≡ input.old }
{
    let keeper = match saved_file(host.alloc, host.rt, serving.save) {
        Ok(keeper) => keeper,
        Err(why) => return why.tell(host.alloc, err),
    };
    let set_up = match filled_store(host.alloc, host.rt, serving) {
        Ok(set_up) => set_up,
        Err(why) => return why.tell(host.alloc, err),
    };
    set_up.count(host.counts);
    let begun = Begun {
        serving,
        set_up,
        keeper,
    };
    serve_as(host, begun, input, out, err)
}
