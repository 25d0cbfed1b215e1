//! The program, from its arguments to its exit status.
ghost use Rattle.std.specs.Prelude.{◌≡◌, ◌<◌, ◌-◌, ◌^◌, ◌⊎◌};
ghost use Rattle.wire.specs.Counted.{faults_in};
ghost use Rattle.bundled.specs.Command.{Commands, DiffFiles, Does, DoesInWords, Refuses, Shows, has_words as speaks, profile};
ghost use Rattle.server.specs.Serve.{AddsWords};
ghost use Rattle.command_line.specs.Settings.{AreSettings};
ghost use Rattle.wire.specs.Output.{Tells, end_of};
ghost use Rattle.commands.specs.Streams.{Source, Streams, streams};

use crate::asking::ask_server;
use crate::heard::Hears;
use crate::notes::{Notes, NotesRoom};
use crate::racing::race_over;
use crate::refreshing::refresh_over;
use crate::screen::Shows;
use crate::serving::{Host, Serving, serve_over};
use crate::snapshotting::snapshot_over;
use crate::stats::stats_over;
use crate::why::{Ended, words_of};
use clap::error::ErrorKind;
use command_line::{ReplyStyle, Wanted, wanted_by};
use commands::{
    Fault, FileTexts, check_over, decode_over, diff_over, digest_over, encode_over, ended,
    explain_over, import_over, map_over, migrate_over, pem_over, picture_over, run_over,
    trace_over, write_flushed,
};
use dump_views::Profile;
use server::{Counts, LineLog, Stamped, tell_start, tell_words};
use std::alloc::{AllocError, Global};
use std::env::{Args, Env};
use std::fs::{File, Files};
use std::io::{Read, Write};
use std::net::{Net, TcpListener, TcpStream};
use std::thread::Threads;
use std::time::Clock;
use std::{env, io};
use wire::{Counted, FrontError, tell};

const NOT_TEXT: &[u8] = b"error: an argument is not UTF-8\n\nFor more information, try '--help'.\n";

/// Does what the arguments want, and answers the exit status: 0 if all went well, 1 after a fault, 2 if the arguments
/// are refused. `notes` is an end of standard error that workers share: a server's log goes there.
pub fn command_over<
    V: Env,
    H: Files + Clock + Threads + Net<Listener = TcpListener, Stream = TcpStream> + Sync,
    R: Read,
    W: Write + Shows,
    E: Write + Hears,
    N: Write + Copy + Send + Sync,
>(
    alloc: Global,
    args: &V,
    host: &H,
    reader: &mut Counted<R>,
    out: &mut Counted<W>,
    err: &mut Counted<E>,
    notes: N,
) -> u8
    requires out_count { faults_in out.old < 2 ^ 64 - 1 }
    requires err_count { faults_in err.old < 2 ^ 64 - 1 }
    ensures { Commands result
        (streams R.remaining W.contents E.contents reader.old out.old err.old)
        (streams R.remaining W.contents E.contents reader.new out.new err.new) }
{
    let words = match env::args(&(args, alloc)) {
        Ok(words) => words,
        Err(error) if error.kind() == io::ErrorKind::InvalidData => return refuse(NOT_TEXT, err),
        Err(_) => return Fault::Front(FrontError::Memory).tell(err),
    };
    let Ok(words) = gather(alloc, words) else {
        return Fault::Front(FrontError::Memory).tell(err);
    };
    match wanted_by(alloc, words.as_slice()) {
        Ok(wanted) => run_in_words(alloc, host, &wanted, reader, out, err, notes),
        Err(error) => show(alloc, &error, out, err),
    }
}

/// The arguments in a list. (`collect` would ask for room for all of them first, and go on if that is refused.)
fn gather(alloc: Global, arguments: Args) -> Result<Vec<String>, AllocError> {
    let mut words = Vec::new(alloc);
    for word in arguments {
        words.push(word)?;
    }
    Ok(words)
}

/// Runs the command that is wanted, and answers the exit status. If a fault ended it, it is said in words why, of the commands that
/// say so.
fn run_in_words<
    H: Files + Clock + Threads + Net<Listener = TcpListener, Stream = TcpStream> + Sync,
    R: Read,
    W: Write + Shows,
    E: Write + Hears,
    N: Write + Copy + Send + Sync,
>(
    alloc: Global,
    host: &H,
    wanted: &Wanted<'_>,
    reader: &mut Counted<R>,
    out: &mut Counted<W>,
    err: &mut Counted<E>,
    notes: N,
) -> u8
    requires settings { AreSettings wanted.now }
    requires out_count { faults_in out.old < 2 ^ 64 - 1 }
    requires err_count { faults_in err.old < 2 ^ 64 - 1 }
    ensures { DoesInWords wanted.now result
        (streams R.remaining W.contents E.contents reader.old out.old err.old)
        (streams R.remaining W.contents E.contents reader.new out.new err.new) }
{
    if is_text(wanted) {
        out.end().show_text();
    }
    let (input_faults, output_faults, error_faults) = (reader.faults(), out.faults(), err.faults());
    let status = run_wanted(alloc, host, wanted, reader, out, err, notes);
    if status != 1 || !has_words(wanted) || err.faults() != error_faults {
        return status;
    }
    let why = match err.end().last_fault() {
        Some(fault) => Some(Ended {
            fault,
            input_failed: reader.faults() != input_faults,
            output_failed: out.faults() != output_faults,
        }),
        None => None,
    };
    say_why(alloc, host, wanted, why, err);
    status
}

/// Whether the command writes text that others have written, with no byte of it escaped.
fn is_text(wanted: &Wanted<'_>) -> bool {
    match wanted {
        Wanted::Decode | Wanted::Map { .. } => true,
        Wanted::Ask(inquiry) => inquiry.style != ReplyStyle::Raw,
        _ => false,
    }
}

/// Whether the command says in words why a fault ended it.
fn has_words(wanted: &Wanted<'_>) -> bool
    ensures { result ≡ speaks wanted.now }
{
    matches!(
        wanted,
        Wanted::Ask(_)
            | Wanted::Check(_)
            | Wanted::Map { .. }
            | Wanted::Import
            | Wanted::Pem(_)
            | Wanted::Diff(_, _)
            | Wanted::Digest
            | Wanted::Refresh(_)
            | Wanted::Snapshot(_)
            | Wanted::Stats(_)
    )
}

/// Says in words why the command ended, if there are any.
fn say_why<H: Files + Net, E: Write>(
    alloc: Global,
    host: &H,
    wanted: &Wanted<'_>,
    why: Option<Ended>,
    err: &mut Counted<E>,
)
    ensures { AddsWords (end_of E.contents err.old) (end_of E.contents err.new) }
{
    let Some(why) = why else {
        return;
    };
    let Some(words) = words_of(alloc, host, wanted, why) else {
        return;
    };
    tell_words(alloc, words.as_str(), err);
}

/// Runs the command that is wanted, and answers the exit status.
fn run_wanted<
    H: Files + Clock + Threads + Net<Listener = TcpListener, Stream = TcpStream> + Sync,
    R: Read,
    W: Write,
    E: Write,
    N: Write + Copy + Send + Sync,
>(
    alloc: Global,
    host: &H,
    wanted: &Wanted<'_>,
    reader: &mut Counted<R>,
    out: &mut Counted<W>,
    err: &mut Counted<E>,
    notes: N,
) -> u8
    requires settings { AreSettings wanted.now }
    requires out_count { faults_in out.old < 2 ^ 64 - 1 }
    requires err_count { faults_in err.old < 2 ^ 64 - 1 }
    ensures { Does wanted.now result
        (streams R.remaining W.contents E.contents reader.old out.old err.old)
        (streams R.remaining W.contents E.contents reader.new out.new err.new) }
{
    match wanted {
        Wanted::Run { shards, turns } => run_over(alloc, reader, out, err, *shards, *turns),
        Wanted::Ask(inquiry) => ask_server(alloc, host, reader, out, err, inquiry),
        Wanted::Encode => encode_over(alloc, &FileTexts::new(host), reader, out, err),
        Wanted::Decode => decode_over(alloc, reader, out, err),
        Wanted::Explain(text) => explain_over(text, out, err),
        Wanted::Check(files) => {
            check_over(
                alloc,
                &FileTexts::new(host),
                files.as_slice(),
                reader,
                out,
                err,
            )
        }
        Wanted::Map { names, x509 } => {
            map_over(alloc, names.as_slice(), profile_of(*x509), reader, out, err)
        }
        Wanted::Import => import_over(alloc, reader, out, err),
        Wanted::Pem(name) => pem_over(alloc, name, reader, out, err),
        Wanted::Diff(old, new) => diff_files(alloc, host, old, new, out, err),
        Wanted::Digest => digest_over(alloc, reader, out, err),
        Wanted::Migrate => migrate_over(alloc, reader, out, err),
        Wanted::Trace {
            shards,
            rounds,
            picture: false,
        } => trace_over(alloc, reader, out, err, *shards, *rounds),
        Wanted::Trace {
            shards,
            rounds,
            picture: true,
        } => picture_over(alloc, reader, out, err, *shards, *rounds),
        Wanted::Race { seconds } => race_over(alloc, host, out, err, *seconds),
        Wanted::Refresh(refreshing) => refresh_over(alloc, host, out, err, refreshing),
        Wanted::Snapshot(snapshotting) => snapshot_over(alloc, host, out, err, snapshotting),
        Wanted::Stats(counting) => stats_over(alloc, host, out, err, counting),
        Wanted::Serve {
            places,
            load,
            save,
            log: scope,
            says_connections,
            settings,
        } => {
            tell_start(host, settings, scope.has_changes(), notes);
            let Ok(counts) = Counts::new(alloc, host, settings.workers) else {
                return Fault::Front(FrontError::Memory).tell(err);
            };
            let room = NotesRoom::new(host, alloc);
            let end = Stamped::new(host, Notes::new(host, &room, notes));
            let log = LineLog::new(&counts, host, end, *scope);
            let host = Host {
                rt: host,
                alloc,
                log: &log,
                counts: &counts,
            };
            let serving = Serving {
                places: *places,
                load: *load,
                save: *save,
                says_connections: *says_connections,
                settings: *settings,
            };
            let status = serve_over(&host, serving, reader, out, err);
            log.tell_left_out();
            status
        }
    }
}

/// Tells what changed from the dump of the old file to that of the new one.
fn diff_files<H: Files, W: Write, E: Write>(
    alloc: Global,
    host: &H,
    old: &str,
    new: &str,
    out: &mut Counted<W>,
    err: &mut Counted<E>,
) -> u8
    ensures { DiffFiles result (end_of W.contents out.old) (end_of W.contents out.new) (end_of E.contents err.old) (end_of E.contents err.new) }
{
    let Ok(old) = File::open(host, old) else {
        return Fault::Front(FrontError::ReadFault).tell(err);
    };
    let Ok(new) = File::open(host, new) else {
        return Fault::Front(FrontError::ReadFault).tell(err);
    };
    let (mut old, mut new) = (Counted::new(old), Counted::new(new));
    diff_over(alloc, &mut old, &mut new, out, err)
}

/// What is shown of a bundle in a map.
fn profile_of(x509: bool) -> Profile
    ensures { result ≡ profile x509 }
{
    if x509 { Profile::X509 } else { Profile::Whole }
}

/// Shows what the command line gave in place of a command: help or the version on standard output, or on standard
/// error why it is refused.
fn show<W: Write, E: Write>(
    alloc: Global,
    error: &clap::Error,
    out: &mut Counted<W>,
    err: &mut Counted<E>,
) -> u8
    ensures shows { (input : Source) → let old : Streams = record { input = input; output = end_of W.contents out.old; error = end_of E.contents err.old } in
        let new : Streams = record { input = input; output = end_of W.contents out.new; error = end_of E.contents err.new } in
        Shows result old new ⊎ Refuses result old new }
    ensures silent { result ≡ 0 → err.new ≡ err.old }
{
    let Ok(text) = text_of(alloc, error) else {
        return Fault::Front(FrontError::Memory).tell(err);
    };
    if error.use_stderr() {
        return refuse(text.as_bytes(), err);
    }
    ended(write_flushed(out, text.as_bytes()), err)
}

fn text_of(alloc: Global, error: &clap::Error) -> Result<String, AllocError> {
    if error.kind() == ErrorKind::OutOfMemory {
        return Err(AllocError);
    }
    format!(in alloc; "{error}")
}

/// Says on standard error why the arguments are refused.
fn refuse<E: Write>(text: &[u8], err: &mut Counted<E>) -> u8
    ensures status { result ≡ 2 }
    ensures tells { Tells (end_of E.contents err.old) (end_of E.contents err.new) text.now }
{
    tell(err, text);
    2
}
