//! The command `refresh`: sets the bundles of a list of relationships, out of a folder of documents.
ghost use Rattle.std.specs.Prelude.{◌<◌, ◌-◌, ◌^◌, List, ℕ};
ghost use Rattle.wire.specs.Counted.{faults_in};
ghost use Rattle.bundled.specs.Refresh.{RefreshRun};
ghost use Rattle.wire.specs.Output.{Tells, end_of};
ghost use Rattle.commands.specs.Streams.{Source};

use crate::patience::Patience;
use crate::server_stream::{ServerStream, connect};
use client::Client;
use command_line::{Place, Refreshing};
use commands::{Fault, RefreshFault, ServerFault, ended_after, read_schedule};
use refresh::{Folder, Sender, Server, Times, refresh_each};
use std::alloc::Global;
use std::fs::Files;
use std::io::Write;
use std::net::Net;
use std::time::Clock;
use wire::{Counted, FrontError};

/// Refreshes each relationship of the list once, and answers the exit status: 0 if each bundle was stored, unchanged or
/// sent, 3 if not, 1 after a fault. A list that is refused is a fault, and then nothing is asked. A line for each
/// refresh goes to standard output, or, without a place to ask, to standard error.
pub fn refresh_over<H: Files + Clock + Net, W: Write, E: Write>(
    alloc: Global,
    host: &H,
    out: &mut Counted<W>,
    err: &mut Counted<E>,
    wanted: &Refreshing<'_>,
) -> u8
    requires out_count { faults_in out.old < 2 ^ 64 - 1 }
    requires err_count { faults_in err.old < 2 ^ 64 - 1 }
    ensures { (input : Source) → RefreshRun result
        (record { input = input; output = end_of W.contents out.old; error = end_of E.contents err.old })
        (record { input = input; output = end_of W.contents out.new; error = end_of E.contents err.new }) }
{
    let before = err.faults();
    let end = refresh_list(alloc, host, out, err, wanted);
    ended_after(end, err, before)
}

/// Refreshes each relationship, and says whether one did not go well.
fn refresh_list<H: Files + Clock + Net, W: Write, E: Write>(
    alloc: Global,
    host: &H,
    out: &mut Counted<W>,
    err: &mut Counted<E>,
    wanted: &Refreshing<'_>,
) -> Result<bool, Fault>
    requires out_count { faults_in out.old < 2 ^ 64 - 1 }
    requires err_count { faults_in err.old < 2 ^ 64 - 1 }
    ensures { (lines : List ℕ) × Tells (end_of E.contents err.old) (end_of E.contents err.new) lines }
{
    let mut schedule = read_schedule(alloc, host, wanted.list)?;
    let times = Times {
        time: time_of(host, wanted)?,
        at_least: wanted.at_least,
    };
    let mut folder = Folder::new(alloc, host, wanted.folder);
    match wanted.place {
        Some(place) => {
            let patience = Patience::new(host, wanted.timeout);
            let mut server = server_at(alloc, host, place, &patience)?;
            Ok(!refresh_each(
                alloc,
                &mut folder,
                &mut server,
                &mut schedule,
                &times,
                out,
                true,
            )?)
        }
        None => {
            let mut sender = Sender::new(alloc, out);
            Ok(!refresh_each(
                alloc,
                &mut folder,
                &mut sender,
                &mut schedule,
                &times,
                err,
                false,
            )?)
        }
    }
}

fn time_of<H: Clock>(host: &H, wanted: &Refreshing<'_>) -> Result<u64, Fault> {
    match wanted.now {
        Some(now) => Ok(now),
        None => match host.since_1970() {
            Ok(time) => Ok(time.as_secs()),
            Err(_) => Err(Fault::Refresh(RefreshFault::NoClock)),
        },
    }
}

/// The server that listens at the place.
fn server_at<'a, H: Net + Clock>(
    alloc: Global,
    host: &'a H,
    place: Place<'_>,
    patience: &'a Patience<'a, H>,
) -> Result<Server<ServerStream<'a, H, H::Stream>, ServerStream<'a, H, H::Stream>>, Fault> {
    match connect(host, place, patience) {
        Ok((from, to)) => {
            let client = Client::new(alloc, Counted::new(from), Counted::new(to));
            Ok(Server::new(client))
        }
        Err(_) => Err(Fault::Server(ServerFault::NoConnection)),
    }
}
