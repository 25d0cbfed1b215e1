//! One turn of the command `snapshot`.
ghost use Rattle.std.specs.Prelude.{◌≡◌, ◌<◌, IfOk, true};

use crate::patience::Patience;
use crate::server_stream::connect;
use client::{Client, ClientError};
use command_line::Snapshotting;
use commands::{Fault, ServerFault, SnapshotFault, write_flushed};
use map_core::Snapshot;
use snapshots::{FetchError, FolderError, HostFolder, Look, fetch, has_files, update};
use std::alloc::{AllocError, Global};
use std::fs::Files;
use std::io::Write;
use std::net::Net;
use std::time::Clock;
use wire::{Counted, FrontError};

/// How many names of domains without files are told at most, so that nobody fills a log by them.
const MOST_NAMES: usize = 10;

/// What is to be done, and where.
#[derive(Drop)]
pub struct Job<'a, H> {
    pub alloc: Global,
    pub host: &'a H,
    pub wanted: Snapshotting<'a>,
}

/// Why a folder does not show what the server holds.
#[derive(Clone, Copy, Debug, PartialEq, Eq)]
pub enum Trouble {
    /// A fault of this number.
    Fault(u8),
    /// The server has fewer domains than are wanted: so many. The snapshot of this number is kept; it is 0 without one.
    TooFew { domains: u64, kept: u64 },
}

/// What is kept from turn to turn.
#[derive(Drop)]
pub struct Kept {
    /// What was fetched last.
    fetched: Option<Snapshot>,
    /// How the current snapshot looked once its files were those of what was fetched last.
    look: Option<Look>,
    /// What was told last, until it is over.
    trouble: Option<Trouble>,
    /// The lines that told which domains have no files.
    left_out: String,
    /// Whether a line told which snapshot is current.
    has_told: bool,
    /// The snapshot that is shown, and how many domains it has, as long as no line told that.
    untold: Option<(u64, usize)>,
}

/// What a turn came to that no fault ended.
#[derive(Drop)]
pub struct Taken {
    /// Whether the server has fewer domains than are wanted: then nothing is shown.
    pub is_few: bool,
    /// What is to be told on standard error.
    pub text: String,
}

impl Kept {
    /// At the start nothing is known.
    pub fn new(alloc: Global) -> Kept {
        Kept {
            fetched: None,
            look: None,
            trouble: None,
            left_out: String::new(alloc),
            has_told: false,
            untold: None,
        }
    }

    /// Whether the trouble is another one than before, so that it has to be told.
    pub fn meets(&mut self, trouble: Trouble) -> bool {
        let now = Some(trouble);
        let is_new = self.trouble != now;
        self.trouble = now;
        is_new
    }
}

/// Brings the folder to show what the server holds, and tells if that is new. What was fetched last is not fetched again while
/// the server has the same, and files are not compared again while the current snapshot looks the same.
pub fn take_turn<H: Files + Net + Clock, W: Write>(
    job: &Job<'_, H>,
    out: &mut Counted<W>,
    kept: &mut Kept,
) -> Result<Taken, Fault>
    ensures { IfOk result (λ taken. taken.is_few ≡ true → 0 < job.now.wanted.at_least) }
{
    tell_current(job, out, kept)?;
    tell_shown(job, out, kept)?;
    let domains = fetched(job, kept)?;
    let mut folder = opened(job)?;
    if (domains.len() as u64) < job.wanted.at_least {
        return too_few(job, domains.len() as u64, folder.number(), kept);
    }
    let look = looked(&folder)?;
    let text = if look.is_some() && look == kept.look {
        over(job, kept)?
    } else {
        kept.look = None;
        bring(job, out, &mut folder, &domains, kept)?;
        let look = looked(&folder)?;
        let left_out = left_out_of(job.alloc, &domains)?;
        let mut text = over(job, kept)?;
        if left_out != kept.left_out {
            text.push_str(left_out.as_str())?;
            kept.left_out = left_out;
        }
        kept.look = look;
        text
    };
    kept.trouble = None;
    Ok(Taken {
        is_few: false,
        text,
    })
}

/// Tells which snapshot is current at the start of turns that are repeated, so that whoever acts on each line can act on it.
fn tell_current<H: Files, W: Write>(
    job: &Job<'_, H>,
    out: &mut Counted<W>,
    kept: &mut Kept,
) -> Result<(), Fault> {
    if job.wanted.every.is_none() || kept.has_told {
        return Ok(());
    }
    let folder = opened(job)?;
    let count = match folder.count() {
        Ok(count) => count,
        Err(error) => return Err(fault_of(error)),
    };
    if let Some(count) = count {
        let number = folder.number();
        let line = format!(in job.alloc; "current snapshot-{number} domains {count}\n")?;
        write_flushed(out, line.as_bytes())?;
        kept.has_told = true;
    }
    Ok(())
}

/// Tells which snapshot is shown, if no line told that yet: memory may have run out as it was to be told.
fn tell_shown<H, W: Write>(
    job: &Job<'_, H>,
    out: &mut Counted<W>,
    kept: &mut Kept,
) -> Result<(), Fault> {
    if let Some((number, count)) = kept.untold {
        let line = format!(in job.alloc; "shown snapshot-{number} domains {count}\n")?;
        write_flushed(out, line.as_bytes())?;
        kept.untold = None;
        kept.has_told = true;
    }
    Ok(())
}

/// All domains of the server; those that were fetched last, if it has the same.
fn fetched<H: Net + Clock>(job: &Job<'_, H>, kept: &mut Kept) -> Result<Snapshot, Fault> {
    if let Some(domains) = fetch_from(job, &kept.fetched)? {
        kept.fetched = Some(domains);
        kept.look = None;
    }
    match &mut kept.fetched {
        Some(domains) => match domains.share(job.alloc) {
            Ok(domains) => Ok(domains),
            Err(_) => Err(Fault::Front(FrontError::Memory)),
        },
        // (Only a fetch that knows a digest is told that they are the same.)
        None => Err(Fault::Server(ServerFault::Client(ClientError::BadReply))),
    }
}

/// All domains of the server; none if they are those that were fetched last.
fn fetch_from<H: Net + Clock>(
    job: &Job<'_, H>,
    last: &Option<Snapshot>,
) -> Result<Option<Snapshot>, Fault> {
    let patience = Patience::new(job.host, job.wanted.timeout);
    let Ok((from, to)) = connect(job.host, job.wanted.place, &patience) else {
        return Err(Fault::Server(ServerFault::NoConnection));
    };
    let mut client = Client::new(job.alloc, Counted::new(from), Counted::new(to));
    match fetch(&mut client, last.as_ref().map(Snapshot::digest)) {
        Ok(fetched) => Ok(fetched),
        Err(FetchError::Refused(why)) => Err(Fault::Snapshot(SnapshotFault::Refused(why))),
        Err(FetchError::Ended(why)) => Err(Fault::Server(ServerFault::Client(why))),
    }
}

/// The folder, as it is at this turn.
fn opened<'a, H: Files>(job: &Job<'a, H>) -> Result<HostFolder<'a, H>, Fault> {
    match HostFolder::open(job.alloc, job.host, job.wanted.folder) {
        Ok(folder) => Ok(folder),
        Err(error) => Err(fault_of(error)),
    }
}

fn looked<H: Files>(folder: &HostFolder<'_, H>) -> Result<Option<Look>, Fault> {
    match folder.look() {
        Ok(look) => Ok(look),
        Err(error) => Err(fault_of(error)),
    }
}

/// Brings the folder to show the domains, tells if they are new there, and removes what is old.
fn bring<H: Files, W: Write>(
    job: &Job<'_, H>,
    out: &mut Counted<W>,
    folder: &mut HostFolder<'_, H>,
    domains: &Snapshot,
    kept: &mut Kept,
) -> Result<(), Fault> {
    match update(job.alloc, folder, domains.pairs()) {
        Ok(false) => {}
        Ok(true) => {
            kept.untold = Some((folder.number(), domains.len()));
            tell_shown(job, out, kept)?;
        }
        Err(error) => {
            // What was written takes no room until the next turn, which a full disk may need.
            let _ = folder.clear();
            return Err(fault_of(error));
        }
    }
    match folder.tidy() {
        Ok(()) => Ok(()),
        Err(error) => Err(fault_of(error)),
    }
}

/// A turn that shows nothing, since the server has fewer domains than are wanted.
fn too_few<H>(
    job: &Job<'_, H>,
    domains: u64,
    number: u64,
    kept: &mut Kept,
) -> Result<Taken, Fault> {
    let least = job.wanted.at_least;
    let text = if number == 0 {
        format!(in job.alloc; "fewer than {least} domains: {domains}; nothing is shown\n")?
    } else {
        format!(in job.alloc; "fewer than {least} domains: {domains}; kept snapshot-{number}\n")?
    };
    let trouble = Trouble::TooFew {
        domains,
        kept: number,
    };
    Ok(Taken {
        is_few: true,
        text: if kept.meets(trouble) {
            text
        } else {
            String::new(job.alloc)
        },
    })
}

/// What is told once the trouble is over.
fn over<H>(job: &Job<'_, H>, kept: &Kept) -> Result<String, AllocError> {
    match &kept.trouble {
        None => Ok(String::new(job.alloc)),
        Some(Trouble::Fault(number)) => format!(in job.alloc; "over: fault {number}\n"),
        Some(Trouble::TooFew { .. }) => {
            let least = job.wanted.at_least;
            format!(in job.alloc; "over: fewer than {least} domains\n")
        }
    }
}

/// The lines of the domains without files of their own: of the first of them, and how many more there are.
fn left_out_of(alloc: Global, domains: &Snapshot) -> Result<String, AllocError> {
    let mut text = String::new(alloc);
    let mut count: usize = 0;
    for item in domains.pairs() {
        if has_files(&item.0) {
            continue;
        }
        count = count.saturating_add(1);
        if count <= MOST_NAMES {
            let name = item.0.as_str();
            text.push_str(format!(in alloc; "left out {name}: too long for a file\n")?.as_str())?;
        }
    }
    if count > MOST_NAMES {
        let more = count.saturating_sub(MOST_NAMES);
        text.push_str(format!(in alloc; "left out {more} more: too long for a file\n")?.as_str())?;
    }
    Ok(text)
}

fn fault_of(error: FolderError) -> Fault {
    match error {
        FolderError::Unusable => Fault::Snapshot(SnapshotFault::BadFolder),
        FolderError::Memory => Fault::Front(FrontError::Memory),
    }
}
