//! Why a command ended by a fault, in words: what could not be had, where and why.
use crate::heard::ToldFault;
use crate::reasons::{reason, why_unread};
use command_line::{Inquiry, Place, Wanted};
use commands::{Extent, read_input};
use frame_front::read_dump;
use mio::net::UnixStream;
use spiffe_doc::TrustDomain;
use std::alloc::Global;
use std::fs;
use std::fs::{File, Files};
use std::io::ErrorKind;
use std::net::{Ipv4Addr, Net, SocketAddr};
use std::time::Duration;
use wire::Counted;

/// How long a server is asked once more whether it takes a client, in seconds.
const PROBE: u64 = 1;

/// What is known of the end of a command: the fault that was told, and whether its input or its output failed.
#[derive(Clone, Copy)]
pub struct Ended {
    pub fault: ToldFault,
    pub input_failed: bool,
    pub output_failed: bool,
}

/// Where a command asks a server, and how many seconds it waits for it.
fn asked_at<'a>(wanted: &Wanted<'a>) -> Option<(Place<'a>, u64)> {
    match wanted {
        Wanted::Ask(it) => Some((it.place, it.timeout)),
        Wanted::Stats(it) => Some((it.place, it.timeout)),
        Wanted::Snapshot(it) => Some((it.place, it.timeout)),
        Wanted::Refresh(it) => it.place.map(|place| (place, it.timeout)),
        _ => None,
    }
}

/// Why the command ended, in words; none if the line of its fault says all, or if memory runs out.
pub fn words_of<H: Files + Net>(
    alloc: Global,
    host: &H,
    wanted: &Wanted<'_>,
    ended: Ended,
) -> Option<String> {
    let at = asked_at(wanted);
    match ended.fault.number {
        53 if ended.input_failed => text(alloc, "standard input cannot be read"),
        54 if ended.output_failed => text(alloc, "standard output takes no more"),
        53 | 77 => match unread_file(host, wanted, ended.fault) {
            Some((path, kind)) => not_read(alloc, path, kind),
            None => no_reply(alloc, at?),
        },
        54 => text(alloc, "the server takes no more of the request"),
        52 => text(
            alloc,
            "the server closed the connection before its reply was whole",
        ),
        50 => text(
            alloc,
            "a reply of the server has a length of 0 or of more than 1049000 bytes",
        ),
        58 => text(alloc, "what the server sent is not a reply to the request"),
        78 => not_reached(alloc, host, at?.0),
        _ => words_of_input(alloc, host, wanted, ended.fault),
    }
}

/// The same of a fault in what a command was given: a dump, a map, a line, a name or a folder.
fn words_of_input<H: Files>(
    alloc: Global,
    host: &H,
    wanted: &Wanted<'_>,
    fault: ToldFault,
) -> Option<String> {
    match fault.number {
        63 => not_a_dump(alloc, dump_of(alloc, host, wanted), fault.first),
        64 => text(alloc, "standard input is not a SPIFFE bundle map"),
        65 => {
            let member = fault.first;
            format!(in alloc;
                "member {member} of the map is not a trust domain and its bundle, or stands twice"
            ).ok()
        }
        70 => bad_line(alloc, wanted, fault.first),
        71 => text(alloc, "the input has over 16777216 bytes"),
        74 => no_folder(alloc, host, wanted),
        75 => not_in_dump(alloc, wanted, fault.first),
        79 => bad_relationship(alloc, wanted, fault.first),
        _ => None,
    }
}

fn text(alloc: Global, words: &str) -> Option<String> {
    String::from_str(alloc, words).ok()
}

/// A file that a command was to read and cannot, and the kind of the error.
fn unread_file<'a, H: Files>(
    host: &H,
    wanted: &Wanted<'a>,
    fault: ToldFault,
) -> Option<(&'a str, ErrorKind)> {
    match wanted {
        Wanted::Diff(old, new) => unread(host, old).or(unread(host, new)),
        Wanted::Check(files) => unread(host, files.get(fault.first.saturating_sub(1) as usize)?),
        Wanted::Refresh(it) => unread(host, it.list),
        Wanted::Ask(it) if fault.number == 53 => unread(host, it.unless?),
        Wanted::Ask(it) => unread(host, named_file(it)?),
        _ => None,
    }
}

/// The file, if it cannot be read.
fn unread<'a, H: Files>(host: &H, path: &'a str) -> Option<(&'a str, ErrorKind)> {
    let kind = why_unread(host, path)?;
    Some((path, kind))
}

/// The file that a word of the request names.
fn named_file<'a>(inquiry: &Inquiry<'a>) -> Option<&'a str> {
    let last = inquiry.words.as_slice().last()?;
    last.strip_prefix("@")
}

fn not_read(alloc: Global, path: &str, kind: ErrorKind) -> Option<String> {
    let why = reason(kind, "no such file");
    format!(in alloc; "cannot read \"{path}\": {why}").ok()
}

/// The server at the place gave no whole reply.
fn no_reply(alloc: Global, at: (Place<'_>, u64)) -> Option<String> {
    let (_, seconds) = at;
    format!(in alloc;
        "the server gave no whole reply in {seconds} seconds, or the connection to it failed"
    ).ok()
}

/// No server takes a client at the place. It is tried once more to see why.
fn not_reached<H: Net>(alloc: Global, host: &H, place: Place<'_>) -> Option<String> {
    match place {
        Place::Port(port) => {
            let address = SocketAddr::from((Ipv4Addr::LOCALHOST, port));
            match host.connect_timeout(address, Duration::from_secs(PROBE)) {
                Err(error) if error.kind() == ErrorKind::ConnectionRefused => {
                    format!(in alloc; "nobody listens at port {port}").ok()
                }
                _ => format!(in alloc; "port {port} takes no client").ok(),
            }
        }
        Place::Socket(path) => {
            let why = match UnixStream::connect(host, path) {
                Ok(_) => "it took no client in time",
                Err(error) => why_not_connected(error.kind()),
            };
            format!(in alloc; "the socket \"{path}\": {why}").ok()
        }
    }
}

fn why_not_connected(kind: ErrorKind) -> &'static str {
    match kind {
        ErrorKind::ConnectionRefused => "nobody listens there, or it is not a socket",
        ErrorKind::WouldBlock => "the server has no room for another client",
        ErrorKind::InvalidInput => "the path is not one of a socket, or too long",
        kind => reason(kind, "no such file"),
    }
}

/// The file of the dump that is not one, if a file was named; otherwise it was the input. Of two the old one was judged first.
fn dump_of<'a, H: Files>(alloc: Global, host: &H, wanted: &Wanted<'a>) -> Option<&'a str> {
    match wanted {
        Wanted::Ask(it) => it.unless,
        Wanted::Diff(old, new) if is_dump(alloc, host, old) => Some(*new),
        Wanted::Diff(old, _) => Some(*old),
        _ => None,
    }
}

fn is_dump<H: Files>(alloc: Global, host: &H, path: &str) -> bool {
    let Ok(file) = File::open(host, path) else {
        return false;
    };
    match read_input(alloc, Extent::Any, &mut Counted::new(file)) {
        Ok(dump) => read_dump(alloc, dump.as_slice()).is_ok(),
        Err(_) => false,
    }
}

fn not_a_dump(alloc: Global, path: Option<&str>, frame: u64) -> Option<String> {
    let name = match path {
        Some(path) => format!(in alloc; "the dump \"{path}\"").ok()?,
        None => text(alloc, "standard input")?,
    };
    if frame == 0 {
        format!(in alloc; "{name} is empty, or not a dump").ok()
    } else {
        format!(in alloc;
            "{name} is not a whole dump: frame {frame} is wrong, missing or too much"
        ).ok()
    }
}

fn bad_line(alloc: Global, wanted: &Wanted<'_>, line: u64) -> Option<String> {
    match wanted {
        Wanted::Ask(it) if !it.words.is_empty() => text(alloc, "these words are not a request"),
        Wanted::Refresh(it) => {
            let list = it.list;
            format!(in alloc;
                "line {line} of the list \"{list}\" is not a relationship, or its domain has one before"
            ).ok()
        }
        _ => format!(in alloc; "line {line} is not a request").ok(),
    }
}

fn bad_relationship(alloc: Global, wanted: &Wanted<'_>, line: u64) -> Option<String> {
    match wanted {
        Wanted::Refresh(it) => {
            let list = it.list;
            format!(in alloc; "line {line} of the list \"{list}\" is not a relationship").ok()
        }
        _ => None,
    }
}

fn no_folder<H: Files>(alloc: Global, host: &H, wanted: &Wanted<'_>) -> Option<String> {
    let Wanted::Snapshot(it) = wanted else {
        return None;
    };
    let path = it.folder;
    match fs::metadata(host, path) {
        Ok(found) if found.is_dir() => {
            format!(in alloc; "the folder \"{path}\" cannot be read or written").ok()
        }
        Ok(_) => format!(in alloc; "\"{path}\" is not a folder").ok(),
        Err(error) => {
            let why = reason(error.kind(), "no such folder");
            format!(in alloc; "the folder \"{path}\": {why}").ok()
        }
    }
}

fn not_in_dump(alloc: Global, wanted: &Wanted<'_>, place: u64) -> Option<String> {
    let name: &TrustDomain = match wanted {
        Wanted::Pem(name) => name,
        Wanted::Map { names, .. } => names.get(place.saturating_sub(1) as usize)?,
        _ => return None,
    };
    let name = name.as_str();
    format!(in alloc; "the dump has no bundle of \"{name}\"").ok()
}
