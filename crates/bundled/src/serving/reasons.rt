//! Why a server does not begin, in words: what could not be had, where and why.
use crate::reasons::{reason, why_unread};
use crate::serving::socket_file::why_taken;
use command_line::Place;
use commands::Fault;
use frame_front::DumpError;
use std::alloc::Global;
use std::fs::Files;
use std::io;
use std::io::ErrorKind;
use std::net::Net;
use wire::FrontError;

/// Why a server does not listen at a place.
#[derive(Drop)]
pub struct NotBound<'a> {
    pub place: Place<'a>,
    pub error: io::Error,
}

impl NotBound<'_> {
    /// In words, if there is memory for them.
    pub fn words<H: Files + Net>(&self, alloc: Global, host: &H) -> Option<String> {
        match self.place {
            Place::Port(port) => {
                let kind = self.error.kind();
                if kind == ErrorKind::AddrInUse {
                    return format!(in alloc; "port {port} is in use").ok();
                }
                format!(in alloc; "port {port}: {kind}").ok()
            }
            Place::Socket(path) => {
                let why = match self.error.kind() {
                    ErrorKind::AddrInUse => why_taken(host, path),
                    ErrorKind::InvalidInput => "the path is not one of a socket, or too long",
                    kind => reason(kind, "no such folder"),
                };
                format!(in alloc; "the socket \"{path}\": {why}").ok()
            }
        }
    }
}

/// Why no dump can be written for the file, in words.
pub fn not_written(alloc: Global, path: &str, error: &io::Error) -> Option<String> {
    let why = match error.kind() {
        ErrorKind::InvalidInput => "what stands there is not a file",
        ErrorKind::AlreadyExists => "FILE.new is there and cannot be removed",
        kind => reason(kind, "no such folder"),
    };
    format!(in alloc; "cannot write the dump \"{path}\": {why}").ok()
}

/// Why the file fills no store, in words; nothing if the fault is not one of the file.
pub fn not_loaded<H: Files>(alloc: Global, host: &H, path: &str, fault: Fault) -> Option<String> {
    match fault {
        Fault::Front(FrontError::ReadFault) => {
            let kind = why_unread(host, path).unwrap_or(ErrorKind::Other);
            let why = reason(kind, "no such file");
            format!(in alloc; "cannot read the dump \"{path}\": {why}").ok()
        }
        Fault::Dump(DumpError::BadDump(0)) => {
            format!(in alloc; "the dump \"{path}\" is empty, or not a dump").ok()
        }
        Fault::Dump(DumpError::BadDump(frame)) => {
            format!(in alloc;
                "the dump \"{path}\" is not whole: frame {frame} is wrong, missing or too much"
            ).ok()
        }
        _ => None,
    }
}
