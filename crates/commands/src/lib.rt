//! The commands of the program that need only streams, and how each command tells its faults.
//!
//! `run_over` serves a session, `encode_over` and `decode_over` turn lines into frames and frames into lines, `trace_over`
//! and `picture_over` run the machine over a list of events, `ask_over` asks a server, `migrate_over` turns a dump into requests, and `explain_over`
//! writes a text. `check_over` reads documents, `map_over`, `pem_over` and `digest_over` a dump, `import_over` a bundle map, and
//! `diff_over` two dumps. Each reads from a reader, writes to a writer, tells its fault to another, and answers the exit status.
//! What they are made of serves the other commands too; `read_schedule` reads the list of `refresh`.
#![tactic(auto)]

mod ask;
mod check;
mod diff;
mod digest;
mod dump_sink;
mod encode;
mod ending;
mod explain;
mod fault;
mod file_texts;
mod import;
mod input;
mod map;
mod migrate;
mod output;
mod pem;
mod reading;
mod run;
mod schedule;
mod trace;

pub use ask::{ask_over, ask_words_over};
pub use check::check_over;
pub use diff::diff_over;
pub use digest::digest_over;
pub use dump_sink::DumpSink;
pub use encode::{decode_over, encode_over};
pub use ending::{Outcome, ended, ended_after};
pub use explain::explain_over;
pub use fault::{Fault, RefreshFault, ServerFault, SnapshotFault};
pub use file_texts::FileTexts;
pub use import::import_over;
pub use input::{Extent, read_input};
pub use map::map_over;
pub use migrate::migrate_over;
pub use output::write_flushed;
pub use pem::pem_over;
pub use reading::{read_dump_into, read_requests};
pub use run::run_over;
pub use schedule::read_schedule;
pub use trace::{picture_over, trace_over};
