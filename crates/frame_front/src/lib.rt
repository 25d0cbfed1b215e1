//! The front of a map of trust bundles: frames on a stream of bytes, the requests that they carry, the
//! replies, and sessions that answer the one with the other.
//!
//! `serve` reads frames from any reader and writes replies to any writer, over whatever can be asked:
//! one map, or shards of it. `LiveSession` is a session without a reader and a writer, for a thread that drives many
//! of them. `read_dump` gives what the reply to a fetch-all holds, `DumpDecoder` the same of a dump that
//! comes in pieces, and `migrate` turns it into requests that
//! store it again, which `Migration` gathers. What both ends of a stream share is crate `wire`; the other end is the client of crate `client`.
#![tactic(auto)]

mod answered;
mod dump;
mod dump_decoder;
pub mod laws;
mod live;
mod pending;
mod replies;
mod reply;
mod session;
mod terms;

pub use answered::{Answered, Wants};
pub use dump::{DumpError, Migration, migrate, read_dump};
pub use dump_decoder::DumpDecoder;
pub use live::LiveSession;
pub use session::serve;
pub use terms::Terms;
pub use wire::{
    Counted, Decoder, FaultyReader, FaultyWriter, FrontError, Judged, Refusal, Version,
    read_request,
};
