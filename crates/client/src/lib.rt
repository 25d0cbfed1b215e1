//! The other end of a session over a map of trust bundles: a client. The stream is the one that crate `frame_front` serves.
//!
//! `Client` writes requests to any writer and reads their replies from any reader, and can be asked as a map
//! itself; `write_request` only writes requests. `ServerStreams::ask_stream` is for people and scripts: the requests are lines, and the
//! replies are shown as lines or as frames.
#![tactic(auto)]

mod answer;
mod asking;
mod client;
mod client_error;
mod exchange;
mod fault;
pub mod laws;
mod line;
mod listing;
mod reading;
mod reply;
mod reply_codes;
mod reply_room;
mod request;
mod server_streams;
mod showing;

pub use crate::client::Client;
pub use asking::{Asking, Form};
pub use client_error::ClientError;
pub use fault::AskFault;
pub use reading::read_frame;
pub use request::{RequestError, write_request};
pub use server_streams::ServerStreams;
