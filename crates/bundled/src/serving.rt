//! The command `serve`: ports are bound, and workers answer the connections that come to them, over a store that they share.
mod lasting;
mod ports;
mod reasons;
mod serve;
mod socket_file;
mod waits;

pub use lasting::serve_many;
pub use serve::{Serving, serve_over};
pub use server::{Host, serve_on};
