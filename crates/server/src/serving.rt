//! How a server serves the clients that come to its listeners: its workers, and what they wait with.
mod blocking;
mod clients;
mod host;
mod incoming;
mod lasting;
mod ports;
mod ready;
mod shared;
mod sockets;
mod stream;

pub use blocking::{InTurn, serve_on};
pub use host::Host;
pub use lasting::{Task, WorkerPolls, serve_at, tell_early};
pub use ports::Ports;
pub use ready::NOBODY;
pub use sockets::Listener;
