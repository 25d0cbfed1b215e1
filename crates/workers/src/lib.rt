//! Workers: threads that serve sessions over the store that they share, each call through a gate. No word of this crate speaks
//! of sockets.
//!
//! `run_workers` gives each pass of a store a thread and the sessions of a `Sessions`, which may be a list in memory or
//! a listener. `passes_of` makes the passes, `fill_store` fills the store before
//! the workers begin, and `close_store` joins the passes again, when no worker is left, and gives the map at the end. A
//! worker may be told to a `Log` and ask again while others are in the way (`Patient`).
//!
//! `run_arrivals` gives each pass the connections of an `Arrivals`, and a worker waits for all its connections at once; each
//! whose stream is ready has a turn. A `Connection` never waits: it has a stream whose calls return at once, and the session that
//! it carries. `AtPort` is a map that is asked at a port, maybe for reads only.
#![tactic(auto)]

mod arrivals;
mod at_port;
mod closing;
mod connection;
mod ended;
mod filling;
mod gate;
mod gated;
mod lasting;
pub mod laws;
mod limited;
mod limits;
mod log;
mod logged;
mod metered;
mod passes;
mod retrying;
mod run;
mod seating;
mod serving;
mod session;
mod sessions;
mod stream;
mod turn_end;
mod worker;

pub use arrivals::{Arrival, Arrivals};
pub use at_port::{AtPort, BehindPort};
pub use closing::close_store;
pub use connection::Connection;
pub use ended::{SessionEnds, SessionFault, Worked};
pub use filling::{FillError, fill_store};
pub use gate::{Gate, Open};
pub use gated::Gated;
pub use lasting::run_arrivals;
pub use limited::ROOM_BYTES;
pub use limits::{Limits, Patience};
pub use log::{ChangeRefusal, Changed, Client, How, Log, Quiet, RefusedChange};
pub use logged::Logged;
pub use passes::passes_of;
pub use retrying::Retrying;
pub use run::{Finished, kept_all, run_workers};
pub use seating::{Patient, Seating};
pub use serving::serve_arrivals;
pub use session::Session;
pub use sessions::{ListenFault, Sessions};
pub use stream::Stream;
pub use turn_end::TurnEnd;
pub use worker::{SharedByWorkers, Worker};
