//! Shards of the map of trust bundles, operations on them step by step, and the machine of those steps.
//!
//! `run_events` gives the records of a run and a linearization of them, for every number of shards and callers and every
//! list of events: so a fetch-all that is answered shows all bundles as they stood at one moment. The machine is made of
//! `Shard` and `Task`.
#![tactic(auto)]

mod driver;
mod event;
pub mod home;
pub mod laws;
mod round;
mod run;
mod shard;
mod shards;
mod task;
mod trace;

pub use event::{Event, Why};
pub use run::run_events;
pub use shard::Shard;
pub use shards::Shards;
pub use task::{Answer, Task, Want};
pub use trace::{OpRecord, Trace};
