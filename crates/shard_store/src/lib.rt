//! A map of trust bundles, in shards that threads share. No call waits.
//!
//! Each thread has a `Pass` of a `Store`. A reply is the plain map's after some list of changes that begins with all that
//! the pass had seen; after a refusal nothing has changed.
#![tactic(auto)]

mod change;
mod close;
mod desk;
mod fetch;
mod held_pass;
mod holds;
mod in_hand;
mod last_all;
mod last_reads;
pub mod laws;
mod one_shard;
mod parts;
mod pass;
mod recall;
mod rule;
mod seated;
mod steps;
mod store;
mod tally;

pub use change::{Change, Seen};
pub use close::CloseError;
pub use held_pass::HeldPass;
pub use pass::Pass;
pub use seated::Seated;
pub use store::Store;
pub use tally::{Flow, Tally};
