//! Worked examples. Events and records are written as lines of text, and the expected lines are written out. Out of memory
//! ends a test by an error and never changes an answer, so each may be run with any allocation refused.
//!
//! Operations and tasks are dropped by a call of `drop`, before anything may fail: where a scope drops one, the prover follows all
//! its parts on each way out.
mod runs;
mod shards;
mod tasks;
