//! What a run hands out.
use map_core::{AskError, Op, Reply};

/// An operation that was begun. Events are counted from 0, those that do not fit too.
#[derive(Drop)]
pub struct OpRecord {
    pub caller: u32,
    pub op: Op,
    /// The event at which it began.
    pub first: u64,
    /// The event at which it ended or was given up; none while it is under way.
    pub last: Option<u64>,
    /// Its reply, once it has ended or was given up.
    pub reply: Option<Result<Reply, AskError>>,
    /// Whether its step has changed a shard.
    pub wrote: bool,
}

/// The operations of a run in order of their beginning, and one order that explains what their callers saw.
#[derive(Drop)]
pub struct Trace {
    pub ops: Vec<OpRecord>,
    /// Numbers of operations, by their places in `ops`.
    pub order: Vec<usize>,
}
