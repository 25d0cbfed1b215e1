//! What may happen next in a run.
use map_core::Op;

/// Why a caller gives an operation up.
#[derive(Clone, Copy, Drop)]
pub enum Why {
    /// Another caller held this shard, at this revision.
    Held { shard: usize, revision: u64 },
    /// There was no memory.
    Memory,
}

/// An event: one caller goes one step on. What does not fit changes nothing.
#[derive(Drop)]
pub enum Event {
    /// An idle caller begins the operation.
    Begin(u32, Op),
    /// A caller that has begun and is not done makes one shard step.
    Step(u32),
    /// A caller that has begun and is not done gives its operation up.
    Quit(u32, Why),
    /// A caller that is done takes its reply.
    End(u32),
}
