//! The clients that a worker takes one after the other.
ghost use Rattle.std.specs.Prelude.{◌≤◌};

use crate::counts::Counts;
use crate::serving::sockets::Listener;

/// The clients that come to one worker at a listener, which waits for each.
#[derive(Drop)]
pub struct Clients<'a> {
    pub listener: &'a Listener,
    pub counts: &'a Counts,
    pub worker: u64,
    /// How many the worker may take still.
    pub left: u64,
    /// How many reads may be made of each.
    pub turns: u64,
    pub ghost few: { turns ≤ 1000000000 },
}
