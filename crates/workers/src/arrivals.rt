//! What comes to a worker that serves many connections.

use crate::Stream;

/// What comes next to a worker.
#[derive(Drop)]
pub enum Arrival<E> {
    /// A client has connected, maybe at a port for reads only.
    Opens { end: E, reads_only: bool },
    /// The stream at this place may have input, or take replies again. If it `is_closing`, its client has closed its side, or
    /// it has failed.
    Ready { place: usize, is_closing: bool },
    /// Some time has passed, and nothing else has come.
    Tick,
    /// Nothing has come.
    Nothing,
    /// The listener has failed.
    Fails,
    /// No client comes any more, and those that are connected are to be left.
    Stops,
}

/// The source of a worker's connections.
pub trait Arrivals {
    ghost use Rattle.std.specs.Prelude.{ℕ, ◌<◌, ◌⊎◌};
    ghost use Rattle.workers.specs.Arrivals.{IsStop};
    ghost use Rattle.workers.specs.declared.arrivals.Arrival.{Arrival};

    /// A stream whose reads and writes fail with `WouldBlock` where they would wait.
    type End: Stream + Drop + Send;

    // At most so much more comes.
    ghost left: { Self → ℕ };

    // What may come once this place is told to be free, and what comes after it.
    ghost comes: { Self → ℕ → Arrival Self.End → Self → Type 0 };

    /// Waits for what comes next, but not if `is_busy`. It may be nothing. A client that comes stands at the place that is
    /// told to be `free`, and is known by its number from then on. `open` tells how many clients are connected to the worker.
    fn next(&mut self, free: usize, open: usize, is_busy: bool) -> Arrival<Self::End>
        ensures end { IsStop result ⊎ (left self.new < left self.old) }
        ensures comes { comes self.old free result self.new };
}
