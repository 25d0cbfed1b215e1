//! What comes to a worker from the ports.
ghost use Rattle.std.specs.Prelude.{◌≡◌};

use crate::server_log::ServerLog;
use crate::serving::ports::Ports;
use crate::serving::ready::{PollEvent, WorkerPoll};
use crate::serving::shared::Shared;
use crate::serving::stream::Stream;
use std::io;
use std::time::{Clock, Duration, Instant};
use workers::{Arrival, Arrivals};

/// How many milliseconds a tick is.
const TICK: u64 = 250;

/// How many ticks a second has.
pub const TICKS_A_SECOND: u64 = 4;

/// The error of the system if the program has as many files open as it may: `EMFILE` of Linux.
const TOO_MANY_FILES: i32 = 24;

/// What comes to one worker.
pub struct Incoming<'a, C, L> {
    clock: &'a C,
    log: &'a L,
    shared: &'a Shared,
    worker: usize,
    ready: WorkerPoll,
    /// Whether the others are told that the worker is busy with clients that it has.
    is_busy: bool,
    /// How much may come still.
    left: u64,
    /// When the last tick was told.
    last_tick: Option<Instant>,
    /// Whether it was told that a port has failed.
    has_failed: bool,
}

impl<'a, C: Clock, L: ServerLog> Incoming<'a, C, L> {
    /// What comes to a worker that has not begun yet.
    pub fn new(
        clock: &'a C,
        log: &'a L,
        shared: &'a Shared,
        worker: usize,
        ready: WorkerPoll,
    ) -> Incoming<'a, C, L> {
        Incoming {
            clock,
            log,
            shared,
            worker,
            ready,
            is_busy: false,
            left: u64::MAX,
            last_tick: None,
            has_failed: false,
        }
    }

    /// Whether a tick has passed since the last one that was told. The first is due at once.
    fn is_time_up(&mut self) -> bool
        ensures { self.new.left ≡ self.old.left }
    {
        let Ok(now) = Instant::now(self.clock) else {
            return false;
        };
        match self.last_tick {
            Some(last) if now.duration_since(last) < Duration::from_millis(TICK) => false,
            _ => {
                self.last_tick = Some(now);
                true
            }
        }
    }

    /// The next client that waits at a port, or nothing. It is known by the place from then on.
    fn accept(&self, ports: &Ports, place: usize) -> io::Result<Arrival<Stream<'a>>> {
        let accepted = ports.accept();
        if !matches!(accepted, Ok(Some(_))) {
            self.shared.missed();
        }
        let Some((stream, reads_only)) = accepted? else {
            return Ok(Arrival::Nothing);
        };
        let end = Stream::new(stream, self.shared)?;
        self.shared.pass(self.worker);
        self.ready.add(place, end.fd())?;
        Ok(Arrival::Opens { end, reads_only })
    }

    /// Tells the log if no client can be taken since the program has as many files open as it may.
    fn tell_if_used_up(&self, error: &io::Error) {
        if error.raw_os_error() == Some(TOO_MANY_FILES) {
            self.log.takes_no_more(self.shared.open());
        }
    }

    /// Takes a client, if one waits and it is this worker's turn. That a port has failed is told once.
    fn take(&mut self, place: usize) -> Arrival<Stream<'a>>
        ensures { self.new.left ≡ self.old.left }
    {
        let Some(ports) = self.shared.may_take(self.worker) else {
            return Arrival::Nothing;
        };
        match self.accept(ports, place) {
            Ok(arrival) => arrival,
            Err(error) => {
                self.tell_if_used_up(&error);
                if self.has_failed {
                    return Arrival::Nothing;
                }
                self.has_failed = true;
                Arrival::Fails
            }
        }
    }
}

impl<'a, C: Clock, L: ServerLog> Incoming<'a, C, L> {
    /// Tells the others whether the worker is busy, if they are told otherwise.
    fn set_busy(&mut self, is_busy: bool)
        ensures { self.new.left ≡ self.old.left }
    {
        if self.is_busy != is_busy {
            self.is_busy = is_busy;
            self.shared.set_busy(self.worker, is_busy);
        }
    }

    /// What is ready, or has become so since the last tick; or else waits for it, but not if `is_busy`.
    fn ready_next(&mut self, free: usize, is_busy: bool) -> Arrival<Stream<'a>>
        ensures { self.new.left ≡ self.old.left }
    {
        match self.ready.next() {
            Some(PollEvent::Client { place, is_closing }) => Arrival::Ready { place, is_closing },
            Some(PollEvent::Port) => self.take(free),
            None if self.is_time_up() => {
                // A port that failed may be well again, and a worker that had the turn may be gone, or busy.
                self.shared.wake(self.worker);
                Arrival::Tick
            }
            None => {
                // What is ready then is told by the next calls.
                if !is_busy {
                    self.set_busy(false);
                }
                let most = if is_busy { 0 } else { TICK };
                self.ready.wait(Duration::from_millis(most));
                Arrival::Nothing
            }
        }
    }
}

impl<'a, C: Clock, L: ServerLog> Arrivals for Incoming<'a, C, L> {
    type End = Stream<'a>;

    ghost use Rattle.std.specs.Prelude.{⊤};

    ghost left = { λ incoming. incoming.left };

    ghost comes = { λ _ _ _ _. ⊤ };

    fn next(&mut self, free: usize, _open: usize, is_busy: bool) -> Arrival<Stream<'a>> {
        if self.left == 0 || self.shared.is_asked() {
            return Arrival::Stops;
        }
        self.left -= 1;
        let arrival = self.ready_next(free, is_busy);
        // A client that is ready has a turn now, and so has a new one.
        if !matches!(arrival, Arrival::Nothing) {
            self.set_busy(true);
        }
        arrival
    }
}

impl<C, L> Drop for Incoming<'_, C, L> {
    fn drop(self) {
        let Incoming {
            clock: _,
            log: _,
            shared,
            worker,
            ready: _,
            is_busy: _,
            left: _,
            last_tick: _,
            has_failed: _,
        } = self;
        shared.stand(worker);
    }
}
