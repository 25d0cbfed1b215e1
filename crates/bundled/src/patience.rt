//! How long a server is waited for.
use std::cell::Cell;
use std::io;
use std::io::ErrorKind;
use std::time::{Clock, Duration};

/// What is the least that is waited, in milliseconds: with less, the time is over.
const LEAST: u64 = 1;

/// How long a server is waited for: to connect, and for each request with its whole reply. Only the time counts in which the
/// server is waited for, and not what is done with its reply meanwhile.
#[derive(Drop)]
pub struct Patience<'a, H> {
    clock: &'a H,
    limit: Duration,
    /// What is left of that for the request that is asked.
    left: Cell<Duration>,
    /// Whether a request is being written: with the first byte behind a reply another one begins.
    is_written: Cell<bool>,
}

/// A call that waits for the server.
#[derive(Clone, Copy)]
pub struct Wait {
    begun: Duration,
    /// How long it may wait.
    pub left: Duration,
}

impl<'a, H: Clock> Patience<'a, H> {
    /// So many seconds for each request.
    pub fn new(clock: &'a H, seconds: u64) -> Patience<'a, H> {
        let limit = Duration::from_secs(seconds);
        Patience {
            clock,
            limit,
            left: Cell::new(limit),
            is_written: Cell::new(false),
        }
    }

    pub fn limit(&self) -> Duration {
        self.limit
    }

    /// A piece of a request is to be written.
    pub fn begin_write(&self) -> io::Result<Wait> {
        if !self.is_written.get() {
            self.is_written.set(true);
            self.left.set(self.limit);
        }
        self.begin()
    }

    /// A piece of a reply is to be read.
    pub fn begin_read(&self) -> io::Result<Wait> {
        self.is_written.set(false);
        self.begin()
    }

    fn begin(&self) -> io::Result<Wait> {
        let left = self.left.get();
        if left < Duration::from_millis(LEAST) {
            return Err(io::Error::from(ErrorKind::TimedOut));
        }
        let begun = self.clock.monotonic()?;
        Ok(Wait { begun, left })
    }

    /// The call is over.
    pub fn end(&self, wait: Wait) {
        if let Ok(now) = self.clock.monotonic() {
            let waited = now.saturating_sub(wait.begun);
            self.left.set(wait.left.saturating_sub(waited));
        }
    }
}
