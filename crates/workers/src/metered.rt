//! Streams whose bytes are told.
ghost use Rattle.std.specs.Prelude.{◌≡◌};

use crate::log::Log;
use crate::stream::Stream;
use crate::worker::Worker;
use std::io;

/// A stream, of whose bytes the log of its worker is told when they have gone. It reads and writes as the stream does.
#[derive(Drop)]
pub(crate) struct Metered<'l, E: Stream + Drop, L> {
    end: E,
    log: &'l L,
    worker: u64,
}

impl<'l, E: Stream + Drop, L> Metered<'l, E, L> {
    /// A stream of a client of the worker.
    pub(crate) fn new(end: E, worker: &Worker<'l, L>) -> Metered<'l, E, L>
        ensures { result.end ≡ end }
    {
        Metered {
            end,
            log: worker.log,
            worker: worker.number,
        }
    }
}

impl<E: Stream + Drop, L: Log> Stream for Metered<'_, E, L> {
    ghost left = { λ metered. E.left metered.end };

    ghost held = { λ metered. E.held metered.end };

    ghost may = { λ metered. E.may metered.end };

    fn read(&mut self, buf: &mut [u8]) -> io::Result<usize> {
        let read = self.end.read(buf);
        if let Ok(bytes) = &read {
            self.log.read(self.worker, *bytes);
        }
        read
    }

    fn write(&mut self, buf: &[u8]) -> io::Result<usize> {
        let written = self.end.write(buf);
        if let Ok(bytes) = &written {
            self.log.written(self.worker, *bytes);
        }
        written
    }

    fn peer(&self) -> Option<u16> {
        self.end.peer()
    }
}
