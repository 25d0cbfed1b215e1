//! What a worker waits with.
use mio::unix::SourceFd;
use mio::{Events, Interest, Poll, Token};
use std::alloc::{AllocError, Global};
use std::io;
use std::os::fd::RawFd;
use std::time::Duration;

/// The most events of one wait.
const MOST_EVENTS: usize = 256;

/// The place of nobody: what the system tells of it is that a client may be waiting, or that the worker was woken.
pub const NOBODY: Token = Token(usize::MAX);

/// What the system tells a worker.
#[derive(Clone, Copy)]
pub enum PollEvent {
    /// A client may be waiting at a port.
    Port,
    /// The stream at the place is ready. Its client has closed its side, or it has failed, if it `is_closing`.
    Client { place: usize, is_closing: bool },
}

/// What a worker waits with: for its ports, and for its clients.
#[derive(Drop)]
pub struct WorkerPoll {
    poll: Poll,
    events: Events,
    /// Whether an event of a port is among them that was not told.
    has_port: bool,
    /// How many of the others have been told or passed by.
    told: usize,
}

impl WorkerPoll {
    /// Waits with the poll, which waits for clients at the ports already.
    pub fn new(alloc: Global, poll: Poll) -> Result<WorkerPoll, AllocError> {
        let events = Events::with_capacity(alloc, MOST_EVENTS)?;
        Ok(WorkerPoll {
            poll,
            events,
            has_port: false,
            told: 0,
        })
    }

    /// Waits for the client at the place, too: until it is closed, whenever more has come, or more can be written.
    pub fn add(&self, place: usize, fd: RawFd) -> io::Result<()> {
        let both = Interest::READABLE | Interest::WRITABLE;
        let registry = self.poll.registry();
        registry.register(&mut SourceFd(&fd), Token(place), both)
    }

    /// Waits until something is ready, but no longer than that. It is told from then on.
    pub fn wait(&mut self, most: Duration) {
        self.told = 0;
        // (if a signal has ended the wait, nothing is ready)
        let _ = self.poll.poll(&mut self.events, Some(most));
        self.has_port = self.events.iter().any(|event| event.token() == NOBODY);
    }

    /// What is ready, and was not told yet. A port comes first, so that no client at it waits for the turns of others.
    pub fn next(&mut self) -> Option<PollEvent> {
        if self.has_port {
            self.has_port = false;
            return Some(PollEvent::Port);
        }
        let count = self.events.iter().as_slice().len();
        for at in self.told..count {
            let event = self.events.iter().as_slice().get(at)?;
            self.told = at.saturating_add(1);
            let token = event.token();
            if token != NOBODY {
                return Some(PollEvent::Client {
                    place: usize::from(token),
                    is_closing: event.is_read_closed() || event.is_error(),
                });
            }
        }
        None
    }
}
