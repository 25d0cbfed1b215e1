//! Standard error as an end that never waits.
ghost use Rattle.std.specs.Prelude.{◌≤◌, length, IfOk};

use mio::unix::SourceFd;
use mio::{Events, Interest, Poll, Token};
use std::alloc::{AllocError, Global};
use std::io::{ErrorKind, Write};
use std::net::Net;
use std::os::fd::RawFd;
use std::sync::{Mutex, MutexGuard};
use std::time::{Clock, Duration};
use std::{io, thread};

/// The descriptor of standard error.
const STANDARD_ERROR: RawFd = 2;

const NOTES: Token = Token(0);

/// How often a writer looks if it may write, and how long it sleeps between two looks. Whoever writes does so without
/// waiting, so that this is enough even if it was put aside in between.
const LOOKS: u64 = 1000;

const PAUSE_MICROS: u64 = 100;

/// What asks the system if standard error has room.
#[derive(Drop)]
pub struct Asking {
    poll: Poll,
    events: Events,
}

impl Asking {
    /// Whether a write doesn't wait: there is room, or whoever read has gone. The system tells it once for each time that it
    /// is asked anew. A pipe with room takes 4,096 bytes at once, which is more than a line has.
    fn has_room(&mut self) -> bool {
        let fd = STANDARD_ERROR;
        let asked = self
            .poll
            .registry()
            .reregister(&mut SourceFd(&fd), NOTES, Interest::WRITABLE);
        if asked.is_err() {
            return false;
        }
        let _ = self.poll.poll(&mut self.events, Some(Duration::ZERO));
        !self.events.is_empty()
    }
}

/// How it is known that standard error takes a line without waiting.
#[derive(Drop)]
pub enum NotesRoom {
    /// It never waits, as a regular file.
    Always,
    /// The system is asked before each line. One worker asks and writes at a time, so that no other takes the room in between.
    Asked(Mutex<Asking>),
    /// The system can't be asked.
    Unknown,
}

impl NotesRoom {
    /// What the system says of standard error.
    pub fn new<H: Net>(net: &H, alloc: Global) -> NotesRoom {
        let Ok(poll) = Poll::new(net) else {
            return NotesRoom::Unknown;
        };
        let Ok(events) = Events::with_capacity(alloc, 1) else {
            return NotesRoom::Unknown;
        };
        let fd = STANDARD_ERROR;
        let added = poll
            .registry()
            .register(&mut SourceFd(&fd), NOTES, Interest::WRITABLE);
        match added {
            Ok(()) => NotesRoom::Asked(Mutex::new(Asking { poll, events })),
            // (so the system answers for what is always ready)
            Err(error) if error.kind() == ErrorKind::PermissionDenied => NotesRoom::Always,
            Err(_) => NotesRoom::Unknown,
        }
    }
}

/// Standard error, to which workers write lines. A line for which there is no room is not taken, so that nobody waits for
/// who reads.
pub struct Notes<'r, C, N> {
    clock: &'r C,
    room: &'r NotesRoom,
    end: N,
}

impl<'r, C, N> Notes<'r, C, N> {
    pub fn new(clock: &'r C, room: &'r NotesRoom, end: N) -> Notes<'r, C, N> {
        Notes { clock, room, end }
    }
}

impl<'r, C, N: Copy> Copy for Notes<'r, C, N> {}

impl<'r, C, N: Copy> Clone for Notes<'r, C, N> {
    ghost use Rattle.std.specs.Prelude.{◌≡◌, ⊤};

    ghost is_clone = { λ x y. y.end ≡ x.end };

    ghost is_infallible = { λ _. ⊤ };

    fn clone(&self) -> Result<Self, AllocError> {
        Ok(Notes {
            clock: self.clock,
            room: self.room,
            end: self.end,
        })
    }
}

/// The turn to ask and write, unless others have it for too long.
fn turn_of<'m, C: Clock>(clock: &C, asking: &'m Mutex<Asking>) -> Option<MutexGuard<'m, Asking>> {
    for _ in 0..LOOKS {
        if let Some(turn) = asking.try_lock() {
            return Some(turn);
        }
        thread::sleep(clock, Duration::from_micros(PAUSE_MICROS));
    }
    None
}

impl<C: Clock, N: Write> Notes<'_, C, N> {
    /// Writes the line, if it is this one's turn and there is room.
    fn write_in_turn(&mut self, asking: &Mutex<Asking>, line: &[u8]) -> io::Result<usize>
        ensures { IfOk result (λ count. count ≤ length line.now) }
    {
        let Some(mut turn) = turn_of(self.clock, asking) else {
            return Err(ErrorKind::WouldBlock.into());
        };
        if !turn.has_room() {
            return Err(ErrorKind::WouldBlock.into());
        }
        self.end.write(line)
    }
}

impl<C: Clock, N: Write> Write for Notes<'_, C, N> {
    fn write(&mut self, buf: &[u8]) -> io::Result<usize> {
        let room = self.room;
        match room {
            NotesRoom::Always => self.end.write(buf),
            NotesRoom::Asked(asking) => self.write_in_turn(asking, buf),
            NotesRoom::Unknown => Err(ErrorKind::WouldBlock.into()),
        }
    }

    fn flush(&mut self) -> io::Result<()> {
        self.end.flush()
    }
}
