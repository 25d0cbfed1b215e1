//! What a command is given in a test, and what it leaves.
use std::alloc::Global;
use std::io;
use std::io::{ErrorKind, Read, Write};
use std::test::Fail;

/// A reader that gives some bytes, fails at one read if that is wanted, and gives others.
#[derive(Drop)]
pub struct Source<'a> {
    bytes: &'a [u8],
    fault: Option<ErrorKind>,
    others: &'a [u8],
    /// How many letters each read gives after all of them, without end.
    letters: usize,
}

impl<'a> Source<'a> {
    pub fn new(bytes: &'a [u8]) -> Source<'a> {
        Source {
            bytes,
            fault: None,
            others: &[],
            letters: 0,
        }
    }

    /// A read ends after so many bytes, and others give the rest.
    pub fn in_two(bytes: &'a [u8], size: usize) -> Source<'a> {
        let (first, others) = bytes.split_at(size.min(bytes.len()));
        Source {
            bytes: first,
            fault: None,
            others,
            letters: 0,
        }
    }

    /// The read after so many bytes fails.
    pub fn broken(bytes: &'a [u8], size: usize) -> Source<'a> {
        let (first, _) = bytes.split_at(size.min(bytes.len()));
        Source {
            bytes: first,
            fault: Some(ErrorKind::Other),
            others: &[],
            letters: 0,
        }
    }

    /// The first read is interrupted, and those after it give the bytes.
    pub fn interrupted(bytes: &'a [u8]) -> Source<'a> {
        Source {
            bytes: &[],
            fault: Some(ErrorKind::Interrupted),
            others: bytes,
            letters: 0,
        }
    }

    /// Each read gives so many letters, and none is the last.
    pub fn endless(letters: usize) -> Source<'a> {
        Source {
            bytes: &[],
            fault: None,
            others: &[],
            letters,
        }
    }
}

impl<'a> Read for Source<'a> {
    fn read(&mut self, buf: &mut [u8]) -> io::Result<usize> {
        if self.letters > 0 {
            let size = self.letters.min(buf.len());
            let (front, _) = buf.split_at_mut(size);
            front.fill(b'a');
            return Ok(size);
        }
        if self.bytes.is_empty() {
            if let Some(kind) = self.fault {
                self.fault = None;
                return Err(io::Error::from(kind));
            }
            self.bytes = self.others;
            self.others = &[];
        }
        let size = self.bytes.len().min(buf.len());
        let (given, left) = self.bytes.split_at(size);
        let (front, _) = buf.split_at_mut(size);
        front.copy_from_slice(given);
        self.bytes = left;
        Ok(size)
    }
}

/// A writer that keeps what it takes. Once it has taken `room` bytes a write fails.
#[derive(Drop)]
pub struct Sink {
    taken: Vec<u8>,
    room: usize,
    fault: ErrorKind,
    /// How many more bytes it takes after that write.
    rest: usize,
}

impl Sink {
    pub fn new(alloc: Global) -> Sink {
        Sink::with_room(alloc, usize::MAX)
    }

    /// Each write after so many bytes fails.
    pub fn with_room(alloc: Global, room: usize) -> Sink {
        Sink {
            taken: Vec::new(alloc),
            room,
            fault: ErrorKind::Other,
            rest: 0,
        }
    }

    /// The first write is interrupted, and those after it are taken.
    pub fn interrupted(alloc: Global) -> Sink {
        Sink {
            taken: Vec::new(alloc),
            room: 0,
            fault: ErrorKind::Interrupted,
            rest: usize::MAX,
        }
    }

    /// What it took.
    pub fn into_taken(self) -> Vec<u8> {
        self.taken
    }
}

impl Write for Sink {
    fn write(&mut self, buf: &[u8]) -> io::Result<usize> {
        let count = buf.len().min(self.room);
        if count == 0 && !buf.is_empty() {
            self.room = self.rest;
            return Err(io::Error::from(self.fault));
        }
        let (front, _) = buf.split_at(count);
        self.taken.extend_from_slice(front)?;
        self.room -= count;
        Ok(count)
    }

    fn flush(&mut self) -> io::Result<()> {
        Ok(())
    }
}

/// What a command leaves: its output, its fault line and its status.
#[derive(Drop)]
pub struct Left {
    pub output: Vec<u8>,
    pub faults: Vec<u8>,
    pub status: u8,
}

impl Left {
    /// Fails unless the command left this of its input.
    pub fn is(&self, input: &[u8], output: &[u8], faults: &str, status: u8) -> Result<(), Fail> {
        let is_so = self.output.as_slice() == output
            && self.faults.as_slice() == faults.as_bytes()
            && self.status == status;
        if is_so {
            return Ok(());
        }
        Err(Fail::new(format_args!(
            "{}: {}, {} and {}, and not {}, {faults} and {status}",
            input.escape_ascii(),
            self.output.as_slice().escape_ascii(),
            self.faults.as_slice().escape_ascii(),
            self.status,
            output.escape_ascii(),
        )))
    }
}
