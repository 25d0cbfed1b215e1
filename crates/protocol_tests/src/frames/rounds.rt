//! The replies to all whole frames that came are flushed before the next read.
use super::{SET_GET_AND_FETCH_ALL, ended_of};
use std::cell::Cell;
use std::io;
use std::io::{ErrorKind, Read, Write};
use std::test::Fail;
use test_kit::is_equal_at;
use wire::Counted;

/// How many bytes of replies the writer of a session has taken, and how many of them are flushed.
#[derive(Drop)]
struct Replies {
    written: Cell<usize>,
    flushed: Cell<usize>,
}

/// How many bytes the replies have to a set of 18 bytes, a get of 7 and a fetch-all of 5, those that
/// stand whole among this many bytes.
fn replies_due(given: usize) -> usize {
    match given {
        0..=17 => 0,
        18..=24 => 5,
        25..=29 => 21,
        _ => 52,
    }
}

/// A reader that gives pieces of a size, and fails unless each reply that is due is flushed.
#[derive(Drop)]
struct Waiting<'a> {
    replies: &'a Replies,
    bytes: &'a [u8],
    given: usize,
    size: usize,
}

impl<'a> Read for Waiting<'a> {
    fn read(&mut self, buf: &mut [u8]) -> io::Result<usize> {
        if self.replies.flushed.get() != replies_due(self.given) {
            return Err(io::Error::from(ErrorKind::Other));
        }
        let size = self.size.min(buf.len()).min(self.bytes.len());
        let (given, rest) = self.bytes.split_at(size);
        let (front, _) = buf.split_at_mut(size);
        front.copy_from_slice(given);
        self.bytes = rest;
        self.given = self.given.saturating_add(size);
        Ok(size)
    }
}

/// A writer that counts.
#[derive(Drop)]
struct Counting<'a> {
    replies: &'a Replies,
}

impl<'a> Write for Counting<'a> {
    fn write(&mut self, buf: &[u8]) -> io::Result<usize> {
        let written = self.replies.written.get().saturating_add(buf.len());
        self.replies.written.set(written);
        Ok(buf.len())
    }

    fn flush(&mut self) -> io::Result<()> {
        self.replies.flushed.set(self.replies.written.get());
        Ok(())
    }
}

#[test]
fn replies_are_flushed_before_the_next_read(rt: HostRuntime) -> Result<(), Fail> {
    for size in 1..=30 {
        let replies = Replies {
            written: Cell::new(0),
            flushed: Cell::new(0),
        };
        let mut reader = Counted::new(Waiting {
            replies: &replies,
            bytes: SET_GET_AND_FETCH_ALL,
            given: 0,
            size,
        });
        let mut writer = Counted::new(Counting { replies: &replies });
        let ended = ended_of(rt.alloc(), &mut reader, &mut writer, 100);
        let found = (ended, replies.flushed.get());
        is_equal_at(&found, &(Ok(3), 52), &size)?;
    }
    Ok(())
}
