//! The stream of a client.
ghost use Rattle.std.specs.Prelude.{None};

use crate::serving::shared::Shared;
use crate::serving::sockets::ClientStream;
use std::io;
use std::io::{Read, Write};
use std::os::fd::RawFd;

/// How many reads there are of what a client sends that is not answered any more.
const LAST_READS: usize = 16;

/// Closes the stream of a client, whose calls do not wait.
///
/// If a connection is closed while bytes of it are unread, the system resets it, and the client may lose the last replies. So
/// the client is told that no more replies come, and what has come from it is read.
pub fn close(mut stream: ClientStream) {
    let _ = stream.end_writes();
    let mut unread = [0; 4096];
    for _ in 0..LAST_READS {
        if !matches!(stream.read(&mut unread), Ok(1..)) {
            return;
        }
    }
}

/// The stream of a client, whose reads and writes return at once. When it is dropped, it is closed, and there is room for
/// another client.
pub struct Stream<'a> {
    inner: ClientStream,
    shared: &'a Shared,
    /// The port of its client, if the system knows it.
    peer: Option<u16>,
}

impl<'a> Stream<'a> {
    /// The stream of a client that is counted already.
    pub fn new(inner: ClientStream, shared: &'a Shared) -> io::Result<Stream<'a>> {
        let peer = inner.peer_port();
        let stream = Stream {
            inner,
            shared,
            peer,
        };
        // Replies are gathered into few writes already; none of them is to wait for an answer to the one before.
        let _ = stream.inner.set_nodelay(true);
        stream.inner.set_nonblocking(true)?;
        Ok(stream)
    }

    /// What the system knows it by.
    pub fn fd(&self) -> RawFd {
        self.inner.fd()
    }
}

impl workers::Stream for Stream<'_> {
    ghost use Rattle.std.specs.Prelude.{None, true};

    ghost left = { λ _. None };

    ghost held = { λ _. None };

    ghost may = { λ _. record { read_waits = true; leaves_room = true; read_fails = true; write_waits = true; write_fails = true } };

    fn read(&mut self, buf: &mut [u8]) -> io::Result<usize> {
        self.inner.read(buf)
    }

    fn write(&mut self, buf: &[u8]) -> io::Result<usize> {
        self.inner.write(buf)
    }

    fn peer(&self) -> Option<u16> {
        self.peer
    }
}

impl Drop for Stream<'_> {
    fn drop(self) {
        let Stream {
            inner,
            shared,
            peer: _,
        } = self;
        close(inner);
        shared.leave();
    }
}
