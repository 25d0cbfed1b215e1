//! The two kinds of listeners, and of streams of clients: those of ports and those of Unix sockets.
ghost use Rattle.std.specs.Prelude.{None};

use crate::address::Address;
use std::io;
use std::io::{ErrorKind, Read, Write};
use std::net::{Shutdown, TcpListener, TcpStream};
use std::os::fd::{AsRawFd, RawFd};
use std::os::unix::net::{UnixListener, UnixStream};

/// What clients connect to.
#[derive(Drop)]
pub enum Listener {
    Port(TcpListener),
    Socket(UnixListener),
}

impl Listener {
    /// Where it listens.
    pub fn address(&self) -> io::Result<Address> {
        match self {
            Listener::Port(listener) => Ok(Address::Port(listener.local_addr()?.port())),
            Listener::Socket(listener) => {
                let address = listener.local_addr()?;
                match address.as_pathname() {
                    Some(path) => Address::of_socket(path.as_str()),
                    None => Err(io::Error::from(ErrorKind::InvalidInput)),
                }
            }
        }
    }

    /// The next client. Unless no call waits, it is waited for.
    pub fn accept(&self) -> io::Result<ClientStream> {
        match self {
            Listener::Port(listener) => {
                let (stream, _) = listener.accept()?;
                Ok(ClientStream::Port(stream))
            }
            Listener::Socket(listener) => {
                let (stream, _) = listener.accept()?;
                Ok(ClientStream::Socket(stream))
            }
        }
    }

    /// Whether calls return at once, in place of waiting.
    pub fn set_nonblocking(&self, is_so: bool) -> io::Result<()> {
        match self {
            Listener::Port(listener) => listener.set_nonblocking(is_so),
            Listener::Socket(listener) => listener.set_nonblocking(is_so),
        }
    }

    /// What the system knows it by.
    pub fn fd(&self) -> RawFd {
        match self {
            Listener::Port(listener) => listener.as_raw_fd(),
            Listener::Socket(listener) => listener.as_raw_fd(),
        }
    }
}

/// The stream of a client, to read from and to write to.
#[derive(Drop)]
pub enum ClientStream {
    Port(TcpStream),
    Socket(UnixStream),
}

impl ClientStream {
    /// Whether a write goes out at once, in place of waiting for an answer to the one before. At a Unix socket each does.
    pub fn set_nodelay(&self, is_so: bool) -> io::Result<()> {
        match self {
            ClientStream::Port(stream) => stream.set_nodelay(is_so),
            ClientStream::Socket(_) => Ok(()),
        }
    }

    /// Whether calls return at once, in place of waiting.
    pub fn set_nonblocking(&self, is_so: bool) -> io::Result<()> {
        match self {
            ClientStream::Port(stream) => stream.set_nonblocking(is_so),
            ClientStream::Socket(stream) => stream.set_nonblocking(is_so),
        }
    }

    /// Tells the client that no more comes.
    pub fn end_writes(&self) -> io::Result<()> {
        match self {
            ClientStream::Port(stream) => stream.shutdown(Shutdown::Write),
            ClientStream::Socket(stream) => stream.shutdown(Shutdown::Write),
        }
    }

    /// The port of its client, if it has one and the system knows it.
    pub fn peer_port(&self) -> Option<u16> {
        match self {
            ClientStream::Port(stream) => stream.peer_addr().ok().map(|address| address.port()),
            ClientStream::Socket(_) => None,
        }
    }

    /// The same stream once more.
    pub fn try_clone(&self) -> io::Result<ClientStream> {
        match self {
            ClientStream::Port(stream) => Ok(ClientStream::Port(stream.try_clone()?)),
            ClientStream::Socket(stream) => Ok(ClientStream::Socket(stream.try_clone()?)),
        }
    }

    /// What the system knows it by.
    pub fn fd(&self) -> RawFd {
        match self {
            ClientStream::Port(stream) => stream.as_raw_fd(),
            ClientStream::Socket(stream) => stream.as_raw_fd(),
        }
    }
}

impl Read for ClientStream {
    fn read(&mut self, buf: &mut [u8]) -> io::Result<usize> {
        match self {
            ClientStream::Port(stream) => stream.read(buf),
            ClientStream::Socket(stream) => stream.read(buf),
        }
    }
}

impl Write for ClientStream {
    fn write(&mut self, buf: &[u8]) -> io::Result<usize> {
        match self {
            ClientStream::Port(stream) => stream.write(buf),
            ClientStream::Socket(stream) => stream.write(buf),
        }
    }

    fn flush(&mut self) -> io::Result<()> {
        match self {
            ClientStream::Port(stream) => stream.flush(),
            ClientStream::Socket(stream) => stream.flush(),
        }
    }
}
