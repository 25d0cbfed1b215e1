//! The stream to a server, which listens at a port or at a Unix socket.
use crate::patience::Patience;
use command_line::Place;
use mio::net::UnixStream as Connecting;
use std::io::{ErrorKind, Read, Write};
use std::net::{Ipv4Addr, Net, OpenStream, SocketAddr};
use std::os::unix::net::UnixStream;
use std::time::{Clock, Duration};
use std::{io, thread};

/// How long a socket is left alone that has no room for another client, in milliseconds.
const PAUSE: u64 = 20;

/// A connection to a server: over a port, by what the host has for that, or over a Unix socket.
#[derive(Drop)]
enum Connection<S> {
    Port(S),
    Socket(UnixStream),
}

impl<S: OpenStream> Connection<S> {
    fn set_read_timeout(&self, left: Duration) -> io::Result<()> {
        match self {
            Connection::Port(stream) => stream.set_read_timeout(Some(left)),
            Connection::Socket(stream) => stream.set_read_timeout(Some(left)),
        }
    }

    fn set_write_timeout(&self, left: Duration) -> io::Result<()> {
        match self {
            Connection::Port(stream) => stream.set_write_timeout(Some(left)),
            Connection::Socket(stream) => stream.set_write_timeout(Some(left)),
        }
    }
}

impl<S: Read> Read for Connection<S> {
    fn read(&mut self, buf: &mut [u8]) -> io::Result<usize> {
        match self {
            Connection::Port(stream) => stream.read(buf),
            Connection::Socket(stream) => stream.read(buf),
        }
    }
}

impl<S: Write> Write for Connection<S> {
    fn write(&mut self, buf: &[u8]) -> io::Result<usize> {
        match self {
            Connection::Port(stream) => stream.write(buf),
            Connection::Socket(stream) => stream.write(buf),
        }
    }

    fn flush(&mut self) -> io::Result<()> {
        match self {
            Connection::Port(stream) => stream.flush(),
            Connection::Socket(stream) => stream.flush(),
        }
    }
}

/// One direction of the stream to a server. A read or a write waits no longer than the patience with the server lasts.
#[derive(Drop)]
pub struct ServerStream<'a, H, S> {
    connection: Connection<S>,
    patience: &'a Patience<'a, H>,
}

/// The stream to read from, and the one to write to.
pub type ServerPair<'a, H, S> = (ServerStream<'a, H, S>, ServerStream<'a, H, S>);

impl<H: Clock, S: Read + OpenStream> Read for ServerStream<'_, H, S> {
    fn read(&mut self, buf: &mut [u8]) -> io::Result<usize> {
        let wait = self.patience.begin_read()?;
        self.connection.set_read_timeout(wait.left)?;
        let result = self.connection.read(buf);
        self.patience.end(wait);
        result
    }
}

impl<H: Clock, S: Write + OpenStream> Write for ServerStream<'_, H, S> {
    fn write(&mut self, buf: &[u8]) -> io::Result<usize> {
        let wait = self.patience.begin_write()?;
        self.connection.set_write_timeout(wait.left)?;
        let result = self.connection.write(buf);
        self.patience.end(wait);
        result
    }

    fn flush(&mut self) -> io::Result<()> {
        self.connection.flush()
    }
}

/// Connects to the server that listens at the place.
pub fn connect<'a, H: Net + Clock>(
    host: &'a H,
    place: Place<'_>,
    patience: &'a Patience<'a, H>,
) -> io::Result<ServerPair<'a, H, H::Stream>> {
    let (from, to) = connections(host, place, patience.limit())?;
    let from = ServerStream {
        connection: from,
        patience,
    };
    let to = ServerStream {
        connection: to,
        patience,
    };
    Ok((from, to))
}

/// A connection to the place, twice.
fn connections<H: Net + Clock>(
    host: &H,
    place: Place<'_>,
    limit: Duration,
) -> io::Result<(Connection<H::Stream>, Connection<H::Stream>)> {
    match place {
        Place::Port(port) => {
            let address = SocketAddr::from((Ipv4Addr::LOCALHOST, port));
            let stream = host.connect_timeout(address, limit)?;
            // A request is written in two calls, and the second would wait for an answer to the first.
            stream.set_nodelay(true)?;
            let other = stream.try_clone()?;
            Ok((Connection::Port(stream), Connection::Port(other)))
        }
        Place::Socket(path) => {
            let stream = connect_socket(host, path, limit)?;
            let other = stream.try_clone()?;
            Ok((Connection::Socket(stream), Connection::Socket(other)))
        }
    }
}

/// Connects to the Unix socket at the path: again and again, while it has no room for another client, and no longer than that.
fn connect_socket<H: Net + Clock>(host: &H, path: &str, limit: Duration) -> io::Result<UnixStream> {
    let begun = host.monotonic()?;
    for _ in 0..u64::MAX {
        match Connecting::connect(host, path) {
            Ok(stream) => {
                let stream = UnixStream::from(stream);
                stream.set_nonblocking(false)?;
                return Ok(stream);
            }
            Err(error) if error.kind() == ErrorKind::WouldBlock => {}
            Err(error) => return Err(error),
        }
        if host.monotonic()?.saturating_sub(begun) >= limit {
            break;
        }
        thread::sleep(host, Duration::from_millis(PAUSE));
    }
    Err(io::Error::from(ErrorKind::TimedOut))
}
