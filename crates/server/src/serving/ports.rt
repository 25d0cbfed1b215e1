//! Where a server that lasts listens.
use crate::address::Address;
use crate::serving::sockets::{ClientStream, Listener};
use std::io;
use std::io::ErrorKind;
use std::os::fd::RawFd;

/// A port, or a Unix socket, that clients come to.
#[derive(Drop)]
struct Port {
    listener: Listener,
    address: Address,
}

impl Port {
    /// The port of the listener. No call waits from then on.
    fn new(listener: Listener) -> io::Result<Port> {
        listener.set_nonblocking(true)?;
        let address = listener.address()?;
        Ok(Port { listener, address })
    }

    /// The next client that waits, if there is one.
    fn accept(&self) -> io::Result<Option<ClientStream>> {
        match self.listener.accept() {
            Ok(stream) => Ok(Some(stream)),
            Err(error) if error.kind() == ErrorKind::WouldBlock => Ok(None),
            Err(error) => Err(error),
        }
    }
}

/// The ports of a server: one where all is asked, and maybe one for reads only.
#[derive(Drop)]
pub struct Ports {
    all: Port,
    reads: Option<Port>,
}

impl Ports {
    /// The ports of these listeners.
    pub fn new(all: Listener, reads: Option<Listener>) -> io::Result<Ports> {
        let all = Port::new(all)?;
        let reads = match reads {
            Some(listener) => Some(Port::new(listener)?),
            None => None,
        };
        Ok(Ports { all, reads })
    }

    /// Where they are.
    pub fn addresses(&self) -> (&Address, Option<&Address>) {
        match &self.reads {
            Some(reads) => (&self.all.address, Some(&reads.address)),
            None => (&self.all.address, None),
        }
    }

    /// What the system knows them by.
    pub fn fds(&self) -> (RawFd, Option<RawFd>) {
        match &self.reads {
            Some(reads) => (self.all.listener.fd(), Some(reads.listener.fd())),
            None => (self.all.listener.fd(), None),
        }
    }

    /// The next client that waits, if there is one, and whether it may only read.
    pub fn accept(&self) -> io::Result<Option<(ClientStream, bool)>> {
        if let Some(stream) = self.all.accept()? {
            return Ok(Some((stream, false)));
        }
        let Some(reads) = &self.reads else {
            return Ok(None);
        };
        match reads.accept()? {
            Some(stream) => Ok(Some((stream, true))),
            None => Ok(None),
        }
    }
}
