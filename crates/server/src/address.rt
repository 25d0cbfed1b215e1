//! Where a server listens, as it tells that.
ghost use Rattle.std.specs.Prelude.{IfOk};
ghost use Rattle.server.specs.Address.{IsSocket};

use arrayvec::ArrayString;
use std::io;
use std::io::ErrorKind;

/// The most bytes of the path of a Unix socket.
const MOST_PATH: usize = 107;

/// The place where a server listens.
#[derive(Clone, Copy)]
pub enum Address {
    /// A port of 127.0.0.1.
    Port(u16),
    /// A Unix socket, by its path.
    Socket(ArrayString<MOST_PATH>),
}

impl Address {
    /// That of the Unix socket at the path. A path of more than 107 bytes is refused, as the system refuses it.
    pub fn of_socket(path: &str) -> io::Result<Address>
        ensures { IfOk result (IsSocket path.now) }
    {
        match ArrayString::from(path) {
            Ok(path) => Ok(Address::Socket(path)),
            Err(_) => Err(io::Error::from(ErrorKind::InvalidInput)),
        }
    }
}
