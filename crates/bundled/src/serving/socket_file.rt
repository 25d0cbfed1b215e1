//! The file of a Unix socket at which a server listens.
use mio::net::UnixStream;
use server::FileId;
use std::fs::Files;
use std::io::ErrorKind;
use std::net::Net;
use std::os::unix::fs::FileTypeExt;
use std::os::unix::net::UnixListener;
use std::{fs, io};

/// The file of a socket at which a server listens. When this is dropped the file is removed, unless another file stands at its
/// path by then; until then the socket is open, so that no other server takes it for one that a dead server has left.
pub struct SocketFile<'a, H: Files> {
    files: &'a H,
    path: &'a str,
    /// The file that was made when the socket was bound, if it was still there then.
    id: Option<FileId>,
    open: UnixListener,
}

impl<'a, H: Files + Net> SocketFile<'a, H> {
    /// Listens at the path. If a dead server has left a socket there, that is replaced; any other file is left alone, and is
    /// an error.
    pub fn bind(host: &'a H, path: &'a str) -> io::Result<(UnixListener, SocketFile<'a, H>)> {
        if is_left(host, path) {
            fs::remove_file(host, path)?;
        }
        let listener = UnixListener::bind(host, path)?;
        let open = listener.try_clone()?;
        let file = SocketFile {
            files: host,
            path,
            id: FileId::at(host, path),
            open,
        };
        Ok((listener, file))
    }
}

impl<H: Files> Drop for SocketFile<'_, H> {
    fn drop(self) {
        let SocketFile {
            files,
            path,
            id,
            open,
        } = self;
        if id.is_some() && FileId::at(files, path) == id {
            let _ = fs::remove_file(files, path);
        }
        drop(open);
    }
}

/// Whether a socket is at the path at which nobody listens.
fn is_left<H: Files + Net>(host: &H, path: &str) -> bool {
    match fs::symlink_metadata(host, path) {
        // (what is not a socket refuses to be connected to as well)
        Ok(found) if found.file_type().is_socket() => refuses(host, path),
        _ => false,
    }
}

/// Why the path of a socket is taken.
pub fn why_taken<H: Files + Net>(host: &H, path: &str) -> &'static str {
    match fs::symlink_metadata(host, path) {
        Ok(found) if found.file_type().is_socket() => match UnixStream::connect(host, path) {
            Err(error) if error.kind() == ErrorKind::PermissionDenied => "permission denied",
            _ => "a server listens there",
        },
        _ => "what stands there is not a socket",
    }
}

/// Whether nobody listens at the socket. One with no room for another client is that of a server that is busy.
fn refuses<N: Net>(net: &N, path: &str) -> bool {
    match UnixStream::connect(net, path) {
        Ok(_) => false,
        Err(error) => error.kind() == ErrorKind::ConnectionRefused,
    }
}
