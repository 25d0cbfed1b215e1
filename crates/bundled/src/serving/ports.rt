//! Where a server listens: ports of this machine, and Unix sockets.
ghost use Rattle.std.specs.Prelude.{◌≡◌, ◌<◌, ◌-◌, ◌^◌, IfErr, OnOk, OnErr};
ghost use Rattle.wire.specs.Counted.{faults_in};
ghost use Rattle.server.specs.Serve.{TellsFault};
ghost use Rattle.wire.specs.Output.{end_of};
ghost use Rattle.commands.specs.declared.fault.Fault.TheVariants.{Listen};

use crate::serving::reasons::NotBound;
use crate::serving::socket_file::SocketFile;
use command_line::{Place, Places};
use commands::Fault;
use server::{Listener, Ports, tell_in_words};
use std::alloc::Global;
use std::fs::Files;
use std::io;
use std::io::Write;
use std::net::{Ipv4Addr, Net, SocketAddr, TcpListener, TcpStream};
use wire::Counted;

/// What listens at one place, and the file of its socket, if it has one.
#[derive(Drop)]
pub struct Bound<'a, H: Files> {
    pub listener: Listener,
    pub file: Option<SocketFile<'a, H>>,
}

/// The ports of a server that lasts, and the files of their sockets.
#[derive(Drop)]
pub struct BoundPorts<'a, H: Files> {
    pub ports: Ports,
    pub files: [Option<SocketFile<'a, H>>; 2],
}

/// Listens at the place: at a port of 127.0.0.1, one that is free if its number is 0, or at a socket.
fn bind<'a, H: Files + Net<Listener = TcpListener, Stream = TcpStream>>(
    host: &'a H,
    place: Place<'a>,
) -> io::Result<Bound<'a, H>> {
    match place {
        Place::Port(port) => Ok(Bound {
            listener: Listener::Port(bind_port(host, port)?),
            file: None,
        }),
        Place::Socket(path) => {
            let (listener, file) = SocketFile::bind(host, path)?;
            Ok(Bound {
                listener: Listener::Socket(listener),
                file: Some(file),
            })
        }
    }
}

/// Listens at the port, where as many clients may wait to be accepted as the system allows. (At `std`'s own 128 may.)
fn bind_port<H: Net>(host: &H, port: u16) -> io::Result<TcpListener> {
    let address = SocketAddr::from((Ipv4Addr::LOCALHOST, port));
    let listener = mio::net::TcpListener::bind(host, address)?;
    let listener = TcpListener::from(listener);
    listener.set_nonblocking(false)?;
    Ok(listener)
}

/// Listens at the place; or tells the place with the error.
fn bind_place<'a, H: Files + Net<Listener = TcpListener, Stream = TcpStream>>(
    host: &'a H,
    place: Place<'a>,
) -> Result<Bound<'a, H>, NotBound<'a>> {
    match bind(host, place) {
        Ok(bound) => Ok(bound),
        Err(error) => Err(NotBound { place, error }),
    }
}

/// Listens at the places.
fn bind_all<'a, H: Files + Net<Listener = TcpListener, Stream = TcpStream>>(
    host: &'a H,
    places: Places<'a>,
) -> Result<BoundPorts<'a, H>, NotBound<'a>> {
    let all = bind_place(host, places.all)?;
    let (reads, file) = match places.reads {
        Some(place) => {
            let bound = bind_place(host, place)?;
            (Some(bound.listener), bound.file)
        }
        None => (None, None),
    };
    match Ports::new(all.listener, reads) {
        Ok(ports) => Ok(BoundPorts {
            ports,
            files: [all.file, file],
        }),
        Err(error) => Err(NotBound {
            place: places.all,
            error,
        }),
    }
}

/// Listens at the place; or it can't be had, which is told, and the answer is the exit status. Of a port the line of the fault
/// says enough: it is the only place that there is.
pub fn listener_or_told<'a, H: Files + Net<Listener = TcpListener, Stream = TcpStream>, E: Write>(
    host: &'a H,
    alloc: Global,
    place: Place<'a>,
    err: &mut Counted<E>,
) -> Result<Bound<'a, H>, u8>
    requires { faults_in err.old < 2 ^ 64 - 1 }
    ensures ok { OnOk result (err.new ≡ err.old) }
    ensures status { IfErr result (λ status. status ≡ 1) }
    ensures tells { OnErr result (TellsFault Listen (end_of E.contents err.old) (end_of E.contents err.new)) }
{
    let why = match bind_place(host, place) {
        Ok(bound) => return Ok(bound),
        Err(why) => why,
    };
    let words = match place {
        Place::Port(_) => None,
        Place::Socket(_) => why.words(alloc, host),
    };
    Err(tell_in_words(alloc, Fault::Listen, words.as_deref(), err))
}

/// Listens at the places; or one of them can't be had, which is told in words as well, and the answer is the exit status.
pub fn ports_or_told<'a, H: Files + Net<Listener = TcpListener, Stream = TcpStream>, E: Write>(
    host: &'a H,
    alloc: Global,
    places: Places<'a>,
    err: &mut Counted<E>,
) -> Result<BoundPorts<'a, H>, u8>
    requires { faults_in err.old < 2 ^ 64 - 1 }
    ensures ok { OnOk result (err.new ≡ err.old) }
    ensures status { IfErr result (λ status. status ≡ 1) }
    ensures tells { OnErr result (TellsFault Listen (end_of E.contents err.old) (end_of E.contents err.new)) }
{
    let why = match bind_all(host, places) {
        Ok(bound) => return Ok(bound),
        Err(why) => why,
    };
    let words = why.words(alloc, host);
    Err(tell_in_words(alloc, Fault::Listen, words.as_deref(), err))
}
