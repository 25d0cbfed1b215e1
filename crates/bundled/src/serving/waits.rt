//! What the workers of a server that lasts wait with.
ghost use Rattle.std.specs.Prelude.{◌≡◌, IfOk, vec_len};

use commands::Fault;
use mio::unix::SourceFd;
use mio::{Interest, Poll, Waker};
use server::{NOBODY, Ports, WorkerPolls};
use std::alloc::Global;
use std::io;
use std::net::Net;
use wire::FrontError;

/// What waits for clients at the ports, and what ends its waits.
fn watching<N: Net>(net: &N, ports: &Ports) -> io::Result<(Poll, Waker)> {
    let poll = Poll::new(net)?;
    let registry = poll.registry();
    let waker = Waker::new(registry, NOBODY)?;
    let (all, reads) = ports.fds();
    registry.register(&mut SourceFd(&all), NOBODY, Interest::READABLE)?;
    if let Some(reads) = reads {
        registry.register(&mut SourceFd(&reads), NOBODY, Interest::READABLE)?;
    }
    Ok((poll, waker))
}

/// What so many workers wait with, and their seats.
pub fn waits_of<N: Net>(
    net: &N,
    alloc: Global,
    ports: &Ports,
    workers: u64,
) -> Result<WorkerPolls, Fault>
    ensures { IfOk result (λ waits. vec_len waits.all ≡ workers) }
{
    let mut waits = WorkerPolls::new(alloc);
    for _ in 0..workers {
        let Ok((poll, waker)) = watching(net, ports) else {
            return Err(Fault::Listen);
        };
        if waits.push(alloc, poll, waker).is_err() {
            return Err(Fault::Front(FrontError::Memory));
        }
    }
    Ok(waits)
}
