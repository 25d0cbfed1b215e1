//! Sessions that come to a worker, one after the other.
ghost use Rattle.std.specs.Prelude.{◌≡◌, ◌≤◌, IfOk};
ghost use Rattle.workers.specs.Sessions.{Runs, ServedAll, session_end};

use crate::ended::SessionFault;
use crate::log::Client;
use crate::seating::Seating;
use crate::session::Session;
use frame_front::serve;
use map_core::Ask;
use std::alloc::{AllocError, Global};
use std::io::{Read, Write};
use std::vec::IntoIter;
use thiserror::Error;
use wire::{Counted, FrontError};

/// No session came: the listener failed.
#[derive(Clone, Copy, Debug, PartialEq, Eq, Error)]
#[error("no session came, since the listener failed")]
pub struct ListenFault;

/// The source of a worker's sessions: a list in memory, or a listener.
pub trait Sessions {
    ghost use Rattle.std.specs.Prelude.{ℕ, ◌<◌, ◌≤◌, Option, Result, IfOk, IfSome};
    ghost use Rattle.wire.specs.declared.counted.Counted.{Counted};
    ghost use Rattle.workers.specs.declared.session.Session.{Session};
    ghost use Rattle.workers.specs.declared.sessions.ListenFault.{ListenFault};

    type Reader: Read + Drop + Send;

    type Writer: Write + Drop + Send;

    // At most so many sessions are left.
    ghost left: { Self → ℕ };

    // What may come, and what comes after it.
    ghost comes: { Self → Result (Option (Session Self.Reader Self.Writer)) ListenFault → Self → Type 0 };

    // What becomes of it when it has taken the reader and the writer of a session back.
    ghost takes_back: { Self → Counted Self.Reader → Counted Self.Writer → Self → Type 0 };

    /// Waits for the next session; none if all have come.
    fn next(&mut self) -> Result<Option<Session<Self::Reader, Self::Writer>>, ListenFault>
        ensures fewer { IfOk result (λ next. IfSome next (λ _. left self.new < left self.old)) }
        ensures comes { comes self.old result self.new };

    /// Takes the reader and the writer of a session back, once it is over. They know how many calls of them failed, and how
    /// often the session read.
    fn take_back(&mut self, reader: Counted<Self::Reader>, writer: Counted<Self::Writer>)
        ensures no_more { left self.new ≤ left self.old }
        ensures taken { takes_back self.old reader writer self.new };
}

/// A list in memory: all its sessions come, in their order, and then no more. What is taken back is dropped.
impl<R: Read + Drop + Send, W: Write + Drop + Send> Sessions for IntoIter<Session<R, W>> {
    type Reader = R;

    type Writer = W;

    ghost use Rattle.std.specs.Prelude.{◌≡◌, ◌≤◌};
    ghost use Rattle.std.specs.Vec.Iter.{into_iter_len};
    ghost use Rattle.workers.specs.Sessions.{ListComes};

    ghost left = { λ list. into_iter_len list };

    ghost comes = { ListComes };

    ghost takes_back = { λ old _ _ new. new ≡ old };

    fn next(&mut self) -> Result<Option<Session<R, W>>, ListenFault> {
        Ok(Iterator::next(self))
    }

    fn take_back(&mut self, _reader: Counted<R>, _writer: Counted<W>)
        ensures no_more { into_iter_len self.new ≤ into_iter_len self.old }
        ensures taken { self.new ≡ self.old }
    {}
}

/// Serves one session to its end, and gives its reader and its writer back to the source that it came from.
fn serve_session<S: Sessions, A: Ask>(
    alloc: Global,
    sessions: &mut S,
    session: Session<S::Reader, S::Writer>,
    ask: &mut A,
) -> Result<u64, FrontError>
    ensures no_more { S.left sessions.new ≤ S.left sessions.old }
    ensures runs { Runs A.answers S.Reader.remaining S.Writer.contents S.takes_back session result (sessions.old, ask.old) (sessions.new, ask.new) }
{
    let Session {
        reader,
        writer,
        turns,
        peer: _,
    } = session;
    let mut reader = Counted::new(reader);
    let mut writer = Counted::new(writer);
    let ended = serve(alloc, &mut reader, &mut writer, ask, turns);
    sessions.take_back(reader, writer);
    ended
}

/// How a session ended, among the ends of a worker's sessions.
fn end_of(ended: Result<u64, FrontError>) -> Result<u64, SessionFault>
    ensures { result ≡ session_end ended }
{
    match ended {
        Ok(count) => Ok(count),
        Err(error) => Err(SessionFault::Front(error)),
    }
}

/// Serves the sessions that come to a worker, one after the other, until no more come or the listener fails. The answer is
/// how each ended, in their order; the place where the worker sits is told of each at once. Errors only if memory for that
/// runs out, and then sessions may have been served.
pub(crate) fn serve_sessions<S: Sessions, A: Ask, P: Seating>(
    alloc: Global,
    sessions: &mut S,
    ask: &mut A,
    place: &P,
    worker: u64,
) -> Result<Vec<Result<u64, SessionFault>>, AllocError>
    ensures { IfOk result (λ results. ServedAll A.answers S.Reader.remaining S.Writer.contents S.takes_back S.comes results.items (sessions.old, ask.old) (sessions.new, ask.new)) }
{
    let mut results = Vec::new(alloc);
    loop {
        match sessions.next() {
            Ok(Some(session)) => {
                let client = Client {
                    number: place.began(worker),
                    peer: session.peer,
                };
                place.serves(worker, client);
                let end = end_of(serve_session(alloc, sessions, session, ask));
                place.ended(worker, &end, Some(client));
                results.push(end)?;
            }
            Ok(None) => return Ok(results),
            Err(ListenFault) => {
                let none_came = Err(SessionFault::Listen);
                place.ended(worker, &none_came, None);
                results.push(none_came)?;
                return Ok(results);
            }
        }
    }
}
