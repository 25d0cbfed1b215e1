//! What is told of the workers while they serve.
ghost use Rattle.std.specs.Prelude.{⊤, false};

use crate::ended::SessionFault;
use map_core::{Expect, MapRefusal};
use shard_store::Tally;
use spiffe_doc::Memory;
use std::alloc::Global;

/// How a bundle was changed.
#[derive(Clone, Copy, PartialEq, Eq)]
pub enum How {
    Set,
    Appended,
    Removed,
}

/// A change that a worker made.
#[derive(Clone, Copy)]
pub struct Changed<'a> {
    pub how: How,
    pub domain: &'a str,
    /// What stood there when the worker looked, just before its change; none if the store did not say.
    pub before: Option<Expect>,
    /// What stands there by the change.
    pub after: Expect,
}

/// Why a request for a change was refused: by the map, or since its port is for reads only (56).
#[derive(Clone, Copy, Debug, PartialEq, Eq)]
pub enum ChangeRefusal {
    Map(MapRefusal),
    ReadOnly,
}

/// A request for a change that was refused: its sequence was lower than the one that stands there (31), what stands there was
/// not what it expected (36), or it came to a port for reads only (56).
#[derive(Clone, Copy)]
pub struct RefusedChange<'a> {
    pub domain: &'a str,
    pub refusal: ChangeRefusal,
}

/// The client of a session, as a log knows it: by a number that no other client has, and by its port, if it has one.
#[derive(Clone, Copy, Debug, PartialEq, Eq)]
pub struct Client {
    pub number: u64,
    pub peer: Option<u16>,
}

/// What takes note of changes and of the ends of sessions. A log that can be copied may be told by many workers: each tells
/// a copy of its own, and all copies may take note in one place.
pub trait Log: Drop {
    ghost use Rattle.std.specs.Prelude.{◌≡◌, ℕ, Bool};
    ghost use Rattle.workers.specs.Log.{ChangeView, change_view};

    // Whether changes are to be told.
    ghost wants: { Self → Bool };

    // What it is told by the worker of this number, and what becomes of it.
    ghost tells: { Self → ℕ → ChangeView → Self → Type 0 };

    /// Whether changes are to be told. If not, nothing is asked of the store for their sake.
    fn is_on(&self) -> bool
        ensures { result ≡ wants self.now };

    /// The worker made this change.
    fn changed(&mut self, worker: u64, change: &Changed<'_>)
        ensures { tells self.old worker (change_view change.now) self.new };

    /// A session of the worker has begun. The answer is the number of its client; a log that numbers none answers 0.
    fn began(&self, _worker: u64) -> u64 {
        0
    }

    /// The worker turns to this client: what it changes and is refused from now on is of it.
    fn serves(&self, _worker: u64, _client: Client) {}

    /// A session of the worker with this client ended so; or none came.
    fn ended(&self, worker: u64, end: &Result<u64, SessionFault>, client: Option<Client>);

    /// The worker was asked for a change that was refused so.
    fn refused(&self, _worker: u64, _refused: &RefusedChange<'_>) {}

    /// Sessions of the worker at a port for reads only have turned so many changes more away (56), by their letter: nobody has read
    /// of which names.
    fn turned_away(&self, _worker: u64, _count: u64) {}

    /// A session of the worker has read so many bytes more. (Workers that wait in each client do not tell it.)
    fn read(&self, _worker: u64, _bytes: usize) {}

    /// And it has written so many more.
    fn written(&self, _worker: u64, _bytes: usize) {}

    /// The worker answered a request of this letter, its first byte, by a reply of this code, its first byte.
    fn answered(&self, _worker: u64, _letter: u8, _code: u8) {}

    /// The worker asked the store again so many times, since others were in the way (41 and 42).
    fn asked_again(&self, _worker: u64, _times: u64) {}

    /// The changes of the worker's pass have brought and taken so much by now.
    fn tallied(&self, _worker: u64, _tally: Tally) {}

    /// What is counted, as words `name=value` with single spaces between. A log that counts nothing has none.
    fn counts(&self, alloc: Global) -> Result<Vec<u8>, Memory> {
        Ok(Vec::new(alloc))
    }
}

/// A log that takes note of nothing.
#[derive(Clone, Copy)]
pub struct Quiet;

impl Log for Quiet {
    ghost wants = { λ _. false };

    ghost tells = { λ _ worker change _. ⊤ };

    fn is_on(&self) -> bool {
        false
    }

    fn changed(&mut self, _worker: u64, _change: &Changed<'_>) {}

    fn ended(&self, _worker: u64, _end: &Result<u64, SessionFault>, _client: Option<Client>) {}
}
