//! What workers give back.
ghost use Rattle.std.specs.Prelude.{◌≡◌, ◌∷◌, ◌++◌, ◌+◌, [], min, take, Err, IfOk, OnOk, OnErr};
ghost use Rattle.workers.specs.Ended.{kept_of, most_faults, Notes};

use shard_store::Pass;
use std::alloc::{AllocError, Global};
use std::marker::Model;
use thiserror::Error;
use wire::FrontError;

/// How many faults of a worker's sessions are kept.
const MOST_FAULTS: usize = 1000;

/// Why a session did not come to the end of its input.
#[derive(Clone, Copy, Debug, PartialEq, Eq, Error)]
pub enum SessionFault {
    /// The session ended with this error.
    #[error(transparent)]
    Front(FrontError),
    /// No session came: the listener failed.
    #[error("no session came, since the listener failed")]
    Listen,
}

impl SessionFault {
    ghost use Rattle.std.specs.Prelude.{◌≡◌};
    ghost use Rattle.workers.specs.Ended.{session_number};

    /// The number under which the fault is shown.
    pub fn number(&self) -> u8
        ensures { result ≡ session_number self.now }
    {
        match self {
            SessionFault::Front(error) => error.number(),
            SessionFault::Listen => 57,
        }
    }
}

/// How the sessions of a worker ended: how many were begun, whether one came each time that the worker waited for one, and
/// the first 1,000 faults. So it takes no more memory for a million sessions than for a thousand.
#[derive(Drop)]
pub struct SessionEnds {
    /// How many were begun. It stays at 2^64 - 1 once there.
    begun: u64,
    /// Whether none came once, when the worker waited for one.
    has_missed: bool,
    faults: Vec<SessionFault>,
}

impl Model for SessionEnds {
    ghost use Rattle.std.specs.Prelude.{◌≤◌, length, not};
    ghost use Rattle.workers.specs.Ended.{EndsView, most_faults};

    ghost Value = { EndsView };

    ghost view = { λ e. record { begun = e.begun; came = not e.has_missed; faults = e.faults.items } };

    ghost invariant = { λ e. length e.faults.items ≤ most_faults };
}

impl SessionEnds {
    /// No session has ended yet.
    pub fn new(alloc: Global) -> SessionEnds
        ensures { result ≡ kept_of [] }
    {
        SessionEnds {
            begun: 0,
            has_missed: false,
            faults: Vec::new(alloc),
        }
    }

    /// What is kept of these ends. Errors only if memory runs out.
    pub fn of(alloc: Global, ends: &[Result<u64, SessionFault>]) -> Result<SessionEnds, AllocError>
        ensures { IfOk result (λ kept. kept ≡ kept_of ends.now) }
    {
        let mut kept = SessionEnds::new(alloc);
        for end in ends {
            kept.note(end)?;
        }
        Ok(kept)
    }

    /// Notes how one more session ended, after so many frames that were answered or by a fault, or that none came. If memory is
    /// refused, nothing has changed.
    pub fn note(&mut self, end: &Result<u64, SessionFault>) -> Result<(), AllocError>
        ensures noted { OnOk result (Notes (end.now ∷ []) self.old self.new) }
        ensures err { OnErr result (self.new ≡ self.old) }
    {
        match end {
            Ok(_) => {
                self.count();
                Ok(())
            }
            Err(fault) => self.note_fault(*fault),
        }
    }

    /// How many sessions were begun. It stays at 2^64 - 1 once there.
    pub fn begun(&self) -> u64
        ensures { result ≡ self.now.begun }
    {
        self.begun
    }

    /// Whether a session came each time that the worker waited for one.
    pub fn have_come(&self) -> bool
        ensures { result ≡ self.now.came }
    {
        !self.has_missed
    }

    /// The first 1,000 faults, in their order.
    pub fn faults(&self) -> &[SessionFault]
        ensures { result.now ≡ self.now.faults }
    {
        self.faults.as_slice()
    }

    /// Notes a fault, and counts its session, if one was begun.
    fn note_fault(&mut self, fault: SessionFault) -> Result<(), AllocError>
        ensures noted { OnOk result (Notes (Err fault ∷ []) self.old self.new) }
        ensures err { OnErr result (self.new ≡ self.old) }
    {
        self.keep(fault)?;
        match fault {
            SessionFault::Front(_) => {
                self.count();
                Ok(())
            }
            SessionFault::Listen => {
                self.has_missed = true;
                Ok(())
            }
        }
    }

    /// Counts one more session that was begun.
    fn count(&mut self)
        ensures { self.new ≡ record self.old { begun = min (self.old.begun + 1) 18446744073709551615 } }
    {
        let begun = &mut self.begun;
        *begun = begun.saturating_add(1);
    }

    /// Keeps a fault, unless as many are kept as may be.
    fn keep(&mut self, fault: SessionFault) -> Result<(), AllocError>
        ensures kept { OnOk result (self.new ≡ record self.old { faults = take most_faults (self.old.faults ++ fault ∷ []) }) }
        ensures err { OnErr result (self.new ≡ self.old) }
    {
        if self.faults.len() < MOST_FAULTS {
            self.faults.push(fault)?;
        }
        Ok(())
    }
}

/// What a worker gives back: its pass, and how its sessions ended.
#[derive(Drop)]
pub struct Worked {
    pub pass: Pass,
    pub ends: SessionEnds,
}
