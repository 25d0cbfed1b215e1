//! The numbers by which a log knows the clients of a server.
use std::alloc::{AllocError, Global};
use std::sync::atomic::{AtomicU64, Ordering};

/// The numbers of the clients: they count up from 1 over all workers, so that no two clients have the same one.
#[derive(Drop)]
pub(crate) struct Numbering {
    /// That of the client that came last.
    last: AtomicU64,
    /// By worker, that of the client that it serves now.
    served: Vec<AtomicU64>,
}

impl Numbering {
    /// No client has come yet to these workers.
    pub fn new(alloc: Global, workers: u64) -> Result<Numbering, AllocError> {
        let mut served = Vec::new(alloc);
        for _ in 0..workers {
            served.push(AtomicU64::new(0))?;
        }
        Ok(Numbering {
            last: AtomicU64::new(0),
            served,
        })
    }

    /// The number of one more client.
    pub fn next(&self) -> u64 {
        self.last.fetch_add(1, Ordering::SeqCst).wrapping_add(1)
    }

    fn of(&self, worker: u64) -> Option<&AtomicU64> {
        self.served.get(usize::try_from(worker).ok()?)
    }

    /// The worker turns to the client of this number.
    pub fn serve(&self, worker: u64, client: u64) {
        if let Some(served) = self.of(worker) {
            served.store(client, Ordering::SeqCst);
        }
    }

    /// The number of the client that the worker serves now; 0 before the first.
    pub fn served_by(&self, worker: u64) -> u64 {
        match self.of(worker) {
            Some(served) => served.load(Ordering::SeqCst),
            None => 0,
        }
    }
}
