//! What the workers of a server share beside the store.
use crate::serving::ports::Ports;
use mio::Waker;
use std::io::Read;
use std::sync::atomic::{AtomicBool, AtomicU64, AtomicUsize, Ordering};
use wire::Counted;

/// A worker, as the others see it.
#[derive(Drop)]
pub struct Seat {
    waker: Waker,
    /// Whether the worker takes clients.
    is_taken: AtomicBool,
    /// Whether the worker is busy with clients that it has.
    is_busy: AtomicBool,
}

impl Seat {
    /// A worker that has not begun yet.
    pub fn new(waker: Waker) -> Seat {
        Seat {
            waker,
            is_taken: AtomicBool::new(false),
            is_busy: AtomicBool::new(false),
        }
    }
}

/// The ports, which worker takes the next client, how many clients are connected, and whether the server is to stop. All
/// workers look at it, and each can be woken.
///
/// Workers take clients in turn, so that none has all of them: a client that connects wakes each worker, and the one whose
/// turn it is takes it. If that one is busy with clients that it has, another takes the turn from it: a long turn of a client
/// keeps nobody from being taken. Who looked just before the other was busy looks again at its next tick.
#[derive(Drop)]
pub struct Shared {
    ports: Ports,
    seats: Vec<Seat>,
    /// The worker whose turn it is.
    turn: AtomicUsize,
    /// How many clients are connected, or may be in this moment.
    open: AtomicU64,
    /// How many clients may be connected.
    most_open: u64,
    is_asked: AtomicBool,
}

impl Shared {
    /// No client is connected yet. There is a seat for each worker.
    pub fn new(ports: Ports, seats: Vec<Seat>, most_open: u64) -> Shared {
        Shared {
            ports,
            seats,
            turn: AtomicUsize::new(0),
            open: AtomicU64::new(0),
            most_open,
            is_asked: AtomicBool::new(false),
        }
    }

    /// The ports that clients come to.
    pub fn ports(&self) -> &Ports {
        &self.ports
    }

    /// Whether the server is to stop now.
    pub fn is_asked(&self) -> bool {
        self.is_asked.load(Ordering::SeqCst)
    }

    /// Tells all workers to stop.
    fn stop(&self) {
        self.is_asked.store(true, Ordering::SeqCst);
        for seat in self.seats.as_slice() {
            let _ = seat.waker.wake();
        }
    }

    /// The worker is to look at the ports.
    pub fn wake(&self, worker: usize) {
        if let Some(seat) = self.seats.get(worker) {
            let _ = seat.waker.wake();
        }
    }

    /// One more client may be connected: it is counted from now on.
    fn come(&self) -> bool {
        if self.open.fetch_add(1, Ordering::SeqCst) < self.most_open {
            return true;
        }
        self.missed();
        false
    }

    /// How many clients are connected, or may be in this moment.
    pub fn open(&self) -> u64 {
        self.open.load(Ordering::SeqCst)
    }

    /// A client that was counted did not come.
    pub fn missed(&self) {
        self.open.fetch_sub(1, Ordering::SeqCst);
    }

    /// A client has been left. If there was no room for another one, there is now.
    pub fn leave(&self) {
        if self.open.fetch_sub(1, Ordering::SeqCst) >= self.most_open {
            let turn = self.turn.load(Ordering::SeqCst);
            let next = if self.is_free(turn) {
                turn
            } else {
                self.next(turn)
            };
            self.wake(next);
        }
    }

    /// The ports, if the worker may take a client now: it is its turn, and another one may be connected, which is counted
    /// already. The worker takes clients from now on.
    pub fn may_take(&self, worker: usize) -> Option<&Ports> {
        self.set_taken(worker, true);
        if self.has_turn(worker) && self.come() {
            return Some(&self.ports);
        }
        None
    }

    /// The worker is busy with clients that it has, or waits for something to do.
    pub fn set_busy(&self, worker: usize, is_busy: bool) {
        if let Some(seat) = self.seats.get(worker) {
            seat.is_busy.store(is_busy, Ordering::SeqCst);
        }
    }

    /// The worker takes no client any more.
    pub fn stand(&self, worker: usize) {
        self.set_taken(worker, false);
        if self.turn.load(Ordering::SeqCst) == worker {
            self.pass(worker);
        }
    }

    /// The turn goes from this worker to the next, which looks whether another client waits.
    pub fn pass(&self, worker: usize) {
        let next = self.next(worker);
        self.turn.store(next, Ordering::SeqCst);
        self.wake(next);
    }

    /// The next worker after this one that takes clients and is not busy, or if all are, the next that takes clients.
    fn next(&self, worker: usize) -> usize {
        let count = self.seats.len();
        let mut next = worker;
        let mut busy = None;
        for _ in 0..count {
            next = next.saturating_add(1);
            if next >= count {
                next = 0;
            }
            if self.is_free(next) {
                return next;
            }
            if busy.is_none() && self.is_taken(next) {
                busy = Some(next);
            }
        }
        busy.unwrap_or(worker)
    }

    /// Whether it is the worker's turn: it is, if it would be that of one that takes no client, or is busy.
    fn has_turn(&self, worker: usize) -> bool {
        let turn = self.turn.load(Ordering::SeqCst);
        if turn == worker || self.is_free(turn) {
            return turn == worker;
        }
        let turns = &self.turn;
        let taken = turns.compare_exchange(turn, worker, Ordering::SeqCst, Ordering::SeqCst);
        taken.is_ok()
    }

    fn is_taken(&self, worker: usize) -> bool {
        match self.seats.get(worker) {
            Some(seat) => seat.is_taken.load(Ordering::SeqCst),
            None => false,
        }
    }

    /// Whether the worker takes clients, and is not busy.
    fn is_free(&self, worker: usize) -> bool {
        match self.seats.get(worker) {
            Some(seat) => {
                seat.is_taken.load(Ordering::SeqCst) && !seat.is_busy.load(Ordering::SeqCst)
            }
            None => false,
        }
    }

    fn set_taken(&self, worker: usize, is_taken: bool) {
        if let Some(seat) = self.seats.get(worker) {
            seat.is_taken.store(is_taken, Ordering::SeqCst);
        }
    }
}

/// An input at whose end the workers of a port are to stop.
#[derive(Drop)]
pub struct Watch<'i, 's, I> {
    pub input: &'i mut Counted<I>,
    pub shared: &'s Shared,
}

impl<I: Read> Watch<'_, '_, I> {
    /// Reads the input to its end, and tells the workers to stop.
    pub fn stop_at_end(&mut self) {
        let mut room = [0; 4096];
        for _ in 0..u64::MAX {
            if !matches!(self.input.read(&mut room), Ok(1..)) {
                break;
            }
        }
        self.shared.stop();
    }
}
