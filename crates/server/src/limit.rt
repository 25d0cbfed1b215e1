//! How many refusals and ends of sessions a log tells within a second, how many lines it has left out, and how often it tells
//! that no client can be taken.
use std::sync::atomic::{AtomicU64, Ordering};

/// The most refusals and ends of sessions that are told within a second, of all workers together.
const MOST_A_SECOND: u64 = 100;

/// In how many seconds it is told once that no client can be taken.
const ALARM_SECONDS: u64 = 60;

/// What the workers of a server share of its log. (Where two of them come at the turn of a second, one line more or less may be
/// told in it.)
#[derive(Drop)]
pub(crate) struct LogLimit {
    /// The newest second, in which they are counted.
    second: AtomicU64,
    /// How many refusals and ends have come within it.
    come: AtomicU64,
    /// How many lines were left out since that was told.
    left_out: AtomicU64,
    /// The second from which on it may be told that no client can be taken.
    next_alarm: AtomicU64,
}

impl LogLimit {
    /// Nothing has come yet.
    pub fn new() -> LogLimit {
        LogLimit {
            second: AtomicU64::new(0),
            come: AtomicU64::new(0),
            left_out: AtomicU64::new(0),
            next_alarm: AtomicU64::new(0),
        }
    }

    /// Whether one more refusal or end may be told in this second.
    pub fn admits(&self, second: u64) -> bool {
        if self.second.fetch_max(second, Ordering::SeqCst) < second {
            self.come.store(0, Ordering::SeqCst);
        }
        self.come.fetch_add(1, Ordering::SeqCst) < MOST_A_SECOND
    }

    /// Whether it may be told in this second that no client can be taken.
    pub fn admits_alarm(&self, second: u64) -> bool {
        let next = self.next_alarm.load(Ordering::SeqCst);
        if second < next {
            return false;
        }
        let after = second.saturating_add(ALARM_SECONDS);
        let alarm = &self.next_alarm;
        let taken = alarm.compare_exchange(next, after, Ordering::SeqCst, Ordering::SeqCst);
        taken.is_ok()
    }

    /// So many lines are left out.
    pub fn leave_out(&self, count: u64) {
        self.left_out.fetch_add(count, Ordering::SeqCst);
    }

    /// How many lines were left out since that was told. They count as told from then on.
    pub fn take_left_out(&self) -> u64 {
        if self.left_out.load(Ordering::SeqCst) == 0 {
            return 0;
        }
        self.left_out.swap(0, Ordering::SeqCst)
    }
}
