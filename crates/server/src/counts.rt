//! What a server counts, and the line that tells it.
ghost use Rattle.std.specs.Prelude.{◌≡◌, Some, IfOk, option_and_then, slice_get, vec_len};
ghost use Rattle.server.specs.Counts.{count_name, counts_line, names, reply_count, reply_name, request_name};
ghost use Rattle.server.specs.Counts.{is_change as changes};

mod line;

use crate::counts::line::line_of;
use crate::limit::LogLimit;
use crate::numbering::Numbering;
use shard_store::Tally;
use spiffe_doc::Memory;
use std::alloc::{AllocError, Global};
use std::sync::atomic::{AtomicU64, Ordering};
use std::time::{Clock, Instant};

/// How many names there are, beside that of the seconds.
pub(crate) const COUNTS: usize = 46;

/// The place among the names of how many bundles stand in the store.
const DOMAINS: usize = 6;

/// The place of how many marks.
const MARKS: usize = 7;

/// What is counted.
#[derive(Clone, Copy, Debug, PartialEq, Eq)]
pub enum Count {
    /// The connections that are open.
    ConnectionsOpen,
    /// Those that were opened.
    ConnectionsOpened,
    BytesRead,
    BytesWritten,
    /// How often the store was asked again, after 41 or 42.
    AskedAgain,
    /// The requests that have changed a bundle.
    Changes,
    /// The bundles that stand in the store.
    Domains,
    /// The marks of removed bundles.
    Marks,
    /// The requests of this letter.
    Requests(u8),
    /// The replies that refuse a request or tell an error by this number. Another number is not counted.
    Refused(u8),
}

impl Count {
    /// What a reply of this code to a request of this letter is counted as, beside the request.
    pub fn of_reply(letter: u8, code: u8) -> Count
        ensures { result ≡ reply_count letter code }
    {
        if is_change(letter, code) {
            Count::Changes
        } else {
            Count::Refused(code)
        }
    }

    /// Its place among the names, if it is counted.
    fn place(self) -> Option<usize>
        ensures { option_and_then (slice_get names) result ≡ count_name self }
    {
        match self {
            Count::ConnectionsOpen => Some(0),
            Count::ConnectionsOpened => Some(1),
            Count::BytesRead => Some(2),
            Count::BytesWritten => Some(3),
            Count::AskedAgain => Some(4),
            Count::Changes => Some(5),
            Count::Domains => Some(DOMAINS),
            Count::Marks => Some(MARKS),
            Count::Requests(letter) => Some(place_of_letter(letter)),
            Count::Refused(number) => place_of_number(number),
        }
    }
}

/// Whether a reply of this code says that a request of this letter has changed a bundle.
#[tactic(auto, unfolding(crate::specs::Counts::is_change))]
fn is_change(letter: u8, code: u8) -> bool
    ensures { result ≡ changes letter code }
{
    matches!(letter, b'S' | b'C' | b'A' | b'R') && matches!(code, b's' | b'p' | b'd')
}

/// The place among the names of a request of this letter.
#[tactic(auto, unfolding(crate::specs::Counts::request_name))]
fn place_of_letter(letter: u8) -> usize
    ensures { slice_get names result ≡ Some (request_name letter) }
{
    match letter {
        b'S' => 8,
        b'C' => 9,
        b'A' => 10,
        b'R' => 11,
        b'G' => 12,
        b'F' => 13,
        b'U' => 14,
        b'V' => 15,
        b'M' => 16,
        _ => 17,
    }
}

/// The place among the names of a reply of this number; none if no refusal or error has it.
#[tactic(auto, unfolding(crate::specs::Counts::reply_name))]
fn place_of_number(number: u8) -> Option<usize>
    ensures { option_and_then (slice_get names) result ≡ reply_name number }
{
    match number {
        1 => Some(18),
        3 => Some(19),
        10 => Some(20),
        11 => Some(21),
        12 => Some(22),
        13 => Some(23),
        14 => Some(24),
        15 => Some(25),
        16 => Some(26),
        17 => Some(27),
        18 => Some(28),
        19 => Some(29),
        20 => Some(30),
        21 => Some(31),
        22 => Some(32),
        23 => Some(33),
        30 => Some(34),
        31 => Some(35),
        32 => Some(36),
        33 => Some(37),
        34 => Some(38),
        35 => Some(39),
        36 => Some(40),
        40 => Some(41),
        41 => Some(42),
        42 => Some(43),
        51 => Some(44),
        56 => Some(45),
        _ => None,
    }
}

/// Of one bundle a worker may have told already that it has gone, and another not yet that it came: then the sum may be below
/// none for a moment, and has wrapped.
fn not_below_none(sum: u64) -> u64 {
    if sum > u64::MAX / 2 { 0 } else { sum }
}

/// What one worker has counted, in the order of the names.
#[derive(Drop)]
struct Slot {
    numbers: Vec<AtomicU64>,
}

impl Slot {
    /// Nothing was counted yet.
    fn new(alloc: Global) -> Result<Slot, AllocError> {
        let mut numbers = Vec::with_capacity(alloc, COUNTS)?;
        for _ in 0..COUNTS {
            numbers.push(AtomicU64::new(0))?;
        }
        Ok(Slot { numbers })
    }
}

/// What the workers of a server count. Each adds to numbers of its own, so that none waits for another on the way of a
/// request; whoever asks for a count is told their sum.
#[derive(Drop)]
pub struct Counts {
    /// When the server began, if the system has a clock.
    begun: Option<Instant>,
    slots: Vec<Slot>,
    /// What the workers share of the log.
    limit: LogLimit,
    /// By which numbers it knows their clients.
    numbering: Numbering,
}

impl Counts {
    /// Those of so many workers, which have counted nothing yet.
    pub fn new<C: Clock>(alloc: Global, clock: &C, workers: u64) -> Result<Counts, AllocError>
        ensures { IfOk result (λ counts. vec_len counts.slots ≡ workers) }
    {
        let mut slots = Vec::new(alloc);
        for _ in 0..workers {
            slots.push(Slot::new(alloc)?)?;
        }
        Ok(Counts {
            begun: Instant::now(clock).ok(),
            slots,
            limit: LogLimit::new(),
            numbering: Numbering::new(alloc, workers)?,
        })
    }

    /// What the workers share of the log.
    pub(crate) fn limit(&self) -> &LogLimit {
        &self.limit
    }

    /// By which numbers the log knows their clients.
    pub(crate) fn numbering(&self) -> &Numbering {
        &self.numbering
    }

    /// Where the worker counts it, if there is such a worker and it is counted.
    fn number(&self, worker: u64, count: Count) -> Option<&AtomicU64> {
        let worker = usize::try_from(worker).ok()?;
        self.slots.get(worker)?.numbers.get(count.place()?)
    }

    /// The worker has counted so many more.
    pub fn add(&self, worker: u64, count: Count, more: u64) {
        if let Some(number) = self.number(worker, count) {
            number.fetch_add(more, Ordering::SeqCst);
        }
    }

    /// The worker has one less.
    pub fn take_one(&self, worker: u64, count: Count) {
        if let Some(number) = self.number(worker, count) {
            number.fetch_sub(1, Ordering::SeqCst);
        }
    }

    /// The changes of the worker's pass have brought and taken so much by now. A worker may have taken what another brought: its
    /// number is then below none, and wraps.
    pub fn tallied(&self, worker: u64, tally: Tally) {
        let Tally { bundles, marks } = tally;
        self.put(
            worker,
            Count::Domains,
            bundles.come.wrapping_sub(bundles.gone),
        );
        self.put(worker, Count::Marks, marks.come.wrapping_sub(marks.gone));
    }

    /// The worker has so many by now.
    fn put(&self, worker: u64, count: Count, all: u64) {
        if let Some(number) = self.number(worker, count) {
            number.store(all, Ordering::SeqCst);
        }
    }

    /// What all workers have counted at a place.
    fn sum(&self, place: usize) -> u64 {
        let mut sum: u64 = 0;
        for slot in self.slots.as_slice() {
            if let Some(number) = slot.numbers.get(place) {
                sum = sum.wrapping_add(number.load(Ordering::SeqCst));
            }
        }
        sum
    }

    /// How many seconds have passed since the server began; none without a clock.
    pub(crate) fn seconds<C: Clock>(&self, clock: &C) -> u64 {
        match (self.begun, Instant::now(clock)) {
            (Some(begun), Ok(now)) => now.duration_since(begun).as_secs(),
            _ => 0,
        }
    }

    /// All that is counted, as words `name=value` with single spaces between. Errors only if memory runs out.
    pub fn line<C: Clock>(&self, alloc: Global, clock: &C) -> Result<Vec<u8>, Memory> {
        let mut numbers = [0; COUNTS];
        for place in 0..COUNTS {
            numbers[place] = self.sum(place);
        }
        numbers[DOMAINS] = not_below_none(numbers[DOMAINS]);
        numbers[MARKS] = not_below_none(numbers[MARKS]);
        line_of(alloc, self.seconds(clock), &numbers)
    }
}
