//! Which readings are maps that were there at some moment.
ghost use Rattle.std.specs.Prelude.{◌≡◌, ◌+◌, ◌-◌, ◌^◌, ◌==◌, length, Some, true, false, MatchBool};
ghost use Rattle.race_demo.specs.Moment.{IsMoment, IsMap};
ghost use Rattle.race_demo.specs.Report.{counted, counted_mixed, Counts};
ghost use Rattle.std.specs.Option.{unwrap_or};
ghost use Rattle.race_demo.specs.Private.{fits};

/// How many domains there are: two writers have four each.
pub(crate) const DOMAINS: usize = 8;

/// How many domains a writer has.
pub(crate) const RING: usize = 4;

/// The sequence numbers of the domains `a` to `h`.
pub type Reading = [u64; DOMAINS];

/// How many readings a reader has made, and how many of them were maps that never were.
#[derive(Clone, Copy, Debug, PartialEq, Eq)]
pub struct Tally {
    pub readings: u64,
    pub mixed: u64,
    /// The first that never was.
    pub first: Option<Reading>,
}

impl Tally {
    /// No reading.
    pub const NONE: Tally = Tally {
        readings: 0,
        mixed: 0,
        first: None,
    };

    /// One reading more. A count stays at the greatest number that it can have.
    pub fn and(self, reading: Reading) -> Tally
        ensures { Counts self reading result }
    {
        if is_map(reading.as_slice()) {
            self.and_moment()
        } else {
            self.and_mixed(reading)
        }
    }

    fn and_moment(self) -> Tally
        ensures { result ≡ counted self }
    {
        Tally {
            readings: self.readings.saturating_add(1),
            ..self
        }
    }

    fn and_mixed(self, reading: Reading) -> Tally
        ensures { result ≡ counted_mixed self reading }
    {
        Tally {
            readings: self.readings.saturating_add(1),
            mixed: self.mixed.saturating_add(1),
            first: first_of(self.first, reading),
        }
    }
}

fn first_of(first: Option<Reading>, reading: Reading) -> Option<Reading>
    ensures { result ≡ Some (unwrap_or first reading) }
{
    match first {
        Some(found) => Some(found),
        None => Some(reading),
    }
}

/// Whether the eight domains of two writers have these numbers at some moment.
pub fn is_map(reading: &[u64]) -> bool
    requires { length reading.now ≡ 8 }
    ensures { MatchBool result (IsMap reading.now) (IsMap reading.now → ⊥) }
{
    let (ours, others) = reading.split_at(RING);
    is_moment(ours) && is_moment(others)
}

/// Whether the domains of one writer have these numbers at some moment.
pub fn is_moment(readings: &[u64]) -> bool
    ensures { MatchBool result (IsMoment readings.now) (IsMoment readings.now → ⊥) }
{
    match readings.last() {
        Some(low) => is_falling(*low, readings),
        None => true,
    }
}

/// Whether the numbers are one more than this for a while, and then this.
fn is_falling(low: u64, readings: &[u64]) -> bool
    ensures { result ≡ fits false low readings.now }
{
    let mut down = false;
    for reading in readings {
        if *reading == low {
            down = true;
        } else if down || !is_next(low, *reading) {
            return false;
        }
    }
    true
}

/// Whether the second number is one more.
fn is_next(low: u64, number: u64) -> bool
    ensures { result ≡ (number == low + 1) }
{
    low < number && number - 1 == low
}
