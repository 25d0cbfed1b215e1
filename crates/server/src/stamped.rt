//! Lines with the time before them.
ghost use Rattle.std.specs.Prelude.{◌≡◌};

use arrayvec::ArrayVec;
use jiff::Timestamp;
use std::alloc::AllocError;
use std::io;
use std::io::Write;
use std::time::Clock;

/// The most bytes of a time and a line.
const ROOM_BYTES: usize = 448;

/// An end to which each line goes with the time before it: UTC, in whole seconds, as `2026-11-30T05:23:33Z`. Each write is a
/// line, and one write at the end. Without a clock, or if it is longer than any line of a log, it goes as it is.
pub struct Stamped<'c, C, N> {
    clock: &'c C,
    end: N,
}

impl<'c, C, N> Stamped<'c, C, N> {
    pub fn new(clock: &'c C, end: N) -> Stamped<'c, C, N>
        ensures { result.end ≡ end }
    {
        Stamped { clock, end }
    }
}

impl<'c, C, N: Copy> Copy for Stamped<'c, C, N> {}

impl<'c, C, N: Copy> Clone for Stamped<'c, C, N> {
    ghost use Rattle.std.specs.Prelude.{◌≡◌, ⊤};

    ghost is_clone = { λ x y. y.end ≡ x.end };

    ghost is_infallible = { λ _. ⊤ };

    fn clone(&self) -> Result<Self, AllocError> {
        Ok(Stamped {
            clock: self.clock,
            end: self.end,
        })
    }
}

/// The time, and a space behind it; nothing without a clock.
fn time_text<C: Clock>(clock: &C) -> ArrayVec<u8, ROOM_BYTES> {
    let mut line = ArrayVec::new();
    let Ok(time) = clock.since_1970() else {
        return line;
    };
    let Ok(seconds) = i64::try_from(time.as_secs()) else {
        return line;
    };
    if let Ok(now) = Timestamp::from_second(seconds) {
        let _fits = write!(line, "{now} ");
    }
    line
}

impl<C: Clock, N: Write> Write for Stamped<'_, C, N> {
    fn write(&mut self, buf: &[u8]) -> io::Result<usize> {
        let mut line = time_text(self.clock);
        let before = line.len();
        if line.try_extend_from_slice(buf).is_err() {
            return self.end.write(buf);
        }
        let count = self.end.write(line.as_slice())?;
        Ok(count.saturating_sub(before).min(buf.len()))
    }

    fn flush(&mut self) -> io::Result<()> {
        self.end.flush()
    }
}
