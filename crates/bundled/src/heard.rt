//! An end of standard error that keeps which fault was told last.
ghost use Rattle.std.specs.Prelude.{◌≡◌};

use std::io;
use std::io::Write;

/// A fault as its line tells it: its number, and the first of the numbers behind it, or 0.
#[derive(Clone, Copy)]
pub struct ToldFault {
    pub number: u64,
    pub first: u64,
}

/// An end that says which fault was told last.
pub trait Hears {
    fn last_fault(&self) -> Option<ToldFault>;
}

/// Passes on what is written, and keeps which fault it told last.
#[derive(Drop)]
pub struct Heard<E> {
    end: E,
    last: Option<ToldFault>,
}

impl<E> Heard<E> {
    /// Has heard of none yet.
    pub fn new(end: E) -> Heard<E> {
        Heard { end, last: None }
    }
}

impl<E> Hears for Heard<E> {
    fn last_fault(&self) -> Option<ToldFault> {
        self.last
    }
}

impl<E: Write> Write for Heard<E> {
    ghost contents = { λ heard. E.contents heard.end };

    fn write(&mut self, buf: &[u8]) -> io::Result<usize> {
        if let Some(fault) = fault_of(buf) {
            self.last = Some(fault);
        }
        self.end.write(buf)
    }

    fn flush(&mut self) -> io::Result<()> {
        self.end.flush()
    }
}

/// The fault that the line tells, if it tells one.
fn fault_of(line: &[u8]) -> Option<ToldFault> {
    let words = str::from_utf8(line)
        .ok()?
        .strip_prefix("fault ")?
        .trim_end();
    let mut numbers = words.split(' ');
    let number = numbers.next()?.parse().ok()?;
    let first = match numbers.next() {
        Some(word) => word.parse().ok()?,
        None => 0,
    };
    Some(ToldFault { number, first })
}
