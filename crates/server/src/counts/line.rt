//! The line that tells what is counted.
ghost use Rattle.std.specs.Prelude.{◌≡◌, ◌<◌, ◌≤◌, [], IfOk, OnOk, get_or};
ghost use Rattle.std.specs.Io.KnownBytes.{Appends};
ghost use Rattle.server.specs.Counts.{counts_line, names, refused_name, word, words};

use crate::counts::COUNTS;
use spiffe_doc::Memory;
use std::alloc::{AllocError, Global};
use std::io;
use std::io::Write;

/// The place of the first number of a reply. Before it stand words.
const FIRST_NUMBER: usize = 18;

/// The name at a place before the first number.
fn word_at(place: usize) -> &'static str
    requires { place < 18 }
    ensures { get_or names place [] ≡ result.now }
{
    match place {
        0 => "connections_open",
        1 => "connections_opened",
        2 => "bytes_read",
        3 => "bytes_written",
        4 => "asked_again",
        5 => "changes",
        6 => "domains",
        7 => "marks",
        8 => "requests_set",
        9 => "requests_set_if",
        10 => "requests_append",
        11 => "requests_remove",
        12 => "requests_get",
        13 => "requests_fetch",
        14 => "requests_fetch_unless",
        15 => "requests_version",
        16 => "requests_stats",
        17 => "requests_other",
        _ => unreachable!(),
    }
}

/// The number of a reply whose name stands at a place.
fn number_at(place: usize) -> u8
    requires number { 18 ≤ place }
    requires place { place < 46 }
    ensures { get_or names place [] ≡ refused_name result }
{
    match place {
        18 => 1,
        19 => 3,
        20 => 10,
        21 => 11,
        22 => 12,
        23 => 13,
        24 => 14,
        25 => 15,
        26 => 16,
        27 => 17,
        28 => 18,
        29 => 19,
        30 => 20,
        31 => 21,
        32 => 22,
        33 => 23,
        34 => 30,
        35 => 31,
        36 => 32,
        37 => 33,
        38 => 34,
        39 => 35,
        40 => 36,
        41 => 40,
        42 => 41,
        43 => 42,
        44 => 51,
        45 => 56,
        _ => unreachable!(),
    }
}

/// Writes the name at a place.
fn write_name<W: Write>(line: &mut W, place: usize) -> io::Result<()>
    requires { place < 46 }
    ensures { OnOk result (Appends (W.contents line.old) (W.contents line.new) (get_or names place [])) }
{
    if place < FIRST_NUMBER {
        let name = word_at(place);
        write!(line, "{name}")
    } else {
        let number = number_at(place);
        write!(line, "refused_{number}")
    }
}

/// Writes the name at a place with its number, and a space before it.
fn write_word<W: Write>(line: &mut W, place: usize, number: u64) -> io::Result<()>
    requires { place < 46 }
    ensures { OnOk result (Appends (W.contents line.old) (W.contents line.new) (word (get_or names place []) number)) }
{
    write!(line, " ")?;
    write_name(line, place)?;
    write!(line, "={number}")
}

/// Writes each name with its own number, and a space before each.
fn write_words<W: Write>(line: &mut W, numbers: &[u64; COUNTS]) -> io::Result<()>
    ensures { OnOk result (Appends (W.contents line.old) (W.contents line.new) (words names numbers.now)) }
{
    for place in 0..COUNTS {
        write_word(line, place, numbers[place])?;
    }
    Ok(())
}

/// Writes the seconds, and behind them each name with its own number.
fn write_line<W: Write>(line: &mut W, seconds: u64, numbers: &[u64; COUNTS]) -> io::Result<()>
    ensures { OnOk result (Appends (W.contents line.old) (W.contents line.new) (counts_line seconds numbers.now)) }
{
    write!(line, "seconds={seconds}")?;
    write_words(line, numbers)
}

/// The line of so many seconds, and of these numbers in the order of the names. Errors only if memory runs out.
pub(crate) fn line_of(
    alloc: Global,
    seconds: u64,
    numbers: &[u64; COUNTS],
) -> Result<Vec<u8>, Memory>
    ensures { IfOk result (λ line. line.items ≡ counts_line seconds numbers.now) }
{
    let mut line = Vec::new(alloc);
    match write_line(&mut line, seconds, numbers) {
        Ok(()) => Ok(line),
        Err(_) => Err(AllocError),
    }
}
