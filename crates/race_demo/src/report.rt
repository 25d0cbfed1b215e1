//! What is told of a race.
ghost use Rattle.std.specs.Prelude.{◌≡◌, ◌++◌, ◌≤◌, length, decimal, OnOk, IfOk};
ghost use Rattle.race_demo.specs.Report.{report, tally_text, first_line, reading_line, numbers_text, place_text};

use crate::judge::{Reading, Tally};
use itoa::Buffer;
use std::alloc::{AllocError, Global};

/// What a race has shown.
#[derive(Clone, Copy, Debug)]
pub struct Findings {
    /// How many bundles were set.
    pub sets: u64,
    /// What was read domain by domain.
    pub each: Tally,
    /// What was fetched at once.
    pub all: Tally,
}

/// What stands above the counts.
const HEAD: &[u8] = b"\
Two writers set four domains each, one after another, over and over, to the number
of the round: one a to d, the other e to h. At any moment the first few of four
have a number, and the others have the number before it.

";

/// What a race has shown, in lines.
#[tactic(auto, unfolding(crate::specs::Report::report, crate::specs::Report::head))]
pub fn report_text(alloc: Global, findings: &Findings) -> Result<Vec<u8>, AllocError>
    ensures { IfOk result (λ text. text.items ≡ report findings.now) }
{
    let mut text = Vec::from_slice(alloc, HEAD)?;
    push_count(&mut text, b"bundles set: ", findings.sets)?;
    push_tally(&mut text, b"\ndomain by domain: ", &findings.each)?;
    push_tally(&mut text, b"fetch-all: ", &findings.all)?;
    Ok(text)
}

#[tactic(auto, unfolding(crate::specs::Report::tally_text))]
fn push_tally(text: &mut Vec<u8>, reader: &[u8], tally: &Tally) -> Result<(), AllocError>
    ensures { OnOk result (text.new.items ≡ text.old.items ++ tally_text reader.now tally.now) }
{
    push_count(text, reader, tally.readings)?;
    push_count(text, b" readings, ", tally.mixed)?;
    text.extend_from_slice(b" of them maps that never were\n")?;
    push_first(text, tally.first)
}

fn push_count(text: &mut Vec<u8>, words: &[u8], count: u64) -> Result<(), AllocError>
    ensures { OnOk result (text.new.items ≡ text.old.items ++ (words.now ++ decimal count)) }
{
    text.extend_from_slice(words)?;
    push_number(text, count)
}

fn push_first(text: &mut Vec<u8>, first: Option<Reading>) -> Result<(), AllocError>
    ensures { OnOk result (text.new.items ≡ text.old.items ++ first_line first) }
{
    match first {
        Some(reading) => push_reading(text, reading),
        None => Ok(()),
    }
}

fn push_reading(text: &mut Vec<u8>, reading: Reading) -> Result<(), AllocError>
    ensures { OnOk result (text.new.items ≡ text.old.items ++ reading_line reading) }
{
    text.extend_from_slice(b"  the first:")?;
    push_numbers(text, reading.as_slice())?;
    text.extend_from_slice(b"\n")
}

/// A letter and a number for each domain.
#[tactic(auto, unfolding(crate::specs::Report::numbers_text))]
fn push_numbers(text: &mut Vec<u8>, numbers: &[u64]) -> Result<(), AllocError>
    requires { length numbers.now ≤ 8 }
    ensures { OnOk result (text.new.items ≡ text.old.items ++ numbers_text 97 numbers.now) }
{
    let mut letter = b'a';
    for number in numbers {
        push_place(text, letter, *number)?;
        letter += 1;
    }
    Ok(())
}

fn push_place(text: &mut Vec<u8>, letter: u8, number: u64) -> Result<(), AllocError>
    ensures { OnOk result (text.new.items ≡ text.old.items ++ place_text letter number) }
{
    text.push(b' ')?;
    text.push(letter)?;
    text.push(b' ')?;
    push_number(text, number)
}

fn push_number(text: &mut Vec<u8>, number: u64) -> Result<(), AllocError>
    ensures { OnOk result (text.new.items ≡ text.old.items ++ decimal number) }
{
    text.extend_from_slice(Buffer::new().format(number).as_bytes())
}
