//! A fault that is told in words as well: behind its line comes one that says what could not be had, where and why.
ghost use Rattle.std.specs.Prelude.{◌≡◌, ◌≤◌, ◌<◌, ◌-◌, ◌^◌, IfSome};
ghost use Rattle.wire.specs.Counted.{faults_in};
ghost use Rattle.server.specs.Serve.{AddsWords, IsWords, TellsFault};
ghost use Rattle.wire.specs.Output.{TellsUnlessFailed, end_of};

use commands::Fault;
use std::alloc::Global;
use std::io::Write;
use wire::{Counted, tell};

/// The byte as a terminal may have it: one that it would obey, or that ends a line, is a question mark.
fn shown(byte: u8) -> u8
    ensures { 32 ≤ result }
{
    if byte < 32 || byte == 127 { b'?' } else { byte }
}

/// The text as a line of words, unless memory runs out.
fn words_line(alloc: Global, text: &str) -> Option<Vec<u8>>
    ensures { IfSome result (λ line. IsWords line.items) }
{
    let mut line = Vec::new(alloc);
    for byte in text.as_bytes() {
        line.push(shown(*byte)).ok()?;
    }
    line.push(b'\n').ok()?;
    Some(line)
}

/// Writes a line; but nothing if a call of the writer has failed since `before` of them had failed.
fn tell_line<E: Write>(err: &mut Counted<E>, before: u64, line: &[u8])
    ensures { TellsUnlessFailed before (end_of E.contents err.old) (end_of E.contents err.new) line.now }
{
    if err.faults() == before {
        tell(err, line);
    }
}

/// Writes the text as a line of words. Without memory for it nothing is written.
pub fn tell_words<E: Write>(alloc: Global, text: &str, err: &mut Counted<E>)
    ensures { AddsWords (end_of E.contents err.old) (end_of E.contents err.new) }
{
    let Some(line) = words_line(alloc, text) else {
        return;
    };
    tell(err, line.as_slice());
}

/// Writes the line of the fault, and behind it the text, if there is one, as a line of words. Answers the exit status that goes
/// with the fault. Without memory for the words the line of the fault stands by itself.
pub fn tell_in_words<E: Write>(
    alloc: Global,
    fault: Fault,
    text: Option<&str>,
    err: &mut Counted<E>,
) -> u8
    requires { faults_in err.old < 2 ^ 64 - 1 }
    ensures status { result ≡ 1 }
    ensures tells { TellsFault fault (end_of E.contents err.old) (end_of E.contents err.new) }
{
    let before = err.faults();
    let status = fault.tell(err);
    let Some(text) = text else {
        return status;
    };
    let Some(line) = words_line(alloc, text) else {
        return status;
    };
    tell_line(err, before, line.as_slice());
    status
}
