//! The command `stats`: what a server has counted.
ghost use Rattle.std.specs.Prelude.{◌≡◌};
ghost use Rattle.bundled.specs.Stats.{StatsRun};
ghost use Rattle.commands.specs.Streams.{Source};
ghost use Rattle.wire.specs.Output.{end_of};

use crate::exposition::exposition;
use crate::patience::Patience;
use crate::server_stream::connect;
use client::{Asking, ClientError, Form, ServerStreams};
use command_line::Counting;
use commands::{Fault, FileTexts, ServerFault, ended, write_flushed};
use std::alloc::Global;
use std::fs::Files;
use std::io::Write;
use std::net::Net;
use std::time::Clock;
use wire::{Counted, FrontError};

/// Asks the server for what it has counted and shows it, a line for each count or as Prometheus reads them; answers the exit
/// status: 0 if that is done, 3 if the server refuses it, and then its reply is shown, 1 after a fault.
pub fn stats_over<H: Files + Net + Clock, W: Write, E: Write>(
    alloc: Global,
    host: &H,
    out: &mut Counted<W>,
    err: &mut Counted<E>,
    wanted: &Counting<'_>,
) -> u8
    ensures { (input : Source) → StatsRun result
        (record { input = input; output = end_of W.contents out.old; error = end_of E.contents err.old })
        (record { input = input; output = end_of W.contents out.new; error = end_of E.contents err.new }) }
{
    ended(show_counts(alloc, host, out, wanted), err)
}

/// Shows the counts, or the refusal that comes in their place: then the answer is true.
fn show_counts<H: Files + Net + Clock, W: Write>(
    alloc: Global,
    host: &H,
    out: &mut Counted<W>,
    wanted: &Counting<'_>,
) -> Result<bool, Fault> {
    let (mut told, is_refused) = ask_counts(alloc, host, wanted)?;
    if is_refused {
        write_flushed(out, told.as_slice())?;
    } else if wanted.prometheus {
        write_flushed(out, exposition(alloc, told.as_slice())?.as_bytes())?;
    } else {
        part(told.as_mut_slice());
        write_flushed(out, told.as_slice())?;
    }
    Ok(is_refused)
}

/// The text of the reply, and whether it is a refusal.
fn ask_counts<H: Files + Net + Clock>(
    alloc: Global,
    host: &H,
    wanted: &Counting<'_>,
) -> Result<(Vec<u8>, bool), Fault> {
    let patience = Patience::new(host, wanted.timeout);
    let Ok((from, to)) = connect(host, wanted.place, &patience) else {
        return Err(Fault::Server(ServerFault::NoConnection));
    };
    let mut server = ServerStreams {
        from: Counted::new(from),
        to: Counted::new(to),
    };
    let how = Asking {
        form: Form::Texts,
        retries: 0,
    };
    let mut line = Counted::new(b"stats".as_slice());
    let mut told = Counted::new(Vec::new(alloc));
    let texts = FileTexts::new(host);
    let is_refused = server.ask_stream(alloc, how, &texts, &mut line, &mut told)?;
    let text = told.into_end();
    if is_refused || are_counts(text.as_slice()) {
        Ok((text, is_refused))
    } else {
        Err(Fault::Server(ServerFault::Client(ClientError::BadReply)))
    }
}

/// Whether the line is one of counts: words `name=value` with single spaces between, or none. What others would take for
/// something else, as a terminal or Prometheus, is in none of them.
fn are_counts(line: &[u8]) -> bool {
    let Ok(line) = str::from_utf8(line) else {
        return false;
    };
    let words = line.trim_end();
    words.is_empty() || words.split(' ').all(|word| is_count(word))
}

/// Whether the word is a name of small letters, digits and `_`, and a decimal number.
fn is_count(word: &str) -> bool {
    let Some((name, value)) = word.split_once('=') else {
        return false;
    };
    let is_name = name
        .bytes()
        .all(|byte| matches!(byte, b'a'..=b'z' | b'0'..=b'9' | b'_'));
    let is_number = value.bytes().all(|byte| byte.is_ascii_digit());
    is_name && is_number && !name.is_empty() && !value.is_empty()
}

/// Makes of words `name=value` lines of a name and a value.
fn part(words: &mut [u8]) {
    for byte in words {
        match *byte {
            b' ' => *byte = b'\n',
            b'=' => *byte = b' ',
            _ => {}
        }
    }
}
