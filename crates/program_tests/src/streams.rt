//! The commands over memory: what comes in, what goes out, the fault line and the status.
mod dumps;
mod ends;
mod lines;
mod sessions;
mod traces;

use commands::{
    decode_over, encode_over, explain_over, migrate_over, picture_over, run_over, trace_over,
};
use std::alloc::{AllocError, Global};
use std::test::Fail;
use test_kit::ends::{Left, Sink, Source};
use wire::{Counted, TextError, TextSource};

/// A command, with its settings.
#[derive(Clone, Copy)]
enum Command {
    /// Over so many shards, of so many reads at most.
    Run(usize, u64),
    /// Over so many shards, of so many rounds at most.
    Trace(usize, usize),
    /// The same, with a picture.
    Picture(usize, usize),
    Migrate,
    Encode,
    Decode,
    /// Of this text.
    Explain(&'static str),
}

/// A command over four shards, of as many reads as there are.
const RUN: Command = Command::Run(4, 1_000_000);

/// A command, its input, and what it leaves: its output, its fault line and its status.
type Row = (Command, &'static [u8], &'static [u8], &'static str, u8);

const FIRST_RUN: &[u8] = b"\x00\x00\x00\x0eS\x01a{\"keys\":[]}\x00\x00\x00\x03G\x01a";

const FIRST_REPLIES: &[u8] = b"\x00\x00\x00\x01s\x00\x00\x00\x0cf{\"keys\":[]}";

const DUMP_OF_ONE: &[u8] =
    b"\x00\x00\x00\x09a\x00\x00\x00\x00\x00\x00\x00\x01\x00\x00\x00\x0ei\x01a{\"keys\":[]}";

/// What `DUMP_OF_ONE` is migrated to.
const MIGRATED: &[u8] = b"\x00\x00\x00\x02V\x02\x00\x00\x00\x0fC\x01a\x00{\"keys\":[]}";

/// The empty document, under the name `empty`.
#[derive(Drop)]
struct Empty;

impl TextSource for Empty {
    ghost use Rattle.std.specs.Prelude.{◌≡◌, ◌≢◌, codes, MatchOption};

    // Only `empty` can be read.
    ghost gives = { λ texts name found. MatchOption found (name ≢ codes "empty") (λ text. name ≡ codes "empty") };

    fn text(&self, alloc: Global, name: &[u8]) -> Result<Vec<u8>, TextError> {
        if name != b"empty".as_slice() {
            return Err(TextError::Unreadable);
        }
        match Vec::from_slice(alloc, b"{\"keys\":[]}") {
            Ok(text) => Ok(text),
            Err(AllocError) => Err(TextError::Memory),
        }
    }
}

/// What a command leaves of these ends.
fn left_by(alloc: Global, command: Command, reader: Source<'_>, out: Sink, err: Sink) -> Left {
    let mut reader = Counted::new(reader);
    let mut out = Counted::new(out);
    let mut err = Counted::new(err);
    let status = match command {
        Command::Run(shards, turns) => run_over(
            alloc,
            &mut reader,
            &mut out,
            &mut err,
            shards.max(1),
            turns.min(1_000_000_000),
        ),
        Command::Trace(shards, rounds) => trace_over(
            alloc,
            &mut reader,
            &mut out,
            &mut err,
            shards.max(1),
            rounds.max(1),
        ),
        Command::Picture(shards, rounds) => picture_over(
            alloc,
            &mut reader,
            &mut out,
            &mut err,
            shards.max(1),
            rounds.max(1),
        ),
        Command::Migrate => migrate_over(alloc, &mut reader, &mut out, &mut err),
        Command::Encode => encode_over(alloc, &Empty, &mut reader, &mut out, &mut err),
        Command::Decode => decode_over(alloc, &mut reader, &mut out, &mut err),
        Command::Explain(text) => explain_over(text, &mut out, &mut err),
    };
    Left {
        output: out.into_end().into_taken(),
        faults: err.into_end().into_taken(),
        status,
    }
}

/// Fails unless the command leaves this of what the reader gives. The case is told then.
fn leaves(
    alloc: Global,
    command: Command,
    reader: Source<'_>,
    row: (&[u8], &[u8], &str, u8),
) -> Result<(), Fail> {
    let (case, output, faults, status) = row;
    let left = left_by(alloc, command, reader, Sink::new(alloc), Sink::new(alloc));
    left.is(case, output, faults, status)
}

#[test]
fn commands_answer(rt: HostRuntime) -> Result<(), Fail> {
    for rows in [
        dumps::ROWS.as_slice(),
        lines::ROWS.as_slice(),
        sessions::ROWS.as_slice(),
        traces::ROWS.as_slice(),
    ] {
        for &(command, input, output, faults, status) in rows {
            let row = (input, output, faults, status);
            leaves(rt.alloc(), command, Source::new(input), row)?;
        }
    }
    Ok(())
}
