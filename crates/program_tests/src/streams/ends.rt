//! Ends that fail, inputs that do not end, and what the commands then leave.
use super::lines::GET_A;
use super::{Command, DUMP_OF_ONE, FIRST_REPLIES, FIRST_RUN, MIGRATED, RUN, leaves, left_by};
use std::alloc::Global;
use std::test::Fail;
use test_kit::ends::{Sink, Source};

/// A command, an input, how much of it is read before a read fails, what the command has written then, and all of its output.
type Row = (Command, &'static [u8], usize, &'static [u8], &'static [u8]);

/// Only `run`, `encode` and `decode` have written what they read.
static ROWS: [Row; 5] = [
    (RUN, FIRST_RUN, 18, b"\x00\x00\x00\x01s", FIRST_REPLIES),
    (Command::Trace(4, 3), b"step 1\n", 3, b"", b"order\n"),
    (Command::Migrate, DUMP_OF_ONE, 18, b"", MIGRATED),
    (
        Command::Encode,
        b"get a\nget b\n",
        7,
        GET_A,
        b"\x00\x00\x00\x03G\x01a\x00\x00\x00\x03G\x01b",
    ),
    (
        Command::Decode,
        FIRST_RUN,
        20,
        b"set a {\"keys\":[]}\n",
        b"set a {\"keys\":[]}\nget a\n",
    ),
];

/// Fails unless a writer that takes any prefix of the output, and no more, is fault 54.
fn tells_its_writer(
    alloc: Global,
    command: Command,
    input: &[u8],
    output: &[u8],
) -> Result<(), Fail> {
    for room in 0..output.len() {
        let (front, _) = output.split_at(room);
        let (out, err) = (Sink::with_room(alloc, room), Sink::new(alloc));
        let left = left_by(alloc, command, Source::new(input), out, err);
        left.is(input, front, "fault 54\n", 1)?;
    }
    Ok(())
}

// A reader that fails is fault 53, and a writer fault 54. An interrupted read or write has failed: it is not made again. A
// line that standard error does not take is dropped, and the status stays.
#[test]
fn ends_that_fail(rt: HostRuntime) -> Result<(), Fail> {
    let alloc = rt.alloc();
    for &(command, input, good, before, output) in &ROWS {
        let reader = Source::broken(input, good);
        leaves(alloc, command, reader, (input, before, "fault 53\n", 1))?;
        let reader = Source::interrupted(input);
        leaves(alloc, command, reader, (input, b"", "fault 53\n", 1))?;
        tells_its_writer(alloc, command, input, output)?;
        let (out, err) = (Sink::interrupted(alloc), Sink::new(alloc));
        let left = left_by(alloc, command, Source::new(input), out, err);
        left.is(input, b"", "fault 54\n", 1)?;
        let (out, err) = (Sink::new(alloc), Sink::with_room(alloc, 3));
        let left = left_by(alloc, command, Source::new(b"\x00\x00\x00\x00"), out, err);
        left.is(input, b"", "fau", 1)?;
        leaves(alloc, command, Source::new(input), (input, output, "", 0))?;
    }
    tells_its_writer(alloc, Command::Explain("31 Stale\n"), b"", b"31 Stale\n")
}

// An input over 16,777,216 bytes is too long; one that comes byte by byte uses up its reads.
#[test]
fn limits_its_input(rt: HostRuntime) -> Result<(), Fail> {
    for &command in &[Command::Migrate, Command::Trace(4, 4)] {
        for &(letters, faults) in &[(4096, "fault 71\n"), (1, "fault 55\n")] {
            let reader = Source::endless(letters);
            leaves(rt.alloc(), command, reader, (b"a", b"", faults, 1))?;
        }
    }
    Ok(())
}
