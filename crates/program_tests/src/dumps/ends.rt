//! Ends that fail, and inputs that do not end.
use super::changes::{NONE, ONE};
use super::examples::{DIGEST, DUMP, MAP, PEM, SETS};
use super::{Command, leaves, left_by};
use dump_views::Profile;
use std::alloc::Global;
use std::test::Fail;
use test_kit::ends::{Sink, Source};

/// A command, an input and the output.
static ROWS: [(Command, &[u8], &[u8]); 6] = [
    (Command::Map(&[], Profile::Whole), DUMP, MAP),
    (Command::Import, MAP, SETS),
    (Command::Pem("example.org"), DUMP, PEM),
    (Command::Digest, DUMP, DIGEST),
    (
        Command::Check(&[]),
        b"[]",
        b"-: not a bundle: it is not a JSON object (12)\n",
    ),
    (Command::Diff(Some(NONE)), ONE, b"- a\n"),
];

/// A command over files, and what it writes: the files after one whose lines are not taken are not read.
const FILES: Command = Command::Check(&["array.json", "array.json", "gone.json"]);

const LINE: &[u8] = b"array.json: not a bundle: it is not a JSON object (12)\n";

static LINES: &[u8] =
    b"array.json: not a bundle: it is not a JSON object (12)\narray.json: not a bundle: it is not a JSON object (12)\n";

/// Commands that a fault ends.
static FAULTY: [Command; 6] = [
    Command::Map(&[], Profile::Whole),
    Command::Import,
    Command::Pem("a"),
    Command::Digest,
    Command::Check(&["gone.json"]),
    Command::Diff(Some(NONE)),
];

/// Fails unless a writer that takes less than all is fault 54, and a prefix of the output is written.
fn tells_its_writer(
    alloc: Global,
    command: Command,
    input: &[u8],
    output: &[u8],
    room: usize,
) -> Result<(), Fail> {
    let (front, _) = output.split_at(room.min(output.len()));
    let (out, err) = (Sink::with_room(alloc, room), Sink::new(alloc));
    let left = left_by(alloc, command, Source::new(input), out, err)?;
    left.is(input, front, "fault 54\n", 1)
}

// A reader that fails is fault 53, and nothing is written. An input over 16,777,216 bytes is too long if it is not a dump; one
// that comes byte by byte uses up its reads.
#[test]
fn inputs_that_fail(rt: HostRuntime) -> Result<(), Fail> {
    for &(command, input, _) in &ROWS {
        for good in [0, 1, input.len()] {
            let reader = Source::broken(input, good);
            leaves(rt.alloc(), command, reader, (input, b"", "fault 53\n", 1))?;
        }
    }
    for &command in &[Command::Import, Command::Check(&[])] {
        for &(letters, faults) in &[(4096, "fault 71\n"), (1, "fault 55\n")] {
            let reader = Source::endless(letters);
            leaves(rt.alloc(), command, reader, (b"a", b"", faults, 1))?;
        }
    }
    // A reader is not read if files are named.
    let told: &[u8] =
        b"twice.json: bundle of 1 authority (1 X.509, 0 JWT), sequence 0, no refresh hint\ntwice.json: 1 entry repeats an earlier one, kept once\n";
    leaves(
        rt.alloc(),
        Command::Check(&["twice.json"]),
        Source::broken(b"", 0),
        (b"", told, "", 0),
    )
}

// A line that standard error does not take is dropped, and the status stays.
#[test]
fn writers_that_fail(rt: HostRuntime) -> Result<(), Fail> {
    let alloc = rt.alloc();
    for &(command, input, output) in &ROWS {
        for room in [0, 1, output.len().saturating_sub(1)] {
            tells_its_writer(alloc, command, input, output, room)?;
        }
    }
    for room in LINE.len()..LINES.len() {
        tells_its_writer(alloc, FILES, b"", LINES, room)?;
    }
    for &command in &FAULTY {
        let (out, err) = (Sink::new(alloc), Sink::with_room(alloc, 3));
        let reader = Source::new(b"\x00\x00\x00\x00");
        left_by(alloc, command, reader, out, err)?.is(b"", b"", "fau", 1)?;
    }
    Ok(())
}
