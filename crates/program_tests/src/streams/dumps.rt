//! Dumps, and what they are migrated to.
use super::{Command, DUMP_OF_ONE, MIGRATED, RUN, Row, left_by};
use std::alloc::Global;
use std::test::Fail;
use test_kit::ends::{Sink, Source};
use test_kit::holds;
use test_kit::protocol::{FETCH_ALL, Part, text_of};

pub(super) static ROWS: [Row; 6] = [
    (Command::Migrate, DUMP_OF_ONE, MIGRATED, "", 0),
    (
        Command::Migrate,
        b"\x00\x00\x00\x09a\x00\x00\x00\x00\x00\x00\x00\x00",
        b"\x00\x00\x00\x02V\x02",
        "",
        0,
    ),
    (Command::Migrate, b"", b"", "fault 63 0\n", 1),
    (
        Command::Migrate,
        b"\x00\x00\x00\x09a\x00\x00\x00\x00\x00\x00\x00\x01",
        b"",
        "fault 63 1\n",
        1,
    ),
    (
        Command::Migrate,
        b"\x00\x00\x00\x09a\x00\x00\x00\x00\x00\x00\x00\x00\x00\x00\x00\x0ei\x01a{\"keys\":[]}",
        b"",
        "fault 63 1\n",
        1,
    ),
    (
        Command::Migrate,
        b"\x00\x00\x00\x09a\x00\x00\x00\x00\x00\x00\x00\x02\x00\x00\x00\x0ei\x01b{\"keys\":[]}\x00\x00\x00\x0ei\x01a{\"keys\":[]}",
        b"",
        "fault 63 2\n",
        1,
    ),
];

/// Requests that set 301 domains and fetch them. One has a document of over 10,000 bytes.
static SETS: [Part; 5] = [
    (
        b"\x00\x00\x00\x26S\x05d####{\"keys\":[],\"spiffe_sequence\":1}",
        300,
    ),
    (
        b"\x00\x00\x2a\x2fS\x04long{\"keys\":[{\"e\":\"AQAB\",\"kid\":\"k\",\"kty\":\"RSA\",\"n\":\"AQAB\",\"use\":\"jwt-svid\"}",
        1,
    ),
    (
        b",{\"e\":\"AQAB\",\"kid\":\"k####\",\"kty\":\"RSA\",\"n\":\"AQAB\",\"use\":\"jwt-svid\"}",
        160,
    ),
    (b"]}", 1),
    (FETCH_ALL, 1),
];

/// The output of a command that ends well.
fn output_of(alloc: Global, command: Command, input: &[u8]) -> Result<Vec<u8>, Fail> {
    let (out, err) = (Sink::new(alloc), Sink::new(alloc));
    let left = left_by(alloc, command, Source::new(input), out, err);
    holds(left.status == 0)?;
    Ok(left.output)
}

// What is set and fetched is migrated, and what that gives is run over another number of shards and shows the same dump.
#[test]
fn dumps_are_stored_again(rt: HostRuntime) -> Result<(), Fail> {
    let alloc = rt.alloc();
    let first = output_of(alloc, RUN, &text_of(alloc, &SETS)?)?;
    let dump = first.as_slice().get(5 * 301..).unwrap_or(b"");
    holds(dump.starts_with(b"\x00\x00\x00\x09a\x00\x00\x00\x00\x00\x00\x01\x2d"))?;
    holds(dump.len() > 20_000)?;
    let mut requests = output_of(alloc, Command::Migrate, dump)?;
    requests.extend_from_slice(FETCH_ALL)?;
    let second = output_of(alloc, Command::Run(256, 1_000_000), &requests)?;
    holds(second.as_slice().get(6 + 5 * 301..) == Some(dump))
}
