//! Exchanges of a client: what it is asked, what it writes, what it reads and what it answers.
use super::is_answered;
use client::{Client, write_request};
use frame_front::serve;
use map_core::{Ask, Contents};
use std::alloc::{AllocError, Global};
use std::test::Fail;
use test_kit::protocol::{
    ABSENT, ALL_OF_NONE, ALL_OF_ONE, Calls, FETCH_ALL, FOUND, GET, Pieces, SET, STORED, text_of,
};
use test_kit::{holds, is_equal_at, operation};
use wire::Counted;

pub(super) const SET_IF_ABSENT: &[u8] =
    b"\x00\x00\x00\x02V\x02\x00\x00\x00\x0fC\x01a\x00{\"keys\":[]}";

const SET_IF_SEQUENCE: &[u8] =
    b"\x00\x00\x00\x02V\x02\x00\x00\x00\x17C\x01a\x01\x00\x00\x00\x00\x00\x00\x01\x07{\"keys\":[]}";

const SET_IF_UNNUMBERED: &[u8] = b"\x00\x00\x00\x02V\x02\x00\x00\x00\x0fC\x01a\x02{\"keys\":[]}";

pub(super) const APPEND: &[u8] =
    b"\x00\x00\x00\x41A\x01a{\"e\":\"AQAB\",\"kid\":\"k\",\"kty\":\"RSA\",\"n\":\"AQAB\",\"use\":\"jwt-svid\"}";

pub(super) const REMOVE: &[u8] = b"\x00\x00\x00\x03R\x01a";

/// A line, the request that is written, the reply that is read, and the answer.
pub(super) type Exchange<'a> = (&'a str, &'a [u8], &'a [u8], &'a str);

pub(super) static EXCHANGES: [Exchange<'static>; 30] = [
    ("set a -", SET, STORED, "stored"),
    ("set a -", SET, b"\x00\x00\x00\x01u", "unchanged"),
    (
        "set a -",
        SET,
        b"\x00\x00\x00\x09\x1f\x00\x00\x00\x00\x00\x00\x01\x02",
        "refused 31 258",
    ),
    ("remove a", REMOVE, b"\x00\x00\x00\x01d", "removed"),
    ("remove a", REMOVE, ABSENT, "refused 30"),
    ("get a", GET, FOUND, "found {\"keys\":[]}"),
    (
        "get a",
        GET,
        b"\x00\x00\x00\x20f{\"keys\":[],\"spiffe_sequence\":7}",
        "found {\"keys\":[],\"spiffe_sequence\":7}",
    ),
    (
        "setif a absent -",
        SET_IF_ABSENT,
        b"\x00\x00\x00\x02v\x02\x00\x00\x00\x01s",
        "stored",
    ),
    (
        "setif a 263 -",
        SET_IF_SEQUENCE,
        b"\x00\x00\x00\x02v\x02\x00\x00\x00\x02\x24\x00",
        "refused 36 absent",
    ),
    (
        "setif a absent -",
        SET_IF_ABSENT,
        b"\x00\x00\x00\x02v\x02\x00\x00\x00\x0a\x24\x01\x00\x00\x00\x00\x00\x00\x01\x07",
        "refused 36 263",
    ),
    (
        "setif a absent -",
        SET_IF_ABSENT,
        b"\x00\x00\x00\x02v\x02\x00\x00\x00\x02\x24\x02",
        "refused 36 none",
    ),
    (
        "setif a none -",
        SET_IF_UNNUMBERED,
        b"\x00\x00\x00\x02v\x02\x00\x00\x00\x01\x16",
        "memory",
    ),
    ("set a -", SET, b"\x00\x00\x00\x01\x16", "memory"),
    (
        "set a -",
        SET,
        b"\x00\x00\x00\x05\x28\x00\x00\x00\xff",
        "worn 255",
    ),
    (
        "get a",
        GET,
        b"\x00\x00\x00\x15\x29\x00\x00\x00\x03\x00\x00\x00\x00\x00\x00\x01\x00\x00\x00\x00\x00\x00\x00\x01\x02",
        "moved 3 256 258",
    ),
    (
        "get a",
        GET,
        b"\x00\x00\x00\x0d\x2a\x00\x00\x00\x01\x00\x00\x00\x00\x00\x00\x00\x03",
        "held 1 3",
    ),
    ("remove a", REMOVE, b"\x00\x00\x00\x01\x38", "shut"),
    ("fetch", FETCH_ALL, ALL_OF_NONE, "all 0"),
    ("fetch", FETCH_ALL, ALL_OF_ONE, "all 1 a {\"keys\":[]}"),
    (
        "fetch",
        FETCH_ALL,
        b"\x00\x00\x00\x09a\x00\x00\x00\x00\x00\x00\x00\x02\x00\x00\x00\x0ei\x01a{\"keys\":[]}\x00\x00\x00\x23i\x02ab{\"keys\":[],\"spiffe_sequence\":1}",
        "all 2 a {\"keys\":[]} ab {\"keys\":[],\"spiffe_sequence\":1}",
    ),
    (
        "fetch",
        FETCH_ALL,
        b"\x00\x00\x00\x15\x29\x00\x00\x00\x03\x00\x00\x00\x00\x00\x00\x01\x00\x00\x00\x00\x00\x00\x00\x01\x02",
        "moved 3 256 258",
    ),
    ("append a k", APPEND, b"\x00\x00\x00\x02p\x00", "appended -"),
    (
        "append a k",
        APPEND,
        b"\x00\x00\x00\x0ap\x01\x00\x00\x00\x00\x00\x00\x01\x02",
        "appended 258",
    ),
    ("append a k", APPEND, b"\x00\x00\x00\x01u", "unchanged"),
    ("append a k", APPEND, ABSENT, "refused 30"),
    ("append a k", APPEND, b"\x00\x00\x00\x01\x20", "refused 32"),
    ("append a k", APPEND, b"\x00\x00\x00\x01\x21", "refused 33"),
    ("append a k", APPEND, b"\x00\x00\x00\x01\x22", "refused 34"),
    ("append a k", APPEND, b"\x00\x00\x00\x01\x23", "refused 35"),
    ("append a k", APPEND, b"\x00\x00\x00\x01\x16", "memory"),
];

/// The exchange is as it is written down, if the reply comes in pieces of this size. What follows it is left.
fn is_so(alloc: Global, exchange: Exchange<'_>, size: usize) -> Result<(), Fail> {
    let (line, request, reply, answer) = exchange;
    let input = text_of(alloc, &[(reply, 1), (b"x", 1)])?;
    let reader = Counted::new(Pieces {
        bytes: input.as_slice(),
        first: size,
        size,
    });
    let mut client = Client::new(alloc, reader, Counted::new(Vec::new(alloc)));
    let told = is_answered(alloc, &mut client, (line, answer), None);
    let (reader, writer) = client.into_ends();
    told?;
    let found = (reader.end().bytes, writer.end().as_slice());
    is_equal_at(&found, &(b"x".as_slice(), request), &line)
}

#[test]
fn asks_and_is_answered(rt: HostRuntime) -> Result<(), Fail> {
    for &exchange in &EXCHANGES {
        for size in [4096, 1] {
            is_so(rt.alloc(), exchange, size)?;
        }
    }
    Ok(())
}

/// The request is flushed once, with this at the other end.
fn is_flushed_once(alloc: Global, line: &str, input: &[u8]) -> Result<(), Fail> {
    let asked = operation(alloc, line)?;
    let writer = Calls {
        writes: 0,
        flushes: 0,
    };
    let mut client = Client::new(alloc, Counted::new(input), Counted::new(writer));
    let answer = client.ask(asked);
    drop(answer);
    let (_, writer) = client.into_ends();
    is_equal_at(&writer.end().flushes, &1, &line)
}

// The request is flushed once, even if no reply comes.
#[test]
fn a_request_is_flushed(rt: HostRuntime) -> Result<(), Fail> {
    for &(line, _, reply, _) in &EXCHANGES {
        is_flushed_once(rt.alloc(), line, reply)?;
        is_flushed_once(rt.alloc(), line, b"")?;
    }
    Ok(())
}

/// The request of a line is added to what the writer has.
fn adds(
    alloc: Global,
    writer: &mut Counted<Vec<u8>>,
    line: &str,
    request: &[u8],
) -> Result<(), Fail> {
    let length = writer.end().len();
    if writer.faults() != 0 {
        return Err(Fail::from("the writer has failed"));
    }
    let asked = operation(alloc, line)?;
    let written = write_request(alloc, writer, &asked);
    drop(asked);
    let added = writer.end().as_slice().get(length..).unwrap_or(&[]);
    is_equal_at(&(written, added), &(Ok(()), request), &line)
}

#[test]
fn requests_one_after_the_other(rt: HostRuntime) -> Result<(), Fail> {
    let mut writer = Counted::new(Vec::new(rt.alloc()));
    for &(line, request, _, _) in &EXCHANGES {
        adds(rt.alloc(), &mut writer, line, request)?;
    }
    Ok(())
}

/// A session of these requests over an empty map answers so many, with these replies.
pub(super) fn answers_so(
    alloc: Global,
    requests: &[u8],
    count: u64,
    replies: &[u8],
) -> Result<(), Fail> {
    let mut requests = Counted::new(requests);
    let mut written = Counted::new(Vec::new(alloc));
    let mut contents = Contents::new(alloc);
    let ended = serve(alloc, &mut requests, &mut written, &mut contents, 1000);
    drop(contents);
    let found = (ended, written.end().as_slice());
    is_equal_at(&found, &(Ok(count), replies), &"a session")
}

/// A line, the reply that is read, and the answer.
type Step<'a> = (&'a str, &'a [u8], &'a str);

static STEPS: [Step<'static>; 14] = [
    ("get a", ABSENT, "refused 30"),
    ("append a k", ABSENT, "refused 30"),
    ("set a -", STORED, "stored"),
    ("append a k", b"\x00\x00\x00\x02p\x00", "appended -"),
    ("append a k", b"\x00\x00\x00\x01u", "unchanged"),
    ("set a -", STORED, "stored"),
    ("set a -", b"\x00\x00\x00\x01u", "unchanged"),
    ("get a", FOUND, "found {\"keys\":[]}"),
    (
        "setif a absent -",
        b"\x00\x00\x00\x02v\x02\x00\x00\x00\x02\x24\x02",
        "refused 36 none",
    ),
    (
        "setif a none -",
        b"\x00\x00\x00\x02v\x02\x00\x00\x00\x01u",
        "unchanged",
    ),
    ("remove a", b"\x00\x00\x00\x01d", "removed"),
    ("remove a", ABSENT, "refused 30"),
    (
        "setif a absent -",
        b"\x00\x00\x00\x02v\x02\x00\x00\x00\x01s",
        "stored",
    ),
    ("fetch", ALL_OF_ONE, "all 1 a {\"keys\":[]}"),
];

/// The replies to all steps.
fn replies_of(alloc: Global, steps: &[Step<'_>]) -> Result<Vec<u8>, AllocError> {
    let mut replies = Vec::new(alloc);
    for &(_, reply, _) in steps {
        replies.extend_from_slice(reply)?;
    }
    Ok(replies)
}

/// A client that reads these replies is answered so at each step. Gives what it has written.
fn ask_each(alloc: Global, steps: &[Step<'_>], replies: &[u8]) -> Result<Vec<u8>, Fail> {
    let mut client = Client::new(alloc, Counted::new(replies), Counted::new(Vec::new(alloc)));
    for &(line, _, answer) in steps {
        is_answered(alloc, &mut client, (line, answer), None)?;
    }
    let (reader, writer) = client.into_ends();
    holds(reader.end().is_empty())?;
    Ok(writer.into_end())
}

// What the client wrote is what a session reads, and what the session answers is what the client read.
#[test]
fn asks_what_a_session_answers(rt: HostRuntime) -> Result<(), Fail> {
    let replies = replies_of(rt.alloc(), &STEPS)?;
    let requests = ask_each(rt.alloc(), &STEPS, replies.as_slice())?;
    answers_so(rt.alloc(), requests.as_slice(), 17, replies.as_slice())
}
