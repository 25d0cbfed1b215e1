//! Replies that are cut off, or are no replies to what was asked.
use super::exchanges::{APPEND, EXCHANGES, REMOVE, SET_IF_ABSENT};
use super::is_answered;
use client::{Client, ClientError};
use std::alloc::Global;
use std::io::{Read, Write};
use std::test::Fail;
use test_kit::is_equal_at;
use test_kit::protocol::{ABSENT, FETCH_ALL, FOUND, GET, SET, STORED};
use wire::Counted;

/// Asks, and asks again, and sees that the client has ended so.
fn has_ended<R: Read, W: Write>(
    alloc: Global,
    client: &mut Client<R, W>,
    line: &str,
    why: ClientError,
) -> Result<(), Fail> {
    is_answered(alloc, client, (line, "shut"), Some(why))?;
    is_answered(alloc, client, (line, "shut"), Some(why))
}

/// With this at the other end the client writes the request once, and ends so.
fn ends_so(
    alloc: Global,
    (line, request): (&str, &[u8]),
    input: &[u8],
    why: ClientError,
) -> Result<(), Fail> {
    let mut client = Client::new(alloc, Counted::new(input), Counted::new(Vec::new(alloc)));
    let told = has_ended(alloc, &mut client, line, why);
    let (_, writer) = client.into_ends();
    told?;
    is_equal_at(&writer.end().as_slice(), &request, &input)
}

/// A line, its request, and what is no reply to it.
static NO_REPLIES: [(&str, &[u8], &[u8]); 39] = [
    // The replies to other requests.
    ("set a -", SET, b"\x00\x00\x00\x01d"),
    ("set a -", SET, FOUND),
    ("set a -", SET, ABSENT),
    ("set a -", SET, b"\x00\x00\x00\x02\x24\x00"),
    ("set a -", SET, b"\x00\x00\x00\x02v\x02"),
    ("set a -", SET, b"\x00\x00\x00\x02p\x00"),
    ("set a -", SET, b"\x00\x00\x00\x01\x33"),
    ("remove a", REMOVE, STORED),
    ("get a", GET, STORED),
    (
        "get a",
        GET,
        b"\x00\x00\x00\x09a\x00\x00\x00\x00\x00\x00\x00\x00",
    ),
    // Bytes too many or too few.
    ("set a -", SET, b"\x00\x00\x00\x02ss"),
    ("set a -", SET, b"\x00\x00\x00\x01\x1f"),
    (
        "set a -",
        SET,
        b"\x00\x00\x00\x08\x1f\x00\x00\x00\x00\x00\x00\x01",
    ),
    ("set a -", SET, b"\x00\x00\x00\x02\x16\x00"),
    ("set a -", SET, b"\x00\x00\x00\x04\x28\x00\x00\x00"),
    // A document that is not canonical, none, and one that is cut off.
    ("get a", GET, b"\x00\x00\x00\x0df{\"keys\": []}"),
    ("get a", GET, b"\x00\x00\x00\x01f"),
    ("get a", GET, b"\x00\x00\x00\x0bf{\"keys\":[]"),
    // No version 2 before the reply, and other expectations.
    ("setif a absent -", SET_IF_ABSENT, STORED),
    (
        "setif a absent -",
        SET_IF_ABSENT,
        b"\x00\x00\x00\x02v\x01\x00\x00\x00\x01s",
    ),
    (
        "setif a absent -",
        SET_IF_ABSENT,
        b"\x00\x00\x00\x02v\x02\x00\x00\x00\x02\x24\x03",
    ),
    (
        "setif a absent -",
        SET_IF_ABSENT,
        b"\x00\x00\x00\x02v\x02\x00\x00\x00\x02v\x02",
    ),
    // Of an append: other replies, no sequence, another kind of one, and bytes too many.
    ("append a k", APPEND, STORED),
    (
        "append a k",
        APPEND,
        b"\x00\x00\x00\x09\x1f\x00\x00\x00\x00\x00\x00\x01\x02",
    ),
    ("append a k", APPEND, b"\x00\x00\x00\x02\x24\x00"),
    ("append a k", APPEND, b"\x00\x00\x00\x01p"),
    ("append a k", APPEND, b"\x00\x00\x00\x02p\x02"),
    ("append a k", APPEND, b"\x00\x00\x00\x03p\x00\x00"),
    ("append a k", APPEND, b"\x00\x00\x00\x02\x20\x00"),
    // Of a fetch-all: no number, another reply, names that do not rise, a frame of no domain, another text.
    ("fetch", FETCH_ALL, STORED),
    ("fetch", FETCH_ALL, ABSENT),
    (
        "fetch",
        FETCH_ALL,
        b"\x00\x00\x00\x08a\x00\x00\x00\x00\x00\x00\x00",
    ),
    (
        "fetch",
        FETCH_ALL,
        b"\x00\x00\x00\x0aa\x00\x00\x00\x00\x00\x00\x00\x00\x00",
    ),
    (
        "fetch",
        FETCH_ALL,
        b"\x00\x00\x00\x09a\x00\x00\x00\x00\x00\x00\x00\x02\x00\x00\x00\x0ei\x01b{\"keys\":[]}\x00\x00\x00\x0ei\x01a{\"keys\":[]}",
    ),
    (
        "fetch",
        FETCH_ALL,
        b"\x00\x00\x00\x09a\x00\x00\x00\x00\x00\x00\x00\x02\x00\x00\x00\x0ei\x01a{\"keys\":[]}\x00\x00\x00\x0ei\x01a{\"keys\":[]}",
    ),
    (
        "fetch",
        FETCH_ALL,
        b"\x00\x00\x00\x09a\x00\x00\x00\x00\x00\x00\x00\x01\x00\x00\x00\x0ej\x01a{\"keys\":[]}",
    ),
    (
        "fetch",
        FETCH_ALL,
        b"\x00\x00\x00\x09a\x00\x00\x00\x00\x00\x00\x00\x01\x00\x00\x00\x0ei\x01A{\"keys\":[]}",
    ),
    (
        "fetch",
        FETCH_ALL,
        b"\x00\x00\x00\x09a\x00\x00\x00\x00\x00\x00\x00\x01\x00\x00\x00\x0fi\x01a{\"keys\": []}",
    ),
    (
        "fetch",
        FETCH_ALL,
        b"\x00\x00\x00\x09a\x00\x00\x00\x00\x00\x00\x00\x01\x00\x00\x00\x02i\x01",
    ),
];

#[test]
fn what_is_no_reply(rt: HostRuntime) -> Result<(), Fail> {
    for &(line, request, input) in &NO_REPLIES {
        ends_so(rt.alloc(), (line, request), input, ClientError::BadReply)?;
    }
    Ok(())
}

static BAD_LENGTHS: [&[u8]; 3] = [
    b"\x00\x00\x00\x00",
    b"\x00\x10\x01\xa9",
    b"\xff\xff\xff\xff",
];

// The reply to each request is cut off after each of its bytes, and has each bad length.
#[test]
fn cut_off_replies_and_bad_lengths(rt: HostRuntime) -> Result<(), Fail> {
    for &(line, request, reply, _) in &EXCHANGES {
        for size in 0..reply.len() {
            let (front, _) = reply.split_at(size);
            ends_so(rt.alloc(), (line, request), front, ClientError::Truncated)?;
        }
        for &length in &BAD_LENGTHS {
            ends_so(rt.alloc(), (line, request), length, ClientError::BadLength)?;
        }
    }
    Ok(())
}
