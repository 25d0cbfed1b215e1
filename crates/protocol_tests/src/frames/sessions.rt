//! What each request is answered.
use super::{
    MIGRATED, SET_AND_FETCH_ALL, SET_AND_GET, STORED_AND_ALL, STORED_AND_FOUND, ended_of, serves_so,
};
use frame_front::serve;
use map_core::Contents;
use std::alloc::Global;
use std::test::Fail;
use test_kit::is_equal_at;
use test_kit::protocol::{ABSENT, ALL_OF_NONE, ALL_OF_ONE, FETCH_ALL, GET, Pieces, SET, STORED};
use wire::{Counted, FrontError};

/// A session over an empty map: its name, what comes in, how it ends, and what goes out.
#[derive(Clone, Copy)]
struct Session<'a> {
    name: &'a str,
    input: &'a [u8],
    ended: Result<u64, FrontError>,
    output: &'a [u8],
}

/// Sets, gets, removals and fetch-alls.
static SETS_AND_GETS: [Session<'static>; 8] = [
    Session {
        name: "the first run",
        input: SET_AND_GET,
        ended: Ok(2),
        output: STORED_AND_FOUND,
    },
    Session {
        name: "the first run without its last byte",
        input: b"\x00\x00\x00\x0eS\x01a{\"keys\":[]}\x00\x00\x00\x03G\x01",
        ended: Err(FrontError::Truncated),
        output: b"\x00\x00\x00\x01s",
    },
    Session {
        name: "no input",
        input: b"",
        ended: Ok(0),
        output: b"",
    },
    Session {
        name: "a fetch-all of one domain",
        input: b"\x00\x00\x00\x0eS\x01a{\"keys\":[]}\x00\x00\x00\x01F",
        ended: Ok(2),
        output: b"\x00\x00\x00\x01s\x00\x00\x00\x09a\x00\x00\x00\x00\x00\x00\x00\x01\x00\x00\x00\x0ei\x01a{\"keys\":[]}",
    },
    Session {
        name: "a fetch-all of none",
        input: FETCH_ALL,
        ended: Ok(1),
        output: ALL_OF_NONE,
    },
    Session {
        name: "the same bundle again, and another sequence",
        input: b"\x00\x00\x00\x0eS\x01a{\"keys\":[]}\x00\x00\x00\x0eS\x01a{\"keys\":[]}",
        ended: Ok(2),
        output: b"\x00\x00\x00\x01s\x00\x00\x00\x01u",
    },
    Session {
        name: "an older document",
        input: b"\x00\x00\x00\x22S\x01a{\"keys\":[],\"spiffe_sequence\":5}\x00\x00\x00\x22S\x01a{\"keys\":[],\"spiffe_sequence\":4}",
        ended: Ok(2),
        output: b"\x00\x00\x00\x01s\x00\x00\x00\x09\x1f\x00\x00\x00\x00\x00\x00\x00\x05",
    },
    Session {
        name: "a domain is removed, and then is not there",
        input: b"\x00\x00\x00\x0eS\x01a{\"keys\":[]}\x00\x00\x00\x03R\x01a\x00\x00\x00\x03R\x01a\x00\x00\x00\x03G\x01a",
        ended: Ok(4),
        output: b"\x00\x00\x00\x01s\x00\x00\x00\x01d\x00\x00\x00\x01\x1e\x00\x00\x00\x01\x1e",
    },
];

/// Appends.
static APPENDS: [Session<'static>; 3] = [
    Session {
        name: "an authority is appended, and the sequence rises",
        input: b"\x00\x00\x00\x22S\x01a{\"keys\":[],\"spiffe_sequence\":9}\x00\x00\x00\x41A\x01a{\"use\":\"jwt-svid\",\"kty\":\"RSA\",\"kid\":\"k\",\"n\":\"AQAB\",\"e\":\"AQAB\"}",
        ended: Ok(2),
        output: b"\x00\x00\x00\x01s\x00\x00\x00\x0ap\x01\x00\x00\x00\x00\x00\x00\x00\x0a",
    },
    Session {
        name: "an authority is appended, without a sequence, and again",
        input: b"\x00\x00\x00\x0eS\x01a{\"keys\":[]}\x00\x00\x00\x41A\x01a{\"use\":\"jwt-svid\",\"kty\":\"RSA\",\"kid\":\"k\",\"n\":\"AQAB\",\"e\":\"AQAB\"}\x00\x00\x00\x41A\x01a{\"use\":\"jwt-svid\",\"kty\":\"RSA\",\"kid\":\"k\",\"n\":\"AQAB\",\"e\":\"AQAB\"}",
        ended: Ok(3),
        output: b"\x00\x00\x00\x01s\x00\x00\x00\x02p\x00\x00\x00\x00\x01u",
    },
    Session {
        name: "an entry that is passed over, one at fault, none, and a domain that is not there",
        input: b"\x00\x00\x00\x21A\x01a{\"kty\":\"OKP\",\"use\":\"jwt-svid\"}\x00\x00\x00\x04A\x01a5\x00\x00\x00\x03A\x01a\x00\x00\x00\x41A\x01a{\"use\":\"jwt-svid\",\"kty\":\"RSA\",\"kid\":\"k\",\"n\":\"AQAB\",\"e\":\"AQAB\"}",
        ended: Ok(4),
        output: b"\x00\x00\x00\x01\x17\x00\x00\x00\x05\x10\x00\x00\x00\x00\x00\x00\x00\x01\x0b\x00\x00\x00\x01\x1e",
    },
];

/// Payloads that are refused.
static REFUSALS: [Session<'static>; 5] = [
    Session {
        name: "another letter, and the session goes on",
        input: b"\x00\x00\x00\x01Z\x00\x00\x00\x01F",
        ended: Ok(2),
        output: b"\x00\x00\x00\x01\x33\x00\x00\x00\x09a\x00\x00\x00\x00\x00\x00\x00\x00",
    },
    Session {
        name: "an empty name, and a byte that no name has",
        input: b"\x00\x00\x00\x02G\x00\x00\x00\x00\x03G\x01\xff\x00\x00\x00\x05G\x03abC",
        ended: Ok(3),
        output: b"\x00\x00\x00\x01\x01\x00\x00\x00\x05\x03\x00\x00\x00\x00\x00\x00\x00\x05\x03\x00\x00\x00\x02",
    },
    Session {
        name: "a name that is cut off, bytes after a name, bytes after F, and no name at all",
        input: b"\x00\x00\x00\x03G\x02a\x00\x00\x00\x04G\x01ab\x00\x00\x00\x02F\x00\x00\x00\x00\x01R\x00\x00\x00\x01S",
        ended: Ok(5),
        output: b"\x00\x00\x00\x01\x33\x00\x00\x00\x01\x33\x00\x00\x00\x01\x33\x00\x00\x00\x01\x33\x00\x00\x00\x01\x33",
    },
    Session {
        name: "documents at fault: none, no object, no keys, a sequence below 0, no hint, an entry, two kids",
        input: b"\x00\x00\x00\x03S\x01a\x00\x00\x00\x05S\x01a[]\x00\x00\x00\x05S\x01a{}\x00\x00\x00\x23S\x01a{\"keys\":[],\"spiffe_sequence\":-1}\x00\x00\x00\x28S\x01a{\"keys\":[],\"spiffe_refresh_hint\":\"x\"}\x00\x00\x00\x0fS\x01a{\"keys\":[5]}",
        ended: Ok(6),
        output: b"\x00\x00\x00\x01\x0b\x00\x00\x00\x01\x0c\x00\x00\x00\x01\x0d\x00\x00\x00\x01\x0e\x00\x00\x00\x01\x0f\x00\x00\x00\x05\x10\x00\x00\x00\x00",
    },
    Session {
        name: "the name is judged before the document",
        input: b"\x00\x00\x00\x05S\x01A[]",
        ended: Ok(1),
        output: b"\x00\x00\x00\x05\x03\x00\x00\x00\x00",
    },
];

/// Both versions.
static VERSIONS: [Session<'static>; 3] = [
    Session {
        name: "C in version 1, and after V of both versions",
        input: b"\x00\x00\x00\x0fC\x01a\x00{\"keys\":[]}\x00\x00\x00\x02V\x02\x00\x00\x00\x0fC\x01a\x00{\"keys\":[]}\x00\x00\x00\x02V\x01\x00\x00\x00\x0fC\x01a\x00{\"keys\":[]}",
        ended: Ok(5),
        output: b"\x00\x00\x00\x01\x33\x00\x00\x00\x02v\x02\x00\x00\x00\x01s\x00\x00\x00\x02v\x01\x00\x00\x00\x01\x33",
    },
    Session {
        name: "V without a version, with one that isn't there, and with two: the version stays",
        input: b"\x00\x00\x00\x02V\x02\x00\x00\x00\x01V\x00\x00\x00\x02V\x04\x00\x00\x00\x03V\x01\x01\x00\x00\x00\x0fC\x01a\x00{\"keys\":[]}",
        ended: Ok(5),
        output: b"\x00\x00\x00\x02v\x02\x00\x00\x00\x01\x33\x00\x00\x00\x01\x33\x00\x00\x00\x01\x33\x00\x00\x00\x01s",
    },
    Session {
        name: "no expectation, one that isn't there, and a sequence that is cut off; then a bad name",
        input: b"\x00\x00\x00\x02V\x02\x00\x00\x00\x03C\x01a\x00\x00\x00\x04C\x01a\x03\x00\x00\x00\x0bC\x01a\x01\x00\x00\x00\x00\x00\x00\x00\x00\x00\x00\x04C\x01A\x00",
        ended: Ok(5),
        output: b"\x00\x00\x00\x02v\x02\x00\x00\x00\x01\x33\x00\x00\x00\x01\x33\x00\x00\x00\x01\x33\x00\x00\x00\x05\x03\x00\x00\x00\x00",
    },
];

/// A digest that is known: that of no domains, and that of `a` with the document `{"keys":[]}`, by SHA-256 of their dumps.
static UNLESS: [Session<'static>; 1] = [Session {
    name: "all are fetched unless they have the digest, in version 3 only",
    input: b"\x00\x00\x00!U\x9c\xf4\xb1a\xf3W\x1eu\x19\x12\xf9\xa7\x8a\xe2\x01\\O\xb2\x88\xaf\xe5\x9cy\x8fTR\xa1\x8dbT\xc8\x93\
\x00\x00\x00\x02V\x03\
\x00\x00\x00!U\x9c\xf4\xb1a\xf3W\x1eu\x19\x12\xf9\xa7\x8a\xe2\x01\\O\xb2\x88\xaf\xe5\x9cy\x8fTR\xa1\x8dbT\xc8\x93\
\x00\x00\x00\x0eS\x01a{\"keys\":[]}\
\x00\x00\x00!U\x9c\xf4\xb1a\xf3W\x1eu\x19\x12\xf9\xa7\x8a\xe2\x01\\O\xb2\x88\xaf\xe5\x9cy\x8fTR\xa1\x8dbT\xc8\x93\
\x00\x00\x00!U\xcec\xfb\xe9\xae9\xfb\xb5\xdb~\\\x7f5\xc4c\x0bnf-\xa0A\xff\x81\xeef\xff\x80x\x89\xcc \xa2\
\x00\x00\x00 U\xcec\xfb\xe9\xae9\xfb\xb5\xdb~\\\x7f5\xc4c\x0bnf-\xa0A\xff\x81\xeef\xff\x80x\x89\xcc \
\x00\x00\x00\"U\xcec\xfb\xe9\xae9\xfb\xb5\xdb~\\\x7f5\xc4c\x0bnf-\xa0A\xff\x81\xeef\xff\x80x\x89\xcc \xa2\x00\
\x00\x00\x00\x01U\
\x00\x00\x00\x0fC\x01b\x00{\"keys\":[]}\
\x00\x00\x00!U\xcec\xfb\xe9\xae9\xfb\xb5\xdb~\\\x7f5\xc4c\x0bnf-\xa0A\xff\x81\xeef\xff\x80x\x89\xcc \xa2\
\x00\x00\x00\x02V\x02\
\x00\x00\x00!U\xcec\xfb\xe9\xae9\xfb\xb5\xdb~\\\x7f5\xc4c\x0bnf-\xa0A\xff\x81\xeef\xff\x80x\x89\xcc \xa2",
    ended: Ok(13),
    output: b"\x00\x00\x00\x013\
\x00\x00\x00\x02v\x03\
\x00\x00\x00\x01e\
\x00\x00\x00\x01s\
\x00\x00\x00\x09a\x00\x00\x00\x00\x00\x00\x00\x01\x00\x00\x00\x0ei\x01a{\"keys\":[]}\
\x00\x00\x00\x01e\
\x00\x00\x00\x013\
\x00\x00\x00\x013\
\x00\x00\x00\x013\
\x00\x00\x00\x01s\
\x00\x00\x00\x09a\x00\x00\x00\x00\x00\x00\x00\x02\x00\x00\x00\x0ei\x01a{\"keys\":[]}\x00\x00\x00\x0ei\x01b{\"keys\":[]}\
\x00\x00\x00\x02v\x02\
\x00\x00\x00\x013",
}];

/// Each expectation that fits, or does not, is met in one session.
static EXPECTATIONS: [Session<'static>; 1] = [Session {
    name: "a bundle is set where it is expected",
    input: b"\x00\x00\x00\x02V\x02\
\x00\x00\x00\x23C\x01a\x00{\"keys\":[],\"spiffe_sequence\":7}\
\x00\x00\x00\x23C\x01a\x00{\"keys\":[],\"spiffe_sequence\":7}\
\x00\x00\x00\x2bC\x01a\x01\x00\x00\x00\x00\x00\x00\x00\x07{\"keys\":[],\"spiffe_sequence\":8}\
\x00\x00\x00\x2bC\x01a\x01\x00\x00\x00\x00\x00\x00\x00\x08{\"keys\":[],\"spiffe_sequence\":3}\
\x00\x00\x00\x03R\x01a\
\x00\x00\x00\x23C\x01a\x00{\"keys\":[],\"spiffe_sequence\":3}\
\x00\x00\x00\x23C\x01a\x02{\"keys\":[],\"spiffe_sequence\":3}\
\x00\x00\x00\x0eS\x01a{\"keys\":[]}\
\x00\x00\x00\x23C\x01a\x00{\"keys\":[],\"spiffe_sequence\":3}\
\x00\x00\x00\x23C\x01a\x02{\"keys\":[],\"spiffe_sequence\":3}",
    ended: Ok(11),
    output: b"\x00\x00\x00\x02v\x02\
\x00\x00\x00\x01s\
\x00\x00\x00\x0a\x24\x01\x00\x00\x00\x00\x00\x00\x00\x07\
\x00\x00\x00\x01s\
\x00\x00\x00\x09\x1f\x00\x00\x00\x00\x00\x00\x00\x08\
\x00\x00\x00\x01d\
\x00\x00\x00\x09\x1f\x00\x00\x00\x00\x00\x00\x00\x08\
\x00\x00\x00\x02\x24\x00\
\x00\x00\x00\x01s\
\x00\x00\x00\x02\x24\x02\
\x00\x00\x00\x01s",
}];

/// Lengths that end a session.
static BAD_LENGTHS: [Session<'static>; 3] = [
    Session {
        name: "a length of 0",
        input: b"\x00\x00\x00\x00",
        ended: Err(FrontError::BadLength),
        output: b"",
    },
    Session {
        name: "a length of 1,049,001",
        input: b"\x00\x10\x01\xa9",
        ended: Err(FrontError::BadLength),
        output: b"",
    },
    Session {
        name: "a length of 0 after a frame, which is answered",
        input: b"\x00\x00\x00\x01F\x00\x00\x00\x00\x00\x00\x00\x01F",
        ended: Err(FrontError::BadLength),
        output: ALL_OF_NONE,
    },
];

/// Serves each session over an empty map: in pieces of 4,096 bytes, and of one.
fn serve_all(alloc: Global, sessions: &[Session<'_>]) -> Result<(), Fail> {
    for &session in sessions {
        let wanted = (session.ended, session.output);
        for size in [4096, 1] {
            let coming = (session.input, size, size);
            serves_so(alloc, session.name, coming, 1_000_000, wanted)?;
        }
    }
    Ok(())
}

#[test]
fn sessions_over_an_empty_map(rt: HostRuntime) -> Result<(), Fail> {
    serve_all(rt.alloc(), &SETS_AND_GETS)?;
    serve_all(rt.alloc(), &APPENDS)?;
    serve_all(rt.alloc(), &REFUSALS)?;
    serve_all(rt.alloc(), &VERSIONS)?;
    serve_all(rt.alloc(), &EXPECTATIONS)?;
    serve_all(rt.alloc(), &UNLESS)?;
    serve_all(rt.alloc(), &BAD_LENGTHS)
}

// Whatever two pieces the first run is cut into, its replies are the same.
#[test]
fn cuts_do_not_matter(rt: HostRuntime) -> Result<(), Fail> {
    for first in 1..SET_AND_GET.len() {
        let coming = (SET_AND_GET, first, 4096);
        let wanted = (Ok(2), STORED_AND_FOUND);
        serves_so(rt.alloc(), "a cut", coming, 1000, wanted)?;
    }
    Ok(())
}

// The input may end after each of its 23 bytes: only at a frame's end all went well.
#[test]
fn ends_inside_frames(rt: HostRuntime) -> Result<(), Fail> {
    for length in 0..=23 {
        let (ended, whole) = match length {
            0 => (Ok(0), 0),
            1..=17 => (Err(FrontError::Truncated), 0),
            18 => (Ok(1), 5),
            19..=22 => (Err(FrontError::Truncated), 5),
            _ => (Ok(2), 36),
        };
        let front = SET_AND_FETCH_ALL.get(..length).unwrap_or(&[]);
        let replies = STORED_AND_ALL.get(..whole).unwrap_or(&[]);
        for size in [1, 4096] {
            let coming = (front, size, size);
            serves_so(rt.alloc(), "a front", coming, 1000, (ended, replies))?;
        }
    }
    Ok(())
}

/// What comes in, how many reads there may be, how the session ends, and what goes out.
type Turns<'a> = (&'a [u8], u32, Result<u64, FrontError>, &'a [u8]);

/// The first run in pieces of ten bytes takes three reads, a get takes one, and another one finds the end.
static TURNS: [Turns<'static>; 4] = [
    (SET_AND_GET, 3, Err(FrontError::TurnsUsed), STORED_AND_FOUND),
    (SET_AND_GET, 4, Ok(2), STORED_AND_FOUND),
    (GET, 1, Err(FrontError::TurnsUsed), ABSENT),
    (GET, 2, Ok(1), ABSENT),
];

#[test]
fn each_read_is_a_turn(rt: HostRuntime) -> Result<(), Fail> {
    for &(input, turns, ended, output) in &TURNS {
        let coming = (input, 10, 10);
        serves_so(rt.alloc(), "turns", coming, turns, (ended, output))?;
    }
    Ok(())
}

/// How many bytes a read gives at most, how many reads a session may make, how it ends, and how many it made.
static READS: [(usize, u32, Result<u64, FrontError>, u64); 5] = [
    (25, 25, Ok(2), 2),
    (25, 1, Err(FrontError::TurnsUsed), 1),
    (5, 6, Ok(2), 6),
    (5, 5, Err(FrontError::TurnsUsed), 5),
    (1, 25, Err(FrontError::TurnsUsed), 25),
];

#[test]
fn no_byte_is_a_turn(rt: HostRuntime) -> Result<(), Fail> {
    for &(size, turns, wanted, reads) in &READS {
        let mut reader = Counted::new(Pieces {
            bytes: SET_AND_GET,
            first: size,
            size,
        });
        let mut writer = Counted::new(Vec::new(rt.alloc()));
        let most = u64::from(turns.min(1_000_000_000));
        let ended = ended_of(rt.alloc(), &mut reader, &mut writer, most);
        is_equal_at(&(ended, reader.reads()), &(wanted, reads), &(size, turns))?;
    }
    Ok(())
}

/// Sessions over one map: what comes in, how many requests these are, and what goes out.
type Run<'a> = &'a [(&'a [u8], u64, &'a [u8])];

/// The map outlives a session, and the version doesn't; a dump that was migrated is stored again.
static RUNS: [Run<'static>; 2] = [
    &[
        (SET, 1, STORED),
        (b"\x00\x00\x00\x02V\x02", 1, b"\x00\x00\x00\x02v\x02"),
        (
            b"\x00\x00\x00\x0fC\x01a\x00{\"keys\":[]}\x00\x00\x00\x03G\x01a",
            2,
            b"\x00\x00\x00\x01\x33\x00\x00\x00\x0cf{\"keys\":[]}",
        ),
    ],
    &[
        (MIGRATED, 2, b"\x00\x00\x00\x02v\x02\x00\x00\x00\x01s"),
        (FETCH_ALL, 1, ALL_OF_ONE),
    ],
];

/// A session over the map answers all its requests so.
fn serves_over(
    alloc: Global,
    contents: &mut Contents,
    (input, count, output): (&[u8], u64, &[u8]),
) -> Result<(), Fail> {
    let mut reader = Counted::new(input);
    let mut writer = Counted::new(Vec::new(alloc));
    let ended = serve(alloc, &mut reader, &mut writer, contents, 1000);
    is_equal_at(
        &(ended, writer.end().as_slice()),
        &(Ok(count), output),
        &input,
    )
}

fn serves_each(alloc: Global, contents: &mut Contents, run: Run<'_>) -> Result<(), Fail> {
    for &session in run {
        serves_over(alloc, contents, session)?;
    }
    Ok(())
}

#[test]
fn sessions_over_one_map(rt: HostRuntime) -> Result<(), Fail> {
    for &run in &RUNS {
        let mut contents = Contents::new(rt.alloc());
        let are_so = serves_each(rt.alloc(), &mut contents, run);
        drop(contents);
        are_so?;
    }
    Ok(())
}
