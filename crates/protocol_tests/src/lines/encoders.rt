//! Streams of lines become frames.
use super::OneText;
use std::alloc::{AllocError, Global};
use std::test::Fail;
use test_kit::{holds_at, is_equal_at};
use wire::{EncodeError, Encoder};

/// The frames of a stream in pieces of this size, and how it ends.
fn encoded(
    alloc: Global,
    stream: &[u8],
    size: usize,
) -> Result<(Vec<u8>, Result<(), EncodeError>), Fail> {
    let mut out = Vec::new(alloc);
    let mut encoder = Encoder::new(alloc)?;
    for piece in stream.chunks(size.max(1)) {
        encoder.feed(piece)?;
        if let Err(error) = encode_kept(alloc, &mut encoder, &mut out) {
            return Ok((out, Err(error)));
        }
    }
    let ended = encoder.finish(alloc, &OneText, &mut out);
    Ok((out, ended))
}

/// Appends the frames of the lines that are whole.
fn encode_kept(alloc: Global, encoder: &mut Encoder, out: &mut Vec<u8>) -> Result<(), EncodeError> {
    for _ in 0..u64::MAX {
        if !encoder.encode_next(alloc, &OneText, out)? {
            break;
        }
    }
    Ok(())
}

const GET_A: &[u8] = b"\x00\x00\x00\x03G\x01a";

const SET_A: &[u8] = b"\x00\x00\x00\x06S\x01a{\n}";

/// A stream of lines, the frames that it becomes, and how it ends, in pieces of any size.
static STREAMS: [(&[u8], &[u8], Result<(), EncodeError>); 18] = [
    (b"", b"", Ok(())),
    (b"get a\n", GET_A, Ok(())),
    (b"get a", GET_A, Ok(())),
    (b"# a comment\n\n#\nget a\n# the end", GET_A, Ok(())),
    (
        b"get a\nfetch\n",
        b"\x00\x00\x00\x03G\x01a\x00\x00\x00\x01F",
        Ok(()),
    ),
    (
        b"get a\nfetch all\nget a\n",
        GET_A,
        Err(EncodeError::BadLine(2)),
    ),
    (b"get a\nfetch all", GET_A, Err(EncodeError::BadLine(2))),
    (b"get a\r\n", b"\x00\x00\x00\x04G\x02a\r", Ok(())),
    (b"\n\n #\n", b"", Err(EncodeError::BadLine(3))),
    // Texts that are named.
    (b"set a @doc\n", SET_A, Ok(())),
    (b"set a @doc", SET_A, Ok(())),
    (
        b"setif a absent @doc",
        b"\x00\x00\x00\x07C\x01a\x00{\n}",
        Ok(()),
    ),
    (b"append a @doc", b"\x00\x00\x00\x06A\x01a{\n}", Ok(())),
    (b"get @doc", b"\x00\x00\x00\x06G\x04@doc", Ok(())),
    (
        b"set a @doc\nset a @\n",
        SET_A,
        Err(EncodeError::Unreadable(2)),
    ),
    (b"#\nset a @dog", b"", Err(EncodeError::Unreadable(2))),
    (b"set a @huge\n", b"", Err(EncodeError::Memory)),
    (b"get a\nset a @long\n", GET_A, Err(EncodeError::BadLine(2))),
];

#[test]
fn lines_become_frames(rt: HostRuntime) -> Result<(), Fail> {
    for &(stream, frames, ended) in &STREAMS {
        for size in 1..9 {
            let (out, end) = encoded(rt.alloc(), stream, size)?;
            is_equal_at(&(out.as_slice(), end), &(frames, ended), &(stream, size))?;
        }
    }
    Ok(())
}

/// How a comment of so many bytes ends.
static COMMENTS: [(usize, Result<(), EncodeError>); 2] = [
    (1_049_300, Ok(())),
    (1_049_301, Err(EncodeError::BadLine(1))),
];

#[test]
fn a_line_may_be_so_long(rt: HostRuntime) -> Result<(), Fail> {
    for &(length, wanted) in &COMMENTS {
        let line = "#".repeat(rt.alloc(), length)?;
        let (_, end) = encoded(rt.alloc(), line.as_bytes(), 4096)?;
        is_equal_at(&end, &wanted, &length)?;
    }
    Ok(())
}

/// What each step appends, and whether it took a line.
static TAKEN: [(&[u8], Result<bool, EncodeError>); 4] = [
    (b"", Ok(true)),
    (GET_A, Ok(true)),
    (b"\x00\x00\x00\x01F", Ok(true)),
    (b"", Ok(false)),
];

#[test]
fn lines_are_taken_one_at_a_time(rt: HostRuntime) -> Result<(), Fail> {
    let alloc = rt.alloc();
    let mut out = Vec::new(alloc);
    let mut encoder = Encoder::new(alloc)?;
    encoder.feed(b"# none\nget a\nfetch\nget b")?;
    for &(frame, taken) in &TAKEN {
        let next = encoder.encode_next(alloc, &OneText, &mut out);
        is_equal_at(&(out.as_slice(), next), &(frame, taken), &frame)?;
        out.clear();
    }
    Ok(())
}

#[test]
fn a_refused_growth_leaves_whole_frames(rt: HostRuntime) -> Result<(), Fail> {
    let alloc = rt.alloc();
    let mut out = Vec::new(alloc);
    let mut encoder = Encoder::new(alloc)?;
    encoder.feed(b"get a\nfetch\n")?;
    let ended = encode_kept(alloc, &mut encoder, &mut out);
    let is_so = match ended {
        Ok(()) => out.as_slice() == b"\x00\x00\x00\x03G\x01a\x00\x00\x00\x01F".as_slice(),
        Err(EncodeError::Memory) => out.is_empty() || out.as_slice() == GET_A,
        Err(_) => false,
    };
    holds_at(is_so, &(ended, out.as_slice()))?;
    if ended.is_err() {
        return Err(Fail::from(AllocError));
    }
    Ok(())
}
