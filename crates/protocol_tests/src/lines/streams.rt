//! Streams of lines, read and written.
use super::OneText;
use std::alloc::Global;
use std::test::Fail;
use test_kit::ends::{Sink, Source};
use test_kit::is_equal_at;
use wire::{Counted, DecodeError, FrontError, StreamError, decode_stream, encode_stream};

/// How the lines of a reader are encoded to a writer of so much room, and what it has taken.
fn encoded(alloc: Global, lines: Source, room: usize) -> (Result<(), StreamError>, Vec<u8>) {
    let mut reader = Counted::new(lines);
    let mut writer = Counted::new(Sink::with_room(alloc, room));
    let ended = encode_stream(alloc, &OneText, &mut reader, &mut writer);
    (ended, writer.into_end().into_taken())
}

/// The same of frames that are decoded.
fn decoded(alloc: Global, frames: Source, room: usize) -> (Result<(), DecodeError>, Vec<u8>) {
    let mut reader = Counted::new(frames);
    let mut writer = Counted::new(Sink::with_room(alloc, room));
    let ended = decode_stream(alloc, &mut reader, &mut writer);
    (ended, writer.into_end().into_taken())
}

/// A comment, two requests, and a line that is not one.
const INPUT: &[u8] = b"# two\nget a\n\nfetch\nget\nget b\n";

const GET_A: &[u8] = b"\x00\x00\x00\x03G\x01a";

const BOTH: &[u8] = b"\x00\x00\x00\x03G\x01a\x00\x00\x00\x01F";

/// Lines, how they end, and the frames before.
static ENCODED: [(&[u8], Result<(), StreamError>, &[u8]); 3] = [
    (INPUT, Err(StreamError::BadLine(5)), BOTH),
    (b"# two\nget a\n\nfetch", Ok(()), BOTH),
    (
        b"get a\nset a @dog\nfetch\n",
        Err(StreamError::Unreadable(2)),
        GET_A,
    ),
];

#[test]
fn a_stream_is_encoded_up_to_a_bad_line(rt: HostRuntime) -> Result<(), Fail> {
    for &(lines, wanted, frames) in &ENCODED {
        let (ended, taken) = encoded(rt.alloc(), Source::new(lines), usize::MAX);
        is_equal_at(&(ended, taken.as_slice()), &(wanted, frames), &lines)?;
    }
    Ok(())
}

#[test]
fn ends_that_fail_while_encoding(rt: HostRuntime) -> Result<(), Fail> {
    for after in 0..=18 {
        let fault = Err(StreamError::Front(FrontError::ReadFault));
        let frames = if after < 12 { b"".as_slice() } else { GET_A };
        let (ended, taken) = encoded(rt.alloc(), Source::broken(INPUT, after), usize::MAX);
        is_equal_at(&(ended, taken.as_slice()), &(fault, frames), &after)?;
    }
    for room in 0..12 {
        let fault = Err(StreamError::Front(FrontError::WriteFault));
        let (front, _) = BOTH.split_at(room);
        let (ended, taken) = encoded(rt.alloc(), Source::new(INPUT), room);
        is_equal_at(&(ended, taken.as_slice()), &(fault, front), &room)?;
    }
    Ok(())
}

/// A request, a reply, and a frame that is neither.
const FRAMES: &[u8] = b"\x00\x00\x00\x03G\x01a\x00\x00\x00\x03f{}\x00\x00\x00\x01X";

/// Frames, how they end, and the lines before.
static DECODED: [(&[u8], Result<(), DecodeError>, &[u8]); 8] = [
    (FRAMES, Err(DecodeError::BadFrame(2)), b"get a\nfound {}\n"),
    (b"", Ok(()), b""),
    (
        b"\x00\x00\x00",
        Err(DecodeError::Front(FrontError::Truncated)),
        b"",
    ),
    (GET_A, Ok(()), b"get a\n"),
    (
        b"\x00\x00\x00\x03G\x01a\x00\x00\x00\x03f{",
        Err(DecodeError::Front(FrontError::Truncated)),
        b"get a\n",
    ),
    (
        b"\x00\x00\x00\x03G\x01a\x00\x00\x00\x03f{}",
        Ok(()),
        b"get a\nfound {}\n",
    ),
    (
        b"\x00\x00\x00\x00",
        Err(DecodeError::Front(FrontError::BadLength)),
        b"",
    ),
    (
        b"\x00\x10\x01\xa9",
        Err(DecodeError::Front(FrontError::BadLength)),
        b"",
    ),
];

#[test]
fn a_stream_is_decoded_up_to_a_bad_frame(rt: HostRuntime) -> Result<(), Fail> {
    for &(frames, wanted, lines) in &DECODED {
        let (ended, taken) = decoded(rt.alloc(), Source::new(frames), usize::MAX);
        is_equal_at(&(ended, taken.as_slice()), &(wanted, lines), &frames)?;
    }
    Ok(())
}

#[test]
fn ends_that_fail_while_decoding(rt: HostRuntime) -> Result<(), Fail> {
    let fault = Err(DecodeError::Front(FrontError::ReadFault));
    let (ended, taken) = decoded(rt.alloc(), Source::broken(FRAMES, 9), usize::MAX);
    is_equal_at(&(ended, taken.as_slice()), &(fault, b"get a\n"), &"read")?;
    let fault = Err(DecodeError::Front(FrontError::WriteFault));
    let (ended, taken) = decoded(rt.alloc(), Source::new(FRAMES), 9);
    is_equal_at(
        &(ended, taken.as_slice()),
        &(fault, b"get a\nfou"),
        &"write",
    )
}

#[test]
fn what_was_encoded_is_decoded(rt: HostRuntime) -> Result<(), Fail> {
    let lines =
        b"version 2\nset a {\"keys\":[]}\nsetif a none {}\nappend a {}\nremove a\nget a\nfetch\n";
    let (encoded, frames) = encoded(rt.alloc(), Source::new(lines), usize::MAX);
    let (decoded, again) = decoded(rt.alloc(), Source::new(frames.as_slice()), usize::MAX);
    is_equal_at(&encoded, &Ok(()), &"encoded")?;
    is_equal_at(&decoded, &Ok(()), &"decoded")?;
    is_equal_at(&again.as_slice(), &lines.as_slice(), &"the same lines")
}
