//! Lines that come in pieces.
use std::alloc::Global;
use std::test::Fail;
use test_kit::{holds_at, is_equal_at};
use wire::LineDecoder;

/// The lines of a stream in pieces of this size, one after the other, each with a bar behind it; and then what is kept.
fn lines_of(alloc: Global, stream: &[u8], size: usize) -> Result<Vec<u8>, Fail> {
    let mut lines = Vec::new(alloc);
    let mut decoder = LineDecoder::new(alloc)?;
    for piece in stream.chunks(size.max(1)) {
        decoder.feed(piece)?;
        for _ in 0..=size {
            let Some(length) = decoder.next_line() else {
                break;
            };
            let line = decoder.kept().get(..length).ok_or("the line is kept")?;
            lines.extend_from_slice(line)?;
            lines.push(b'|')?;
            decoder.pass(length);
        }
    }
    lines.extend_from_slice(decoder.kept())?;
    Ok(lines)
}

/// A stream and its lines, in pieces of any size.
static LINES: [(&[u8], &[u8]); 6] = [
    (b"", b""),
    (b"\n", b"|"),
    (b"get a\nget b\n", b"get a|get b|"),
    (b"get a\n\n\nget b", b"get a|||get b"),
    (
        b"a longer line that has no end",
        b"a longer line that has no end",
    ),
    (b"\xff\x00\nget a\r\n", b"\xff\x00|get a\r|"),
];

#[test]
fn pieces_do_not_matter(rt: HostRuntime) -> Result<(), Fail> {
    for &(stream, wanted) in &LINES {
        for size in 1..8 {
            let found = lines_of(rt.alloc(), stream, size)?;
            is_equal_at(&found.as_slice(), &wanted, &(stream, size))?;
        }
    }
    Ok(())
}

#[test]
fn a_long_line_is_searched_once(rt: HostRuntime) -> Result<(), Fail> {
    let mut decoder = LineDecoder::new(rt.alloc())?;
    for count in 0..20_000 {
        decoder.feed(b"a piece without its end ")?;
        holds_at(decoder.next_line().is_none(), &count)?;
    }
    decoder.feed(b"\n")?;
    is_equal_at(
        &decoder.next_line(),
        &Some(480_000),
        &"20,000 pieces of 24 bytes",
    )
}
