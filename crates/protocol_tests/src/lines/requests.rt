//! Requests: lines, and the frames that they become.
use std::alloc::{AllocError, Global};
use std::test::Fail;
use test_kit::{holds_at, is_equal_at};
use wire::{RequestForm, request_of_line, request_of_payload};

/// The frame of a request. None if none carries it.
fn frame_of(alloc: Global, form: &RequestForm<'_>) -> Result<Option<Vec<u8>>, AllocError> {
    let Some(head) = form.frame_head() else {
        return Ok(None);
    };
    let mut frame = Vec::from_slice(alloc, head.as_slice())?;
    frame.extend_from_slice(form.text())?;
    Ok(Some(frame))
}

/// The line of a request. None if it has none.
fn line_of(alloc: Global, form: &RequestForm<'_>) -> Result<Option<Vec<u8>>, AllocError> {
    let Some(head) = form.line_head() else {
        return Ok(None);
    };
    let mut line = Vec::from_slice(alloc, head.as_slice())?;
    line.extend_from_slice(form.text())?;
    Ok(Some(line))
}

/// Lines and their frames, as docs/FORMATS.md has them.
static FRAMES: [(&[u8], &[u8]); 16] = [
    (
        b"set a {\"keys\":[]}",
        b"\x00\x00\x00\x0eS\x01a{\"keys\":[]}",
    ),
    (b"set a ", b"\x00\x00\x00\x03S\x01a"),
    (b"set a \xff { }", b"\x00\x00\x00\x08S\x01a\xff { }"),
    (
        b"setif a.example absent {}",
        b"\x00\x00\x00\x0eC\x09a.example\x00{}",
    ),
    (b"setif a none {}", b"\x00\x00\x00\x06C\x01a\x02{}"),
    (
        b"setif a 7 {}",
        b"\x00\x00\x00\x0eC\x01a\x01\x00\x00\x00\x00\x00\x00\x00\x07{}",
    ),
    (
        b"setif a 18446744073709551615 {}",
        b"\x00\x00\x00\x0eC\x01a\x01\xff\xff\xff\xff\xff\xff\xff\xff{}",
    ),
    (b"append a {}", b"\x00\x00\x00\x05A\x01a{}"),
    (b"remove a", b"\x00\x00\x00\x03R\x01a"),
    (b"get a", b"\x00\x00\x00\x03G\x01a"),
    (b"get ", b"\x00\x00\x00\x02G\x00"),
    (b"fetch", b"\x00\x00\x00\x01F"),
    (b"stats", b"\x00\x00\x00\x01M"),
    (b"version 2", b"\x00\x00\x00\x02V\x02"),
    (b"version 3", b"\x00\x00\x00\x02V\x03"),
    (
        b"fetch unless 9cf4b161f3571e751912f9a78ae2015c4fb288afe59c798f5452a18d6254c893",
        b"\x00\x00\x00\x21U\x9c\xf4\xb1\x61\xf3\x57\x1e\x75\x19\x12\xf9\xa7\x8a\xe2\x01\x5c\x4f\xb2\x88\xaf\xe5\x9c\x79\x8f\x54\x52\xa1\x8d\x62\x54\xc8\x93",
    ),
];

#[test]
fn lines_become_frames_and_frames_lines(rt: HostRuntime) -> Result<(), Fail> {
    for &(line, frame) in &FRAMES {
        let form = request_of_line(line).ok_or("the line is a request")?;
        let found = frame_of(rt.alloc(), &form)?.ok_or("the request has a frame")?;
        is_equal_at(&found.as_slice(), &frame, &line)?;
        let (_, payload) = frame.split_at_checked(4).ok_or("a frame has a length")?;
        let form = request_of_payload(payload).ok_or("the payload is a request")?;
        let found = line_of(rt.alloc(), &form)?.ok_or("the request has a line")?;
        is_equal_at(&found.as_slice(), &line, &frame)?;
    }
    Ok(())
}

static NOT_LINES: [&[u8]; 32] = [
    b"stats ",
    b"stats a",
    b"Stats",
    b"setif a Unnumbered {}",
    b"",
    b" ",
    b"set",
    b"set a",
    b"setif a absent",
    b"setif a 07 {}",
    b"setif a +7 {}",
    b"setif a -1 {}",
    b"setif a  {}",
    b"setif a 18446744073709551616 {}",
    b"setif a Absent {}",
    b"append a",
    b"get",
    b"get a b",
    b"get a ",
    b"remove a ",
    b"fetch ",
    b"fetch a",
    b"version",
    b"version 4",
    b"fetch unless",
    b"fetch unless ",
    b"fetch unless 9cf4",
    b"fetch unless 9cf4b161f3571e751912f9a78ae2015c4fb288afe59c798f5452a18d6254c89g",
    b"fetch unless 9CF4B161F3571E751912F9A78AE2015C4FB288AFE59C798F5452A18D6254C893",
    b"version 01",
    b"Get a",
    b" get a",
];

static NOT_PAYLOADS: [&[u8]; 18] = [
    b"M\x00",
    b"",
    b"G",
    b"G\x02a",
    b"G\x01ab",
    b"S",
    b"S\x01",
    b"F\x00",
    b"V",
    b"V\x00",
    b"V\x04",
    b"U",
    b"U\x00\x00\x00\x00\x00\x00\x00\x00\x00\x00\x00\x00\x00\x00\x00\x00\x00\x00\x00\x00\x00\x00\x00\x00\x00\x00\x00\x00\x00\x00\x00",
    b"U\x00\x00\x00\x00\x00\x00\x00\x00\x00\x00\x00\x00\x00\x00\x00\x00\x00\x00\x00\x00\x00\x00\x00\x00\x00\x00\x00\x00\x00\x00\x00\x00\x00",
    b"V\x01\x01",
    b"C\x01a",
    b"C\x01a\x01\x00\x00\x00\x00\x00\x00\x07",
    b"C\x01a\x03{}",
];

/// Lines that are spelled otherwise than they are written, with what is written.
static SPELLED: [(&[u8], &[u8]); 2] = [
    (b"setif a unnumbered {}", b"setif a none {}"),
    (b"setif unnumbered unnumbered ", b"setif unnumbered none "),
];

#[test]
fn a_bundle_without_a_sequence_has_two_words(rt: HostRuntime) -> Result<(), Fail> {
    for &(line, written) in &SPELLED {
        let form = request_of_line(line).ok_or("the line is a request")?;
        let found = line_of(rt.alloc(), &form)?.ok_or("the request has a line")?;
        is_equal_at(&found.as_slice(), &written, &line)?;
    }
    Ok(())
}

/// Requests without a line.
static NO_LINES: [&[u8]; 8] = [
    b"S\x01a@doc",
    b"A\x01a@",
    b"C\x01a\x02@{}",
    b"G\x03a b",
    b"G\x02a\n",
    b"S\x01a{\n}",
    b"A\x01a{}\n",
    b"C\x01a\x00\n",
];

#[test]
fn what_is_no_request(_rt: HostRuntime) -> Result<(), Fail> {
    for &line in &NOT_LINES {
        holds_at(request_of_line(line).is_none(), &line)?;
    }
    for &payload in &NOT_PAYLOADS {
        holds_at(request_of_payload(payload).is_none(), &payload)?;
    }
    for &payload in &NO_LINES {
        let form = request_of_payload(payload).ok_or("the payload is a request")?;
        holds_at(form.line_head().is_none(), &payload)?;
    }
    Ok(())
}

/// A `setif` of a name of so many bytes.
fn set_if(alloc: Global, length: usize) -> Result<String, AllocError> {
    let name = "a".repeat(alloc, length)?;
    format!(in alloc; "setif {name} 18446744073709551615 {{}}")
}

#[test]
fn the_longest_name(rt: HostRuntime) -> Result<(), Fail> {
    let line = set_if(rt.alloc(), 255)?;
    let form = request_of_line(line.as_bytes()).ok_or("the line is a request")?;
    let written = line_of(rt.alloc(), &form)?.ok_or("the request has a line")?;
    is_equal_at(&written.as_slice(), &line.as_bytes(), &"255 bytes")?;
    let frame = frame_of(rt.alloc(), &form)?.ok_or("the request has a frame")?;
    is_equal_at(&frame.len(), &(4 + 2 + 255 + 9 + 2), &"255 bytes")?;
    let line = set_if(rt.alloc(), 256)?;
    holds_at(request_of_line(line.as_bytes()).is_none(), &"256 bytes")
}

/// How many spaces a document has, and whether a frame carries the request.
static LONGEST: [(usize, bool); 2] = [(1_048_997, true), (1_048_998, false)];

#[test]
fn the_longest_payload(rt: HostRuntime) -> Result<(), Fail> {
    for &(spaces, has_frame) in &LONGEST {
        let document = " ".repeat(rt.alloc(), spaces)?;
        let line = format!(in rt.alloc(); "set a {document}")?;
        let form = request_of_line(line.as_bytes()).ok_or("the line is a request")?;
        is_equal_at(&form.frame_head().is_some(), &has_frame, &spaces)?;
    }
    Ok(())
}
