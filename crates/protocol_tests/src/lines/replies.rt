//! Replies: lines, and the payloads that they are.
use std::alloc::{AllocError, Global};
use std::test::Fail;
use test_kit::{holds_at, is_equal_at};
use wire::{Detail, PayloadError, ReplyForm, put_line_of, reply_of_payload};

/// Lines and their payloads, as docs/FORMATS.md has them.
static PAYLOADS: [(&[u8], &[u8]); 31] = [
    (b"stored", b"s"),
    (b"unchanged", b"u"),
    (b"removed", b"d"),
    (b"appended -", b"p\x00"),
    (b"appended 7", b"p\x01\x00\x00\x00\x00\x00\x00\x00\x07"),
    (b"found {\"keys\":[]}", b"f{\"keys\":[]}"),
    (b"found ", b"f"),
    (b"all 258", b"a\x00\x00\x00\x00\x00\x00\x01\x02"),
    (b"bundle a.b {\"keys\":[]}", b"i\x03a.b{\"keys\":[]}"),
    (b"stats ", b"m"),
    (b"stats a=1 b=2", b"ma=1 b=2"),
    (b"version 1", b"v\x01"),
    (b"same", b"e"),
    (b"version 2", b"v\x02"),
    (b"version 3", b"v\x03"),
    (b"refused 1", b"\x01"),
    (b"refused 3 2", b"\x03\x00\x00\x00\x02"),
    (b"refused 10", b"\x0a"),
    (b"refused 17 1024", b"\x11\x00\x00\x04\x00"),
    (b"refused 23", b"\x17"),
    (b"refused 30", b"\x1e"),
    (b"refused 31 7", b"\x1f\x00\x00\x00\x00\x00\x00\x00\x07"),
    (b"refused 36 absent", b"\x24\x00"),
    (b"refused 36 none", b"\x24\x02"),
    (
        b"refused 36 18446744073709551615",
        b"\x24\x01\xff\xff\xff\xff\xff\xff\xff\xff",
    ),
    (b"refused 51", b"\x33"),
    (
        b"moved 0 2 3",
        b"\x29\x00\x00\x00\x00\x00\x00\x00\x00\x00\x00\x00\x02\x00\x00\x00\x00\x00\x00\x00\x03",
    ),
    (
        b"held 255 9",
        b"\x2a\x00\x00\x00\xff\x00\x00\x00\x00\x00\x00\x00\x09",
    ),
    (b"worn 1", b"\x28\x00\x00\x00\x01"),
    (b"memory", b"\x16"),
    (b"shut", b"\x38"),
];

/// The line of a reply. None if it has none.
fn line_of(alloc: Global, form: &ReplyForm<'_>) -> Result<Option<Vec<u8>>, AllocError> {
    let Some(head) = form.line_head() else {
        return Ok(None);
    };
    let mut line = Vec::from_slice(alloc, head.as_slice())?;
    line.extend_from_slice(form.text())?;
    Ok(Some(line))
}

#[test]
fn payloads_become_lines(rt: HostRuntime) -> Result<(), Fail> {
    for &(line, payload) in &PAYLOADS {
        let form = reply_of_payload(payload).ok_or("the payload is a reply")?;
        let found = line_of(rt.alloc(), &form)?.ok_or("the reply has a line")?;
        is_equal_at(&found.as_slice(), &line, &payload)?;
    }
    Ok(())
}

static NOT_PAYLOADS: [&[u8]; 17] = [
    b"",
    b"s\x00",
    b"p",
    b"p\x02",
    b"p\x01\x00\x00\x00\x07",
    b"a\x00",
    b"i",
    b"i\x02a",
    b"v\x04",
    b"e\x00",
    b"\x02",
    b"\x03",
    b"\x1e\x00",
    b"\x1f",
    b"\x24\x03",
    b"\x29\x00\x00\x00\x00",
    b"S\x01a{}",
];

/// Replies without a line.
static FORMS: [ReplyForm<'static>; 8] = [
    ReplyForm::Found(b"{\n}"),
    ReplyForm::Counts(b"a=1\nb=2"),
    ReplyForm::Bundle(b"a b", b"{}"),
    ReplyForm::Bundle(b"a\n", b"{}"),
    ReplyForm::Bundle(b"a", b"{}\n"),
    ReplyForm::Refused(2, Detail::Nothing),
    ReplyForm::Refused(30, Detail::Place(0)),
    ReplyForm::Refused(31, Detail::Nothing),
];

#[test]
fn what_is_no_reply(_rt: HostRuntime) -> Result<(), Fail> {
    for &payload in &NOT_PAYLOADS {
        holds_at(reply_of_payload(payload).is_none(), &payload)?;
    }
    for form in &FORMS {
        holds_at(form.line_head().is_none(), form)?;
    }
    Ok(())
}

/// Requests and replies, and the line of each, if it has one.
static BOTH: [(&[u8], Result<&[u8], PayloadError>); 11] = [
    (b"G\x01a", Ok(b"get a\n")),
    (b"f{}", Ok(b"found {}\n")),
    (b"\x16", Ok(b"memory\n")),
    (b"F", Ok(b"fetch\n")),
    (b"V\x02", Ok(b"version 2\n")),
    (b"e", Ok(b"same\n")),
    (b"v\x02", Ok(b"version 2\n")),
    (b"", Err(PayloadError::NoLine)),
    (b"X", Err(PayloadError::NoLine)),
    (b"G\x03a b", Err(PayloadError::NoLine)),
    (b"f{\n}", Err(PayloadError::NoLine)),
];

#[test]
fn requests_and_replies_become_lines(rt: HostRuntime) -> Result<(), Fail> {
    let mut out = Vec::new(rt.alloc());
    for &(payload, wanted) in &BOTH {
        let put = put_line_of(payload, &mut out);
        let found = match put {
            Ok(()) => Ok(out.as_slice()),
            Err(error) => Err(error),
        };
        is_equal_at(&found, &wanted, &payload)?;
        holds_at(put.is_ok() || out.is_empty(), &payload)?;
        out.clear();
    }
    Ok(())
}

#[test]
fn a_refused_growth_appends_nothing(rt: HostRuntime) -> Result<(), Fail> {
    let mut out = Vec::from_slice(rt.alloc(), b"before ")?;
    let put = put_line_of(b"f{\"keys\":[]}", &mut out);
    if put == Err(PayloadError::Memory) {
        is_equal_at(&out.as_slice(), &b"before ".as_slice(), &put)?;
        put_line_of(b"f{\"keys\":[]}", &mut out)?;
    }
    let wanted = b"before found {\"keys\":[]}\n".as_slice();
    is_equal_at(&out.as_slice(), &wanted, &put)?;
    if put.is_err() {
        return Err(Fail::from(AllocError));
    }
    Ok(())
}
