//! Lines are asked of a server whose replies are written down beforehand.
use client::{AskFault, Asking, ClientError, Form, ServerStreams};
use std::alloc::{AllocError, Global};
use std::io;
use std::io::Write;
use std::test::Fail;
use test_kit::protocol::{ABSENT, FETCH_ALL, FOUND, GET, SET, STORED};
use test_kit::{holds_at, is_equal, is_equal_at};
use wire::{Counted, FrontError, TextError, TextSource};

/// The text `doc` is the empty document.
struct OneText;

impl TextSource for OneText {
    ghost use Rattle.std.specs.Prelude.{◌≡◌, ◌≢◌, codes, MatchOption};

    // Only `doc` can be read.
    ghost gives = { λ texts name found. MatchOption found (name ≢ codes "doc") (λ text. name ≡ codes "doc") };

    fn text(&self, alloc: Global, name: &[u8]) -> Result<Vec<u8>, TextError> {
        if name != b"doc".as_slice() {
            return Err(TextError::Unreadable);
        }
        match Vec::from_slice(alloc, b"{\"keys\":[]}") {
            Ok(text) => Ok(text),
            Err(_) => Err(TextError::Memory),
        }
    }
}

const GREETING: &[u8] = b"\x00\x00\x00\x02V\x03";

const GREETED: &[u8] = b"\x00\x00\x00\x02v\x03";

const MEMORY: &[u8] = b"\x00\x00\x00\x01\x16";

const MOVED: &[u8] =
    b"\x00\x00\x00\x15\x29\x00\x00\x00\x02\x00\x00\x00\x00\x00\x00\x00\x03\x00\x00\x00\x00\x00\x00\x00\x04";

const HELD: &[u8] = b"\x00\x00\x00\x0d\x2a\x00\x00\x00\x01\x00\x00\x00\x00\x00\x00\x00\x07";

const ALL_OF_TWO: &[u8] = b"\x00\x00\x00\x09a\x00\x00\x00\x00\x00\x00\x00\x02";

const BUNDLE_A: &[u8] = b"\x00\x00\x00\x0ei\x01a{\"keys\":[]}";

const BUNDLE_B: &[u8] = b"\x00\x00\x00\x0ei\x01b{\"keys\":[]}";

/// A reply to a get whose text has a line feed.
const FOUND_TWO_LINES: &[u8] = b"\x00\x00\x00\x04f{\n}";

/// Room for all that is asked or shown, so that no write takes memory.
const ROOM: usize = 256;

/// What asking leaves.
#[derive(Drop)]
struct Left {
    ended: Result<bool, AskFault>,
    asked: Vec<u8>,
    shown: Vec<u8>,
    /// How many bytes of the replies were not read.
    unread: usize,
}

/// The bytes one after another.
fn joined(alloc: Global, parts: &[&[u8]]) -> Result<Vec<u8>, AllocError> {
    let mut all = Vec::new(alloc);
    for part in parts {
        all.extend_from_slice(part)?;
    }
    Ok(all)
}

fn ask(
    alloc: Global,
    form: Form,
    retries: u32,
    lines: &[u8],
    replies: &[&[u8]],
) -> Result<Left, AllocError> {
    let told = joined(alloc, replies)?;
    let mut lines = Counted::new(lines);
    let mut link = ServerStreams {
        from: Counted::new(told.as_slice()),
        to: Counted::new(Vec::with_capacity(alloc, ROOM)?),
    };
    let mut out = Counted::new(Vec::with_capacity(alloc, ROOM)?);
    let how = Asking { form, retries };
    let ended = link.ask_stream(alloc, how, &OneText, &mut lines, &mut out);
    let unread = link.from.end().len();
    Ok(Left {
        ended,
        asked: link.to.into_end(),
        shown: out.into_end(),
        unread,
    })
}

/// A case: lines, how often they are asked again, replies, what is asked, what is shown, and how it ends.
type Case<'a> = (
    &'a [u8],
    u32,
    &'a [&'a [u8]],
    &'a [&'a [u8]],
    &'a [u8],
    Result<bool, AskFault>,
);

/// Each line is asked, and its reply shown.
static LINES: [Case<'static>; 6] = [
    (b"", 0, &[GREETED], &[GREETING], b"", Ok(false)),
    (b"# none\n\n", 0, &[GREETED], &[GREETING], b"", Ok(false)),
    (
        b"set a @doc\n\nget a",
        0,
        &[GREETED, STORED, FOUND],
        &[GREETING, SET, GET],
        b"stored\nfound {\"keys\":[]}\n",
        Ok(false),
    ),
    (
        b"get a\nset a {\"keys\":[]}\n",
        0,
        &[GREETED, ABSENT, STORED],
        &[GREETING, GET, SET],
        b"refused 30\nstored\n",
        Ok(true),
    ),
    (
        b"set a @doc\nget a",
        0,
        &[GREETED, STORED, ABSENT],
        &[GREETING, SET, GET],
        b"stored\nrefused 30\n",
        Ok(true),
    ),
    (
        b"fetch\nget a\n",
        0,
        &[GREETED, ALL_OF_TWO, BUNDLE_A, BUNDLE_B, FOUND],
        &[GREETING, FETCH_ALL, GET],
        b"all 2\nbundle a {\"keys\":[]}\nbundle b {\"keys\":[]}\nfound {\"keys\":[]}\n",
        Ok(false),
    ),
];

/// What changed nothing is asked again.
static AGAIN: [Case<'static>; 4] = [
    (
        b"set a @doc\n",
        3,
        &[GREETED, MEMORY, MOVED, HELD, STORED],
        &[GREETING, SET, SET, SET, SET],
        b"stored\n",
        Ok(false),
    ),
    (
        b"set a @doc\nget a\n",
        2,
        &[GREETED, MEMORY, MOVED, HELD, FOUND],
        &[GREETING, SET, SET, SET, GET],
        b"held 1 7\nfound {\"keys\":[]}\n",
        Ok(true),
    ),
    (
        b"get a\n",
        0,
        &[GREETED, MOVED],
        &[GREETING, GET],
        b"moved 2 3 4\n",
        Ok(true),
    ),
    (
        b"get a\n",
        5,
        &[GREETED, ABSENT],
        &[GREETING, GET],
        b"refused 30\n",
        Ok(true),
    ),
];

/// A bad line ends it.
static BAD_LINES: [Case<'static>; 3] = [
    (
        b"get a\nget\nget a\n",
        0,
        &[GREETED, FOUND],
        &[GREETING, GET],
        b"found {\"keys\":[]}\n",
        Err(AskFault::BadLine(2)),
    ),
    (
        b"set a @dog",
        0,
        &[GREETED],
        &[GREETING],
        b"",
        Err(AskFault::Unreadable(1)),
    ),
    (
        b"get a\ngot a",
        0,
        &[GREETED, FOUND],
        &[GREETING, GET],
        b"found {\"keys\":[]}\n",
        Err(AskFault::BadLine(2)),
    ),
];

/// Nothing is guessed of a reply.
static NO_REPLIES: [Case<'static>; 9] = [
    (
        b"get a\n",
        0,
        &[],
        &[GREETING],
        b"",
        Err(AskFault::Server(ClientError::Truncated)),
    ),
    (
        b"get a\n",
        0,
        &[STORED],
        &[GREETING],
        b"",
        Err(AskFault::Server(ClientError::BadReply)),
    ),
    (
        b"get a\n",
        0,
        &[GREETED, b"\x00\x00\x00\x00"],
        &[GREETING, GET],
        b"",
        Err(AskFault::Server(ClientError::BadLength)),
    ),
    (
        b"get a\n",
        0,
        &[GREETED, b"\x00\x00\x00\x0cf{\"keys\":["],
        &[GREETING, GET],
        b"",
        Err(AskFault::Server(ClientError::Truncated)),
    ),
    (
        b"get a\n",
        0,
        &[GREETED, b"\x00\x00\x00\x01z"],
        &[GREETING, GET],
        b"",
        Err(AskFault::Server(ClientError::BadReply)),
    ),
    // The name of a bundle has a space, so the reply has no line.
    (
        b"fetch\n",
        0,
        &[GREETED, ALL_OF_TWO, b"\x00\x00\x00\x04i\x01 x"],
        &[GREETING, FETCH_ALL],
        b"all 2\n",
        Err(AskFault::Server(ClientError::BadReply)),
    ),
    (
        b"fetch\n",
        0,
        &[GREETED, ALL_OF_TWO, BUNDLE_A, STORED],
        &[GREETING, FETCH_ALL],
        b"all 2\nbundle a {\"keys\":[]}\n",
        Err(AskFault::Server(ClientError::BadReply)),
    ),
    (
        b"fetch\n",
        0,
        &[GREETED, ALL_OF_TWO, BUNDLE_A],
        &[GREETING, FETCH_ALL],
        b"all 2\nbundle a {\"keys\":[]}\n",
        Err(AskFault::Server(ClientError::Truncated)),
    ),
    (
        b"get a\n",
        0,
        &[GREETED, BUNDLE_A],
        &[GREETING, GET],
        b"",
        Err(AskFault::Server(ClientError::BadReply)),
    ),
];

fn is_asked_so(
    alloc: Global,
    (lines, retries, replies, asked, shown, ended): Case<'_>,
) -> Result<(), Fail> {
    let left = ask(alloc, Form::Lines, retries, lines, replies)?;
    let asked = joined(alloc, asked)?;
    is_equal_at(&left.ended, &ended, &lines)?;
    is_equal_at(&left.asked.as_slice(), &asked.as_slice(), &lines)?;
    is_equal_at(&left.shown.as_slice(), &shown, &lines)
}

fn are_asked_so(alloc: Global, cases: &[Case<'_>]) -> Result<(), Fail> {
    for &case in cases {
        is_asked_so(alloc, case)?;
    }
    Ok(())
}

#[test]
fn lines_are_asked(rt: HostRuntime) -> Result<(), Fail> {
    are_asked_so(rt.alloc(), &LINES)?;
    are_asked_so(rt.alloc(), &AGAIN)?;
    are_asked_so(rt.alloc(), &BAD_LINES)?;
    are_asked_so(rt.alloc(), &NO_REPLIES)
}

/// What is shown if replies are shown as they came.
const DUMP: &[&[u8]] = &[ALL_OF_TWO, BUNDLE_A, BUNDLE_B, ABSENT];

// No byte beyond the last reply is read.
#[test]
fn frames_are_shown_as_they_came(rt: HostRuntime) -> Result<(), Fail> {
    let alloc = rt.alloc();
    let replies = [
        GREETED, MOVED, ALL_OF_TWO, BUNDLE_A, BUNDLE_B, ABSENT, STORED,
    ];
    let left = ask(alloc, Form::Frames, 1, b"fetch\nget a\n", &replies)?;
    let dump = joined(alloc, DUMP)?;
    let found = (left.ended, left.shown.as_slice(), left.unread);
    is_equal(&found, &(Ok(true), dump.as_slice(), STORED.len()))
}

/// Lines that are asked for texts, with the replies to them and what is shown: only what a get found loses its verb.
const TEXT_LINES: &[u8] = b"get a\nget a\nfetch\nset a @doc\n";

const TEXTS: &[u8] =
    b"{\"keys\":[]}\nrefused 30\nall 2\nbundle a {\"keys\":[]}\nbundle b {\"keys\":[]}\nstored\n";

#[test]
fn texts_are_shown_alone(rt: HostRuntime) -> Result<(), Fail> {
    let alloc = rt.alloc();
    let replies = [
        GREETED, FOUND, ABSENT, ALL_OF_TWO, BUNDLE_A, BUNDLE_B, STORED,
    ];
    let left = ask(alloc, Form::Texts, 0, TEXT_LINES, &replies)?;
    is_equal(&(left.ended, left.shown.as_slice()), &(Ok(true), TEXTS))?;
    // A text of two lines would be none.
    let torn = ask(
        alloc,
        Form::Texts,
        0,
        b"get a\n",
        &[GREETED, FOUND_TWO_LINES],
    )?;
    let bad = Err(AskFault::Server(ClientError::BadReply));
    is_equal(&(torn.ended, torn.shown.as_slice()), &(bad, b"".as_slice()))
}

/// To be run with each allocation refused in turn: it passes only if nothing was refused.
#[test]
fn a_refused_growth_is_told(rt: HostRuntime) -> Result<(), Fail> {
    let lines = b"set a @doc\nget a\n";
    let replies = [GREETED, STORED, FOUND];
    let left = ask(rt.alloc(), Form::Lines, 0, lines, &replies)?;
    let shown = left.shown.as_slice();
    let is_first = shown == b"stored\n".as_slice();
    match left.ended {
        Ok(false) => is_equal(&shown, &b"stored\nfound {\"keys\":[]}\n".as_slice()),
        Err(AskFault::Front(FrontError::Memory)) if shown.is_empty() || is_first => {
            Err(Fail::from(AllocError))
        }
        _ => holds_at(false, &left.ended),
    }
}

/// A writer that takes so many bytes, and then fails.
#[derive(Drop)]
struct Full {
    room: usize,
}

impl Write for Full {
    fn write(&mut self, buf: &[u8]) -> io::Result<usize> {
        let size = self.room.min(buf.len());
        self.room -= size;
        Ok(size)
    }

    fn flush(&mut self) -> io::Result<()> {
        Ok(())
    }
}

/// How much room the server and the output have, and how asking ends.
static ROOMS: [(usize, usize, AskFault); 3] = [
    (4, 99, AskFault::Server(ClientError::WriteFault)),
    (9, 99, AskFault::Server(ClientError::WriteFault)),
    (99, 3, AskFault::Front(FrontError::WriteFault)),
];

#[test]
fn a_full_writer_is_told(rt: HostRuntime) -> Result<(), Fail> {
    let told = joined(rt.alloc(), &[GREETED, FOUND])?;
    for &(to, out, why) in &ROOMS {
        let mut lines = Counted::new(b"get a\n".as_slice());
        let mut link = ServerStreams {
            from: Counted::new(told.as_slice()),
            to: Counted::new(Full { room: to }),
        };
        let mut out = Counted::new(Full { room: out });
        let how = Asking {
            form: Form::Lines,
            retries: 0,
        };
        let ended = link.ask_stream(rt.alloc(), how, &OneText, &mut lines, &mut out);
        is_equal_at(&ended, &Err(why), &to)?;
    }
    Ok(())
}
