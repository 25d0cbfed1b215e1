//! Lines become frames, and frames lines; and a text is written as it is.
use super::{Command, FIRST_REPLIES, FIRST_RUN, Row};

pub(super) const GET_A: &[u8] = b"\x00\x00\x00\x03G\x01a";

pub(super) static ROWS: [Row; 14] = [
    (Command::Encode, b"", b"", "", 0),
    (
        Command::Encode,
        b"set a {\"keys\":[]}\nget a\n",
        FIRST_RUN,
        "",
        0,
    ),
    (
        Command::Encode,
        b"# named\nset a @empty\n\nget a",
        FIRST_RUN,
        "",
        0,
    ),
    (
        Command::Encode,
        b"get a\nget\nget a\n",
        GET_A,
        "fault 70 2\n",
        1,
    ),
    (Command::Encode, b"get a\nget", GET_A, "fault 70 2\n", 1),
    (
        Command::Encode,
        b"get a\n\nset a @other\n",
        GET_A,
        "fault 77 3\n",
        1,
    ),
    (Command::Encode, b"append a @", b"", "fault 77 1\n", 1),
    (Command::Decode, b"", b"", "", 0),
    (
        Command::Decode,
        FIRST_REPLIES,
        b"stored\nfound {\"keys\":[]}\n",
        "",
        0,
    ),
    (
        Command::Decode,
        FIRST_RUN,
        b"set a {\"keys\":[]}\nget a\n",
        "",
        0,
    ),
    (
        Command::Decode,
        b"\x00\x00\x00\x03G\x01a\x00\x00\x00\x01X",
        b"get a\n",
        "fault 76 1\n",
        1,
    ),
    (
        Command::Decode,
        b"\x00\x00\x00\x03G\x01a\x00",
        b"get a\n",
        "fault 52\n",
        1,
    ),
    (Command::Decode, b"\x00\x10\x01\xa9", b"", "fault 50\n", 1),
    (Command::Explain("31 Stale\n"), b"", b"31 Stale\n", "", 0),
];
