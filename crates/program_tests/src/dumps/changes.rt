//! What changed from one dump to another.
use super::{Command, Row};

pub(super) const NONE: &[u8] = b"\x00\x00\x00\x09a\x00\x00\x00\x00\x00\x00\x00\x00";

pub(super) const ONE: &[u8] =
    b"\x00\x00\x00\x09a\x00\x00\x00\x00\x00\x00\x00\x01\x00\x00\x00\x0ei\x01a{\"keys\":[]}";

const NUMBERED: &[u8] =
    b"\x00\x00\x00\x09a\x00\x00\x00\x00\x00\x00\x00\x01\x00\x00\x00\x22i\x01a{\"keys\":[],\"spiffe_sequence\":7}";

/// From the input to the dump that is named.
pub(super) static ROWS: [Row; 12] = [
    (Command::Diff(Some(NONE)), NONE, b"", "", 0),
    (Command::Diff(Some(ONE)), ONE, b"", "", 0),
    (
        Command::Diff(Some(ONE)),
        NONE,
        b"+ a authorities 0 sequence none\n",
        "",
        3,
    ),
    (Command::Diff(Some(NONE)), ONE, b"- a\n", "", 3),
    (
        Command::Diff(Some(NUMBERED)),
        NONE,
        b"+ a authorities 0 sequence 7\n",
        "",
        3,
    ),
    (Command::Diff(Some(ONE)), b"", b"", "fault 63 0\n", 1),
    (Command::Diff(Some(b"")), ONE, b"", "fault 63 0\n", 1),
    (
        Command::Diff(Some(b"\x00\x00\x00\x09a\x00\x00\x00\x00\x00\x00\x00\x01")),
        ONE,
        b"",
        "fault 63 1\n",
        1,
    ),
    // The old one is judged first.
    (
        Command::Diff(Some(b"")),
        b"\x00\x00\x00\x09a\x00\x00\x00\x00\x00\x00\x00\x01",
        b"",
        "fault 63 1\n",
        1,
    ),
    (
        Command::Diff(Some(b"\x00\x00\x00\x01F")),
        ONE,
        b"",
        "fault 63 0\n",
        1,
    ),
    // The new one cannot be read.
    (Command::Diff(None), ONE, b"", "fault 53\n", 1),
    // Nor is it, if the old one is not a dump.
    (Command::Diff(None), b"", b"", "fault 63 0\n", 1),
];
