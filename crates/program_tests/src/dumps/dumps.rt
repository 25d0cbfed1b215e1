//! Dumps, and what is written of them.
use super::Command;
use super::examples::{DIGEST, DUMP, EMPTY, EMPTY_DIGEST, MAP, PEM, SHORT, SOME, X509_MAP};
use dump_views::Profile;

/// A command, and what it leaves: its output, its fault line and its status.
type Row = (Command, &'static [u8], &'static str, u8);

/// Dumps, with what commands leave of each.
pub(super) static DUMPS: [(&[u8], &[Row]); 5] = [
    (DUMP, OF_THREE),
    (EMPTY, OF_NONE),
    (SHORT, OF_SHORT),
    (b"", OF_NO_DUMP),
    (b"{\"keys\":[]}", OF_NO_DUMP),
];

// A name that no domain has is fault 75 with its place on the command line, from 1.
const OF_THREE: &[Row] = &[
    (Command::Map(&[], Profile::Whole), MAP, "", 0),
    (Command::Map(&["b", "a"], Profile::Whole), SOME, "", 0),
    (
        Command::Map(&["a", "b", "a"], Profile::X509),
        X509_MAP,
        "",
        0,
    ),
    (
        Command::Map(&["b"], Profile::Whole),
        b"{\"trust_domains\":{\"b\":{\"keys\":[],\"spiffe_sequence\":12}}}\n",
        "",
        0,
    ),
    (
        Command::Map(&["b"], Profile::X509),
        b"{\"trust_domains\":{\"b\":{\"keys\":[],\"spiffe_sequence\":12}}}\n",
        "",
        0,
    ),
    (Command::Pem("example.org"), PEM, "", 0),
    (
        Command::Pem("a"),
        b"-----BEGIN CERTIFICATE-----\nMAA=\n-----END CERTIFICATE-----\n",
        "",
        0,
    ),
    (Command::Pem("b"), b"", "", 0),
    (Command::Digest, DIGEST, "", 0),
    (
        Command::Map(&["a", "c", "b", "d"], Profile::Whole),
        b"",
        "fault 75 2\n",
        1,
    ),
    (Command::Map(&["d"], Profile::X509), b"", "fault 75 1\n", 1),
    (
        Command::Map(&["a", "b", "example.com"], Profile::Whole),
        b"",
        "fault 75 3\n",
        1,
    ),
    (Command::Pem("c"), b"", "fault 75 1\n", 1),
];

const OF_NONE: &[Row] = &[
    (
        Command::Map(&[], Profile::Whole),
        b"{\"trust_domains\":{}}\n",
        "",
        0,
    ),
    (
        Command::Map(&[], Profile::X509),
        b"{\"trust_domains\":{}}\n",
        "",
        0,
    ),
    (Command::Digest, EMPTY_DIGEST, "", 0),
    (Command::Pem("a"), b"", "fault 75 1\n", 1),
];

// What is not a dump is fault 63 with its first bad frame, and outweighs a name that is missing.
const OF_SHORT: &[Row] = &[
    (Command::Map(&[], Profile::Whole), b"", "fault 63 2\n", 1),
    (Command::Map(&["c"], Profile::Whole), b"", "fault 63 2\n", 1),
    (Command::Pem("c"), b"", "fault 63 2\n", 1),
    (Command::Digest, b"", "fault 63 2\n", 1),
];

const OF_NO_DUMP: &[Row] = &[
    (Command::Map(&[], Profile::Whole), b"", "fault 63 0\n", 1),
    (Command::Map(&["c"], Profile::Whole), b"", "fault 63 0\n", 1),
    (Command::Pem("c"), b"", "fault 63 0\n", 1),
    (Command::Digest, b"", "fault 63 0\n", 1),
];
