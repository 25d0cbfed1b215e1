//! Bundle maps, and the requests that they become.
use super::examples::{MAP, SETS};
use super::{Command, Row};

pub(super) static ROWS: [Row; 10] = [
    (Command::Import, MAP, SETS, "", 0),
    (Command::Import, b"{\"trust_domains\":{}}", b"", "", 0),
    (
        Command::Import,
        b"{\"trust_domains\": {\"b\": {\"keys\": []}, \"a\": {\"keys\": [{\"kty\": \"OKP\"}]}}}\n",
        b"\x00\x00\x00\x0eS\x01b{\"keys\":[]}\x00\x00\x00\x0eS\x01a{\"keys\":[]}",
        "",
        0,
    ),
    // What is not a map is fault 64, and a bad member is fault 65 with its place, from 0. Nothing is written, though
    // members before it are good.
    (Command::Import, b"", b"", "fault 64\n", 1),
    (Command::Import, b"[]", b"", "fault 64\n", 1),
    (Command::Import, b"{\"keys\":[]}", b"", "fault 64\n", 1),
    (
        Command::Import,
        b"{\"trust_domains\":[]}",
        b"",
        "fault 64\n",
        1,
    ),
    (
        Command::Import,
        b"{\"trust_domains\":{\"a\":[]}}",
        b"",
        "fault 65 0\n",
        1,
    ),
    (
        Command::Import,
        b"{\"trust_domains\":{\"a\":{\"keys\":[]},\"B\":{\"keys\":[]},\"c\":1}}",
        b"",
        "fault 65 1\n",
        1,
    ),
    (
        Command::Import,
        b"{\"trust_domains\":{\"a\":{\"keys\":[]},\"b\":{\"keys\":[]},\"a\":{\"keys\":[]}}}",
        b"",
        "fault 65 2\n",
        1,
    ),
];
