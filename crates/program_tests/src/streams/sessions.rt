//! Sessions: what comes in, and what goes out.
use super::{Command, FIRST_REPLIES, FIRST_RUN, MIGRATED, RUN, Row, leaves};
use std::test::Fail;
use test_kit::ends::Source;

pub(super) static ROWS: [Row; 6] = [
    (RUN, FIRST_RUN, FIRST_REPLIES, "", 0),
    (RUN, b"", b"", "", 0),
    (RUN, b"\x00\x00\x00\x00", b"", "fault 50\n", 1),
    (RUN, b"\x00\x10\x01\xa9", b"", "fault 50\n", 1),
    (
        RUN,
        b"\x00\x00\x00\x03G\x01a\x00",
        b"\x00\x00\x00\x01\x1e",
        "fault 52\n",
        1,
    ),
    (
        Command::Run(4, 1),
        FIRST_RUN,
        FIRST_REPLIES,
        "fault 55\n",
        1,
    ),
];

/// Sessions: what comes in, and what goes out.
static SESSIONS: [(&[u8], &[u8]); 10] = [
    (FIRST_RUN, FIRST_REPLIES),
    (MIGRATED, b"\x00\x00\x00\x02v\x02\x00\x00\x00\x01s"),
    (
        b"\x00\x00\x00\x0eS\x01a{\"keys\":[]}\x00\x00\x00\x01F",
        b"\x00\x00\x00\x01s\x00\x00\x00\x09a\x00\x00\x00\x00\x00\x00\x00\x01\x00\x00\x00\x0ei\x01a{\"keys\":[]}",
    ),
    (
        b"\x00\x00\x00\x01F",
        b"\x00\x00\x00\x09a\x00\x00\x00\x00\x00\x00\x00\x00",
    ),
    (
        b"\x00\x00\x00\x22S\x01a{\"keys\":[],\"spiffe_sequence\":9}\x00\x00\x00\x41A\x01a{\"use\":\"jwt-svid\",\"kty\":\"RSA\",\"kid\":\"k\",\"n\":\"AQAB\",\"e\":\"AQAB\"}",
        b"\x00\x00\x00\x01s\x00\x00\x00\x0ap\x01\x00\x00\x00\x00\x00\x00\x00\x0a",
    ),
    (
        b"\x00\x00\x00\x0eS\x01a{\"keys\":[]}\x00\x00\x00\x41A\x01a{\"use\":\"jwt-svid\",\"kty\":\"RSA\",\"kid\":\"k\",\"n\":\"AQAB\",\"e\":\"AQAB\"}",
        b"\x00\x00\x00\x01s\x00\x00\x00\x02p\x00",
    ),
    (
        b"\x00\x00\x00\x21A\x01a{\"kty\":\"OKP\",\"use\":\"jwt-svid\"}",
        b"\x00\x00\x00\x01\x17",
    ),
    (
        b"\x00\x00\x00\x01F\x00\x00\x00\x0eS\x01a{\"keys\":[]}\x00\x00\x00\x0eS\x01b{\"keys\":[]}\x00\x00\x00\x01F\x00\x00\x00\x03R\x01a\x00\x00\x00\x03G\x01a\x00\x00\x00\x01F\x00\x00\x00\x01Z",
        b"\x00\x00\x00\x09a\x00\x00\x00\x00\x00\x00\x00\x00\x00\x00\x00\x01s\x00\x00\x00\x01s\x00\x00\x00\x09a\x00\x00\x00\x00\x00\x00\x00\x02\x00\x00\x00\x0ei\x01a{\"keys\":[]}\x00\x00\x00\x0ei\x01b{\"keys\":[]}\x00\x00\x00\x01d\x00\x00\x00\x01\x1e\x00\x00\x00\x09a\x00\x00\x00\x00\x00\x00\x00\x01\x00\x00\x00\x0ei\x01b{\"keys\":[]}\x00\x00\x00\x013",
    ),
    // A document older than the one that is stored.
    (
        b"\x00\x00\x00\"S\x01a{\"keys\":[],\"spiffe_sequence\":5}\x00\x00\x00\"S\x01a{\"keys\":[],\"spiffe_sequence\":4}",
        b"\x00\x00\x00\x01s\x00\x00\x00\x09\x1f\x00\x00\x00\x00\x00\x00\x00\x05",
    ),
    // Sets under an expectation, in version 2.
    (
        b"\x00\x00\x00\x02V\x02\x00\x00\x00#C\x01a\x00{\"keys\":[],\"spiffe_sequence\":7}\x00\x00\x00#C\x01a\x00{\"keys\":[],\"spiffe_sequence\":7}\x00\x00\x00+C\x01a\x01\x00\x00\x00\x00\x00\x00\x00\x07{\"keys\":[],\"spiffe_sequence\":8}\x00\x00\x00+C\x01a\x01\x00\x00\x00\x00\x00\x00\x00\x08{\"keys\":[],\"spiffe_sequence\":3}\x00\x00\x00\x03R\x01a\x00\x00\x00#C\x01a\x00{\"keys\":[],\"spiffe_sequence\":3}\x00\x00\x00#C\x01a\x02{\"keys\":[],\"spiffe_sequence\":3}",
        b"\x00\x00\x00\x02v\x02\x00\x00\x00\x01s\x00\x00\x00\x0a$\x01\x00\x00\x00\x00\x00\x00\x00\x07\x00\x00\x00\x01s\x00\x00\x00\x09\x1f\x00\x00\x00\x00\x00\x00\x00\x08\x00\x00\x00\x01d\x00\x00\x00\x09\x1f\x00\x00\x00\x00\x00\x00\x00\x08\x00\x00\x00\x02$\x00",
    ),
];

// However many shards there are, the same bytes come back; and wherever the first run is cut in two.
#[test]
fn any_number_of_shards(rt: HostRuntime) -> Result<(), Fail> {
    for &shards in &[1, 4, 256] {
        let command = Command::Run(shards, 1_000_000);
        for &(input, output) in &SESSIONS {
            leaves(
                rt.alloc(),
                command,
                Source::new(input),
                (input, output, "", 0),
            )?;
        }
        let (front, _) = FIRST_RUN.split_at(24);
        let row: (&[u8], &[u8], &str, u8) = (front, b"\x00\x00\x00\x01s", "fault 52\n", 1);
        leaves(rt.alloc(), command, Source::new(front), row)?;
        for size in 1..25 {
            let reader = Source::in_two(FIRST_RUN, size);
            leaves(
                rt.alloc(),
                command,
                reader,
                (FIRST_RUN, FIRST_REPLIES, "", 0),
            )?;
        }
    }
    Ok(())
}
