//! Worked examples of traces, from bytes to bytes.
use super::{Command, Row};

const PAGE: &[u8] = b"\
A row for each caller, a column for each event, counted from 0.
[ an operation begins   ] it ends   - it is open   . no operation is open
order: each operation at a moment when it can take effect, by the last digit of
its number, so that one after another they give these replies.
Up to 960 events and 16 callers are drawn.

event             0
caller 1          [-]
order             0..

record 0 caller 1 first 0 last 2 reply refused 30
order 0
";

pub(super) static ROWS: [Row; 43] = [
    // Nothing begins.
    (Command::Trace(1, 1), b"", b"order\n", "", 0),
    // A race over two shards and two rounds.
    (
        Command::Trace(2, 2),
        b"begin 1 fetch\nstep 1\nbegin 2 set b {\"keys\":[]}\nstep 2\nend 2\nbegin 2 set a {\"keys\":[]}\nstep 2\nend 2\nstep 1\nstep 1\nstep 1\nstep 1\nstep 1\nstep 1\nend 1\n",
        b"record 0 caller 1 first 0 last 14 reply all 2 a {\"keys\":[]} b {\"keys\":[]}\nrecord 1 caller 2 first 2 last 4 reply stored\nrecord 2 caller 2 first 5 last 7 reply stored\norder 1 2 0\n",
        "",
        0,
    ),
    // Contents that go and come back.
    (
        Command::Trace(1, 1),
        b"begin 1 fetch\nstep 1\nbegin 2 set a {\"keys\":[]}\nstep 2\nend 2\nbegin 2 remove a\nstep 2\nend 2\nstep 1\nend 1",
        b"record 0 caller 1 first 0 last 9 reply moved 0 0 2\nrecord 1 caller 2 first 2 last 4 reply stored\nrecord 2 caller 2 first 5 last 7 reply removed\norder 1 2\n",
        "",
        0,
    ),
    // A write between collect and confirm.
    (
        Command::Trace(1, 1),
        b"begin 1 fetch\nstep 1\nbegin 2 set a {\"keys\":[]}\nstep 2\nend 2\nstep 1\nend 1\n",
        b"record 0 caller 1 first 0 last 6 reply moved 0 0 1\nrecord 1 caller 2 first 2 last 4 reply stored\norder 1\n",
        "",
        0,
    ),
    // Nobody writes.
    (
        Command::Trace(1, 1),
        b"begin 1 fetch\nstep 1\nstep 1\nend 1\n",
        b"record 0 caller 1 first 0 last 3 reply all 0\norder 0\n",
        "",
        0,
    ),
    // A write behind the confirm of its shard.
    (
        Command::Trace(2, 1),
        b"begin 1 fetch\nstep 1\nstep 1\nstep 1\nbegin 2 set b {\"keys\":[]}\nstep 2\nend 2\nstep 1\nend 1\n",
        b"record 0 caller 1 first 0 last 8 reply all 0\nrecord 1 caller 2 first 4 last 6 reply stored\norder 0 1\n",
        "",
        0,
    ),
    // An unfinished writer.
    (
        Command::Trace(1, 1),
        b"begin 2 set a {\"keys\":[]}\nstep 2\nbegin 1 fetch\nstep 1\nstep 1\nend 1\n",
        b"record 0 caller 2 first 0 last - reply -\nrecord 1 caller 1 first 2 last 5 reply all 1 a {\"keys\":[]}\norder 0 1\n",
        "",
        0,
    ),
    // A quit that comes too late.
    (
        Command::Trace(1, 1),
        b"begin 2 set a {\"keys\":[]}\nstep 2\nquit 2 memory\nbegin 1 get a\nstep 1\nend 1\n",
        b"record 0 caller 2 first 0 last - reply -\nrecord 1 caller 1 first 3 last 5 reply found {\"keys\":[]}\norder 0 1\n",
        "",
        0,
    ),
    // A quit in time.
    (
        Command::Trace(1, 1),
        b"begin 2 set a {\"keys\":[]}\nquit 2 memory\nstep 2\nbegin 1 get a\nstep 1\nend 1\n",
        b"record 0 caller 2 first 0 last 1 reply memory\nrecord 1 caller 1 first 3 last 5 reply refused 30\norder 1\n",
        "",
        0,
    ),
    // A writer in every round.
    (
        Command::Trace(1, 3),
        b"begin 1 fetch\nstep 1\nbegin 2 set a {\"keys\":[]}\nstep 2\nend 2\nstep 1\nstep 1\nbegin 2 remove a\nstep 2\nend 2\nstep 1\nstep 1\nbegin 2 set a {\"keys\":[]}\nstep 2\nend 2\nstep 1\nend 1\n",
        b"record 0 caller 1 first 0 last 16 reply moved 0 2 3\nrecord 1 caller 2 first 2 last 4 reply stored\nrecord 2 caller 2 first 7 last 9 reply removed\nrecord 3 caller 2 first 12 last 14 reply stored\norder 1 2 3\n",
        "",
        0,
    ),
    // One round more.
    (
        Command::Trace(1, 4),
        b"begin 1 fetch\nstep 1\nbegin 2 set a {\"keys\":[]}\nstep 2\nend 2\nstep 1\nstep 1\nbegin 2 remove a\nstep 2\nend 2\nstep 1\nstep 1\nbegin 2 set a {\"keys\":[]}\nstep 2\nend 2\nstep 1\nend 1\n",
        b"record 0 caller 1 first 0 last - reply -\nrecord 1 caller 2 first 2 last 4 reply stored\nrecord 2 caller 2 first 7 last 9 reply removed\nrecord 3 caller 2 first 12 last 14 reply stored\norder 1 2 3\n",
        "",
        0,
    ),
    // A removed domain remembers its sequence.
    (
        Command::Trace(1, 1),
        b"begin 2 set a {\"keys\":[],\"spiffe_sequence\":5}\nstep 2\nend 2\nbegin 2 remove a\nstep 2\nbegin 1 fetch\nstep 1\nstep 1\nend 1\nbegin 3 set a {\"keys\":[],\"spiffe_sequence\":4}\nstep 3\nend 3\n",
        b"record 0 caller 2 first 0 last 2 reply stored\nrecord 1 caller 2 first 3 last - reply -\nrecord 2 caller 1 first 5 last 8 reply all 0\nrecord 3 caller 3 first 9 last 11 reply refused 31 5\norder 0 1 2 3\n",
        "",
        0,
    ),
    // An expectation that does not fit.
    (
        Command::Trace(1, 1),
        b"begin 1 setif a 3 {\"keys\":[]}\nstep 1\nend 1\n",
        b"record 0 caller 1 first 0 last 2 reply refused 36 absent\norder 0\n",
        "",
        0,
    ),
    // An append, and a caller that is held off.
    (
        Command::Trace(1, 1),
        b"begin 4294967295 set a {\"keys\":[],\"spiffe_sequence\":9}\nstep 4294967295\nend 4294967295\nbegin 0 append a {\"kty\":\"RSA\",\"use\":\"jwt-svid\",\"n\":\"AQAB\",\"e\":\"AQAB\",\"kid\":\"k\"}\nstep 0\nend 0\nbegin 0 get a\nquit 0 held 255 18446744073709551615\n",
        b"record 0 caller 4294967295 first 0 last 2 reply stored\nrecord 1 caller 0 first 3 last 5 reply appended 10\nrecord 2 caller 0 first 6 last 7 reply held 255 18446744073709551615\norder 0 1\n",
        "",
        0,
    ),
    // A document that is set twice.
    (
        Command::Trace(1, 1),
        b"begin 1 set a {\"keys\":[]}\nstep 1\nend 1\nbegin 1 set a {\"keys\":[]}\nstep 1\nend 1\n",
        b"record 0 caller 1 first 0 last 2 reply stored\nrecord 1 caller 1 first 3 last 5 reply unchanged\norder 0 1\n",
        "",
        0,
    ),
    // An append to a bundle without a sequence.
    (
        Command::Trace(1, 1),
        b"begin 1 set a {\"keys\":[]}\nstep 1\nend 1\nbegin 1 append a {\"kty\":\"RSA\",\"use\":\"jwt-svid\",\"n\":\"AQAB\",\"e\":\"AQAB\",\"kid\":\"k\"}\nstep 1\nend 1\n",
        b"record 0 caller 1 first 0 last 2 reply stored\nrecord 1 caller 1 first 3 last 5 reply appended -\norder 0 1\n",
        "",
        0,
    ),
    // Expectations of a bundle with a sequence.
    (
        Command::Trace(1, 1),
        b"begin 1 setif a absent {\"keys\":[],\"spiffe_sequence\":7}\nstep 1\nend 1\nbegin 1 setif a none {\"keys\":[]}\nstep 1\nend 1\nbegin 1 setif a absent {\"keys\":[]}\nstep 1\nend 1\nbegin 1 setif a 7 {\"keys\":[],\"spiffe_sequence\":8}\nstep 1\nend 1\n",
        b"record 0 caller 1 first 0 last 2 reply stored\nrecord 1 caller 1 first 3 last 5 reply refused 36 7\nrecord 2 caller 1 first 6 last 8 reply refused 36 7\nrecord 3 caller 1 first 9 last 11 reply stored\norder 0 1 2 3\n",
        "",
        0,
    ),
    // Expectations of a bundle without one.
    (
        Command::Trace(1, 1),
        b"begin 1 set a {\"keys\":[]}\nstep 1\nend 1\nbegin 1 setif a 0 {\"keys\":[]}\nstep 1\nend 1\nbegin 1 setif a none {\"keys\":[],\"spiffe_sequence\":3}\nstep 1\nend 1\n",
        b"record 0 caller 1 first 0 last 2 reply stored\nrecord 1 caller 1 first 3 last 5 reply refused 36 none\nrecord 2 caller 1 first 6 last 8 reply stored\norder 0 1 2\n",
        "",
        0,
    ),
    // A picture stands above the text.
    (
        Command::Picture(1, 1),
        b"begin 1 get a\nstep 1\nend 1\n",
        PAGE,
        "",
        0,
    ),
    // Lines that are no events, and the last that are.
    (
        Command::Trace(2, 3),
        b"begin 1 fetch\nstep 01\n",
        b"",
        "fault 70 2\n",
        1,
    ),
    (Command::Trace(2, 3), b"\n", b"", "fault 70 1\n", 1),
    (Command::Trace(2, 3), b"step 1\n\n", b"", "fault 70 2\n", 1),
    (Command::Trace(2, 3), b"step", b"", "fault 70 1\n", 1),
    (Command::Trace(2, 3), b"step  1", b"", "fault 70 1\n", 1),
    (Command::Trace(2, 3), b"step 1 ", b"", "fault 70 1\n", 1),
    (Command::Trace(2, 3), b" step 1", b"", "fault 70 1\n", 1),
    (Command::Trace(2, 3), b"step 1\r\n", b"", "fault 70 1\n", 1),
    (Command::Trace(2, 3), b"step +1", b"", "fault 70 1\n", 1),
    (
        Command::Trace(2, 3),
        b"step 4294967296",
        b"",
        "fault 70 1\n",
        1,
    ),
    (Command::Trace(2, 3), b"stop 1", b"", "fault 70 1\n", 1),
    (
        Command::Trace(2, 3),
        b"begin 1 fetch all",
        b"",
        "fault 70 1\n",
        1,
    ),
    (
        Command::Trace(2, 3),
        b"begin 1 get A",
        b"",
        "fault 70 1\n",
        1,
    ),
    (
        Command::Trace(2, 3),
        b"begin 1 get a b",
        b"",
        "fault 70 1\n",
        1,
    ),
    (
        Command::Trace(2, 3),
        b"begin 1 set a",
        b"",
        "fault 70 1\n",
        1,
    ),
    (
        Command::Trace(2, 3),
        b"begin 1 set a {}",
        b"",
        "fault 70 1\n",
        1,
    ),
    (
        Command::Trace(2, 3),
        b"begin 1 append a {\"kty\":\"OKP\",\"use\":\"jwt-svid\"}",
        b"",
        "fault 70 1\n",
        1,
    ),
    (
        Command::Trace(2, 3),
        b"begin 1 setif a some {\"keys\":[]}",
        b"",
        "fault 70 1\n",
        1,
    ),
    (
        Command::Trace(2, 3),
        b"quit 1 held 256 0",
        b"",
        "fault 70 1\n",
        1,
    ),
    (
        Command::Trace(2, 3),
        b"quit 1 held 0 18446744073709551616",
        b"",
        "fault 70 1\n",
        1,
    ),
    (
        Command::Trace(2, 3),
        b"quit 1 tired",
        b"",
        "fault 70 1\n",
        1,
    ),
    (Command::Trace(2, 3), b"step \xff", b"", "fault 70 1\n", 1),
    (Command::Trace(2, 3), b"step 0", b"order\n", "", 0),
    (
        Command::Trace(2, 3),
        b"begin 1 setif a none {\"keys\": []}\nstep 1\nend 1",
        b"record 0 caller 1 first 0 last 2 reply refused 36 absent\norder 0\n",
        "",
        0,
    ),
];
