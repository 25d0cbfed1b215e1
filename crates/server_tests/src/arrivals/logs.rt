//! What a log is told.
use map_core::Expect;
use shard_store::Store;
use std::test::Fail;
use test_kit::{Shown, holds_at, is_equal, play_line};
use workers::{Changed, Client, How, Log, Logged, SessionFault};

/// A change of a name of one letter.
type Change = (u64, How, u8, Option<Expect>, Expect);

/// A log that keeps how many changes it was told of, and the last one.
#[derive(Clone, Copy)]
struct Kept {
    is_on: bool,
    count: u64,
    last: Option<Change>,
}

impl Log for Kept {
    ghost use Rattle.std.specs.Prelude.{⊤};

    ghost wants = { λ kept. kept.is_on };

    ghost tells = { λ _ worker change _. ⊤ };

    fn is_on(&self) -> bool {
        self.is_on
    }

    fn changed(&mut self, worker: u64, change: &Changed<'_>) {
        let letter = change.domain.as_bytes().first().copied().unwrap_or(0);
        self.count = self.count.saturating_add(1);
        self.last = Some((worker, change.how, letter, change.before, change.after));
    }

    fn ended(&self, _worker: u64, _end: &Result<u64, SessionFault>, _client: Option<Client>) {}
}

/// An operation, its reply, and the change that is told of it, if one is.
type Row<'a> = (&'a str, &'a str, Option<(How, u8, Expect, Expect)>);

const FIVE: Expect = Expect::Sequence(5);

static ROWS: [Row<'static>; 12] = [
    (
        "set a 5",
        "stored",
        Some((How::Set, b'a', Expect::Absent, FIVE)),
    ),
    ("set a 5", "unchanged", None),
    ("set a 4", "refused 31 5", None),
    ("setif a 4 6", "refused 36 5", None),
    (
        "setif a 5 6",
        "stored",
        Some((How::Set, b'a', FIVE, Expect::Sequence(6))),
    ),
    (
        "set b -",
        "stored",
        Some((How::Set, b'b', Expect::Absent, Expect::Unnumbered)),
    ),
    (
        "append a k",
        "appended 7",
        Some((
            How::Appended,
            b'a',
            Expect::Sequence(6),
            Expect::Sequence(7),
        )),
    ),
    (
        "append b k",
        "appended -",
        Some((How::Appended, b'b', Expect::Unnumbered, Expect::Unnumbered)),
    ),
    ("get a", "found 7/1", None),
    ("fetch", "all 2 a 7/1 b -/1", None),
    ("remove c", "refused 30", None),
    (
        "remove a",
        "removed",
        Some((How::Removed, b'a', Expect::Sequence(7), Expect::Absent)),
    ),
];

// Each change is told once, under the worker's number, and nothing else is. A log that is off is told of none.
#[test]
fn a_log_is_told_of_exactly_the_changes(rt: HostRuntime) -> Result<(), Fail> {
    for is_on in [true, false] {
        let (store, pass) = Store::new(rt.alloc(), 4, 3, 1_000_000)?;
        let log = Kept {
            is_on,
            count: 0,
            last: None,
        };
        let mut logged = Logged::new(&store, pass, &rt, 0, log, 3);
        let mut count = 0u64;
        for &(line, reply, change) in &ROWS {
            play_line(rt.alloc(), Shown::Counted, &mut logged, (line, reply))?;
            if let (true, Some((how, letter, before, after))) = (is_on, change) {
                count = count.saturating_add(1);
                let told = Some((3, how, letter, Some(before), after));
                holds_at(logged.log.last == told, &line)?;
            }
            is_equal(&logged.log.count, &count)?;
        }
    }
    Ok(())
}
