//! Workers, asks that are tried again, what a log is told, and what is kept of how sessions end.
mod ends;
mod logs;
mod run;

use map_core::{Ask, AskError, Op, Reply};
use std::alloc::Global;
use std::test::Fail;
use std::time::Clock;
use test_kit::{Shown, is_equal_at, play_line};
use workers::Retrying;

/// Answers so often that another caller is in the way, and counts what it is asked.
#[derive(Drop)]
struct Busy {
    answer: AskError,
    left: u64,
    asked: u64,
}

impl Ask for Busy {
    ghost use Rattle.std.specs.Prelude.{None};

    ghost answers = { λ old op answer new. Unit {0} };

    ghost shows = { λ _. None };

    ghost answers_plainly = { λ old op answer new m shown answered. absurd (cc shown) };

    fn ask(&mut self, op: Op) -> Result<Reply, AskError> {
        drop(op);
        self.asked = self.asked.saturating_add(1);
        if self.left == 0 {
            return Ok(Reply::Stored);
        }
        self.left -= 1;
        Err(self.answer)
    }
}

const HELD: AskError = AskError::Held {
    shard: 1,
    revision: 2,
};

const MOVED: AskError = AskError::Moved {
    shard: 1,
    first: 2,
    second: 3,
};

/// What is answered how often, how often it may be asked again, the last answer, and how often it was asked for that.
type Row<'a> = (AskError, u64, u64, &'a str, u64);

static ROWS: [Row<'static>; 7] = [
    (HELD, 0, 5, "stored", 1),
    (HELD, 3, 5, "stored", 4),
    (MOVED, 5, 5, "stored", 6),
    (HELD, 6, 5, "held 1 2", 6),
    (MOVED, 1, 0, "moved 1 2 3", 1),
    (AskError::Worn { shard: 1 }, 1, 5, "worn 1", 1),
    (AskError::GateShut, 1, 5, "shut", 1),
];

fn is_asked_so<C: Clock>(
    alloc: Global,
    clock: &C,
    (answer, left, retries, last, asked): Row<'_>,
) -> Result<(), Fail> {
    let busy = Busy {
        answer,
        left,
        asked: 0,
    };
    let mut ask = Retrying::new(busy, clock, retries);
    play_line(alloc, Shown::Counted, &mut ask, ("get a", last))?;
    is_equal_at(&ask.ask.asked, &asked, &last)?;
    // (the first time is not counted as another one)
    is_equal_at(&ask.asked_again.saturating_add(1), &asked, &last)
}

#[test]
fn transient_answers_are_asked_again(rt: HostRuntime) -> Result<(), Fail> {
    for &row in &ROWS {
        is_asked_so(rt.alloc(), &rt, row)?;
    }
    Ok(())
}
