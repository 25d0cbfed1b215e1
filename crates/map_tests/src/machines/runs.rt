//! Runs: what the operations of a list of events were answered, and the order that explains it.
use map_core::{AskError, Reply};
use std::alloc::{AllocError, Global};
use std::test::Fail;
use step_core::{Event, OpRecord, Trace, Why, run_events};
use test_kit::{Shown, answer_text, operation};

/// The next word of a line, and the rest.
fn cut(line: &str) -> (&str, &str) {
    line.split_once(' ').unwrap_or((line, ""))
}

fn why(line: &str) -> Result<Why, Fail> {
    let (verb, rest) = cut(line);
    if verb == "memory" {
        return Ok(Why::Memory);
    }
    let (shard, revision) = cut(rest);
    Ok(Why::Held {
        shard: shard.parse()?,
        revision: revision.parse()?,
    })
}

/// The event of a line: `begin 1 OPERATION`, `step 1`, `end 1`, `quit 1 memory`, `quit 1 held 0 3`.
fn event(alloc: Global, line: &str) -> Result<Event, Fail> {
    let (verb, rest) = cut(line);
    let (caller, rest) = cut(rest);
    let caller: u32 = caller.parse()?;
    match verb {
        "begin" => Ok(Event::Begin(caller, operation(alloc, rest)?)),
        "step" => Ok(Event::Step(caller)),
        "end" => Ok(Event::End(caller)),
        "quit" => Ok(Event::Quit(caller, why(rest)?)),
        _ => Err(Fail::from("no event has this name")),
    }
}

fn events(alloc: Global, lines: &[&str]) -> Result<Vec<Event>, Fail> {
    let mut events = Vec::new(alloc);
    for &line in lines {
        events.push(event(alloc, line)?)?;
    }
    Ok(events)
}

fn last_text(alloc: Global, last: Option<u64>) -> Result<String, AllocError> {
    match last {
        Some(last) => format!(in alloc; "{last}"),
        None => String::from_str(alloc, "-"),
    }
}

fn told_text(alloc: Global, reply: &Option<Result<Reply, AskError>>) -> Result<String, AllocError> {
    match reply {
        Some(answer) => answer_text(alloc, Shown::Whole, answer),
        None => String::from_str(alloc, "-"),
    }
}

/// A line of an operation: `wrote` stands at its end if a shard was changed.
fn record_text(alloc: Global, number: usize, entry: &OpRecord) -> Result<String, AllocError> {
    let last = last_text(alloc, entry.last)?;
    let reply = told_text(alloc, &entry.reply)?;
    let wrote = if entry.wrote { " wrote" } else { "" };
    let (caller, first) = (entry.caller, entry.first);
    format!(in alloc;
        "record {number} caller {caller} first {first} last {last} reply {reply}{wrote}"
    )
}

fn order_text(alloc: Global, order: &[usize]) -> Result<String, AllocError> {
    let mut text = String::from_str(alloc, "order")?;
    for number in order {
        text.push_str(format!(in alloc; " {number}")?.as_str())?;
    }
    Ok(text)
}

/// The line that is shown is the expected one.
fn same_line(alloc: Global, shown: &str, expected: Option<&&str>) -> Result<(), Fail> {
    match expected {
        Some(expected) if *expected == shown => Ok(()),
        Some(expected) => Err(Fail::from(format!(in alloc; "{shown}, and not {expected}")?)),
        None => Err(Fail::from(format!(in alloc; "{shown}, and no more lines")?)),
    }
}

/// The trace shows the lines and no others.
fn same_trace(alloc: Global, trace: &Trace, shows: &[&str]) -> Result<(), Fail> {
    for (number, entry) in trace.ops.iter().enumerate() {
        let line = record_text(alloc, number, entry)?;
        same_line(alloc, line.as_str(), shows.get(number))?;
    }
    let count = trace.ops.len();
    let line = order_text(alloc, &trace.order)?;
    same_line(alloc, line.as_str(), shows.get(count))?;
    match shows.get(count..) {
        Some([_]) => Ok(()),
        _ => Err(Fail::from("more lines are expected")),
    }
}

/// A list of events over so many shards and rounds, and the records and the order of its run.
#[derive(Clone, Copy)]
struct Run<'a> {
    shards: usize,
    rounds: usize,
    events: &'a [&'a str],
    shows: &'a [&'a str],
}

/// The run of these events shows the expected lines and no others.
fn play(alloc: Global, run: &Run, events: &[Event]) -> Result<(), Fail> {
    if run.shards == 0 || run.rounds == 0 {
        return Err(Fail::from("a run has a shard and a round"));
    }
    let trace = run_events(alloc, run.shards, run.rounds, events)?;
    let is_so = same_trace(alloc, &trace, run.shows);
    drop(trace);
    is_so
}

fn play_all(alloc: Global, runs: &[Run]) -> Result<(), Fail> {
    for run in runs {
        let events = events(alloc, run.events)?;
        let is_so = play(alloc, run, &events);
        drop(events);
        is_so?;
    }
    Ok(())
}

/// A set, a removal and a set again, each between a collect and its confirm.
const RESTLESS: &[&str] = &[
    "begin 1 fetch",
    "step 1",
    "begin 2 set a {\"keys\":[]}",
    "step 2",
    "end 2",
    "step 1",
    "step 1",
    "begin 2 remove a",
    "step 2",
    "end 2",
    "step 1",
    "step 1",
    "begin 2 set a {\"keys\":[]}",
    "step 2",
    "end 2",
    "step 1",
    "end 1",
];

/// A fetch-all beside writers.
static FETCHES: [Run; 7] = [
    // A round that was disturbed is read again.
    Run {
        shards: 2,
        rounds: 2,
        events: &[
            "begin 1 fetch",
            "step 1",
            "begin 2 set b {\"keys\":[]}",
            "step 2",
            "end 2",
            "begin 2 set a {\"keys\":[]}",
            "step 2",
            "end 2",
            "step 1",
            "step 1",
            "step 1",
            "step 1",
            "step 1",
            "step 1",
            "end 1",
        ],
        shows: &[
            "record 0 caller 1 first 0 last 14 reply all 2 a {\"keys\":[]} b {\"keys\":[]}",
            "record 1 caller 2 first 2 last 4 reply stored wrote",
            "record 2 caller 2 first 5 last 7 reply stored wrote",
            "order 1 2 0",
        ],
    },
    // Contents that return are noticed.
    Run {
        shards: 1,
        rounds: 1,
        events: &[
            "begin 1 fetch",
            "step 1",
            "begin 2 set a {\"keys\":[]}",
            "step 2",
            "end 2",
            "begin 2 remove a",
            "step 2",
            "end 2",
            "step 1",
            "end 1",
        ],
        shows: &[
            "record 0 caller 1 first 0 last 9 reply moved 0 0 2",
            "record 1 caller 2 first 2 last 4 reply stored wrote",
            "record 2 caller 2 first 5 last 7 reply removed wrote",
            "order 1 2",
        ],
    },
    // A write between collect and confirm uses up the round.
    Run {
        shards: 1,
        rounds: 1,
        events: &[
            "begin 1 fetch",
            "step 1",
            "begin 2 set a {\"keys\":[]}",
            "step 2",
            "end 2",
            "step 1",
            "end 1",
        ],
        shows: &[
            "record 0 caller 1 first 0 last 6 reply moved 0 0 1",
            "record 1 caller 2 first 2 last 4 reply stored wrote",
            "order 1",
        ],
    },
    Run {
        shards: 1,
        rounds: 1,
        events: &["begin 1 fetch", "step 1", "step 1", "end 1"],
        shows: &["record 0 caller 1 first 0 last 3 reply all 0", "order 0"],
    },
    // A write after the confirm stands later.
    Run {
        shards: 2,
        rounds: 1,
        events: &[
            "begin 1 fetch",
            "step 1",
            "step 1",
            "step 1",
            "begin 2 set b {\"keys\":[]}",
            "step 2",
            "end 2",
            "step 1",
            "end 1",
        ],
        shows: &[
            "record 0 caller 1 first 0 last 8 reply all 0",
            "record 1 caller 2 first 4 last 6 reply stored wrote",
            "order 0 1",
        ],
    },
    // A restless writer disturbs each round.
    Run {
        shards: 1,
        rounds: 3,
        events: RESTLESS,
        shows: &[
            "record 0 caller 1 first 0 last 16 reply moved 0 2 3",
            "record 1 caller 2 first 2 last 4 reply stored wrote",
            "record 2 caller 2 first 7 last 9 reply removed wrote",
            "record 3 caller 2 first 12 last 14 reply stored wrote",
            "order 1 2 3",
        ],
    },
    Run {
        shards: 1,
        rounds: 4,
        events: RESTLESS,
        shows: &[
            "record 0 caller 1 first 0 last - reply -",
            "record 1 caller 2 first 2 last 4 reply stored wrote",
            "record 2 caller 2 first 7 last 9 reply removed wrote",
            "record 3 caller 2 first 12 last 14 reply stored wrote",
            "order 1 2 3",
        ],
    },
];

/// Operations that are under way, given up, refused, or do not fit.
static OTHERS: [Run; 9] = [
    // An unfinished writer stands in the order.
    Run {
        shards: 1,
        rounds: 1,
        events: &[
            "begin 2 set a {\"keys\":[]}",
            "step 2",
            "begin 1 fetch",
            "step 1",
            "step 1",
            "end 1",
        ],
        shows: &[
            "record 0 caller 2 first 0 last - reply - wrote",
            "record 1 caller 1 first 2 last 5 reply all 1 a {\"keys\":[]}",
            "order 0 1",
        ],
    },
    // A quit fits before the step alone.
    Run {
        shards: 1,
        rounds: 1,
        events: &[
            "begin 2 set a {\"keys\":[]}",
            "step 2",
            "quit 2 memory",
            "begin 1 get a",
            "step 1",
            "end 1",
        ],
        shows: &[
            "record 0 caller 2 first 0 last - reply - wrote",
            "record 1 caller 1 first 3 last 5 reply found {\"keys\":[]}",
            "order 0 1",
        ],
    },
    Run {
        shards: 1,
        rounds: 1,
        events: &[
            "begin 2 set a {\"keys\":[]}",
            "quit 2 memory",
            "step 2",
            "begin 1 get a",
            "step 1",
            "end 1",
        ],
        shows: &[
            "record 0 caller 2 first 0 last 1 reply memory",
            "record 1 caller 1 first 3 last 5 reply refused 30",
            "order 1",
        ],
    },
    // A removed domain remembers its sequence.
    Run {
        shards: 1,
        rounds: 1,
        events: &[
            "begin 2 set a {\"keys\":[],\"spiffe_sequence\":5}",
            "step 2",
            "end 2",
            "begin 2 remove a",
            "step 2",
            "begin 1 fetch",
            "step 1",
            "step 1",
            "end 1",
            "begin 3 set a {\"keys\":[],\"spiffe_sequence\":4}",
            "step 3",
            "end 3",
        ],
        shows: &[
            "record 0 caller 2 first 0 last 2 reply stored wrote",
            "record 1 caller 2 first 3 last - reply - wrote",
            "record 2 caller 1 first 5 last 8 reply all 0",
            "record 3 caller 3 first 9 last 11 reply refused 31 5",
            "order 0 1 2 3",
        ],
    },
    // A set names what it found.
    Run {
        shards: 4,
        rounds: 3,
        events: &["begin 1 setif a 3 {\"keys\":[]}", "step 1", "end 1"],
        shows: &[
            "record 0 caller 1 first 0 last 2 reply refused 36 absent",
            "order 0",
        ],
    },
    // Events that do not fit change nothing.
    Run {
        shards: 256,
        rounds: 16,
        events: &[],
        shows: &["order"],
    },
    Run {
        shards: 1,
        rounds: 1,
        events: &["step 1", "end 1", "quit 1 memory", "quit 0 held 0 7"],
        shows: &["order"],
    },
    Run {
        shards: 1,
        rounds: 1,
        events: &[
            "begin 4294967295 set a {\"keys\":[]}",
            "end 4294967295",
            "begin 4294967295 fetch",
            "step 4294967295",
            "step 4294967295",
            "quit 4294967295 held 0 0",
            "end 4294967295",
            "end 4294967295",
            "begin 4294967295 get a",
            "quit 4294967295 held 0 1",
        ],
        shows: &[
            "record 0 caller 4294967295 first 0 last 6 reply stored wrote",
            "record 1 caller 4294967295 first 8 last 9 reply held 0 1",
            "order 0",
        ],
    },
    // A fetch-all that is given up after it was collected leaves its place in the order.
    Run {
        shards: 1,
        rounds: 2,
        events: &[
            "begin 1 fetch",
            "begin 2 fetch",
            "step 1",
            "step 2",
            "quit 1 held 0 0",
            "begin 3 append a {\"kty\":\"RSA\",\"use\":\"jwt-svid\",\"kid\":\"k\",\"n\":\"AQAB\",\"e\":\"AQAB\"}",
            "step 3",
            "end 3",
            "step 2",
            "end 2",
        ],
        shows: &[
            "record 0 caller 1 first 0 last 4 reply held 0 0",
            "record 1 caller 2 first 1 last 9 reply all 0",
            "record 2 caller 3 first 5 last 7 reply refused 30",
            "order 1 2",
        ],
    },
];

#[test]
fn a_fetch_all_is_of_one_moment(rt: HostRuntime) -> Result<(), Fail> {
    play_all(rt.alloc(), &FETCHES)
}

#[test]
fn operations_stand_in_an_order(rt: HostRuntime) -> Result<(), Fail> {
    play_all(rt.alloc(), &OTHERS)
}
