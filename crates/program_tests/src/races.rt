//! Readings that were and that never were, what is told of them, and a short race.
use race_demo::{Findings, Tally, is_map, is_moment, report_text, run_race};
use std::test::Fail;
use test_kit::{holds_at, is_equal_at};

const MOST: u64 = 18446744073709551615;

/// The numbers of the domains of one writer, and whether they are those of a moment.
static MOMENTS: [(&[u64], bool); 16] = [
    (&[], true),
    (&[7], true),
    (&[0, 0, 0, 0], true),
    (&[1, 0, 0, 0], true),
    (&[1, 1, 1, 0], true),
    (&[1, 1, 1, 1], true),
    (&[6, 6, 5, 5], true),
    (&[MOST, MOST, MOST - 1, MOST - 1], true),
    (&[0, 0, 0, 1], false),
    (&[0, 1, 1, 0], false),
    (&[1, 0, 1, 0], false),
    (&[2, 1, 0, 0], false),
    (&[2, 2, 0, 0], false),
    (&[5, 5, 6, 6], false),
    (&[0, 0, 0, MOST], false),
    (&[MOST, 0, 0, 0], false),
];

/// The same of two writers.
static MAPS: [(&[u64], bool); 5] = [
    (&[0, 0, 0, 0, 9, 9, 9, 8], true),
    (&[1, 1, 0, 0, 0, 0, 0, 0], true),
    (&[1, 1, 1, 2, 0, 0, 0, 0], false),
    (&[1, 1, 1, 1, 0, 0, 0, 1], false),
    (&[0, 1, 0, 1, 0, 1, 0, 1], false),
];

#[test]
fn moments_and_maps_are_known(rt: HostRuntime) -> Result<(), Fail> {
    for &(numbers, was) in &MOMENTS {
        holds_at(is_moment(numbers) == was, &numbers)?;
    }
    for &(numbers, was) in &MAPS {
        holds_at(is_map(numbers) == was, &numbers)?;
    }
    Ok(())
}

static REPORT: &str = "\
Two writers set four domains each, one after another, over and over, to the number
of the round: one a to d, the other e to h. At any moment the first few of four
have a number, and the others have the number before it.

bundles set: 18446744073709551615
domain by domain: 3 readings, 2 of them maps that never were
  the first: a 0 b 0 c 0 d 0 e 3 f 3 g 4 h 3
fetch-all: 12 readings, 0 of them maps that never were
";

#[test]
fn readings_are_counted_and_told(rt: HostRuntime) -> Result<(), Fail> {
    let never = [0, 0, 0, 0, 3, 3, 4, 3];
    let tally = Tally::NONE
        .and([1, 1, 0, 0, 0, 0, 0, 0])
        .and(never)
        .and([1, 2, 3, 4, 0, 0, 0, 0]);
    let each = Tally {
        readings: 3,
        mixed: 2,
        first: Some(never),
    };
    is_equal_at(&tally, &each, &"three readings")?;
    let full = Tally {
        readings: MOST,
        mixed: MOST,
        first: Some(never),
    };
    is_equal_at(&full.and(never), &full, &"a full tally")?;
    let all = Tally {
        readings: 12,
        mixed: 0,
        first: None,
    };
    let found = Findings {
        sets: MOST,
        each,
        all,
    };
    let text = report_text(rt.alloc(), &found)?;
    holds_at(text.as_slice() == REPORT.as_bytes(), &"the report")
}

#[test]
fn a_fetch_all_shows_no_map_that_never_was(rt: HostRuntime) -> Result<(), Fail> {
    let Ok(found) = run_race(&rt, rt.alloc(), 1) else {
        return Err(Fail::from("no race"));
    };
    let is_some = found.sets > 0 && found.each.readings > 0 && found.all.readings > 0;
    holds_at(is_some && found.all.mixed == 0, &found)
}
