//! Maps copied and put together, and bundles in order of their names.
use super::{Row, answer, play};
use map_core::{Contents, Op, Reply, Snapshot, Union};
use spiffe_doc::TrustDomain;
use std::alloc::{AllocError, Global};
use std::test::Fail;
use test_kit::{Shown, bundle, is_equal, operation, snapshot_text};

/// The snapshot of one pair.
fn snapshot_of(alloc: Global, name: &str, word: &str) -> Result<Snapshot, Fail> {
    let mut pairs = Vec::new(alloc);
    pairs.push((TrustDomain::parse(alloc, name)?, bundle(alloc, word)?))?;
    Ok(Snapshot::from_pairs(pairs))
}

#[test]
fn a_shared_snapshot_outlives_the_other(rt: HostRuntime) -> Result<(), Fail> {
    let mut all = snapshot_of(rt.alloc(), "a", "5")?;
    let other = all.share(rt.alloc())?;
    let text = snapshot_text(rt.alloc(), Shown::Counted, &all)?;
    is_equal(&text.as_str(), &"all 1 a 5/0")?;
    is_equal(&all.pairs().len(), &1)?;
    drop(all);
    let text = snapshot_text(rt.alloc(), Shown::Counted, &other)?;
    is_equal(&text.as_str(), &"all 1 a 5/0")?;
    is_equal(&other.len(), &1)
}

/// How many pairs the snapshot gives back, if it does.
fn given_back(all: Snapshot) -> Option<usize> {
    match all.into_pairs() {
        Ok(pairs) => Some(pairs.len()),
        Err(_) => None,
    }
}

#[test]
fn pairs_are_given_back_by_their_last_owner(rt: HostRuntime) -> Result<(), Fail> {
    let only = snapshot_of(rt.alloc(), "a", "5")?;
    is_equal(&given_back(only), &Some(1))?;
    let mut first = snapshot_of(rt.alloc(), "a", "5")?;
    let second = first.share(rt.alloc())?;
    is_equal(&given_back(first), &None)?;
    is_equal(&given_back(second), &Some(1))
}

/// Sets the domain of a number below a thousand to a bundle that has it as its sequence.
fn set_number(alloc: Global, map: &mut Contents, number: u64) -> Result<(), Fail> {
    let line = format!(in alloc; "set n{number:03} {number}")?;
    let op = operation(alloc, line.as_str())?;
    let reply = answer(map, &op);
    drop(op);
    reply?;
    Ok(())
}

fn all_of(map: &mut Contents) -> Result<Snapshot, Fail> {
    match answer(map, &Op::FetchAll)? {
        Reply::All(all) => Ok(all),
        _ => Err(Fail::from("a fetch-all is answered otherwise")),
    }
}

/// The pairs of the snapshot are in the order of their numbers.
fn is_in_order(alloc: Global, all: &Snapshot) -> Result<(), Fail> {
    let mut next = 0;
    for (domain, bundle) in all.pairs() {
        let name = format!(in alloc; "n{next:03}")?;
        is_equal(&domain.as_str(), &name.as_str())?;
        is_equal(&bundle.sequence(), &Some(next))?;
        next = next.wrapping_add(1);
    }
    is_equal(&next, &1000)
}

/// The map shows a thousand names in order, once they are set out of order.
fn shows_a_thousand(alloc: Global, map: &mut Contents) -> Result<(), Fail> {
    for number in 0..1000u64 {
        set_number(alloc, map, number * 7 % 1000)?;
    }
    is_equal(&map.len(), &1000)?;
    is_in_order(alloc, &all_of(map)?)
}

#[test]
fn shows_a_thousand_names_in_order(rt: HostRuntime) -> Result<(), Fail> {
    let mut map = Contents::new(rt.alloc());
    let is_so = shows_a_thousand(rt.alloc(), &mut map);
    drop(map);
    is_so
}

/// What two maps were asked, what they show together, and what is asked of both joined and of a copy of the first.
#[derive(Clone, Copy)]
struct Joined<'a> {
    first: &'a [Row<'a>],
    second: &'a [Row<'a>],
    all: &'a str,
    joined: &'a [Row<'a>],
    copy: &'a [Row<'a>],
}

static JOINED: [Joined; 3] = [
    Joined {
        first: &[],
        second: &[],
        all: "all 0",
        joined: &[("fetch", "all 0")],
        copy: &[("fetch", "all 0")],
    },
    // The first bundle of `a`, the second of `b`, and the mark of `c`.
    Joined {
        first: &[
            ("set a 1", "stored"),
            ("set b 2", "stored"),
            ("set c 3", "stored"),
        ],
        second: &[
            ("set b 9", "stored"),
            ("set c 4", "stored"),
            ("remove c", "removed"),
        ],
        all: "all 2 a 1/0 b 9/0",
        joined: &[("fetch", "all 2 a 1/0 b 9/0"), ("set c 3", "refused 31 4")],
        copy: &[("remove a", "removed"), ("fetch", "all 2 b 2/0 c 3/0")],
    },
    Joined {
        first: &[
            ("set d 1", "stored"),
            ("set b 2", "stored"),
            ("set x 3", "stored"),
        ],
        second: &[
            ("set c -/k:AQAB,x509", "stored"),
            ("set b 9", "stored"),
            ("set x 4", "stored"),
            ("remove x", "removed"),
        ],
        all: "all 3 b 9/0 c -/2 d 1/0",
        joined: &[("get x", "refused 30"), ("get c", "found -/2")],
        copy: &[("get x", "found 3/0"), ("get c", "refused 30")],
    },
];

fn union_of(alloc: Global, first: &Contents, second: &Contents) -> Result<Union, AllocError> {
    Union::new(alloc).add(first)?.add(second)
}

/// The bundles of two maps joined.
fn union_text(alloc: Global, first: &Contents, second: &Contents) -> Result<String, AllocError> {
    let all = union_of(alloc, first, second)?.into_snapshot()?;
    snapshot_text(alloc, Shown::Counted, &all)
}

/// Plays the rows on the map, and drops it.
fn play_last(alloc: Global, mut map: Contents, rows: &[Row]) -> Result<(), Fail> {
    let left = play(alloc, Shown::Counted, &mut map, rows);
    drop(map);
    left?;
    Ok(())
}

/// Two maps that were asked what the row has for them.
fn joins(
    alloc: Global,
    row: &Joined,
    first: &mut Contents,
    second: &mut Contents,
) -> Result<(), Fail> {
    play(alloc, Shown::Counted, first, row.first)?;
    play(alloc, Shown::Counted, second, row.second)?;
    play_last(alloc, first.copy()?, row.copy)?;
    is_equal(&union_text(alloc, first, second)?.as_str(), &row.all)?;
    play_last(
        alloc,
        union_of(alloc, first, second)?.into_contents()?,
        row.joined,
    )
}

#[test]
fn copies_and_joins(rt: HostRuntime) -> Result<(), Fail> {
    for row in &JOINED {
        let mut first = Contents::new(rt.alloc());
        let mut second = Contents::new(rt.alloc());
        let is_so = joins(rt.alloc(), row, &mut first, &mut second);
        drop(second);
        drop(first);
        is_so?;
    }
    Ok(())
}

#[test]
fn an_empty_union_is_taken_apart(rt: HostRuntime) -> Result<(), Fail> {
    let none = Union::new(rt.alloc()).into_snapshot()?;
    let text = snapshot_text(rt.alloc(), Shown::Counted, &none)?;
    is_equal(&text.as_str(), &"all 0")
}
