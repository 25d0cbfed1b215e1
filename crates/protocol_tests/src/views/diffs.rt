//! What changed between two dumps, as docs/FORMATS.md has it.
use super::bundles::{DEFAULT, ROTATION, WITHDRAWN};
use super::{Domains, dump_of};
use dump_views::{DiffError, put_diff, put_dump_diff};
use frame_front::{DumpError, read_dump};
use std::alloc::{AllocError, Global};
use std::test::Fail;
use test_kit::is_equal_at;

/// The old domains, the new ones, and what changed, by hand.
static ROWS: [(&str, Domains, Domains, &str); 23] = [
    ("no domain in either", &[], &[], ""),
    (
        "the same",
        &[("a", "1/2/MAA=,j1")],
        &[("a", "1/2/MAA=,j1")],
        "",
    ),
    (
        "a domain was added",
        &[],
        &[("b.example", "4/-/MAA=,j1")],
        "+ b.example authorities 2 sequence 4\n",
    ),
    (
        "added without a sequence",
        &[],
        &[("a", "-/5/")],
        "+ a authorities 0 sequence none\n",
    ),
    (
        "a domain was removed",
        &[("c.example", "4/-/j1")],
        &[],
        "- c.example\n",
    ),
    (
        "more than one thing",
        &[("a.example", "3/-/MAA=,j1")],
        &[("a.example", "4/-/MAA=,MAE=")],
        "~ a.example sequence 3 to 4 x509 +1 -0 jwt +0 -1\n",
    ),
    (
        "a sequence appears",
        &[("a", "-/-/j1")],
        &[("a", "0/-/j1")],
        "~ a sequence none to 0\n",
    ),
    (
        "a sequence disappears",
        &[("a", "18446744073709551615/-/j1")],
        &[("a", "-/-/j1")],
        "~ a sequence 18446744073709551615 to none\n",
    ),
    (
        "a hint disappears",
        &[("a", "1/300/j1")],
        &[("a", "1/-/j1")],
        "~ a hint 300 to none\n",
    ),
    (
        "a hint appears",
        &[("a", "1/-/j1")],
        &[("a", "1/0/j1")],
        "~ a hint none to 0\n",
    ),
    (
        "sequence and hint",
        &[("a", "1/2/j1")],
        &[("a", "2/1/j1")],
        "~ a sequence 1 to 2 hint 2 to 1\n",
    ),
    (
        "another order",
        &[("a", "-/-/j1,j2")],
        &[("a", "-/-/j2,j1")],
        "~ a order\n",
    ),
    (
        "another order of both kinds",
        &[("a", "-/-/MAA=,j1")],
        &[("a", "-/-/j1,MAA=")],
        "~ a order\n",
    ),
    (
        "turned round by one",
        &[("a", "1/-/j1,j2,j3,MAA=")],
        &[("a", "2/-/j2,j3,MAA=,j1")],
        "~ a sequence 1 to 2 order\n",
    ),
    (
        "another order, and one fewer",
        &[("a", "-/-/j1,j2,j3")],
        &[("a", "-/-/j3,j1")],
        "~ a jwt +0 -1\n",
    ),
    (
        "the first is gone",
        &[("a", "-/-/MAA=,MAE=,MAI=")],
        &[("a", "-/-/MAE=,MAI=")],
        "~ a x509 +0 -1\n",
    ),
    (
        "one is put in the middle",
        &[("a", "-/-/MAA=,MAI=")],
        &[("a", "-/-/MAA=,MAE=,MAI=")],
        "~ a x509 +1 -0\n",
    ),
    (
        "all are others",
        &[("a", "-/-/MAA=,MAE=,j1")],
        &[("a", "-/-/MAI=,j2,j3")],
        "~ a x509 +1 -2 jwt +2 -1\n",
    ),
    (
        "another key under one key id",
        &[("a", "-/-/j1")],
        &[("a", "-/-/j1:AQAC")],
        "~ a jwt +1 -1\n",
    ),
    (
        "withdrawn",
        &[("a", "1/-/MAA=,j1")],
        &[("a", "2/-/")],
        "~ a sequence 1 to 2 x509 +0 -1 jwt +0 -1\n",
    ),
    (
        "names in order",
        &[("a", "-/-/"), ("b", "-/-/"), ("d", "-/-/")],
        &[("b", "1/-/"), ("c", "-/-/"), ("d", "-/-/"), ("e", "-/-/")],
        "- a\n~ b sequence none to 1\n+ c authorities 0 sequence none\n+ e authorities 0 sequence none\n",
    ),
    (
        "a name begins another",
        &[("a", "-/-/"), ("aa", "-/-/")],
        &[("a.b", "-/-/"), ("aa", "7/-/")],
        "- a\n+ a.b authorities 0 sequence none\n~ aa sequence none to 7\n",
    ),
    (
        "no name in both",
        &[("b", "-/-/"), ("d", "-/-/")],
        &[("a", "-/-/"), ("c", "-/-/"), ("e", "-/-/")],
        "+ a authorities 0 sequence none\n- b\n+ c authorities 0 sequence none\n- d\n+ e authorities 0 sequence none\n",
    ),
];

static OLD: [(&str, &str); 2] = [("a", DEFAULT), ("b", ROTATION)];

static NEW: [(&str, &str); 3] = [("a", WITHDRAWN), ("b", ROTATION), ("c", ROTATION)];

static OTHERS: [(&str, &str); 2] = [("a", WITHDRAWN), ("c", WITHDRAWN)];

static ONE: [(&str, &str); 1] = [("a", WITHDRAWN)];

/// Fails unless this is found of two dumps, and this text is appended.
fn changes_are(
    alloc: Global,
    old: &[u8],
    new: &[u8],
    wanted: Result<(), DiffError>,
    text: &str,
    case: &str,
) -> Result<(), Fail> {
    let mut out = Vec::from_slice(alloc, b"before\n")?;
    let found = put_dump_diff(alloc, old, new, &mut out);
    is_equal_at(&found, &wanted, &case)?;
    let added = out.as_slice().strip_prefix(b"before\n");
    is_equal_at(&added, &Some(text.as_bytes()), &case)
}

#[test]
fn changes_between_dumps(rt: HostRuntime) -> Result<(), Fail> {
    let alloc = rt.alloc();
    for &(case, old, new, text) in &ROWS {
        let (old, new) = (dump_of(alloc, old)?, dump_of(alloc, new)?);
        changes_are(alloc, &old, &new, Ok(()), text, case)?;
    }
    let (old, new) = (dump_of(alloc, &OLD)?, dump_of(alloc, &NEW)?);
    let text =
        "~ a sequence 1 to 12 hint 2419200 to none x509 +0 -1 jwt +0 -1\n+ c authorities 4 sequence 7\n";
    changes_are(alloc, &old, &new, Ok(()), text, "real bundles")
}

#[test]
fn no_changes_of_what_is_no_dump(rt: HostRuntime) -> Result<(), Fail> {
    let alloc = rt.alloc();
    let one = dump_of(alloc, &ONE)?;
    let good = one.as_slice();
    let (bad, _) = good.split_at(good.len().saturating_sub(1));
    let rows: [(&[u8], &[u8], DiffError); 4] = [
        (bad, good, DiffError::BadOld(1)),
        (good, bad, DiffError::BadNew(1)),
        (b"", bad, DiffError::BadOld(0)),
        (good, b"", DiffError::BadNew(0)),
    ];
    for &(old, new, wanted) in &rows {
        changes_are(alloc, old, new, Err(wanted), "", "no dump")?;
    }
    Ok(())
}

/// Appends what changed between two dumps. Answers whether there was memory for it.
fn is_put(alloc: Global, old: &[u8], new: &[u8], out: &mut Vec<u8>) -> Result<bool, DumpError> {
    let old = read_dump(alloc, old)?;
    let new = read_dump(alloc, new)?;
    Ok(put_diff(old.pairs(), new.pairs(), out).is_ok())
}

static WHOLE: &[u8] =
    b"before\n~ a sequence 1 to 12 hint 2419200 to none x509 +0 -1 jwt +0 -1\n- b\n+ c authorities 0 sequence 12\n";

#[test]
fn a_refused_growth_leaves_no_part_of_a_diff(rt: HostRuntime) -> Result<(), Fail> {
    let alloc = rt.alloc();
    let (old, new) = (dump_of(alloc, &OLD)?, dump_of(alloc, &OTHERS)?);
    let mut out = Vec::from_slice(alloc, b"before\n")?;
    let is_whole = is_put(alloc, &old, &new, &mut out)?;
    let size = if is_whole {
        WHOLE.len()
    } else {
        b"before\n".len()
    };
    let (wanted, _) = WHOLE.split_at(size);
    is_equal_at(&out.as_slice(), &wanted, &"whole, or nothing")?;
    if is_whole {
        return Ok(());
    }
    Err(Fail::from(AllocError))
}
