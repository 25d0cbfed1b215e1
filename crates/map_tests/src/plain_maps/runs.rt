//! Lines that are asked of an empty map one after another.
use super::{Row, play};
use map_core::Contents;
use std::alloc::Global;
use std::test::Fail;
use test_kit::{Shown, is_equal};

const BY_SEQUENCE: &[Row] = &[
    ("set a 5", "stored"),
    ("set a 4", "refused 31 5"),
    ("get a", "found 5/0"),
    ("set a 5/k:AQAB", "stored"),
    ("set a 5/k:AQAB", "unchanged"),
    ("set a -", "stored"),
    ("set a -", "unchanged"),
    ("set a 0", "stored"),
];

const EXPECTED: &[Row] = &[
    ("setif a absent 7", "stored"),
    ("setif a absent 7", "refused 36 7"),
    ("setif a 7 8", "stored"),
    ("setif a 8 3", "refused 31 8"),
    ("setif a 8 8", "unchanged"),
    ("remove a", "removed"),
    ("setif a absent 3", "refused 31 8"),
    ("setif a none 3", "refused 36 absent"),
    ("setif a 8 9", "refused 36 absent"),
    ("setif a absent -", "stored"),
    ("setif a 0 9", "refused 36 none"),
    ("setif a none 9", "stored"),
    ("get a", "found 9/0"),
];

const REMOVED: &[Row] = &[
    ("set a 5", "stored"),
    ("remove a", "removed"),
    ("get a", "refused 30"),
    ("set a 4", "refused 31 5"),
    ("append a k:AQAB", "refused 30"),
    ("remove a", "refused 30"),
    ("set a 4", "refused 31 5"),
    ("set a 5", "stored"),
    ("remove a", "removed"),
    ("set a -", "stored"),
    ("remove a", "removed"),
    ("set a 1", "stored"),
];

const IN_ORDER: &[Row] = &[
    ("fetch", "all 0"),
    ("get a", "refused 30"),
    ("remove a", "refused 30"),
    ("set b -", "stored"),
    ("set a.b 2", "stored"),
    ("set a 1", "stored"),
    ("set a-b 3/k:AQAB", "stored"),
    ("set 0 -", "stored"),
    ("fetch", "all 5 0 -/0 a 1/0 a-b 3/1 a.b 2/0 b -/0"),
    ("remove a-b", "removed"),
    ("remove b", "removed"),
    ("fetch", "all 3 0 -/0 a 1/0 a.b 2/0"),
];

const APPENDED: &[Row] = &[
    ("append a k:AQAB", "refused 30"),
    ("set a 9", "stored"),
    ("append a k:AQAB", "appended 10"),
    ("append a k:AQAB", "unchanged"),
    ("append a k:AQAC", "refused 32"),
    ("append a l:AQAB", "appended 11"),
    ("get a", "found 11/2"),
    ("append a x509", "appended 12"),
    ("append a x509", "unchanged"),
    ("get a", "found 12/3"),
    ("set b -", "stored"),
    ("append b k:AQAB", "appended -"),
    ("append b x509", "appended -"),
    ("set c 18446744073709551615", "stored"),
    ("append c k:AQAB", "refused 35"),
    ("append c x509", "refused 35"),
    ("get c", "found 18446744073709551615/0"),
];

const TAKEN_APART: &[Row] = &[
    ("set c 3", "stored"),
    ("set a 1/k:AQAB", "stored"),
    ("set b -", "stored"),
    ("set a-b 4/x509", "stored"),
    ("remove c", "removed"),
];

/// A run, and what the map holds at its end.
static RUNS: [(&[Row], &str); 7] = [
    (&[], "all 0 of 0"),
    (BY_SEQUENCE, "all 1 a 0/0 of 1"),
    (EXPECTED, "all 1 a 9/0 of 1"),
    (REMOVED, "all 1 a 1/0 of 1"),
    (IN_ORDER, "all 3 0 -/0 a 1/0 a.b 2/0 of 3"),
    (APPENDED, "all 3 a 12/3 b -/2 c 18446744073709551615/0 of 3"),
    (TAKEN_APART, "all 3 a 1/1 a-b 4/1 b -/0 of 3"),
];

/// Plays the rows on an empty map.
fn play_new(alloc: Global, shown: Shown, rows: &[Row]) -> Result<String, Fail> {
    let mut map = Contents::new(alloc);
    let left = play(alloc, shown, &mut map, rows);
    drop(map);
    left
}

#[test]
fn a_map_answers(rt: HostRuntime) -> Result<(), Fail> {
    for &(rows, wanted) in &RUNS {
        let left = play_new(rt.alloc(), Shown::Counted, rows)?;
        is_equal(&left.as_str(), &wanted)?;
    }
    Ok(())
}

/// An X.509 authority stands whole in the canonical text.
static WITH_X509: [Row; 3] = [
    ("set a 9", "stored"),
    ("append a x509", "appended 10"),
    (
        "get a",
        "found {\"keys\":[{\"crv\":\"P-256\",\"kty\":\"EC\",\"use\":\"x509-svid\",\"x\":\"AAAAAAAAAAAAAAAAAAAAAAAAAAAAAAAAAAAAAAAAAAA\",\"x5c\":[\"MAA=\"],\"y\":\"AAAAAAAAAAAAAAAAAAAAAAAAAAAAAAAAAAAAAAAAAAA\"}],\"spiffe_sequence\":10}",
    ),
];

#[test]
fn an_x509_authority_is_appended_whole(rt: HostRuntime) -> Result<(), Fail> {
    play_new(rt.alloc(), Shown::Whole, &WITH_X509)?;
    Ok(())
}
