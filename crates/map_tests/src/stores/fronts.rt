//! Passes that are seated for a front, which asks whoever keeps a map.
ghost use Rattle.std.specs.Prelude.{IfOk};
ghost use Rattle.shard_store.specs.Pass.{IsOf};

use map_core::Ask;
use shard_store::{Pass, Seated, Store};
use std::alloc::Global;
use std::test::Fail;
use test_kit::{Shown, is_answer, is_equal, operation, play};

/// What is asked and what is answered.
type Row<'a> = (&'a str, &'a str);

/// Rows of one pass, of a domain that is removed.
static REMOVED: [Row; 15] = [
    ("setif a absent 7", "stored"),
    ("setif a absent 7", "refused 36 7"),
    ("setif a 7 8", "stored"),
    ("setif a 8 3", "refused 31 8"),
    ("remove a", "removed"),
    ("fetch", "all 0"),
    ("setif a absent 3", "refused 31 8"),
    ("setif a none 3", "refused 36 absent"),
    ("append a k", "refused 30"),
    ("remove a", "refused 30"),
    ("set a 8", "stored"),
    ("set a 8", "unchanged"),
    ("append a k", "appended 9"),
    ("append a k", "unchanged"),
    ("fetch", "all 1 a 9/1"),
];

#[test]
fn one_pass_remembers_removed_sequences(rt: HostRuntime) -> Result<(), Fail> {
    let (store, pass) = Store::new(rt.alloc(), 2, 2, 1)?;
    let mut seated = Seated::new(&store, pass);
    play(rt.alloc(), Shown::Counted, &mut seated, &REMOVED)
}

/// A pass that remembers the digest of what it fetched last: the SHA-256 of the dump of no domains, and of that of `a` with the
/// document `{"keys":[]}`.
static UNLESS: [Row; 12] = [
    (
        "fetch unless 9cf4b161f3571e751912f9a78ae2015c4fb288afe59c798f5452a18d6254c893",
        "same",
    ),
    ("fetch", "all 0"),
    (
        "fetch unless 9cf4b161f3571e751912f9a78ae2015c4fb288afe59c798f5452a18d6254c893",
        "same",
    ),
    (
        "fetch unless ce63fbe9ae39fbb5db7e5c7f35c4630b6e662da041ff81ee66ff807889cc20a2",
        "all 0",
    ),
    ("set a -", "stored"),
    (
        "fetch unless 9cf4b161f3571e751912f9a78ae2015c4fb288afe59c798f5452a18d6254c893",
        "all 1 a -/0",
    ),
    (
        "fetch unless ce63fbe9ae39fbb5db7e5c7f35c4630b6e662da041ff81ee66ff807889cc20a2",
        "same",
    ),
    (
        "fetch unless ce63fbe9ae39fbb5db7e5c7f35c4630b6e662da041ff81ee66ff807889cc20a2",
        "same",
    ),
    ("fetch", "all 1 a -/0"),
    ("remove a", "removed"),
    (
        "fetch unless ce63fbe9ae39fbb5db7e5c7f35c4630b6e662da041ff81ee66ff807889cc20a2",
        "all 0",
    ),
    (
        "fetch unless 9cf4b161f3571e751912f9a78ae2015c4fb288afe59c798f5452a18d6254c893",
        "same",
    ),
];

#[test]
fn a_pass_fetches_unless_a_digest_is_known(rt: HostRuntime) -> Result<(), Fail> {
    let (store, pass) = Store::new(rt.alloc(), 2, 2, 1)?;
    let mut seated = Seated::new(&store, pass);
    play(rt.alloc(), Shown::Counted, &mut seated, &UNLESS)
}

/// What a front is answered.
static SEATED: [Row; 4] = [
    ("get a", "refused 30"),
    ("set a 5", "stored"),
    ("append a k", "appended 6"),
    ("fetch", "all 1 a 6/1"),
];

/// Seats the pass for one operation, and gives it back.
fn seat_once(alloc: Global, store: &Store, pass: Pass) -> Result<Pass, Fail>
    requires { IsOf pass store.now }
    ensures { IfOk result (λ pass. IsOf pass store.now) }
{
    let mut seated = Seated::new(store, pass);
    let answer = seated.ask(operation(alloc, "get a")?);
    is_answer(alloc, Shown::Counted, ("get a", "found 6/1"), &answer)?;
    Ok(seated.into_pass())
}

#[test]
fn a_front_asks_a_seated_pass(rt: HostRuntime) -> Result<(), Fail> {
    let alloc = rt.alloc();
    let (store, mut p) = Store::new(alloc, 2, 1, 1)?;
    let q = store.split(&mut p, 1000);
    let mut seated = Seated::new(&store, p);
    play(alloc, Shown::Counted, &mut seated, &SEATED)?;
    drop(seated);
    let pass = seat_once(alloc, &store, q)?;
    let contents = store.close(pass)?;
    let count = contents.len();
    drop(contents);
    is_equal(&count, &1)
}
