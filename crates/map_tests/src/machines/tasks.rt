//! Single shards and tasks, step by step.
use map_core::{AskError, Contents, Op, Reply};
use spiffe_doc::TrustDomain;
use std::alloc::{AllocError, Global};
use std::sync::Arc;
use std::test::Fail;
use step_core::home::home;
use step_core::{Answer, Shard, Task, Want};
use test_kit::{Shown, answer_text, contents_text, is_equal, is_equal_at, operation};

/// A name, how many shards there are, and which of them is its home.
static HOMES: [(&str, usize, usize); 6] = [
    ("example.org", 2, 0),
    ("example.org", 16, 2),
    ("a", 2, 1),
    ("b", 2, 0),
    ("a", 1, 0),
    ("zz", 256, 244),
];

#[test]
fn names_have_homes(rt: HostRuntime) -> Result<(), Fail> {
    for &(name, shards, wanted) in &HOMES {
        let domain = TrustDomain::parse(rt.alloc(), name)?;
        if shards == 0 || home(&domain, shards) != wanted {
            return Err(Fail::from(name));
        }
    }
    Ok(())
}

/// What a shard is asked, what it answers, and its revision then.
type Row<'a> = (&'a str, &'a str, u64);

/// What the shard answers to the operation of a line.
fn step_text(alloc: Global, shard: &mut Shard, line: &str) -> Result<String, Fail> {
    Ok(answer_text(alloc, Shown::Whole, &shard.step(operation(alloc, line)?))?)
}

/// The shard answers a row.
fn play_step(alloc: Global, shard: &mut Shard, row: &Row) -> Result<(), Fail> {
    let (line, expected, revision) = *row;
    let text = step_text(alloc, shard, line)?;
    let (looked, _) = shard.look();
    if text.as_str() != expected || looked != revision {
        return Err(Fail::from(format!(in alloc;
            "{line}: {text} at {looked}, and not {expected} at {revision}"
        )?));
    }
    Ok(())
}

fn same_contents(alloc: Global, first: &Contents, second: &Contents) -> Result<bool, AllocError> {
    let first = contents_text(alloc, Shown::Whole, first)?;
    let second = contents_text(alloc, Shown::Whole, second)?;
    Ok(first.as_str() == second.as_str())
}

/// Share gives what look gives.
fn shares_its_look(alloc: Global, shard: &Shard) -> Result<bool, AllocError> {
    let (looked, contents) = shard.look();
    let (shared, version) = shard.share()?;
    Ok(same_contents(alloc, contents, &version)? && shared == looked)
}

/// The shard answers a row, and share gives what look gives.
fn play_row(alloc: Global, shard: &mut Shard, row: &Row) -> Result<(), Fail> {
    play_step(alloc, shard, row)?;
    if !shares_its_look(alloc, shard)? {
        let (line, _, _) = *row;
        return Err(Fail::from(format!(in alloc; "{line}: share is not look")?));
    }
    Ok(())
}

fn play(alloc: Global, shard: &mut Shard, rows: &[Row]) -> Result<(), Fail> {
    for row in rows {
        play_row(alloc, shard, row)?;
    }
    Ok(())
}

/// Plays a row beside a version of another, for whom it stays as it was.
fn play_beside(
    alloc: Global,
    version: &Contents,
    shard: &mut Shard,
    row: &Row,
) -> Result<(), Fail> {
    let before = contents_text(alloc, Shown::Whole, version)?;
    play_row(alloc, shard, row)?;
    let after = contents_text(alloc, Shown::Whole, version)?;
    if after.as_str() != before.as_str() {
        let (line, _, _) = *row;
        return Err(Fail::from(format!(in alloc; "{line}: a shared version has changed")?));
    }
    Ok(())
}

/// Plays the rows, while the version before each step is kept by another.
fn play_shared(alloc: Global, shard: &mut Shard, rows: &[Row]) -> Result<(), Fail> {
    for row in rows {
        let (_, version) = shard.share()?;
        play_beside(alloc, &version, shard, row)?;
    }
    Ok(())
}

/// A revision counts changes.
const CHANGES: &[Row<'static>] = &[
    ("set a {\"keys\":[],\"spiffe_sequence\":5}", "stored", 1),
    (
        "set a {\"keys\":[],\"spiffe_sequence\":4}",
        "refused 31 5",
        1,
    ),
    (
        "set a {\"keys\":[{\"kty\":\"RSA\",\"use\":\"jwt-svid\",\"kid\":\"k\",\"n\":\"AQAB\",\"e\":\"AQAB\"}],\"spiffe_sequence\":5}",
        "stored",
        2,
    ),
    (
        "set a {\"keys\":[{\"kty\":\"RSA\",\"use\":\"jwt-svid\",\"kid\":\"k\",\"n\":\"AQAB\",\"e\":\"AQAB\"}],\"spiffe_sequence\":5}",
        "unchanged",
        2,
    ),
    ("set a {\"keys\":[]}", "stored", 3),
    ("get a", "found {\"keys\":[]}", 3),
    ("remove a", "removed", 4),
    ("remove a", "refused 30", 4),
    ("set a {\"keys\":[]}", "stored", 5),
];

/// A removed domain remembers its sequence, and the revision counts what the mark lets through.
const MARKS: &[Row<'static>] = &[
    ("set a {\"keys\":[],\"spiffe_sequence\":5}", "stored", 1),
    ("remove a", "removed", 2),
    ("get a", "refused 30", 2),
    (
        "set a {\"keys\":[],\"spiffe_sequence\":4}",
        "refused 31 5",
        2,
    ),
    (
        "append a {\"kty\":\"RSA\",\"use\":\"jwt-svid\",\"kid\":\"k\",\"n\":\"AQAB\",\"e\":\"AQAB\"}",
        "refused 30",
        2,
    ),
    ("remove a", "refused 30", 2),
    ("set a {\"keys\":[],\"spiffe_sequence\":5}", "stored", 3),
    ("remove a", "removed", 4),
    ("set a {\"keys\":[]}", "stored", 5),
    ("remove a", "removed", 6),
    ("set a {\"keys\":[],\"spiffe_sequence\":1}", "stored", 7),
];

/// Each operation on one name, with an authority of either kind.
const OPERATIONS: &[Row<'static>] = &[
    ("setif a 3 {\"keys\":[]}", "refused 36 absent", 0),
    (
        "setif a absent {\"keys\":[],\"spiffe_sequence\":9}",
        "stored",
        1,
    ),
    (
        "append a {\"kty\":\"RSA\",\"use\":\"jwt-svid\",\"kid\":\"k\",\"n\":\"AQAB\",\"e\":\"AQAB\"}",
        "appended 10",
        2,
    ),
    (
        "append a {\"kty\":\"RSA\",\"use\":\"jwt-svid\",\"kid\":\"k\",\"n\":\"AQAB\",\"e\":\"AQAB\"}",
        "unchanged",
        2,
    ),
    (
        "append a {\"kty\":\"RSA\",\"use\":\"jwt-svid\",\"kid\":\"k\",\"n\":\"AQAC\",\"e\":\"AQAB\"}",
        "refused 32",
        2,
    ),
    (
        "append a {\"kty\":\"EC\",\"use\":\"x509-svid\",\"crv\":\"P-256\",\"x\":\"AAAAAAAAAAAAAAAAAAAAAAAAAAAAAAAAAAAAAAAAAAA\",\"y\":\"AAAAAAAAAAAAAAAAAAAAAAAAAAAAAAAAAAAAAAAAAAA\",\"x5c\":[\"MAA=\"]}",
        "appended 11",
        3,
    ),
    (
        "get a",
        "found {\"keys\":[{\"e\":\"AQAB\",\"kid\":\"k\",\"kty\":\"RSA\",\"n\":\"AQAB\",\"use\":\"jwt-svid\"},{\"crv\":\"P-256\",\"kty\":\"EC\",\"use\":\"x509-svid\",\"x\":\"AAAAAAAAAAAAAAAAAAAAAAAAAAAAAAAAAAAAAAAAAAA\",\"x5c\":[\"MAA=\"],\"y\":\"AAAAAAAAAAAAAAAAAAAAAAAAAAAAAAAAAAAAAAAAAAA\"}],\"spiffe_sequence\":11}",
        3,
    ),
    ("remove a", "removed", 4),
    ("setif a absent {\"keys\":[]}", "stored", 5),
    (
        "append a {\"kty\":\"RSA\",\"use\":\"jwt-svid\",\"kid\":\"k\",\"n\":\"AQAB\",\"e\":\"AQAB\"}",
        "appended -",
        6,
    ),
];

/// A worn shard changes no more.
const WORN: &[Row<'static>] = &[
    ("set a {\"keys\":[]}", "worn 0", 4611686018427387904),
    ("get a", "refused 30", 4611686018427387904),
];

/// A shard with one revision left changes once.
const NEARLY_WORN: &[Row<'static>] = &[
    ("set a {\"keys\":[]}", "stored", 4611686018427387904),
    ("set a {\"keys\":[]}", "unchanged", 4611686018427387904),
    ("remove a", "worn 0", 4611686018427387904),
    ("get a", "found {\"keys\":[]}", 4611686018427387904),
];

/// Rows that are played on an empty shard of this revision.
static SHARDS: [(u64, &[Row<'static>]); 5] = [
    (0, CHANGES),
    (0, MARKS),
    (0, OPERATIONS),
    (4611686018427387904, WORN),
    (4611686018427387903, NEARLY_WORN),
];

/// Plays the rows on a shard that nobody shares, and on one whose versions are shared.
fn play_both(alloc: Global, revision: u64, rows: &[Row]) -> Result<(), Fail> {
    if revision > 4611686018427387904 {
        return Err(Fail::from("no shard has this revision"));
    }
    let mut shard = Shard::with(alloc, revision, Contents::new(alloc))?;
    play(alloc, &mut shard, rows)?;
    let mut shard = Shard::with(alloc, revision, Contents::new(alloc))?;
    play_shared(alloc, &mut shard, rows)
}

#[test]
fn a_shard_answers(rt: HostRuntime) -> Result<(), Fail> {
    for &(revision, rows) in &SHARDS {
        play_both(rt.alloc(), revision, rows)?;
    }
    Ok(())
}

/// The version of the shard after a row.
fn version_after(alloc: Global, shard: &mut Shard, row: &Row) -> Result<Arc<Contents>, Fail> {
    play_row(alloc, shard, row)?;
    let (_, version) = shard.share()?;
    Ok(version)
}

/// A version that was shared stays as it was, and a shard that nobody shares goes on from the last one.
#[test]
fn a_shared_version_stays(rt: HostRuntime) -> Result<(), Fail> {
    let alloc = rt.alloc();
    let mut shard = Shard::new(alloc)?;
    let first = version_after(alloc, &mut shard, &("set a {\"keys\":[]}", "stored", 1))?;
    let second = version_after(alloc, &mut shard, &("set b {\"keys\":[]}", "stored", 2))?;
    let rows = [
        ("get b", "found {\"keys\":[]}", 2),
        ("remove a", "removed", 3),
    ];
    play(alloc, &mut shard, &rows)?;
    is_equal(
        &(first.len(), second.len(), shard.look().1.len()),
        &(1, 2, 1),
    )
}

/// What a task is given.
#[derive(Clone, Copy)]
enum Given {
    Seen(u64),
    Revision(u64),
    Unchanged,
    Memory,
}

fn answer_of(alloc: Global, given: Given) -> Result<Answer, AllocError> {
    match given {
        Given::Seen(revision) => {
            let (_, contents) = Shard::new(alloc)?.share()?;
            Ok(Answer::Seen { revision, contents })
        }
        Given::Revision(revision) => Ok(Answer::Revision(revision)),
        Given::Unchanged => Ok(Answer::Replied(Ok(Reply::Unchanged))),
        Given::Memory => Ok(Answer::Replied(Err(AskError::Memory))),
    }
}

/// A task over so many shards and rounds, what it wants and is given at each step, and its reply.
#[derive(Clone, Copy)]
struct Tasked<'a> {
    line: &'a str,
    shards: usize,
    rounds: usize,
    steps: &'a [(Want, Given)],
    reply: &'a str,
}

static TASKS: [Tasked; 3] = [
    // The second round reads both shards again, though the first one had not moved.
    Tasked {
        line: "fetch",
        shards: 2,
        rounds: 2,
        steps: &[
            (Want::Collect(0), Given::Seen(3)),
            (Want::Collect(1), Given::Seen(4)),
            (Want::Confirm(0), Given::Revision(3)),
            (Want::Confirm(1), Given::Revision(5)),
            (Want::Collect(0), Given::Seen(3)),
            (Want::Collect(1), Given::Seen(5)),
            (Want::Confirm(0), Given::Revision(3)),
            (Want::Confirm(1), Given::Revision(5)),
        ],
        reply: "all 0",
    },
    // The last shard that moved is named.
    Tasked {
        line: "fetch",
        shards: 1,
        rounds: 2,
        steps: &[
            (Want::Collect(0), Given::Seen(0)),
            (Want::Confirm(0), Given::Revision(1)),
            (Want::Collect(0), Given::Seen(7)),
            (Want::Confirm(0), Given::Revision(9)),
        ],
        reply: "moved 0 7 9",
    },
    // An operation on a name is one step of its shard. What a task does not want changes nothing.
    Tasked {
        line: "get a",
        shards: 2,
        rounds: 1,
        steps: &[
            (Want::Do(1), Given::Revision(0)),
            (Want::Do(1), Given::Seen(0)),
            (Want::Do(1), Given::Unchanged),
            (Want::Done, Given::Memory),
        ],
        reply: "unchanged",
    },
];

fn give(alloc: Global, task: &mut Task, steps: &[(Want, Given)]) -> Result<(), Fail> {
    for &(want, given) in steps {
        is_equal(&task.wants(), &want)?;
        task.give(answer_of(alloc, given)?);
    }
    is_equal(&task.wants(), &Want::Done)
}

/// The text of the reply of a task that is done; out of memory is an error here.
fn reply_of(alloc: Global, task: Task) -> Result<String, Fail> {
    if task.wants() != Want::Done {
        drop(task);
        return Err(Fail::from("the task is not done"));
    }
    match task.reply() {
        Err(AskError::Memory) => Err(Fail::from("out of memory")),
        answer => Ok(answer_text(alloc, Shown::Whole, &answer)?),
    }
}

/// The task of an operation.
fn begin(alloc: Global, row: &Tasked) -> Result<Task, Fail> {
    if row.shards == 0 || row.rounds == 0 {
        return Err(Fail::from("a task has a shard and a round"));
    }
    let op = operation(alloc, row.line)?;
    let task = Task::begin(alloc, &op, row.shards, row.rounds);
    drop(op);
    Ok(task?)
}

/// The text of the reply of the task, once all was given.
fn reply_to(alloc: Global, row: &Tasked) -> Result<String, Fail> {
    let mut task = begin(alloc, row)?;
    match give(alloc, &mut task, row.steps) {
        Ok(()) => reply_of(alloc, task),
        Err(error) => {
            drop(task);
            Err(error)
        }
    }
}

#[test]
fn tasks_want_what_they_are_given(rt: HostRuntime) -> Result<(), Fail> {
    for row in &TASKS {
        let reply = reply_to(rt.alloc(), row)?;
        is_equal_at(&reply.as_str(), &row.reply, &row.line)?;
    }
    Ok(())
}
