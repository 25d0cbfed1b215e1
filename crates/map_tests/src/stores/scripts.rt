//! Scripts of two passes, and of a third one that is split off, by one thread.
ghost use Rattle.std.specs.Prelude.{◌≡◌, IfOk};
ghost use Rattle.shard_store.specs.Pass.{IsOf};

use super::seats::Seats;
use shard_store::{CloseError, Pass, Store};
use std::alloc::{AllocError, Global};
use std::test::Fail;
use test_kit::{holds_at, is_equal};

/// Who does what, and what it is told.
type Row<'a> = (char, &'a str, &'a str);

/// A store, its passes `p` and `q`, and what they do there. It is played with each of the numbers of tries.
#[derive(Clone, Copy)]
struct Script<'a> {
    shards: usize,
    rounds: u64,
    tries: &'a [u64],
    /// So many numbers are those of `q`.
    share: u64,
    /// So many domains each of them sets first, in turn.
    before: u64,
    rows: &'a [Row<'a>],
    /// Who closes the store, and what it is told.
    end: (char, &'a str),
}

const IN_TURN: &[Row] = &[
    ('p', "set c -", "stored"),
    ('q', "append c x509", "appended -"),
    ('p', "fetch", "all 201"),
    ('q', "fetch", "all 201"),
    ('q', "get c", "found -/1"),
    ('q', "remove c", "removed"),
    ('p', "get c", "refused 30"),
    ('p', "join q", "4294966296"),
    ('p', "fetch", "all 200"),
];

const REMOVED: &[Row] = &[
    ('p', "setif a absent 7", "stored"),
    ('q', "setif a absent 7", "refused 36 7"),
    ('p', "setif a 7 8", "stored"),
    ('q', "setif a 8 3", "refused 31 8"),
    ('p', "remove a", "removed"),
    ('q', "fetch", "all 0"),
    ('q', "setif a absent 3", "refused 31 8"),
    ('p', "setif a none 3", "refused 36 absent"),
    ('q', "append a k", "refused 30"),
    ('p', "remove a", "refused 30"),
    ('q', "set a 8", "stored"),
    ('p', "set a 8", "unchanged"),
    ('q', "append a k", "appended 9"),
    ('p', "append a k", "unchanged"),
    ('p', "fetch", "all 1 a 9/1"),
    ('q', "join p", "1"),
];

/// The other pass is refused, and holds nothing that is held; the second hold is to the end.
const HELD: &[Row] = &[
    ('p', "hold 0", "holds"),
    ('p', "held", "0 0"),
    ('q', "set a -", "held 0 0"),
    ('q', "get a", "held 0 0"),
    ('q', "fetch", "held 0 0"),
    ('p', "free", "4294966296"),
    ('q', "set a -", "stored"),
    ('p', "hold 0", "holds"),
    ('p', "held", "0 1"),
    ('q', "hold 0", "held 0 1"),
    ('q', "get a", "held 0 1"),
];

/// The name `b` is at home in shard 0, and `a` in shard 1.
const OTHER_IS_FREE: &[Row] = &[
    ('p', "hold 1", "holds"),
    ('q', "set b -", "stored"),
    ('q', "set a -", "held 1 0"),
    ('p', "free", "4294966296"),
    ('p', "join q", "4294966296"),
];

const HELD_TO_THE_END: &[Row] = &[
    ('p', "hold 1", "holds"),
    ('q', "set b 3", "stored"),
    ('q', "set a -", "held 1 0"),
    ('q', "append a k", "held 1 0"),
    ('q', "remove a", "held 1 0"),
    ('q', "get a", "held 1 0"),
    ('q', "get b", "found 3/0"),
    ('q', "fetch", "held 1 0"),
    ('q', "set b 4", "stored"),
];

const LAST_SHARD: &[Row] = &[
    ('p', "fetch", "all 300"),
    ('q', "hold 255", "holds"),
    ('q', "free", "1000"),
];

/// What was read is answered while another pass holds the shard, until the shard changes. What was written is not.
const READ: &[Row] = &[
    ('q', "set a 5", "stored"),
    ('p', "hold 0", "holds"),
    ('q', "get a", "held 0 1"),
    ('q', "fetch", "held 0 1"),
    ('p', "free", "4294966296"),
    ('q', "get a", "found 5/0"),
    ('p', "hold 0", "holds"),
    ('q', "get a", "found 5/0"),
    ('q', "get b", "refused 30"),
    ('q', "fetch", "all 1 a 5/0"),
    ('q', "set a 5", "held 0 1"),
    ('q', "remove b", "held 0 1"),
    ('p', "free", "4294966296"),
    ('p', "set a 6", "stored"),
    ('p', "hold 0", "holds"),
    ('q', "get a", "held 0 2"),
    ('q', "fetch", "held 0 2"),
    ('p', "free", "4294966296"),
    ('q', "get a", "found 6/0"),
    ('p', "hold 0", "holds"),
    ('q', "get a", "found 6/0"),
    ('q', "fetch", "all 1 a 6/0"),
    ('p', "free", "4294966296"),
    ('p', "join q", "4294966296"),
];

/// A fetch-all is remembered of each shard. A pass that is split off remembers nothing, and one that is joined away is
/// forgotten; one that has held a shard and let it go remembers what it had read.
const READ_ALL: &[Row] = &[
    ('q', "set a 5", "stored"),
    ('q', "set b 6", "stored"),
    ('q', "fetch", "all 2 a 5/0 b 6/0"),
    ('p', "hold 1", "holds"),
    ('q', "get a", "found 5/0"),
    ('q', "get b", "found 6/0"),
    ('q', "fetch", "all 2 a 5/0 b 6/0"),
    ('q', "append a k", "held 1 1"),
    ('p', "free", "4294966296"),
    ('q', "split 10", "990"),
    ('p', "hold 1", "holds"),
    ('r', "get a", "held 1 1"),
    ('r', "get b", "found 6/0"),
    ('r', "fetch", "held 1 1"),
    ('p', "free", "4294966296"),
    ('r', "join q", "10"),
    ('p', "hold 1", "holds"),
    ('r', "get a", "held 1 1"),
    ('r', "get b", "found 6/0"),
    ('r', "fetch", "held 1 1"),
    ('p', "free", "4294966296"),
    ('p', "get a", "found 5/0"),
    ('p', "hold 0", "holds"),
    ('r', "get a", "found 5/0"),
    ('p', "free", "4294966296"),
    ('r', "hold 1", "holds"),
    ('p', "get a", "found 5/0"),
    ('p', "get b", "found 6/0"),
    ('p', "fetch", "all 2 a 5/0 b 6/0"),
    ('p', "append a k", "held 1 1"),
    ('r', "free", "10"),
    ('p', "join r", "4294966296"),
];

/// A set forgets what was read of its shard, even if it changes nothing. But the last fetch-all is remembered as a whole, until a
/// shard changes.
const LAST_ALL: &[Row] = &[
    ('q', "fetch", "all 0"),
    ('p', "set a 5", "stored"),
    ('p', "set b 6", "stored"),
    ('q', "fetch", "all 2 a 5/0 b 6/0"),
    ('q', "set a 5", "unchanged"),
    ('p', "hold 1", "holds"),
    ('q', "get a", "held 1 1"),
    ('q', "fetch", "all 2 a 5/0 b 6/0"),
    ('p', "free", "4294966296"),
    ('p', "set b 7", "stored"),
    ('p', "hold 1", "holds"),
    ('q', "fetch", "held 1 1"),
    ('p', "free", "4294966296"),
    ('q', "fetch", "all 2 a 5/0 b 7/0"),
    ('q', "set a 5", "unchanged"),
    ('p', "set d 1", "stored"),
    ('p', "hold 1", "holds"),
    ('q', "fetch", "held 1 1"),
    ('p', "free", "4294966296"),
];

/// Each pass counts what its own changes have brought and taken, whether others had read the shard before or not: bundles that
/// came and went, and marks. A bundle without a sequence leaves no mark, and a set over a mark takes it away.
const TALLIED: &[Row] = &[
    ('p', "tally", "0 0 0 0"),
    ('p', "set a 5", "stored"),
    ('p', "tally", "1 0 0 0"),
    ('q', "fetch", "all 1 a 5/0"),
    ('p', "set a 5", "unchanged"),
    ('p', "set a 4", "refused 31 5"),
    ('p', "setif a absent 6", "refused 36 5"),
    ('p', "set a 6", "stored"),
    ('p', "append a k", "appended 7"),
    ('p', "tally", "1 0 0 0"),
    ('q', "fetch", "all 1 a 7/1"),
    ('q', "remove a", "removed"),
    ('q', "tally", "0 1 1 0"),
    ('p', "remove a", "refused 30"),
    ('p', "setif a absent 7", "stored"),
    ('p', "tally", "2 0 0 1"),
    ('q', "set b -", "stored"),
    ('q', "append b k", "appended -"),
    ('q', "remove b", "removed"),
    ('q', "get b", "refused 30"),
    ('q', "tally", "1 2 1 0"),
    ('p', "hold 0", "holds"),
    ('q', "set b -", "held 0 3"),
    ('q', "tally", "1 2 1 0"),
    ('p', "free", "4294966296"),
    ('p', "tally", "2 0 0 1"),
    ('q', "split 10", "990"),
    ('r', "tally", "0 0 0 0"),
    ('q', "tally", "1 2 1 0"),
    ('p', "join q", "4294966296"),
    ('p', "tally", "3 2 1 1"),
];

static SCRIPTS: [Script; 9] = [
    Script {
        shards: 4,
        rounds: 3,
        tries: &[1],
        share: 1000,
        before: 100,
        rows: IN_TURN,
        end: ('p', "200 domains"),
    },
    Script {
        shards: 1,
        rounds: 2,
        tries: &[1, 3, 1_000_000],
        share: 1000,
        before: 0,
        rows: HELD,
        end: ('q', "shard 0 is held"),
    },
    Script {
        shards: 2,
        rounds: 2,
        tries: &[1, 3, 1_000_000],
        share: 1000,
        before: 0,
        rows: OTHER_IS_FREE,
        end: ('p', "1 domains"),
    },
    Script {
        shards: 2,
        rounds: 2,
        tries: &[1, 3, 1_000_000],
        share: 1000,
        before: 0,
        rows: HELD_TO_THE_END,
        end: ('q', "shard 1 is held"),
    },
    Script {
        shards: 256,
        rounds: 1,
        tries: &[1],
        share: 1000,
        before: 150,
        rows: LAST_SHARD,
        end: ('p', "300 domains"),
    },
    Script {
        shards: 1,
        rounds: 2,
        tries: &[1, 1_000],
        share: 1000,
        before: 0,
        rows: READ,
        end: ('p', "1 domains"),
    },
    Script {
        shards: 2,
        rounds: 2,
        tries: &[1],
        share: 1000,
        before: 0,
        rows: READ_ALL,
        end: ('p', "2 domains"),
    },
    Script {
        shards: 2,
        rounds: 1,
        tries: &[1],
        share: 1000,
        before: 0,
        rows: LAST_ALL,
        end: ('q', "3 domains"),
    },
    Script {
        shards: 2,
        rounds: 1,
        tries: &[1, 3],
        share: 1000,
        before: 0,
        rows: TALLIED,
        end: ('p', "1 domains"),
    },
];

/// Sets a domain of this letter and number, and reads it back.
fn set_and_get(
    alloc: Global,
    seats: &mut Seats,
    who: char,
    letter: char,
    number: u64,
) -> Result<(), Fail>
    ensures { seats.new ≡ seats.old }
{
    let set = format!(in alloc; "set {letter}{number} {number}")?;
    seats.play(alloc, (who, set.as_str(), "stored"))?;
    let get = format!(in alloc; "get {letter}{number}")?;
    let found = format!(in alloc; "found {number}/0")?;
    seats.play(alloc, (who, get.as_str(), found.as_str()))
}

/// The domains that are set before, the rows, and the pass that closes the store.
fn play_rows(alloc: Global, seats: &mut Seats, script: &Script) -> Result<Pass, Fail>
    ensures store { seats.new ≡ seats.old }
    ensures own { IfOk result (λ pass. IsOf pass seats.old) }
{
    for number in 0..script.before {
        set_and_get(alloc, seats, 'p', 'a', number)?;
        set_and_get(alloc, seats, 'q', 'b', number)?;
    }
    for &row in script.rows {
        seats.play(alloc, row)?;
    }
    let (who, _) = script.end;
    seats.take(who)
}

/// The same at this store.
fn play_at(alloc: Global, store: &Store, p: Pass, q: Pass, script: &Script) -> Result<Pass, Fail>
    requires own { IsOf p store.now × IsOf q store.now }
    requires shards { store.now.id.slots ≡ script.now.shards }
    ensures { IfOk result (λ pass. IsOf pass store.now) }
{
    let mut seats = Seats::new(store, script.shards, p, q);
    let pass = play_rows(alloc, &mut seats, script);
    drop(seats);
    pass
}

/// What the pass that closes the store is told.
pub(crate) fn end_text(alloc: Global, store: Store, pass: Pass) -> Result<String, AllocError>
    requires { IsOf pass store }
{
    match store.close(pass) {
        Ok(contents) => {
            let count = contents.len();
            drop(contents);
            format!(in alloc; "{count} domains")
        }
        Err(CloseError::Memory) => format!(in alloc; "memory"),
        Err(CloseError::HeldAtEnd(shard)) => format!(in alloc; "shard {shard} is held"),
    }
}

fn play(alloc: Global, script: &Script, tries: u64) -> Result<(), Fail> {
    let Script {
        shards,
        rounds,
        share,
        end: (_, wanted),
        ..
    } = *script;
    if shards == 0 || shards > 256 || rounds == 0 || tries == 0 || share == 0 {
        return Err(Fail::from("there is not such a store"));
    }
    let (store, mut p) = Store::new(alloc, shards, rounds, tries)?;
    if share >= p.numbers() {
        return Err(Fail::from("a pass has not so many numbers"));
    }
    let q = store.split(&mut p, share);
    let pass = play_at(alloc, &store, p, q, script)?;
    let told = end_text(alloc, store, pass)?;
    if told.as_str() == wanted {
        return Ok(());
    }
    Err(Fail::from(format!(in alloc; "the end: {told}, and not {wanted}")?))
}

fn play_each(alloc: Global, script: &Script) -> Result<(), Fail> {
    for &tries in script.tries {
        play(alloc, script, tries)?;
    }
    Ok(())
}

#[test]
fn passes_play_scripts(rt: HostRuntime) -> Result<(), Fail> {
    for script in &SCRIPTS {
        play_each(rt.alloc(), script)?;
    }
    Ok(())
}

#[test]
fn removed_sequences_are_remembered(rt: HostRuntime) -> Result<(), Fail> {
    let script = Script {
        shards: 2,
        rounds: 2,
        tries: &[1],
        share: 1,
        before: 0,
        rows: REMOVED,
        end: ('q', "1 domains"),
    };
    play_each(rt.alloc(), &script)
}

/// The rows of both passes but the join, all of them by a pass that is alone.
fn play_removed(alloc: Global, store: &Store, p: Pass) -> Result<Pass, Fail>
    requires own { IsOf p store.now }
    requires shards { store.now.id.slots ≡ 2 }
    ensures { IfOk result (λ pass. IsOf pass store.now) }
{
    let mut seats = Seats::alone(store, 2, p);
    let (rows, _) = REMOVED.split_at(REMOVED.len().saturating_sub(1));
    for &(_, line, wanted) in rows {
        seats.play(alloc, ('p', line, wanted))?;
    }
    seats.take('p')
}

#[test]
fn removed_sequences_are_remembered_by_one_pass(rt: HostRuntime) -> Result<(), Fail> {
    let alloc = rt.alloc();
    let (store, p) = Store::new(alloc, 2, 2, 1)?;
    let pass = play_removed(alloc, &store, p)?;
    let told = end_text(alloc, store, pass)?;
    is_equal(&told.as_str(), &"1 domains")
}

/// Asks a line. If no memory is left, a get shows what stood before, and the line is asked again. Answers whether it was.
fn ask_short(
    alloc: Global,
    seats: &mut Seats,
    line: &str,
    wanted: &str,
    before: &str,
) -> Result<bool, Fail>
    ensures { seats.new ≡ seats.old }
{
    let told = seats.act(alloc, 'p', line)?;
    if told.as_str() == wanted {
        return Ok(false);
    }
    is_equal(&told.as_str(), &"memory")?;
    seats.play(alloc, ('p', "get a", before))?;
    seats.play(alloc, ('p', line, wanted))?;
    Ok(true)
}

/// What is asked, what is answered, and what a get shows before.
static SHORT: [(&str, &str, &str); 4] = [
    ("set a 5", "stored", "refused 30"),
    ("append a k", "appended 6", "found 5/0"),
    ("fetch", "all 1 a 6/1", "found 6/1"),
    ("remove a", "removed", "found 6/1"),
];

/// The store's only pass again, and whether a line was answered that no memory is left.
fn play_short(alloc: Global, store: &Store, p: Pass) -> Result<(Pass, bool), Fail>
    requires own { IsOf p store.now }
    requires shards { store.now.id.slots ≡ 2 }
    ensures { IfOk result (λ left. IsOf left.0 store.now) }
{
    let mut seats = Seats::alone(store, 2, p);
    let mut was_short = false;
    for &(line, wanted, before) in &SHORT {
        was_short |= ask_short(alloc, &mut seats, line, wanted, before)?;
    }
    Ok((seats.take('p')?, was_short))
}

/// To be run with each allocation refused in turn. A call that meets a refusal says so; the test tells that as an error, after
/// it has seen that the call changed nothing. So it passes only if nothing was refused.
#[test]
fn a_refused_growth_changes_nothing(rt: HostRuntime) -> Result<(), Fail> {
    let alloc = rt.alloc();
    let (store, p) = Store::new(alloc, 2, 1, 1)?;
    let (pass, was_short) = play_short(alloc, &store, p)?;
    let told = end_text(alloc, store, pass)?;
    match told.as_str() {
        "0 domains" if !was_short => Ok(()),
        "0 domains" | "memory" => Err(Fail::from(AllocError)),
        _ => holds_at(false, &told),
    }
}
