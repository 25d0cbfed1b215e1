//! Workers that serve sessions in memory, each call through a gate.
ghost use Rattle.std.specs.Prelude.{◌≡◌, vec_len, IfOk};
ghost use Rattle.std.specs.List.{All};
ghost use Rattle.shard_store.specs.Pass.{IsOf};

use shard_store::{Pass, Store};
use std::alloc::{AllocError, Global};
use std::sync::{Mutex, Wait};
use std::test::Fail;
use std::thread::Threads;
use std::time::Clock;
use std::vec::IntoIter;
use test_kit::{is_equal, is_equal_at};
use wire::{Counted, FrontError};
use workers::{
    Finished, Gate, ListenFault, Open, Patient, Quiet, Session, SessionFault, Sessions, run_workers,
};

/// A get of `a`, and the reply that there is no such domain.
const GET_A: &[u8] = b"\x00\x00\x00\x03G\x01a";

const NO_DOMAIN: &[u8] = b"\x00\x00\x00\x01\x1e";

/// The reply that the gate is shut.
const SHUT: &[u8] = b"\x00\x00\x00\x01\x38";

/// A session over memory, of whose replies nothing is seen.
type Unseen<'a> = Session<&'a [u8], Vec<u8>>;

/// One session over memory, whose replies are seen.
#[derive(Drop)]
struct Once<'i, 'o> {
    input: &'i [u8],
    output: Option<&'o mut Vec<u8>>,
    left: u64,
}

impl<'i, 'o> Sessions for Once<'i, 'o> {
    type Reader = &'i [u8];

    type Writer = &'o mut Vec<u8>;

    ghost use Rattle.std.specs.Prelude.{⊤, ◌≤◌};

    ghost left = { λ once. once.left };

    ghost comes = { λ _ _ _. ⊤ };

    ghost takes_back = { λ _ reader writer _. ⊤ };

    fn next(&mut self) -> Result<Option<Session<&'i [u8], &'o mut Vec<u8>>>, ListenFault> {
        if self.left == 0 {
            return Ok(None);
        }
        self.left -= 1;
        let Some(writer) = self.output.take() else {
            return Ok(None);
        };
        Ok(Some(Session {
            reader: self.input,
            writer,
            turns: 1_000,
            peer: None,
        }))
    }

    fn take_back(&mut self, _reader: Counted<&'i [u8]>, _writer: Counted<&'o mut Vec<u8>>)
        ensures no_more { self.new.left ≤ self.old.left }
        ensures taken { ⊤ }
    {}
}

/// Sessions of a list, after which the listener fails so often, and then one more that nobody is to come to.
#[derive(Drop)]
struct Failing<'a> {
    list: IntoIter<Unseen<'a>>,
    failures: u64,
    last: Option<Unseen<'a>>,
    left: u64,
}

impl<'a> Sessions for Failing<'a> {
    type Reader = &'a [u8];

    type Writer = Vec<u8>;

    ghost use Rattle.std.specs.Prelude.{⊤, ◌≤◌};

    ghost left = { λ failing. failing.left };

    ghost comes = { λ _ _ _. ⊤ };

    ghost takes_back = { λ _ reader writer _. ⊤ };

    fn next(&mut self) -> Result<Option<Unseen<'a>>, ListenFault> {
        if self.left == 0 {
            return Ok(None);
        }
        self.left -= 1;
        if let Some(session) = Iterator::next(&mut self.list) {
            return Ok(Some(session));
        }
        if self.failures == 0 {
            return Ok(self.last.take());
        }
        self.failures -= 1;
        Err(ListenFault)
    }

    fn take_back(&mut self, _reader: Counted<&'a [u8]>, _writer: Counted<Vec<u8>>)
        ensures no_more { self.new.left ≤ self.old.left }
        ensures taken { ⊤ }
    {}
}

/// A store of four shards, and a pass for each of two workers.
fn store_for_two(alloc: Global) -> Result<(Store, Vec<Pass>), AllocError>
    ensures two { IfOk result (λ made. vec_len made.1 ≡ 2) }
    ensures own { IfOk result (λ made. All (λ pass. IsOf pass made.0) made.1.items) }
{
    let (store, mut first) = Store::new(alloc, 4, 3, 1_000_000)?;
    let second = store.split(&mut first, 1);
    let mut passes = Vec::new(alloc);
    passes.push(first)?;
    passes.push(second)?;
    Ok((store, passes))
}

/// A session over this input.
fn unseen<'a>(alloc: Global, reader: &'a [u8]) -> Unseen<'a> {
    Session {
        reader,
        writer: Vec::new(alloc),
        turns: 1_000,
        peer: None,
    }
}

/// What two workers with one session each wrote, and how their sessions ended.
#[derive(Drop)]
struct Ended {
    written: (Vec<u8>, Vec<u8>),
    finished: Vec<Finished>,
}

/// An operation that meets the other worker at its shard is asked again, until it is answered otherwise.
fn run_two<R: Threads + Clock + Sync, G: Gate + Sync>(
    rt: &R,
    alloc: Global,
    inputs: (&[u8], &[u8]),
    gate: &G,
) -> Result<Ended, AllocError> {
    let (store, passes) = store_for_two(alloc)?;
    let mut first = Vec::new(alloc);
    let mut second = Vec::new(alloc);
    let mut sessions = Vec::new(alloc);
    sessions.push(Once {
        input: inputs.0,
        output: Some(&mut first),
        left: 1,
    })?;
    sessions.push(Once {
        input: inputs.1,
        output: Some(&mut second),
        left: 1,
    })?;
    let patient = Patient {
        store: &store,
        clock: rt,
        retries: 1_000_000,
        log: &Quiet,
    };
    let finished = run_workers(rt, alloc, patient, passes, sessions, gate)?;
    Ok(Ended {
        written: (first, second),
        finished,
    })
}

/// Each of the two workers wrote this, and answered so many frames of its session, which ended well.
fn has_ended(ended: &Ended, written: (&[u8], &[u8]), frames: u64) -> Result<(), Fail> {
    is_equal(&ended.written.0.as_slice(), &written.0)?;
    is_equal(&ended.written.1.as_slice(), &written.1)?;
    is_equal(&ended.finished.len(), &2)?;
    for worker in ended.finished.as_slice() {
        is_equal(&worker.results.as_slice(), &[Ok(frames)].as_slice())?;
    }
    Ok(())
}

/// Which workers have come to their first call.
#[derive(Drop)]
struct ReadOutcome {
    first: bool,
    second: bool,
}

/// A gate that holds the first call of each of two workers until the other's has come to it.
#[derive(Drop)]
struct Meeting<'a, R: Wait> {
    rt: &'a R,
    came: Mutex<ReadOutcome>,
}

impl<'a, R: Wait> Meeting<'a, R> {
    fn new(rt: &'a R) -> Meeting<'a, R> {
        Meeting {
            rt,
            came: Mutex::new(ReadOutcome {
                first: false,
                second: false,
            }),
        }
    }
}

impl<'a, R: Wait> Gate for Meeting<'a, R> {
    ghost opens = { λ _ worker call is_open. Unit {0} };

    fn before(&self, worker: u64, call: u64) -> bool {
        if call != 1 {
            return true;
        }
        for _ in 0..20_000_000u64 {
            let mut came = self.came.lock(self.rt);
            if worker == 0 {
                came.first = true;
            } else {
                came.second = true;
            }
            if came.first && came.second {
                return true;
            }
        }
        false
    }

    fn after(&self, _worker: u64, _call: u64) {}
}

#[test]
fn two_workers_meet(rt: HostRuntime) -> Result<(), Fail> {
    let ended = run_two(&rt, rt.alloc(), (GET_A, GET_A), &Meeting::new(&rt))?;
    has_ended(&ended, (NO_DOMAIN, NO_DOMAIN), 1)
}

/// The gate as one worker's, which is run alone and has no number of its own.
#[derive(Drop)]
struct As<'a, G> {
    gate: &'a G,
    worker: u64,
}

impl<'a, G: Gate> Gate for As<'a, G> {
    ghost opens = { λ one _ call is_open. G.opens one.gate.now one.worker call is_open };

    fn before(&self, _worker: u64, call: u64) -> bool {
        self.gate.before(self.worker, call)
    }

    fn after(&self, _worker: u64, call: u64) {
        self.gate.after(self.worker, call);
    }
}

/// One of the workers, run to its end before the other begins, or after the other's.
fn run_alone<R: Threads + Sync, G: Gate + Sync>(
    rt: &R,
    alloc: Global,
    store: &Store,
    pass: Pass,
    gate: &G,
) -> Result<Vec<u8>, AllocError>
    requires own { IsOf pass store.now }
{
    let mut written = Vec::new(alloc);
    let mut passes = Vec::new(alloc);
    passes.push(pass)?;
    let mut sessions = Vec::new(alloc);
    sessions.push(Once {
        input: GET_A,
        output: Some(&mut written),
        left: 1,
    })?;
    let finished = run_workers(rt, alloc, store, passes, sessions, gate)?;
    drop(finished);
    Ok(written)
}

/// Of the workers of these numbers, run one after the other, the one that comes first finds the gate shut.
fn do_not_meet<R: Threads + Wait + Sync>(
    rt: &R,
    alloc: Global,
    (first, second): (u64, u64),
) -> Result<(), Fail> {
    let (store, mut pass) = Store::new(alloc, 4, 3, 1_000_000)?;
    let other = store.split(&mut pass, 1);
    let meeting = Meeting::new(rt);
    let gate = &meeting;
    let as_first = As {
        gate,
        worker: first,
    };
    let written = run_alone(rt, alloc, &store, pass, &as_first)?;
    is_equal_at(&written.as_slice(), &SHUT, &first)?;
    let as_second = As {
        gate,
        worker: second,
    };
    let written = run_alone(rt, alloc, &store, other, &as_second)?;
    is_equal_at(&written.as_slice(), &NO_DOMAIN, &second)
}

// In either order. The one that comes last finds that both have come to the gate.
#[test]
fn workers_in_turn_do_not_meet(rt: HostRuntime) -> Result<(), Fail> {
    do_not_meet(&rt, rt.alloc(), (0, 1))?;
    do_not_meet(&rt, rt.alloc(), (1, 0))
}

/// A gate that is shut for worker 0.
#[derive(Drop)]
struct ShutForFirst;

impl Gate for ShutForFirst {
    ghost use Rattle.std.specs.Prelude.{◌≡◌, nat_eq, not};

    ghost opens = { λ _ worker call is_open. is_open ≡ not (nat_eq worker 0) };

    fn before(&self, worker: u64, _call: u64) -> bool {
        worker != 0
    }

    fn after(&self, _worker: u64, _call: u64) {}
}

// Each operation of worker 0 is told that the gate is shut, and has changed nothing; what is no operation is answered.
#[test]
fn a_shut_gate_lets_nothing_through(rt: HostRuntime) -> Result<(), Fail> {
    let first =
        b"\x00\x00\x00\x0eS\x01a{\"keys\":[]}\x00\x00\x00\x01Z\x00\x00\x00\x03G\x01a".as_slice();
    let second =
        b"\x00\x00\x00\x0eS\x01b{\"keys\":[]}\x00\x00\x00\x03G\x01b\x00\x00\x00\x03G\x01a".as_slice();
    let shut = b"\x00\x00\x00\x01\x38\x00\x00\x00\x01\x33\x00\x00\x00\x01\x38".as_slice();
    let open = b"\x00\x00\x00\x01s\x00\x00\x00\x0cf{\"keys\":[]}\x00\x00\x00\x01\x1e".as_slice();
    let ended = run_two(&rt, rt.alloc(), (first, second), &ShutForFirst)?;
    has_ended(&ended, (shut, open), 3)
}

/// How often a gate was asked, and how often it was told that a call was made.
#[derive(Drop)]
struct Told {
    came: u64,
    made: u64,
    made_though_shut: u64,
}

/// A gate that counts, and is shut for the second call of each worker.
#[derive(Drop)]
struct Counting<'a, R: Wait> {
    rt: &'a R,
    told: Mutex<Told>,
}

impl<'a, R: Wait> Gate for Counting<'a, R> {
    ghost use Rattle.std.specs.Prelude.{◌≡◌, nat_eq, not};

    ghost opens = { λ _ worker call is_open. is_open ≡ not (nat_eq call 2) };

    fn before(&self, _worker: u64, call: u64) -> bool {
        let mut told = self.told.lock(self.rt);
        told.came = told.came.saturating_add(1);
        call != 2
    }

    fn after(&self, _worker: u64, call: u64) {
        let mut told = self.told.lock(self.rt);
        told.made = told.made.saturating_add(1);
        if call == 2 {
            told.made_though_shut = told.made_though_shut.saturating_add(1);
        }
    }
}

// The gate is told of each call that was made, and of no other.
#[test]
fn a_gate_is_told_of_each_call_that_was_made(rt: HostRuntime) -> Result<(), Fail> {
    let gate = Counting {
        rt: &rt,
        told: Mutex::new(Told {
            came: 0,
            made: 0,
            made_though_shut: 0,
        }),
    };
    let three_gets =
        b"\x00\x00\x00\x03G\x01a\x00\x00\x00\x03G\x01a\x00\x00\x00\x03G\x01a".as_slice();
    let replies = b"\x00\x00\x00\x01\x1e\x00\x00\x00\x01\x38\x00\x00\x00\x01\x1e".as_slice();
    let ended = run_two(&rt, rt.alloc(), (three_gets, three_gets), &gate)?;
    has_ended(&ended, (replies, replies), 3)?;
    let told = gate.told.lock(&rt);
    is_equal(&(told.came, told.made, told.made_though_shut), &(6, 4, 0))
}

/// What a worker's sessions give, how often the listener fails after them, and how they end.
type Row<'a> = (&'a [&'a [u8]], u64, &'a [Result<u64, SessionFault>]);

static ROWS: [Row<'static>; 4] = [
    (&[GET_A, b"", GET_A], 0, &[Ok(1), Ok(0), Ok(1)]),
    (
        &[b"\x00\x00\x00\x03G\x01a\x00\x00", GET_A],
        0,
        &[Err(SessionFault::Front(FrontError::Truncated)), Ok(1)],
    ),
    (&[GET_A], 1, &[Ok(1), Err(SessionFault::Listen)]),
    (&[], 2, &[Err(SessionFault::Listen)]),
];

/// The sessions over these inputs, as a list.
fn list_of<'a>(alloc: Global, inputs: &[&'a [u8]]) -> Result<IntoIter<Unseen<'a>>, AllocError> {
    let mut list = Vec::new(alloc);
    for input in inputs {
        list.push(unseen(alloc, *input))?;
    }
    Ok(list.into_iter())
}

/// How the sessions of one worker end.
fn ends_of<R: Threads + Sync, S: Sessions + Send + Drop>(
    rt: &R,
    alloc: Global,
    sessions: S,
) -> Result<Vec<Finished>, AllocError> {
    let (store, pass) = Store::new(alloc, 4, 3, 1_000_000)?;
    let mut passes = Vec::new(alloc);
    passes.push(pass)?;
    let mut all = Vec::new(alloc);
    all.push(sessions)?;
    run_workers(rt, alloc, &store, passes, all, &Open)
}

fn ends_so<R: Threads + Sync>(rt: &R, alloc: Global, row: Row<'_>) -> Result<(), Fail> {
    let (inputs, failures, wanted) = row;
    let list = list_of(alloc, inputs)?;
    let finished = if failures == 0 {
        ends_of(rt, alloc, list)?
    } else {
        let failing = Failing {
            list,
            failures,
            last: Some(unseen(alloc, GET_A)),
            left: 10,
        };
        ends_of(rt, alloc, failing)?
    };
    let Some(worker) = finished.as_slice().first() else {
        return Err(Fail::from("no worker has finished"));
    };
    is_equal_at(&worker.results.as_slice(), &wanted, &wanted)
}

// A worker whose listener fails ends, and waits for no session more.
#[test]
fn sessions_end_in_their_order(rt: HostRuntime) -> Result<(), Fail> {
    for &row in &ROWS {
        ends_so(&rt, rt.alloc(), row)?;
    }
    Ok(())
}

/// Sets of `X0` to `X99` to the empty document, each read back at once.
fn sets_and_gets(alloc: Global, letter: char) -> Result<Vec<u8>, AllocError> {
    let mut requests = Vec::new(alloc);
    for i in 0..100u64 {
        let name = format!(in alloc; "{letter}{i}")?;
        let size = name.len().min(255) as u8;
        requests.extend_from_slice(&[0, 0, 0, size.saturating_add(13), b'S', size])?;
        requests.extend_from_slice(name.as_bytes())?;
        requests.extend_from_slice(b"{\"keys\":[]}")?;
        requests.extend_from_slice(&[0, 0, 0, size.saturating_add(2), b'G', size])?;
        requests.extend_from_slice(name.as_bytes())?;
    }
    Ok(requests)
}

// Two workers set and get a hundred domains of their own each.
#[test]
fn two_workers_beside_each_other(rt: HostRuntime) -> Result<(), Fail> {
    let alloc = rt.alloc();
    let first = sets_and_gets(alloc, 'a')?;
    let second = sets_and_gets(alloc, 'b')?;
    let ended = run_two(&rt, alloc, (first.as_slice(), second.as_slice()), &Open)?;
    let mut replies = Vec::new(alloc);
    for _ in 0..100 {
        replies.extend_from_slice(b"\x00\x00\x00\x01s\x00\x00\x00\x0cf{\"keys\":[]}")?;
    }
    has_ended(&ended, (replies.as_slice(), replies.as_slice()), 200)
}
