//! What a log is told.
use super::memory::run_two_noted;
use super::{GET_A, is_equal};
use map_core::{Ask, Expect, MapRefusal};
use shard_store::Store;
use std::sync::{Mutex, Wait};
use std::test::Fail;
use test_kit::{Shown, play_line};
use workers::{
    AtPort, ChangeRefusal, Changed, Client, How, Log, Logged, Open, RefusedChange, SessionFault,
};

/// What a log was told: how many changes, the last of them, the last that was refused, how many sessions began and ended, the
/// clients, how many bytes were read and written, and the last answer.
#[derive(Drop)]
struct Notes {
    changes: u64,
    last: Option<(How, Option<Expect>, Expect)>,
    refused: Option<ChangeRefusal>,
    begun: u64,
    ends: u64,
    /// By worker, the number of the client that it served last.
    served: [u64; 2],
    /// Of which client the last change was, by the worker that told it.
    changed_by: u64,
    /// The last client whose session ended.
    ended: Option<Client>,
    read: u64,
    written: u64,
    /// The last answer: the worker's number, the letter and the code.
    answered: Option<(u64, u8, u8)>,
}

impl Notes {
    /// Nothing was told yet.
    fn new() -> Notes {
        Notes {
            changes: 0,
            last: None,
            refused: None,
            begun: 0,
            ends: 0,
            served: [0, 0],
            changed_by: 0,
            ended: None,
            read: 0,
            written: 0,
            answered: None,
        }
    }
}

/// A log that keeps notes.
#[derive(Clone, Copy)]
struct Noted<'a, R: Wait> {
    rt: &'a R,
    notes: &'a Mutex<Notes>,
}

impl<'a, R: Wait + Copy> Log for Noted<'a, R> {
    ghost use Rattle.std.specs.Prelude.{⊤, true};

    ghost wants = { λ _. true };

    ghost tells = { λ _ worker change _. ⊤ };

    fn is_on(&self) -> bool {
        true
    }

    fn changed(&mut self, worker: u64, change: &Changed<'_>) {
        let mut notes = self.notes.lock(self.rt);
        notes.changed_by = notes.served.get(worker as usize).copied().unwrap_or(0);
        notes.changes = notes.changes.saturating_add(1);
        notes.last = Some((change.how, change.before, change.after));
    }

    fn refused(&self, _worker: u64, refused: &RefusedChange<'_>) {
        let mut notes = self.notes.lock(self.rt);
        notes.refused = Some(refused.refusal);
    }

    fn began(&self, _worker: u64) -> u64 {
        let mut notes = self.notes.lock(self.rt);
        notes.begun = notes.begun.saturating_add(1);
        notes.begun
    }

    fn serves(&self, worker: u64, client: Client) {
        let mut notes = self.notes.lock(self.rt);
        if let Some(served) = notes.served.get_mut(worker as usize) {
            *served = client.number;
        }
    }

    fn ended(&self, worker: u64, _end: &Result<u64, SessionFault>, client: Option<Client>) {
        let mut notes = self.notes.lock(self.rt);
        notes.ends = notes.ends.saturating_add(1);
        if notes.served.get(worker as usize).copied() == client.map(|client| client.number) {
            notes.ended = client;
        }
    }

    fn read(&self, _worker: u64, bytes: usize) {
        let mut notes = self.notes.lock(self.rt);
        notes.read = notes.read.saturating_add(bytes as u64);
    }

    fn written(&self, _worker: u64, bytes: usize) {
        let mut notes = self.notes.lock(self.rt);
        notes.written = notes.written.saturating_add(bytes as u64);
    }

    fn answered(&self, worker: u64, letter: u8, code: u8) {
        let mut notes = self.notes.lock(self.rt);
        notes.answered = Some((worker, letter, code));
    }
}

// Of seven requests three change a bundle, and one comes too late: a set of what stands there, a get and a refused removal are
// not told. Each session begins and ends, and its client and all bytes are told: by the number that the log gave it.
#[test]
fn a_log_is_told_of_changes_alone(rt: HostRuntime) -> Result<(), Fail> {
    let notes = Mutex::new(Notes::new());
    let log = Noted {
        rt: &rt,
        notes: &notes,
    };
    let requests =
        b"\x00\x00\x00\x22S\x01a{\"keys\":[],\"spiffe_sequence\":7}\x00\x00\x00\x22S\x01a{\"keys\":[],\"spiffe_sequence\":7}\x00\x00\x00\x22S\x01a{\"keys\":[],\"spiffe_sequence\":6}\x00\x00\x00\x03G\x01a\x00\x00\x00\x41A\x01a{\"use\":\"jwt-svid\",\"kty\":\"RSA\",\"kid\":\"k\",\"n\":\"AQAB\",\"e\":\"AQAB\"}\x00\x00\x00\x03R\x01b\x00\x00\x00\x03R\x01a".as_slice();
    let ended = run_two_noted(&rt, rt.alloc(), (requests, GET_A), 0, &Open, &log)?;
    is_equal(
        &rt,
        &ended.first.as_slice(),
        &b"\x00\x00\x00\x01s\x00\x00\x00\x01u\x00\x00\x00\x09\x1f\x00\x00\x00\x00\x00\x00\x00\x07\x00\x00\x00\x20f{\"keys\":[],\"spiffe_sequence\":7}\x00\x00\x00\x0ap\x01\x00\x00\x00\x00\x00\x00\x00\x08\x00\x00\x00\x01\x1e\x00\x00\x00\x01d".as_slice(),
    );
    let notes = notes.lock(&rt);
    is_equal(&rt, &notes.changes, &3);
    assert!(&rt; notes.last == Some((How::Removed, Some(Expect::Sequence(8)), Expect::Absent)));
    assert!(&rt; notes.refused == Some(ChangeRefusal::Map(MapRefusal::Stale(7))));
    is_equal(&rt, &notes.begun, &2);
    is_equal(&rt, &notes.ends, &2);
    let ([first, second], last) = (notes.served, notes.changed_by);
    is_equal(&rt, &(first.saturating_add(second)), &3);
    is_equal(&rt, &last, &first);
    assert!(&rt;
        matches!(
            notes.ended,
            Some(Client {
                number: 1..=2,
                peer: Some(40_312)
            })
        )
    );
    is_equal(&rt, &notes.read, &(requests.len() as u64 + 7));
    is_equal(&rt, &notes.written, &(ended.first.len() as u64 + 5));
    Ok(())
}

// At a port for reads only a change is told to be refused by 56, and nothing is stored. What is answered there is told, too.
#[test]
fn a_log_is_told_what_a_port_refuses(rt: HostRuntime) -> Result<(), Fail> {
    let (store, pass) = Store::new(rt.alloc(), 4, 3, 1_000_000)?;
    let notes = Mutex::new(Notes::new());
    let log = Noted {
        rt: &rt,
        notes: &notes,
    };
    let mut port = AtPort::new(Logged::new(&store, pass, &rt, 0, log, 3), true);
    play_line(rt.alloc(), Shown::Counted, &mut port, ("set a 5", "shut"))?;
    play_line(
        rt.alloc(),
        Shown::Counted,
        &mut port,
        ("get a", "refused 30"),
    )?;
    port.answered(b'S', 56);
    let notes = notes.lock(&rt);
    is_equal(&rt, &notes.changes, &0);
    assert!(&rt; notes.refused == Some(ChangeRefusal::ReadOnly));
    assert!(&rt; notes.answered == Some((3, b'S', 56)));
    Ok(())
}
