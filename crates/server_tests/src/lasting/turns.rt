//! How long a connection goes on in a turn.
use super::{FOUND, GET_A, SET_A, STORED, is_equal};
use map_core::Contents;
use spiffe_doc::DocumentReader;
use std::alloc::{AllocError, Global};
use std::io;
use std::io::{Read, Write};
use std::process::Abort;
use std::test::Fail;
use wire::FrontError;
use workers::{Connection, ROOM_BYTES, Stream, TurnEnd};

/// A client that gives all that it has in one piece, and then its end; and takes all.
#[derive(Drop)]
struct Once<'i, 'o> {
    input: &'i [u8],
    output: &'o mut Vec<u8>,
    reads: &'o mut u64,
}

/// A client that gives a frame at each read, and then its end; and takes all.
#[derive(Drop)]
pub(super) struct Steady<'i, 'o> {
    pub(super) input: &'i [u8],
    pub(super) output: &'o mut Vec<u8>,
}

impl<'i, 'o> Stream for Once<'i, 'o> {
    ghost use Rattle.std.specs.Prelude.{None, true};

    ghost left = { λ _. None };

    ghost held = { λ _. None };

    ghost may = { λ _. record { read_waits = true; leaves_room = true; read_fails = true; write_waits = true; write_fails = true } };

    fn read(&mut self, buf: &mut [u8]) -> io::Result<usize> {
        *self.reads = self.reads.saturating_add(1);
        self.input.read(buf)
    }

    fn write(&mut self, buf: &[u8]) -> io::Result<usize> {
        self.output.write(buf)
    }
}

impl<'i, 'o> Stream for Steady<'i, 'o> {
    ghost use Rattle.std.specs.Prelude.{None, true};

    ghost left = { λ _. None };

    ghost held = { λ _. None };

    ghost may = { λ _. record { read_waits = true; leaves_room = true; read_fails = true; write_waits = true; write_fails = true } };

    fn read(&mut self, buf: &mut [u8]) -> io::Result<usize> {
        let most = SET_A.len().min(buf.len());
        let (piece, _) = buf.split_at_mut(most);
        self.input.read(piece)
    }

    fn write(&mut self, buf: &[u8]) -> io::Result<usize> {
        self.output.write(buf)
    }
}

/// What a turn of a client comes to which sets `a` so many times, one after the other, and then closes its side, if so many
/// reads may be made.
fn steady_turn_of(
    alloc: Global,
    sets: usize,
    turns: u64,
    output: &mut Vec<u8>,
) -> Result<TurnEnd, AllocError> {
    let mut input = Vec::new(alloc);
    for _ in 0..sets {
        input.extend_from_slice(SET_A)?;
    }
    let client = Steady {
        input: input.as_slice(),
        output,
    };
    let mut connection = Connection::new(alloc, client, false, turns)?;
    let mut documents = DocumentReader::new(alloc);
    let mut map = Contents::new(alloc);
    let mut room = [0; ROOM_BYTES];
    Ok(connection.turn(&mut documents, &mut room, &mut map, true))
}

/// How many sets, how many reads may be made, what the turn comes to, and how many sets are answered.
type Row = (usize, u64, TurnEnd, usize);

const USED_UP: TurnEnd = TurnEnd::Over(Err(FrontError::TurnsUsed));

// A turn has 8 reads, and what the last of them gave is not answered yet. A read that finds the end does not count; what was read
// under the limit is answered.
static ROWS: [Row; 7] = [
    (3, u64::MAX, TurnEnd::Over(Ok(3)), 3),
    (9, u64::MAX, TurnEnd::Again, 7),
    (3, 4, TurnEnd::Over(Ok(3)), 3),
    (3, 3, USED_UP, 3),
    (5, 3, USED_UP, 3),
    (9, 7, USED_UP, 7),
    (1, 0, USED_UP, 0),
];

fn is_steady(rt: &impl Abort, alloc: Global, row: Row) -> Result<(), Fail> {
    let (sets, turns, after, answered) = row;
    let mut output = Vec::new(alloc);
    let found = steady_turn_of(alloc, sets, turns, &mut output)?;
    is_equal(
        rt,
        &(found, output.len()),
        &(after, answered.saturating_mul(STORED.len())),
    );
    Ok(())
}

#[test]
fn a_turn_ends_after_its_reads(rt: HostRuntime) -> Result<(), Fail> {
    for &row in &ROWS {
        is_steady(&rt, rt.alloc(), row)?;
    }
    Ok(())
}

/// What a turn of a client comes to that gives all in one piece, and how often it was read.
fn turn_of(
    alloc: Global,
    input: &[u8],
    output: &mut Vec<u8>,
    is_closing: bool,
) -> Result<(TurnEnd, u64), AllocError> {
    let mut reads = 0;
    let client = Once {
        input,
        output,
        reads: &mut reads,
    };
    let mut connection = Connection::new(alloc, client, false, u64::MAX)?;
    let mut documents = DocumentReader::new(alloc);
    let mut map = Contents::new(alloc);
    let mut room = [0; ROOM_BYTES];
    let after = connection.turn(&mut documents, &mut room, &mut map, is_closing);
    drop(connection);
    Ok((after, reads))
}

/// What a client that sets `a` has got, after which it waits, or is over since it is known to have closed its side.
fn is_read_so(
    rt: &impl Abort,
    alloc: Global,
    is_closing: bool,
    wanted: (TurnEnd, u64),
) -> Result<(), Fail> {
    let mut output = Vec::new(alloc);
    let found = turn_of(alloc, SET_A, &mut output, is_closing)?;
    is_equal(rt, &found, &wanted);
    is_equal(rt, &output.as_slice(), &STORED);
    Ok(())
}

// The one read has left some of its room, so a second one would only find that nothing more has come.
#[test]
fn a_client_is_not_read_twice_for_one_piece(rt: HostRuntime) -> Result<(), Fail> {
    is_read_so(&rt, rt.alloc(), false, (TurnEnd::Waits, 1))
}

#[test]
fn a_client_that_is_closing_is_read_to_its_end(rt: HostRuntime) -> Result<(), Fail> {
    is_read_so(&rt, rt.alloc(), true, (TurnEnd::Over(Ok(1)), 2))
}

/// A set whose document has 140,000 bytes, and then 10,000 gets: all in all 210,007 bytes.
fn long_set_and_gets(alloc: Global) -> Result<Vec<u8>, AllocError> {
    let mut input = Vec::new(alloc);
    input.extend_from_slice(b"\x00\x02\x22\xe3S\x01a{\"keys\":[]}")?;
    for _ in 0..139_989 {
        input.push(b' ')?;
    }
    for _ in 0..10_000 {
        input.extend_from_slice(GET_A)?;
    }
    Ok(input)
}

// Three reads give the set and 8,085 gets, which have their share of bytes: the fourth read is the last.
#[test]
fn a_turn_ends_after_its_bytes(rt: HostRuntime) -> Result<(), Fail> {
    let input = long_set_and_gets(rt.alloc())?;
    let mut output = Vec::new(rt.alloc());
    let found = turn_of(rt.alloc(), input.as_slice(), &mut output, true)?;
    is_equal(&rt, &found, &(TurnEnd::Again, 4));
    let replies = STORED
        .len()
        .saturating_add(FOUND.len().saturating_mul(8_085));
    is_equal(&rt, &output.len(), &replies);
    Ok(())
}

/// Sets of 64 trust domains, and then so many fetch-alls, each of which is answered by 1,293 bytes.
fn many_fetches(alloc: Global, fetches: usize) -> Result<Vec<u8>, AllocError> {
    let mut input = Vec::new(alloc);
    for number in 0..64u8 {
        input.extend_from_slice(b"\x00\x00\x00\x10S\x03d")?;
        input.push(b'0' + number / 8)?;
        input.push(b'0' + number % 8)?;
        input.extend_from_slice(b"{\"keys\":[]}")?;
    }
    for _ in 0..fetches {
        input.extend_from_slice(b"\x00\x00\x00\x01F")?;
    }
    Ok(input)
}

/// How many bytes of replies are ready when no further frame is answered in a round.
const ROUND_BYTES: usize = 196_608;

/// One turn and the last turn of a client that asks for more than they send.
fn last_turn_of(
    alloc: Global,
    input: &[u8],
    output: &mut Vec<u8>,
) -> Result<(TurnEnd, Result<u64, FrontError>), AllocError> {
    let mut reads = 0;
    let client = Once {
        input,
        output,
        reads: &mut reads,
    };
    let mut connection = Connection::new(alloc, client, false, u64::MAX)?;
    let mut documents = DocumentReader::new(alloc);
    let mut map = Contents::new(alloc);
    let mut room = [0; ROOM_BYTES];
    let after = connection.turn(&mut documents, &mut room, &mut map, false);
    let end = connection.last_turn(&mut documents, &mut room, &mut map);
    drop(connection);
    Ok((after, end))
}

/// A client that asks for all bundles so often is left after its last turn.
fn is_given_up(rt: &impl Abort, alloc: Global, fetches: usize) -> Result<(), Fail> {
    let input = many_fetches(alloc, fetches)?;
    let mut output = Vec::new(alloc);
    let found = last_turn_of(alloc, input.as_slice(), &mut output)?;
    is_equal(rt, &found, &(TurnEnd::Again, Err(FrontError::TurnsUsed)));
    let sent = output.len();
    let is_as_long = 71 * ROUND_BYTES <= sent && sent <= 72 * (ROUND_BYTES + 1_293);
    is_equal(rt, &is_as_long, &true);
    Ok(())
}

// The first round of the turn reads, 7 send, and the last turn has 64 rounds.
#[test]
fn a_client_that_asks_for_more_is_left_after_its_last_turn(rt: HostRuntime) -> Result<(), Fail> {
    is_given_up(&rt, rt.alloc(), 12_000)
}
