//! Worked examples of sessions: a row is what comes in and, beside it, what goes out.
//!
//! A map is dropped by a call of `drop`, before anything may fail: where a scope drops it, the prover follows all its parts on
//! each way out.
ghost use Rattle.std.specs.Prelude.{◌≤◌};

mod conversations;
mod counts;
mod decoders;
mod dumps;
mod ends;
mod live;
mod long;
mod numbers;
mod replies;
mod rounds;
mod sessions;

use frame_front::serve;
use map_core::Contents;
use std::alloc::Global;
use std::io::{Read, Write};
use std::test::Fail;
use test_kit::is_equal_at;
use test_kit::protocol::Pieces;
use wire::{Counted, FrontError};

/// A set of `a` and a get of it, and the replies.
const SET_AND_GET: &[u8] = b"\x00\x00\x00\x0eS\x01a{\"keys\":[]}\x00\x00\x00\x03G\x01a";

const STORED_AND_FOUND: &[u8] = b"\x00\x00\x00\x01s\x00\x00\x00\x0cf{\"keys\":[]}";

/// And a fetch-all after them.
const SET_GET_AND_FETCH_ALL: &[u8] =
    b"\x00\x00\x00\x0eS\x01a{\"keys\":[]}\x00\x00\x00\x03G\x01a\x00\x00\x00\x01F";

/// A set and a fetch-all, and the replies.
const SET_AND_FETCH_ALL: &[u8] = b"\x00\x00\x00\x0eS\x01a{\"keys\":[]}\x00\x00\x00\x01F";

const STORED_AND_ALL: &[u8] =
    b"\x00\x00\x00\x01s\x00\x00\x00\x09a\x00\x00\x00\x00\x00\x00\x00\x01\x00\x00\x00\x0ei\x01a{\"keys\":[]}";

/// What the dump of `a` and the empty document becomes.
const MIGRATED: &[u8] = b"\x00\x00\x00\x02V\x02\x00\x00\x00\x0fC\x01a\x00{\"keys\":[]}";

/// What a session over an empty map ends with, if it may read so often.
fn ended_of<R: Read, W: Write>(
    alloc: Global,
    reader: &mut Counted<R>,
    writer: &mut Counted<W>,
    turns: u64,
) -> Result<u64, FrontError>
    requires few { turns ≤ 1000000000 }
{
    let mut contents = Contents::new(alloc);
    let ended = serve(alloc, reader, writer, &mut contents, turns);
    drop(contents);
    ended
}

/// What comes in: the bytes, how many of them the first read gives, and how many each other.
type Coming<'a> = (&'a [u8], usize, usize);

/// A session over an empty map that may read so often ends so and has this output.
fn serves_so(
    alloc: Global,
    name: &str,
    (bytes, first, size): Coming<'_>,
    turns: u32,
    (ended, output): (Result<u64, FrontError>, &[u8]),
) -> Result<(), Fail> {
    let mut reader = Counted::new(Pieces { bytes, first, size });
    let mut writer = Counted::new(Vec::new(alloc));
    let most = u64::from(turns.min(1_000_000_000));
    let found = ended_of(alloc, &mut reader, &mut writer, most);
    let is_so = writer.end().as_slice() == output;
    is_equal_at(&(found, is_so), &(ended, true), &(name, first, size))
}
