//! Sessions without ends: the same bytes as `serve`, however they are fed and sent, and in bounded memory.
use super::{SET_AND_FETCH_ALL, ended_of};
use frame_front::{LiveSession, Wants};
use map_core::Contents;
use spiffe_doc::DocumentReader;
use std::alloc::{AllocError, Global};
use std::test::Fail;
use test_kit::protocol::{ALL_OF_ONE, FETCH_ALL, GET, Part, SET, text_of};
use test_kit::{holds, holds_at, is_equal, is_equal_at};
use wire::{Counted, FrontError};

/// A session, and what it answers over.
#[derive(Drop)]
struct Seat {
    live: LiveSession,
    documents: DocumentReader,
    contents: Contents,
}

impl Seat {
    fn new(alloc: Global) -> Result<Seat, AllocError> {
        Seat::of(alloc, false)
    }

    /// One that may only read, or do all.
    fn of(alloc: Global, reads_only: bool) -> Result<Seat, AllocError> {
        Ok(Seat {
            live: LiveSession::new(alloc, reads_only)?,
            documents: DocumentReader::new(alloc),
            contents: Contents::new(alloc),
        })
    }

    /// Sends a front of what is ready.
    fn send(&mut self, most: usize, out: &mut Vec<u8>) -> Result<(), AllocError> {
        let replies = self.live.replies();
        let count = replies.len().min(most);
        let (front, _) = replies.split_at(count);
        out.extend_from_slice(front)?;
        self.live.sent(count);
        Ok(())
    }

    /// Feeds pieces of a size, and sends as much after each call of `answer`, until the session ends. The answer is how many
    /// frames there were, and the end.
    fn run_to_end(
        &mut self,
        input: &[u8],
        (piece, most): (usize, usize),
        sent: &mut Vec<u8>,
    ) -> Result<(u64, Result<bool, FrontError>), AllocError> {
        let mut frames: u64 = 0;
        let mut rest = input;
        for _ in 0..u64::MAX {
            let (fresh, _) = rest.split_at(rest.len().min(piece));
            let count = self.live.feed(fresh)?;
            let (_, after) = rest.split_at(count);
            rest = after;
            let answered = self.live.answer(&mut self.documents, &mut self.contents);
            frames = frames.saturating_add(answered.frames);
            self.send(most, sent)?;
            let is_done = match answered.next {
                Ok(Wants::Read) => rest.is_empty(),
                Ok(Wants::Write) => false,
                Err(_) => true,
            };
            if is_done && self.live.replies().is_empty() {
                let end = match answered.next {
                    Err(fault) => Err(fault),
                    Ok(_) => self.live.finish(),
                };
                return Ok((frames, end));
            }
        }
        Ok((frames, Ok(false)))
    }
}

/// A session over an empty map that is fed and sends in such pieces ends so and gives these bytes.
fn gives_so(
    alloc: Global,
    input: &[u8],
    cut: (usize, usize),
    (ended, written): (Result<u64, FrontError>, &[u8]),
) -> Result<(), Fail> {
    let mut sent = Vec::new(alloc);
    let mut seat = Seat::new(alloc)?;
    let found = seat.run_to_end(input, cut, &mut sent);
    drop(seat);
    let (frames, end) = found?;
    let end = match end {
        Ok(true) => Ok(frames),
        Ok(false) => Err(FrontError::TurnsUsed),
        Err(fault) => Err(fault),
    };
    let is_so = sent.as_slice() == written;
    is_equal_at(&(end, is_so), &(ended, true), &cut)
}

/// Each way to feed and send gives the bytes of `serve`, and its end.
fn is_as_served(alloc: Global, input: &[u8]) -> Result<(), Fail> {
    let mut reader = Counted::new(input);
    let mut writer = Counted::new(Vec::new(alloc));
    let ended = ended_of(alloc, &mut reader, &mut writer, 1_000_000_000);
    for cut in [
        (1, 3),
        (7, 1),
        (7, 1_000_003),
        (1_000_003, 13),
        (4096, 65_537),
    ] {
        gives_so(alloc, input, cut, (ended, writer.end().as_slice()))?;
    }
    Ok(())
}

/// Requests of each kind, in both versions, and some that are refused.
const REQUESTS: &[u8] =
    b"\x00\x00\x00\x0eS\x01a{\"keys\":[]}\x00\x00\x00\x03G\x01a\x00\x00\x00\x01F\x00\x00\x00\x01Z\
\x00\x00\x00\x0fC\x01a\x00{\"keys\":[]}\x00\x00\x00\x02V\x02\x00\x00\x00\x0fC\x01a\x02{\"keys\":[]}\
\x00\x00\x00\x41A\x01a{\"use\":\"jwt-svid\",\"kty\":\"RSA\",\"kid\":\"k\",\"n\":\"AQAB\",\"e\":\"AQAB\"}\
\x00\x00\x00\x03G\x01a\x00\x00\x00\x05S\x01a[]\x00\x00\x00\x03R\x01a\x00\x00\x00\x03R\x01a\x00\x00\x00\x01F";

/// What a session that may only read answers to these: each change is turned away, in either version, also one with a malformed
/// document.
const READ_REPLIES: &[u8] =
    b"\x00\x00\x00\x01\x38\x00\x00\x00\x01\x1e\x00\x00\x00\x09a\x00\x00\x00\x00\x00\x00\x00\x00\x00\x00\x00\x01\x33\
\x00\x00\x00\x01\x38\x00\x00\x00\x02v\x02\x00\x00\x00\x01\x38\x00\x00\x00\x01\x38\
\x00\x00\x00\x01\x1e\x00\x00\x00\x01\x38\x00\x00\x00\x01\x38\x00\x00\x00\x01\x38\x00\x00\x00\x09a\x00\x00\x00\x00\x00\x00\x00\x00";

#[test]
fn a_session_that_may_only_read_turns_changes_away(rt: HostRuntime) -> Result<(), Fail> {
    let mut sent = Vec::new(rt.alloc());
    let mut seat = Seat::of(rt.alloc(), true)?;
    let found = seat.run_to_end(REQUESTS, (7, 13), &mut sent);
    drop(seat);
    is_equal(&found?, &(13, Ok(true)))?;
    is_equal(&sent.as_slice(), &READ_REPLIES)
}

static INPUTS: [&[Part<'static>]; 5] = [
    &[(REQUESTS, 1)],
    &[],
    // an end inside a frame, and a bad length after a frame
    &[(FETCH_ALL, 1), (b"\x00\x00\x00\x03G\x01", 1)],
    &[(FETCH_ALL, 1), (b"\x00\x00\x00\x00\x00\x00\x00\x01F", 1)],
    // 3,000 domains, whose fetch-all has more bytes than may wait
    &[
        (b"\x00\x00\x00\x12S\x05d####{\"keys\":[]}", 3000),
        (b"\x00\x00\x00\x01F\x00\x00\x00\x03G\x01a", 3),
    ],
];

#[test]
fn a_live_session_answers_as_serve(rt: HostRuntime) -> Result<(), Fail> {
    for &parts in &INPUTS {
        let input = text_of(rt.alloc(), parts)?;
        is_as_served(rt.alloc(), input.as_slice())?;
    }
    Ok(())
}

/// The session answers so many frames and then none, and this many bytes are ready and this many may be fed.
fn is_full(seat: &mut Seat, (frames, ready, room): (u64, usize, usize)) -> Result<(), Fail> {
    let first = seat.live.answer(&mut seat.documents, &mut seat.contents);
    let found = (first.next, first.frames, seat.live.replies().len());
    is_equal(&found, &(Ok(Wants::Write), frames, ready))?;
    is_equal(&seat.live.room(), &room)?;
    let again = seat.live.answer(&mut seat.documents, &mut seat.contents);
    is_equal(&(again.next, again.frames), &(Ok(Wants::Write), 0))
}

/// The flood is fed as far as there is room, and answered as far as the limit.
fn stops(seat: &mut Seat, flood: &[u8], sent: &mut Vec<u8>) -> Result<(), Fail> {
    let _ = seat.live.feed(SET)?;
    let _ = seat.live.answer(&mut seat.documents, &mut seat.contents);
    seat.send(5, sent)?;
    is_equal(&seat.live.room(), &1_053_100)?;
    let fed = seat.live.feed(flood)?;
    is_equal(&(fed, seat.live.room()), &(1_053_100, 0))?;
    is_equal(&seat.live.feed(b"F")?, &0)?;
    // A reply has parts of 13 and 18 bytes: 6,342 replies and a part are 196,615 bytes, and 18 and 6,342 more are 196,620.
    for counts in [(6343, 196_615, 31_715), (6342, 196_620, 63_425)] {
        is_full(seat, counts)?;
        seat.send(usize::MAX, sent)?;
    }
    holds(sent.as_slice().ends_with(ALL_OF_ONE))
}

/// A client sends fetch-alls and reads nothing: replies are stored until 196,608 bytes are ready, and none is answered after.
#[test]
fn a_flood_stops_at_the_limit(rt: HostRuntime) -> Result<(), Fail> {
    let flood = text_of(rt.alloc(), &[(FETCH_ALL, 300_000)])?;
    let mut sent = Vec::new(rt.alloc());
    let mut seat = Seat::new(rt.alloc())?;
    let is_so = stops(&mut seat, flood.as_slice(), &mut sent);
    drop(seat);
    is_so
}

/// Whether the session may end after this front of two frames.
fn may_end(seat: &mut Seat, front: &[u8]) -> Result<(), Fail> {
    let length = front.len();
    let _ = seat.live.feed(front)?;
    if length >= 18 {
        is_equal_at(&seat.live.finish(), &Ok(false), &length)?;
    }
    let _ = seat.live.answer(&mut seat.documents, &mut seat.contents);
    let wanted = match length {
        0 | 18 | 23 => Ok(true),
        _ => Err(FrontError::Truncated),
    };
    is_equal_at(&seat.live.finish(), &wanted, &length)
}

/// After each front of two frames: whether the input may end there.
#[test]
fn a_live_session_ends_at_a_frame(rt: HostRuntime) -> Result<(), Fail> {
    is_equal(&SET_AND_FETCH_ALL.len(), &23)?;
    for length in 0..=23 {
        let front = SET_AND_FETCH_ALL.get(..length).unwrap_or(&[]);
        let mut seat = Seat::new(rt.alloc())?;
        let is_so = may_end(&mut seat, front);
        drop(seat);
        is_so?;
    }
    Ok(())
}

/// Feeds each piece and sends what is answered, again if memory runs out. Answers whether it did.
fn feed_again(seat: &mut Seat, pieces: &[&[u8]], sent: &mut Vec<u8>) -> Result<bool, Fail> {
    let mut was_refused = false;
    for piece in pieces {
        if seat.live.feed(piece).is_err() {
            was_refused = true;
            // Nothing is kept of it, so it is fed again.
            is_equal(&seat.live.feed(piece), &Ok(piece.len()))?;
        }
        let mut answered = seat.live.answer(&mut seat.documents, &mut seat.contents);
        if answered.next == Err(FrontError::Memory) {
            was_refused = true;
            answered = seat.live.answer(&mut seat.documents, &mut seat.contents);
        }
        is_equal(&answered.next, &Ok(Wants::Read))?;
        seat.send(64, sent)?;
    }
    Ok(was_refused)
}

/// To be run with each allocation refused in turn: what was answered is answered once, and a later call goes on. The test
/// tells that as an error, so it passes only if nothing was refused.
#[test]
fn a_refused_growth_is_met_again(rt: HostRuntime) -> Result<(), Fail> {
    // Room for all replies, so that only the session grows.
    let mut sent = Vec::with_capacity(rt.alloc(), 64)?;
    let mut seat = Seat::new(rt.alloc())?;
    let is_fed = feed_again(&mut seat, &[SET, GET], &mut sent);
    drop(seat);
    let was_refused = is_fed?;
    let stored: &[u8] = b"\x00\x00\x00\x01s\x00\x00\x00\x0cf{\"keys\":[]}";
    let told: &[u8] = b"\x00\x00\x00\x01\x16\x00\x00\x00\x01\x1e";
    let found: &[u8] = b"\x00\x00\x00\x01s\x00\x00\x00\x01\x16";
    let written = sent.as_slice();
    let is_so = written == stored || written == told || written == found;
    holds_at(is_so, &written)?;
    if was_refused || written != stored {
        return Err(Fail::from(AllocError));
    }
    Ok(())
}
