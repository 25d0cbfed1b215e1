//! A stream that never waits, and the session that it carries.
ghost use Rattle.std.specs.Prelude.{◌≡◌, ◌≢◌, ◌<◌, ◌⊎◌, [], true, false, IfOk};
ghost use Rattle.wire.specs.Frame.{IsUnfinished};
ghost use Rattle.frame_front.specs.Live.{waiting};
ghost use Rattle.workers.specs.Connection.{IsLost, LastTurn, Owes, has_bytes, StopsFor, Turn, ended, opened, told, turn_rounds};
ghost use Rattle.workers.specs.Private.Limited.{LeavesAs};
ghost use Rattle.workers.specs.Private.Goes.{ReadsAs};

use crate::limited::{Limited, ROOM_BYTES, ReadOutcome, StreamFailed};
use crate::stream::Stream;
use crate::turn_end::TurnEnd;
use frame_front::{LiveSession, Wants};
use map_core::Ask;
use spiffe_doc::DocumentReader;
use std::alloc::{AllocError, Global};
use std::marker::Model;
use wire::FrontError;

/// How often a connection may read in one turn.
const TURN_ROUNDS: u64 = 8;

/// How many bytes the frames have that a turn answers, unless the last of them goes beyond. A document may take 0.2 seconds of
/// a processor for each MiB.
const TURN_BYTES: usize = 131_072;

/// How often replies may be written in the last turn.
const LAST_ROUNDS: u64 = 64;

/// A stream whose reads and writes fail with `WouldBlock` where they would wait, and its session.
#[derive(Drop)]
pub struct Connection<E: Stream + Drop> {
    end: Limited<E>,
    live: LiveSession,
    /// How many frames were answered. It stays at 2^64 - 1 once there.
    answered: u64,
    /// Whether no more input comes, or none is taken any more.
    has_ended: bool,
    /// Whether bytes that were read are lost, since memory for them was refused.
    has_lost: bool,
    /// Whether the client is known to have closed its side: then reads are to go on to the end.
    is_closing: bool,
    /// How many changes were turned away, as a figure for a log. It stays at 2^64 - 1 once there.
    turned_away: u64,
}

impl<E: Stream + Drop> Model for Connection<E> {
    ghost use Rattle.workers.specs.Connection.{ConnectionView};
    ghost use Rattle.workers.specs.Private.Limited.{stream_of, turns_of, written_of};

    ghost Value = { ConnectionView };

    ghost view = { λ c. record {
      live = c.live;
      answered = c.answered;
      written = written_of c.end;
      turns = turns_of c.end;
      has_ended = c.has_ended;
      has_lost = c.has_lost;
      is_closing = c.is_closing;
      may = E.may (stream_of c.end);
      left = E.left (stream_of c.end);
      held = E.held (stream_of c.end);
    } };
}

impl<E: Stream + Drop> Connection<E> {
    /// Nothing has come yet. A connection for reads only turns changes away by their letter (`LiveSession::new`). It may make so
    /// many reads; `u64::MAX` is as good as no limit. A read counts if it gives bytes: one that would have to wait does not
    /// count, since a stream may be told to be ready and have nothing.
    pub fn new(
        alloc: Global,
        end: E,
        reads_only: bool,
        turns: u64,
    ) -> Result<Connection<E>, AllocError>
        ensures { IfOk result (λ new. new ≡ opened reads_only turns (E.may end) (E.left end) (E.held end)) }
    {
        Ok(Connection {
            end: Limited::new(end, turns),
            live: LiveSession::new(alloc, reads_only)?,
            answered: 0,
            has_ended: false,
            has_lost: false,
            is_closing: false,
            turned_away: 0,
        })
    }

    /// What the client owes: the rest of a frame (`ReadFault`), or that it takes replies (`WriteFault`).
    pub fn owes(&self) -> Option<FrontError>
        ensures { Owes result self.now }
    {
        if !self.live.replies().is_empty() {
            return Some(FrontError::WriteFault);
        }
        match self.live.finish() {
            Ok(_) => None,
            Err(_) => Some(FrontError::ReadFault),
        }
    }

    /// Whether replies wait for the client to take them.
    pub fn has_replies(&self) -> bool
        ensures { result ≡ has_bytes self.now.live.ready }
    {
        !self.live.replies().is_empty()
    }

    /// Whether a part of the last reply is not stored yet: what the reply is made of is held until then.
    pub(crate) fn has_more(&self) -> bool
        ensures some { result ≡ true → self.now.live.later ≢ [] }
        ensures none { result ≡ false → self.now.live.later ≡ [] }
    {
        self.live.has_more()
    }

    /// Whether the client has begun a frame that is not answered.
    pub(crate) fn has_begun(&self) -> bool
        ensures { result ≡ has_bytes self.now.live.kept }
    {
        match self.live.finish() {
            Ok(is_empty) => !is_empty,
            Err(_) => true,
        }
    }

    /// How many frames were answered.
    pub(crate) fn answered(&self) -> u64
        ensures { result ≡ self.now.answered }
    {
        self.answered
    }

    /// How many changes were turned away.
    pub(crate) fn turned_away(&self) -> u64 {
        self.turned_away
    }

    /// How many bytes of replies were written.
    pub(crate) fn written(&self) -> u64
        ensures { result ≡ self.now.written }
    {
        self.end.written()
    }

    /// Gives back the memory that no byte needs, as of a client that is quiet. Nothing else changes.
    pub fn rest(&mut self)
        ensures { self.new ≡ self.old }
    {
        self.live.rest();
    }

    /// How the session ends, if its input ends here.
    fn finish(&self) -> Result<u64, FrontError>
        requires unfinished { IsUnfinished self.now.live.kept }
        requires sent { waiting self.now.live ≡ [] }
        requires ended { self.now.has_ended ≡ true }
        ensures stops { StopsFor result self.now }
        ensures none { IsLost (TurnEnd.Over result) [] }
    {
        match self.live.finish() {
            Ok(true) => Ok(self.answered),
            Ok(false) => unreachable!(),
            Err(error) => Err(error),
        }
    }

    /// Reads once, if no whole frame is left and nothing waits. The turn ends with the answer, or goes on: then the answer
    /// is whether the read has left some of its room. If the one before has, there is no more to read now.
    fn read(&mut self, room: &mut [u8; ROOM_BYTES], has_left: bool) -> Result<bool, TurnEnd>
        requires unfinished { IsUnfinished self.old.live.kept }
        requires sent { waiting self.old.live ≡ [] }
        requires left { LeavesAs has_left self.old.may }
        ensures { ReadsAs has_left result self.old self.new }
    {
        if self.has_ended {
            return Err(TurnEnd::Over(self.finish()));
        }
        if self.end.turns() == 0 {
            return Err(TurnEnd::Over(Err(FrontError::TurnsUsed)));
        }
        if has_left && !self.is_closing {
            return Err(TurnEnd::Waits);
        }
        match self.end.read_piece(&mut self.live, room) {
            ReadOutcome::Piece(has_left) => Ok(has_left),
            ReadOutcome::Nothing => Err(TurnEnd::Waits),
            ReadOutcome::End => {
                self.has_ended = true;
                Err(TurnEnd::Over(self.finish()))
            }
            ReadOutcome::NoMemory => {
                self.has_lost = true;
                Err(TurnEnd::Over(Err(FrontError::Memory)))
            }
            ReadOutcome::Failed => Err(TurnEnd::Over(Err(FrontError::ReadFault))),
        }
    }

    /// Whether a turn has had its share, of which so many bytes are left. One whose input has ended never has.
    fn has_had_share(&self, left: usize) -> bool
        ensures yes { result ≡ true → (self.now.has_ended ≡ false) × (left ≡ 0) }
        ensures no { result ≡ false → (self.now.has_ended ≡ true) ⊎ (0 < left) }
    {
        left == 0 && !self.has_ended
    }

    /// A turn of so many rounds. It ends sooner once it has answered its share of bytes. Each round answers what has come, writes the replies, and reads once, unless it ends the turn.
    fn go<A: Ask>(
        &mut self,
        documents: &mut DocumentReader,
        room: &mut [u8; ROOM_BYTES],
        ask: &mut A,
        most: u64,
    ) -> TurnEnd
        requires { 0 < most }
        ensures { Turn most A.answers result self.old self.new ask.old ask.new }
    {
        let mut rounds = 0;
        let mut has_left = false;
        let mut left = TURN_BYTES;
        while rounds < most {
            if self.has_had_share(left) {
                return TurnEnd::Again;
            }
            rounds += 1;
            let answered = self.live.answer(documents, ask);
            left = left.saturating_sub(answered.bytes);
            self.answered = self.answered.saturating_add(answered.frames);
            self.turned_away = self.turned_away.saturating_add(answered.turned_away);
            match self.end.write_replies(&mut self.live) {
                Ok(true) => {}
                Ok(false) => return TurnEnd::Waits,
                Err(StreamFailed) => return TurnEnd::Over(Err(FrontError::WriteFault)),
            }
            match answered.next {
                Ok(Wants::Write) => {}
                Ok(Wants::Read) => match self.read(room, has_left) {
                    Ok(has) => has_left = has,
                    Err(after) => return after,
                },
                Err(error) => return TurnEnd::Over(Err(error)),
            }
        }
        TurnEnd::Again
    }

    /// Answers what has come and what comes now, in order, until the stream has no more or takes no more, the session is
    /// over, or the connection has had its share: 8 reads, or frames of 131,072 bytes. A short read is the last of the turn. One exception: the client
    /// is closing (`is_closing`); then we read until the stream says so. Once the connection has made all reads that it
    /// may, what they gave is answered, the replies are written, and the session ends with `TurnsUsed`. The connections of
    /// one thread can share the room for reading, and the reader of documents.
    pub fn turn<A: Ask>(
        &mut self,
        documents: &mut DocumentReader,
        room: &mut [u8; ROOM_BYTES],
        ask: &mut A,
        is_closing: bool,
    ) -> TurnEnd
        ensures { Turn turn_rounds A.answers result (told is_closing self.old) self.new ask.old ask.new }
    {
        if is_closing {
            self.is_closing = true;
        }
        self.go(documents, room, ask, TURN_ROUNDS)
    }

    /// The last turn: nothing is read any more, and what has come is answered, as far as the stream takes it at once. If it
    /// takes no more, the session ends with `WriteFault`; and after 64 rounds, in which at least 12,582,912 bytes of replies
    /// were sent, with `TurnsUsed`.
    pub fn last_turn<A: Ask>(
        &mut self,
        documents: &mut DocumentReader,
        room: &mut [u8; ROOM_BYTES],
        ask: &mut A,
    ) -> Result<u64, FrontError>
        ensures { LastTurn A.answers result self.old self.new ask.old ask.new }
    {
        self.has_ended = true;
        match self.go(documents, room, ask, LAST_ROUNDS) {
            TurnEnd::Over(end) => end,
            TurnEnd::Waits => Err(FrontError::WriteFault),
            TurnEnd::Again => Err(FrontError::TurnsUsed),
        }
    }
}
