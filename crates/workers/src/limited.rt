//! Streams of which only so many reads may be made, and what a read or a write of one does for a session.
ghost use Rattle.std.specs.Prelude.{◌≡◌, ◌≢◌, ◌<◌, ◌+◌, ℕ, List, length, true, false};
ghost use Rattle.std.specs.IoError.{error_kind};
ghost use Rattle.std.specs.declared.io.ErrorKind.TheVariants.{WouldBlock};
ghost use Rattle.std.specs.Io.KnownBytes.{Appends};
ghost use Rattle.wire.specs.Frame.{IsUnfinished};
ghost use Rattle.frame_front.specs.Live.{Sends};
ghost use Rattle.workers.specs.Connection.{counted};
ghost use Rattle.workers.specs.Private.Limited.{IsSentAs, Takes};

use crate::stream::Stream;
use frame_front::LiveSession;
use std::io;
use std::io::ErrorKind;

/// How many bytes there is room for in one read.
pub const ROOM_BYTES: usize = 65_536;

/// A call of a stream has failed.
pub(crate) struct StreamFailed;

/// What comes of one read.
pub(crate) enum ReadOutcome {
    /// A piece of the input, which was fed to the session; and whether the read has left some of its room.
    Piece(bool),
    /// The stream would have to wait.
    Nothing,
    /// The end of the input.
    End,
    /// A piece of the input, which is lost: memory for it was refused.
    NoMemory,
    /// The stream failed.
    Failed,
}

/// Whether a call that ended so would have to wait.
fn would_wait(error: &io::Error) -> bool
    ensures waits { result ≡ true → error_kind error.now ≡ WouldBlock }
    ensures fails { result ≡ false → error_kind error.now ≢ WouldBlock }
{
    error.kind() == ErrorKind::WouldBlock
}

/// A stream, how many reads of it may still be made, and how many bytes were written to it. No other module changes any of them
/// but by a read or a write, so what a connection says of its reads and writes is what it did.
#[derive(Drop)]
pub(crate) struct Limited<E> {
    end: E,
    /// A read counts if it gives bytes.
    turns: u64,
    /// It stays at 2^64 - 1 once there.
    written: u64,
}

impl<E: Stream> Limited<E> {
    pub(crate) fn new(end: E, turns: u64) -> Limited<E>
        ensures end { result.end ≡ end }
        ensures turns { result.turns ≡ turns }
        ensures written { result.written ≡ 0 }
    {
        Limited {
            end,
            turns,
            written: 0,
        }
    }

    /// How many reads may still be made.
    pub(crate) fn turns(&self) -> u64
        ensures { result ≡ self.now.turns }
    {
        self.turns
    }

    /// How many bytes were written.
    pub(crate) fn written(&self) -> u64
        ensures { result ≡ self.now.written }
    {
        self.written
    }

    /// Reads once, and feeds what has come to the session.
    pub(crate) fn read_piece(
        &mut self,
        live: &mut LiveSession,
        room: &mut [u8; ROOM_BYTES],
    ) -> ReadOutcome
        requires unfinished { IsUnfinished live.old.kept }
        requires turns { 0 < self.old.turns }
        ensures takes { Takes result (E.may self.old.end) (E.left self.old.end) (E.left self.new.end) self.old.turns self.new.turns live.old live.new }
        ensures held { E.held self.new.end ≡ E.held self.old.end }
        ensures may { E.may self.new.end ≡ E.may self.old.end }
        ensures written { self.new.written ≡ self.old.written }
    {
        let (room, _) = room.split_at_mut(live.room().min(ROOM_BYTES));
        match self.end.read(room) {
            Ok(0) => ReadOutcome::End,
            Ok(count) => {
                self.turns -= 1;
                match live.feed(room.split_at(count).0) {
                    Ok(_) => ReadOutcome::Piece(count < room.len()),
                    Err(_) => ReadOutcome::NoMemory,
                }
            }
            Err(error) => {
                if would_wait(&error) {
                    ReadOutcome::Nothing
                } else {
                    ReadOutcome::Failed
                }
            }
        }
    }

    /// Writes the replies that are ready. The answer is whether all are written; if not, the stream takes no more now.
    pub(crate) fn write_replies(&mut self, live: &mut LiveSession) -> Result<bool, StreamFailed>
        ensures sends { (bytes : List ℕ) × Sends bytes live.old live.new × Appends (E.held self.old.end) (E.held self.new.end) bytes
            × (self.new.written ≡ counted (self.old.written + length bytes)) }
        ensures left { E.left self.new.end ≡ E.left self.old.end }
        ensures turns { self.new.turns ≡ self.old.turns }
        ensures may { E.may self.new.end ≡ E.may self.old.end }
        ensures until { IsSentAs result (E.may self.old.end) live.new.ready }
    {
        let _written = self.written;
        while !live.replies().is_empty() {
            match self.end.write(live.replies()) {
                Ok(0) => return Err(StreamFailed),
                Ok(count) => {
                    live.sent(count);
                    self.written = self.written.saturating_add(count as u64);
                }
                Err(error) if would_wait(&error) => return Ok(false),
                Err(_) => return Err(StreamFailed),
            }
        }
        Ok(true)
    }
}
