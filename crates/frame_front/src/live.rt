//! Sessions without ends: bytes come in, bytes go out, and whoever has the ends says when.
ghost use Rattle.std.specs.Prelude.{◌≡◌, ◌≢◌, ◌≤◌, ◌++◌, [], length, take, drop, min, true, false, IfOk, IfErr, OnOk, OnErr};
ghost use Rattle.std.specs.Io.KnownBytes.{Appends};
ghost use Rattle.wire.specs.Counted.{end_in, faults_in, next_count};
ghost use Rattle.frame_front.specs.Live.{LiveAnswers, FinishesAt, Feeds, Sends, live_start, most_frames, most_kept, most_ready, room_of, live_view, waiting};
ghost use Rattle.wire.specs.Output.{WritesFront};
ghost use Rattle.frame_front.specs.Private.Steps.{Steps};

use crate::answered::{Answered, Wants};
use crate::pending::REPLY_LIMIT;
use crate::replies::Replies;
use bytes::BytesMut;
use map_core::Ask;
use spiffe_doc::{DocumentReader, Memory};
use std::alloc::Global;
use std::io::Write;
use std::marker::Model;
use wire::{Counted, Decoder, FRONT_BYTES, FrontError, LENGTH_BYTES, MAX_PAYLOAD};

/// The most bytes of input that are kept: a frame, and a piece.
const MOST_KEPT: usize = LENGTH_BYTES + MAX_PAYLOAD + 4096;

/// The most memory for input that is held from one frame to the next while no byte needs it.
const MOST_INPUT_HELD: usize = 131_072;

/// The most memory for replies that is held while no byte needs it. Room that doubles as it grows seldom passes twice their
/// limit, so it is not made anew each round.
const MOST_REPLIES_HELD: usize = 2 * REPLY_LIMIT;

/// The room that a session with both its ends takes before it reads: what may wait, and a reply without a text.
const REPLY_ROOM: usize = REPLY_LIMIT + FRONT_BYTES;

/// What one step of a session came to.
pub(crate) enum Step {
    /// A frame was answered, by an error of whoever was asked or not.
    Answered(bool),
    /// No frame was answered: the session wants more input, or that replies are sent, or it ends.
    Stops(Result<Wants, FrontError>),
}

/// A session that has no reader and no writer, so that one thread can drive many of them. Pieces of its input are fed
/// to it, it answers the whole frames among them, and its replies wait until they are sent. It keeps at most 1,053,100
/// bytes of input, and has at most 196,608 bytes of replies and one more part of a reply ready: a text, or a domain of a
/// fetch-all. What comes after that part is not copied before it is its turn. While its client is quiet it needs no memory
/// for either: `rest` gives it back. `serve` is a loop over it that has both ends at hand.
#[derive(Drop)]
pub struct LiveSession {
    decoder: Decoder,
    replies: Replies,
}

impl Model for LiveSession {
    ghost use Rattle.std.specs.Prelude.{◌≤◌, length};
    ghost use Rattle.frame_front.specs.Live.{LiveView, most_kept, most_ready};

    ghost Value = { LiveView };

    ghost use Rattle.frame_front.specs.Private.Pending.{reply_left};

    ghost view = { λ s. record { kept = s.decoder; terms = s.replies.terms; ready = s.replies.ready.bytes.items; later = reply_left s.replies.pending } };

    ghost invariant = { λ s. (length s.decoder ≤ most_kept) × (length s.replies.ready.bytes.items ≤ most_ready) };
}

impl LiveSession {
    /// Nothing has come yet. The session may only read, or do all: one that may only read answers each change that the gate is
    /// shut (number 56) as soon as it has seen its letter. It judges neither the name nor the document then.
    pub fn new(alloc: Global, reads_only: bool) -> Result<LiveSession, Memory>
        ensures { IfOk result (λ live. live ≡ live_start reads_only) }
    {
        Ok(LiveSession {
            decoder: Decoder::new(alloc)?,
            replies: Replies::new(alloc, reads_only),
        })
    }

    /// How many bytes of input it takes now. What it keeps and this are always 1,053,100 bytes, so there is room
    /// for 4,096 bytes and more whenever it wants to read.
    pub fn room(&self) -> usize
        ensures room { result ≡ room_of self.now }
        ensures kept { length self.now.kept ≤ most_kept }
    {
        MOST_KEPT - self.decoder.len()
    }

    /// Takes the next piece of the input, or as much of its front as there is room for, and says how many bytes.
    /// If memory is refused, nothing has changed.
    pub fn feed(&mut self, piece: &[u8]) -> Result<usize, Memory>
        ensures taken { IfOk result (λ count. count ≡ min (length piece.now) (room_of self.old)) }
        ensures fed { IfOk result (λ count. Feeds (take count piece.now) self.old self.new) }
        ensures err { OnErr result (self.new ≡ self.old) }
    {
        let count = piece.len().min(MOST_KEPT - self.decoder.len());
        let (front, _) = piece.split_at(count);
        self.decoder.feed(front)?;
        Ok(count)
    }

    /// Answers whole frames that are kept, in order, until none is left, a bad length comes first, or 196,608 bytes of
    /// replies are ready. If memory for a reply is refused, the rest of that reply waits, and the next call begins with
    /// it. Sessions of one thread can share the reader of documents.
    pub fn answer<A: Ask>(&mut self, documents: &mut DocumentReader, ask: &mut A) -> Answered
        ensures answers { LiveAnswers A.answers result self.old self.new ask.old ask.new }
        ensures share { result.frames ≤ most_frames }
        ensures judged { result.bytes ≤ most_kept }
    {
        let (kept, turned_away) = (self.decoder.len(), self.replies.turned_away);
        let mut frames = 0;
        loop {
            match self.step(documents, ask) {
                Step::Answered(_) => frames += 1,
                Step::Stops(next) => {
                    let answered = Answered {
                        frames,
                        bytes: kept - self.decoder.len(),
                        turned_away: self.replies.turned_away.saturating_sub(turned_away),
                        next,
                    };
                    self.decoder.shrink(MOST_INPUT_HELD);
                    return answered;
                }
            }
        }
    }

    /// Answers the first whole frame that is kept, unless none is left, a bad length comes first, as many bytes of replies are
    /// ready as may wait, or memory for the reply before it is refused.
    #[inline(always)]
    pub(crate) fn step<A: Ask>(&mut self, documents: &mut DocumentReader, ask: &mut A) -> Step
        ensures { Steps A.answers result self.old self.new ask.old ask.new }
    {
        let replies = &mut self.replies;
        if let Err(_) = replies.pending.store(&mut replies.ready.bytes) {
            return Step::Stops(Err(FrontError::Memory));
        }
        if replies.ready.bytes.len() >= REPLY_LIMIT {
            return Step::Stops(Ok(Wants::Write));
        }
        match self.decoder.payload() {
            Ok(Some(payload)) => {
                let size = payload.len();
                let is_error = replies.answer(documents, ask, payload);
                self.decoder.pass(size);
                Step::Answered(is_error)
            }
            Ok(None) => Step::Stops(Ok(Wants::Read)),
            Err(fault) => Step::Stops(Err(fault)),
        }
    }

    /// Takes the room that replies need, but for long texts. Nothing else changes.
    pub(crate) fn take_room(&mut self) -> Result<(), Memory>
        ensures { self.new ≡ self.old }
    {
        self.replies.ready.bytes.reserve(REPLY_ROOM)
    }

    /// Writes all replies that wait, and sees that the writer keeps nothing back. This needs no memory.
    pub(crate) fn write<W: Write>(&mut self, writer: &mut Counted<W>) -> Result<(), FrontError>
        ensures ok { OnOk result (Appends (W.contents (end_in writer.old)) (W.contents (end_in writer.new)) (waiting self.old)) }
        ensures sent { OnOk result (self.new ≡ live_view self.old.kept self.old.terms [] []) }
        ensures same { (self.new.kept ≡ self.old.kept) × (self.new.terms ≡ self.old.terms) }
        ensures quiet { OnOk result (faults_in writer.new ≡ faults_in writer.old) }
        ensures fault { IfErr result (λ fault. (fault ≡ FrontError.WriteFault) × (faults_in writer.new ≡ next_count (faults_in writer.old))) }
        ensures front { WritesFront (W.contents (end_in writer.old)) (W.contents (end_in writer.new)) (waiting self.old) }
    {
        let replies = &mut self.replies;
        replies.pending.write(&mut replies.ready.bytes, writer)
    }

    /// The replies that are ready to be sent.
    pub fn replies(&self) -> &[u8]
        ensures ready { result.now ≡ self.now.ready }
        ensures few { length result.now ≤ most_ready }
    {
        self.replies.ready.bytes.as_slice()
    }

    /// Whether a part of the last reply is not stored yet. As long as one is, the bundles of that reply are held: of a fetch-all
    /// all of one moment.
    pub fn has_more(&self) -> bool
        ensures some { result ≡ true → self.now.later ≢ [] }
        ensures none { result ≡ false → self.now.later ≡ [] }
    {
        self.replies.pending.has_more()
    }

    /// So many bytes of the replies are sent.
    pub fn sent(&mut self, count: usize)
        requires { count ≤ length self.old.ready }
        ensures { Sends (take count self.old.ready) self.old self.new }
    {
        let replies = &mut self.replies;
        replies.ready.bytes.advance(count);
        if !replies.ready.bytes.is_empty() {
            return;
        }
        if replies.ready.bytes.capacity() > MOST_REPLIES_HELD {
            replies.ready.bytes = BytesMut::new(replies.alloc);
        } else {
            replies.ready.bytes.clear();
        }
    }

    /// Gives back the memory that no byte needs. Nothing else changes.
    pub fn rest(&mut self)
        ensures { self.new ≡ self.old }
    {
        self.decoder.shrink(0);
        let replies = &mut self.replies;
        if replies.ready.bytes.is_empty() && replies.ready.bytes.capacity() > 0 {
            replies.ready.bytes = BytesMut::new(replies.alloc);
        }
    }

    /// Whether the input may end here if all frames are answered: no byte is kept.
    pub(crate) fn end(&self) -> Result<(), FrontError>
        ensures whole { OnOk result (self.now.kept ≡ []) }
        ensures rest { IfErr result (λ fault. (fault ≡ FrontError.Truncated) × (self.now.kept ≢ [])) }
    {
        self.decoder.finish()
    }

    /// Whether the input may end here: `false` if frames are left to be answered.
    pub fn finish(&self) -> Result<bool, FrontError>
        ensures { FinishesAt result self.now.kept }
    {
        match self.decoder.payload()? {
            Some(_) => Ok(false),
            None => {
                self.decoder.finish()?;
                Ok(true)
            }
        }
    }
}
