//! Lines of requests become frames.
ghost use Rattle.std.specs.Prelude.{◌≡◌, ◌++◌, List, ℕ, [], Err, IfOk, OnOk, OnErr};
ghost use Rattle.wire.specs.Counted.{next_count};
ghost use Rattle.wire.specs.Encoding.{EncodesNext, Finishes};
ghost use Rattle.wire.specs.Private.Encoders.{stopped};

use crate::line_decoder::LineDecoder;
use crate::line_frame::{LineError, put_line};
use crate::text_source::TextSource;
use std::alloc::{AllocError, Global};
use std::marker::Model;
use thiserror::Error;

/// The most bytes of a line. That of the longest request has fewer.
const MAX_LINE: usize = 1_049_300;

/// Why a line becomes nothing.
#[derive(Clone, Copy, Debug, PartialEq, Eq, Error)]
pub enum EncodeError {
    /// The line, from 1, is neither a comment nor a request that a frame carries, or it has over 1,049,300 bytes.
    #[error("line {0} is not a request")]
    BadLine(u64),
    /// The text that the line, from 1, names cannot be read.
    #[error("the text that line {0} names cannot be read")]
    Unreadable(u64),
    #[error("out of memory")]
    Memory,
}

/// Turns lines of requests, which come in pieces, into frames, one line at a time, so it keeps no frames. A line that is empty or begins with `#` asks nothing. A document
/// or a JWK that begins with `@` is the name of a text, and the frame has that text.
#[derive(Drop)]
pub struct Encoder {
    decoder: LineDecoder,
    /// How many lines there were. The count stays at 2^64 - 1 once there.
    lines: u64,
}

impl Model for Encoder {
    ghost use Rattle.wire.specs.Encoding.{EncoderState};

    ghost Value = { EncoderState };

    ghost view = { λ e. record { kept = e.decoder; lines = e.lines } };
}

impl Encoder {
    /// No line yet.
    pub fn new(alloc: Global) -> Result<Encoder, AllocError>
        ensures { IfOk result (λ encoder. encoder ≡ record { kept = []; lines = 0 }) }
    {
        Ok(Encoder {
            decoder: LineDecoder::new(alloc)?,
            lines: 0,
        })
    }

    /// Takes the next piece of the stream. Without memory nothing of it is kept.
    pub fn feed(&mut self, piece: &[u8]) -> Result<(), AllocError>
        ensures lines { self.new.lines ≡ self.old.lines }
        ensures ok { OnOk result (self.new.kept ≡ self.old.kept ++ piece.now) }
        ensures err { OnErr result (self.new.kept ≡ self.old.kept) }
    {
        self.decoder.feed(piece)
    }

    /// Takes out the first line of the bytes that are kept, and appends the frame that it becomes, with the text that it names.
    /// False if no line is whole. After an error the line is still kept, and nothing was appended.
    pub fn encode_next<T: TextSource>(
        &mut self,
        alloc: Global,
        texts: &T,
        out: &mut Vec<u8>,
    ) -> Result<bool, EncodeError>
        ensures { (written : List ℕ) × (out.new.items ≡ out.old.items ++ written) × EncodesNext (T.gives texts.now) result self.old self.new written }
    {
        let Some(size) = self.decoder.next_line() else {
            if self.decoder.kept().len() > MAX_LINE {
                return Err(self.stopped(LineError::Bad));
            }
            return Ok(false);
        };
        let (line, _) = self.decoder.kept().split_at(size);
        if let Err(error) = put_line(alloc, texts, line, out) {
            return Err(self.stopped(error));
        }
        self.decoder.pass(size);
        self.lines = self.lines.saturating_add(1);
        Ok(true)
    }

    /// Appends the frame of the last line, which no line feed has ended, if there is one.
    pub fn finish<T: TextSource>(
        self,
        alloc: Global,
        texts: &T,
        out: &mut Vec<u8>,
    ) -> Result<(), EncodeError>
        ensures { (written : List ℕ) × (out.new.items ≡ out.old.items ++ written) × Finishes (T.gives texts.now) result self written }
    {
        match put_line(alloc, texts, self.decoder.kept(), out) {
            Ok(()) => Ok(()),
            Err(error) => Err(self.stopped(error)),
        }
    }

    /// Why the line at hand became nothing.
    fn stopped(&self, error: LineError) -> EncodeError
        ensures { result ≡ stopped (next_count self.now.lines) error }
    {
        let line = self.lines.saturating_add(1);
        match error {
            LineError::Bad => EncodeError::BadLine(line),
            LineError::Unreadable => EncodeError::Unreadable(line),
            LineError::Memory => EncodeError::Memory,
        }
    }
}
