//! Taking frames out of a stream that comes in pieces.
ghost use Rattle.std.specs.Prelude.{◌≡◌, ◌≢◌, ◌≤◌, ◌++◌, ◌+◌, [], length, drop, IfOk, IfErr, IfSome, IfNone, OnOk, OnErr};
ghost use Rattle.wire.specs.Frame.{IsPayload, IsUnfinished, IsBadLength, frame};
ghost use Rattle.wire.specs.Decoder.{FailsAt};

use crate::FrontError;
use crate::frame::{LENGTH_BYTES, first_frame};
use bytes::BytesMut;
use spiffe_doc::Memory;
use std::alloc::Global;
use std::marker::Model;

/// Takes the payloads of frames out of a stream that comes in pieces. Contracts see it as the bytes
/// that it keeps: those that were fed and belong to no frame taken out.
#[derive(Drop)]
pub struct Decoder {
    kept: BytesMut,
    alloc: Global,
}

impl Model for Decoder {
    ghost use Rattle.std.specs.Prelude.{ℕ, List};

    ghost Value = { List ℕ };

    ghost view = { λ d. d.kept.items };
}

impl Decoder {
    /// Keeps nothing yet.
    pub fn new(alloc: Global) -> Result<Decoder, Memory>
        ensures { IfOk result (λ d. d ≡ []) }
    {
        Ok(Decoder {
            kept: BytesMut::with_capacity(alloc, LENGTH_BYTES)?,
            alloc,
        })
    }

    /// Takes the next piece of the stream. Without memory nothing of it is kept.
    pub fn feed(&mut self, piece: &[u8]) -> Result<(), Memory>
        ensures ok { OnOk result (self.new ≡ self.old ++ piece.now) }
        ensures err { OnErr result (self.new ≡ self.old) }
    {
        self.kept.extend_from_slice(piece)
    }

    /// Takes out the payload of the next whole frame, if one is there. At a bad length the decoder
    /// stays as it is, and answers so from then on.
    pub fn next_frame(&mut self) -> Result<Option<Vec<u8>>, FrontError>
        ensures found { IfOk result (λ next. IfSome next (λ payload.
            IsPayload payload.items × (self.old ≡ frame payload.items ++ self.new))) }
        ensures none { IfOk result (λ next. IfNone next (IsUnfinished self.old × (self.new ≡ self.old))) }
        ensures fails { IfErr result (λ fault. FailsAt fault self.old) }
        ensures err { OnErr result (self.new ≡ self.old) }
    {
        let Some(payload) = self.payload()? else {
            return Ok(None);
        };
        let Ok(copy) = Vec::from_slice(self.alloc, payload) else {
            return Err(FrontError::Memory);
        };
        self.pass(copy.len());
        Ok(Some(copy))
    }

    /// The payload of the next whole frame, which stays where it is.
    pub fn payload(&self) -> Result<Option<&[u8]>, FrontError>
        ensures found { IfOk result (λ next. IfSome next (λ payload.
            IsPayload payload.now × (self.now ≡ frame payload.now ++ drop (4 + length payload.now) self.now))) }
        ensures none { IfOk result (λ next. IfNone next (IsUnfinished self.now)) }
        ensures fails { IfErr result (λ fault. (fault ≡ FrontError.BadLength) × IsBadLength self.now) }
    {
        first_frame(self.kept.as_slice())
    }

    /// Passes over a frame whose payload has so many bytes. If nothing is kept then, the next piece has all the room.
    pub fn pass(&mut self, size: usize)
        requires stands { 4 + size ≤ length self.old }
        requires few { size ≤ 1049000 }
        ensures { self.new ≡ drop (4 + size) self.old }
    {
        self.kept.advance(LENGTH_BYTES + size);
        if self.kept.is_empty() {
            self.kept.clear();
        }
    }

    /// How many bytes are kept.
    pub fn len(&self) -> usize
        ensures { result ≡ length self.now }
    {
        self.kept.len()
    }

    /// Gives its memory back if no byte is kept and it has room for more than so many.
    pub fn shrink(&mut self, most: usize)
        ensures { self.new ≡ self.old }
    {
        if self.kept.is_empty() && self.kept.capacity() > most {
            self.kept = BytesMut::new(self.alloc);
        }
    }

    /// Whether the stream may end here: no byte is kept.
    pub fn finish(&self) -> Result<(), FrontError>
        ensures whole { OnOk result (self.now ≡ []) }
        ensures rest { IfErr result (λ fault. (fault ≡ FrontError.Truncated) × (self.now ≢ [])) }
    {
        if self.kept.is_empty() {
            Ok(())
        } else {
            Err(FrontError::Truncated)
        }
    }
}
