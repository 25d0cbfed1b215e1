//! Taking lines out of a stream that comes in pieces.
ghost use Rattle.std.specs.Prelude.{◌≡◌, ◌+◌, ◌<◌, ◌≤◌, ◌∷◌, ◌++◌, [], length, take, drop, IfOk, OnOk, OnErr, MatchOption};
ghost use Rattle.wire.specs.RequestForm.{IsOneLine};

use bytes::BytesMut;
use memchr::memchr;
use std::alloc::{AllocError, Global};
use std::marker::Model;

/// Takes lines out of a stream that comes in pieces. Contracts see it as the bytes that it keeps: those that were fed and
/// belong to no line taken out.
#[derive(Drop)]
pub struct LineDecoder {
    kept: BytesMut,
    /// In so many bytes at the front there is no line feed, so none of them is searched twice.
    searched: usize,
}

impl Model for LineDecoder {
    ghost use Rattle.std.specs.Prelude.{ℕ, List, ◌≤◌, take, length};
    ghost use Rattle.wire.specs.RequestForm.{IsOneLine};

    ghost Value = { List ℕ };

    ghost view = { λ d. d.kept.items };

    ghost invariant = { λ d. (d.searched ≤ length d.kept.items) × IsOneLine (take d.searched d.kept.items) };
}

impl LineDecoder {
    /// Keeps nothing yet.
    pub fn new(alloc: Global) -> Result<LineDecoder, AllocError>
        ensures { IfOk result (λ d. d ≡ []) }
    {
        Ok(LineDecoder {
            kept: BytesMut::with_capacity(alloc, 1)?,
            searched: 0,
        })
    }

    /// Takes the next piece of the stream. Without memory nothing of it is kept.
    pub fn feed(&mut self, piece: &[u8]) -> Result<(), AllocError>
        ensures ok { OnOk result (self.new ≡ self.old ++ piece.now) }
        ensures err { OnErr result (self.new ≡ self.old) }
    {
        self.kept.extend_from_slice(piece)
    }

    /// The bytes that are kept.
    pub fn kept(&self) -> &[u8]
        ensures { result.now ≡ self.now }
    {
        self.kept.as_slice()
    }

    /// How many bytes the next line has, without its line feed. None if no line is whole.
    pub fn next_line(&mut self) -> Option<usize>
        ensures same { self.new ≡ self.old }
        ensures next { MatchOption result (IsOneLine self.old)
            (λ size. IsOneLine (take size self.old) × (self.old ≡ take size self.old ++ 10 ∷ drop (size + 1) self.old)) }
    {
        let (_, fresh) = self.kept.as_slice().split_at(self.searched);
        match memchr(b'\n', fresh) {
            Some(at) => {
                self.searched += at;
                Some(self.searched)
            }
            None => {
                self.searched = self.kept.len();
                None
            }
        }
    }

    /// Passes over a line of so many bytes and its line feed.
    pub fn pass(&mut self, size: usize)
        requires { size < length self.old }
        ensures { self.new ≡ drop (size + 1) self.old }
    {
        self.kept.advance(size);
        self.kept.advance(1);
        self.searched = 0;
    }
}
