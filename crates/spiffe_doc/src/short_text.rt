//! Texts that lie in the value itself if they are short.
ghost use Rattle.std.specs.Prelude.{◌≡◌, ◌<◌, length, MatchResult};
ghost use Rattle.spiffe_doc.specs.ShortText.{bytes_of};
ghost use Rattle.spiffe_doc.specs.Private.Texts.{IsPlaced};

use arrayvec::ArrayString;
use std::alloc::{AllocError, Global};

/// A text. One of up to 24 bytes takes no memory of its own, so a copy of it takes none.
#[derive(Drop)]
pub(crate) enum ShortText {
    Inline(ArrayString<24>),
    Allocated(String),
}

impl ShortText {
    /// This text. Errors only if memory runs out, and only for a text of over 24 bytes.
    pub(crate) fn from_str(alloc: Global, text: &str) -> Result<ShortText, AllocError>
        ensures { MatchResult result
            (λ kept. (bytes_of kept ≡ text.now) × IsPlaced kept)
            (λ _. 24 < length text.now) }
    {
        match ArrayString::from(text) {
            Ok(inline) => Ok(ShortText::Inline(inline)),
            Err(_) => Ok(ShortText::Allocated(String::from_str(alloc, text)?)),
        }
    }

    /// The text.
    pub(crate) fn as_str(&self) -> &str
        ensures { result.now ≡ bytes_of self.now }
    {
        match self {
            ShortText::Inline(text) => text.as_str(),
            ShortText::Allocated(text) => text.as_str(),
        }
    }

    /// The same text. Errors only if memory runs out, and only for a text of over 24 bytes.
    pub(crate) fn copy(&self) -> Result<ShortText, AllocError>
        requires { IsPlaced self.now }
        ensures { MatchResult result
            (λ copy. (bytes_of copy ≡ bytes_of self.now) × IsPlaced copy)
            (λ _. 24 < length (bytes_of self.now)) }
    {
        match self {
            ShortText::Inline(text) => Ok(ShortText::Inline(*text)),
            ShortText::Allocated(text) => Ok(ShortText::Allocated(text.clone()?)),
        }
    }
}
