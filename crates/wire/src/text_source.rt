//! Where texts come from that a line names.
use std::alloc::Global;
use thiserror::Error;

/// Why a text that a line names is not there.
#[derive(Clone, Copy, Debug, PartialEq, Eq, Error)]
pub enum TextError {
    #[error("the text cannot be read")]
    Unreadable,
    #[error("out of memory")]
    Memory,
}

/// Gives the documents and JWKs that lines name instead of holding them: in `set a @a.json` the document is the text of the
/// name `a.json`.
pub trait TextSource {
    ghost use Rattle.std.specs.Prelude.{◌≡◌, ℕ, List, Option, Some, None, IfOk, Err};

    // A text of this name may be these bytes; or None, it may be one that cannot be read.
    ghost gives: { Self → List ℕ → Option (List ℕ) → Type 0 };

    /// The text of this name. The bytes are not judged.
    fn text(&self, alloc: Global, name: &[u8]) -> Result<Vec<u8>, TextError>
        ensures ok { IfOk result (λ text. gives self.now name.now (Some text.items)) }
        ensures unreadable { result ≡ Err TextError.Unreadable → gives self.now name.now None };
}
