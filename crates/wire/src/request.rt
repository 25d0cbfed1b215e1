//! Requests as values. `payload` and `line` read and write them.
ghost use Rattle.std.specs.Prelude.{◌≡◌};
ghost use Rattle.wire.specs.RequestForm.{request, text_of, with_text as other_text};

pub(crate) mod line;
pub(crate) mod payload;

use crate::Version;
use map_core::{DumpDigest, Expect};

/// The most bytes of a name, whose length is one byte.
const MAX_NAME: usize = 255;

/// What a request says. Its name and its document stay where they were read, and nobody has judged them.
#[derive(Clone, Copy)]
pub enum RequestForm<'a> {
    /// The bundle of a trust domain is set: its name, and the document.
    Set(&'a [u8], &'a [u8]),
    /// It is set only if the stored one is the expected one.
    SetIf(&'a [u8], Expect, &'a [u8]),
    /// An authority is appended: the name, and the JWK.
    Append(&'a [u8], &'a [u8]),
    Remove(&'a [u8]),
    Get(&'a [u8]),
    /// All bundles are fetched.
    Fetch,
    /// They are, unless their digest is this one.
    FetchUnless(DumpDigest),
    /// Whoever answers tells what it has counted.
    Stats,
    /// The session speaks this version from now on.
    Speak(Version),
}

impl<'a> RequestForm<'a> {
    /// The document or the JWK that the line and the frame of the request end with; nothing if it has none.
    pub fn text(&self) -> &'a [u8]
        ensures { result.now ≡ text_of (request self.now) }
    {
        match self {
            RequestForm::Set(_, text) => text,
            RequestForm::SetIf(_, _, text) => text,
            RequestForm::Append(_, text) => text,
            _ => &[],
        }
    }

    /// The same request with another text, if it has one.
    pub(crate) fn with_text(&self, text: &'a [u8]) -> RequestForm<'a>
        ensures { request result ≡ other_text (request self.now) text.now }
    {
        match self {
            RequestForm::Set(name, _) => RequestForm::Set(name, text),
            RequestForm::SetIf(name, expect, _) => RequestForm::SetIf(name, *expect, text),
            RequestForm::Append(name, _) => RequestForm::Append(name, text),
            _ => *self,
        }
    }
}
