//! Replies as values. `payload` and `line` read and write them.
ghost use Rattle.std.specs.Prelude.{◌≡◌};
ghost use Rattle.wire.specs.ReplyForm.{reply, text_of, kind_of as number_kind, is_error_code as error_code};

pub(crate) mod line;
pub(crate) mod payload;

use crate::Version;
use map_core::Expect;

/// What a reply says. Its name and its text stay where they were read, and nobody has judged them.
#[derive(Clone, Copy, Debug, PartialEq, Eq)]
pub enum ReplyForm<'a> {
    /// The bundle was set.
    Stored,
    /// An equal bundle or authority was there already.
    Unchanged,
    Removed,
    /// The authority was appended; the bundle's sequence from now on, if it has one.
    Appended(Option<u64>),
    /// The bundle that was asked for: its text.
    Found(&'a [u8]),
    /// So many bundles follow, each in a reply of its own.
    All(u64),
    /// All bundles have the digest that was known.
    Same,
    /// What was counted: words `name=value` with single spaces between.
    Counts(&'a [u8]),
    /// One of all bundles: its name and its text.
    Bundle(&'a [u8], &'a [u8]),
    /// The session speaks this version from now on.
    Speaks(Version),
    /// The request was refused, for the reason with this number.
    Refused(u8, Detail),
    /// A shard was changed in each try to read all; its revision as it was read, and as it was found then.
    Moved { shard: u32, first: u64, second: u64 },
    /// Another pass held the shard, or had just changed it, in each try; its revision at the last.
    Held { shard: u32, revision: u64 },
    /// The shard has used up its revisions.
    Worn { shard: u32 },
    /// Memory ran out.
    Memory,
    /// The port is for reads only, or a gate was shut, and the request was not asked.
    Shut,
}

impl<'a> ReplyForm<'a> {
    /// The text that the line of the reply ends with; nothing if it has none.
    pub fn text(&self) -> &'a [u8]
        ensures { result.now ≡ text_of (reply self.now) }
    {
        match self {
            ReplyForm::Found(text) => text,
            ReplyForm::Counts(text) => text,
            ReplyForm::Bundle(_, text) => text,
            _ => &[],
        }
    }
}

/// What a refusal says beside its number.
#[derive(Clone, Copy, Debug, PartialEq, Eq)]
pub enum Detail {
    Nothing,
    /// Where the fault is: the byte of a name, or the entry of a document.
    Place(u32),
    /// The sequence that is stored.
    SequenceOf(u64),
    /// What was found in place of what was expected.
    Expected(Expect),
}

/// Which detail a refusal has.
#[derive(Clone, Copy)]
pub(crate) enum Kind {
    Bare,
    OfPlace,
    OfSequence,
    OfExpect,
}

/// Which detail the refusal of this number has. None if no refusal has the number.
#[tactic(auto, unfolding(crate::specs::ReplyForm::kind_of))]
pub(crate) fn kind_of(number: u8) -> Option<Kind>
    ensures { result ≡ number_kind number }
{
    match number {
        1 | 10 | 11 | 12 | 13 | 14 | 15 | 21 | 23 | 30 | 32 | 33 | 34 | 35 | 51 => Some(Kind::Bare),
        3 | 16 | 17 | 18 | 19 | 20 => Some(Kind::OfPlace),
        31 => Some(Kind::OfSequence),
        36 => Some(Kind::OfExpect),
        _ => None,
    }
}

/// Whether a code is the number of an error of whoever was asked.
pub fn is_error_code(code: u8) -> bool
    ensures { result ≡ error_code code }
{
    matches!(code, 22 | 40 | 41 | 42 | 56)
}
