//! On what terms a session answers.
ghost use Rattle.std.specs.Prelude.{◌≡◌, get_or};
ghost use Rattle.frame_front.specs.Terms.{begun, is_change, is_turned_away};

use wire::Version;

/// What holds for a session beside the map that it asks: which version of the protocol it speaks, and whether it may only read.
#[derive(Clone, Copy, Debug)]
pub struct Terms {
    pub version: Version,
    pub reads_only: bool,
}

impl Terms {
    /// Those on which a session begins: it speaks version 1.
    pub fn begun(reads_only: bool) -> Terms
        ensures { result ≡ begun reads_only }
    {
        Terms {
            version: Version::One,
            reads_only,
        }
    }

    /// Whether a payload is turned away by its first byte: it is the letter of a change, and the session may only read.
    #[inline(always)]
    pub(crate) fn turns_away(&self, payload: &[u8]) -> bool
        ensures { result ≡ is_turned_away self.now.reads_only payload.now }
    {
        self.reads_only && is_change(letter_of(payload))
    }
}

/// Whether a request of this letter would change the map: an append, a conditional set, a remove or a set.
fn is_change(letter: u8) -> bool
    ensures { result ≡ is_change letter }
{
    matches!(letter, b'A' | b'C' | b'R' | b'S')
}

/// The first byte of a payload.
pub(crate) fn letter_of(payload: &[u8]) -> u8
    ensures { result ≡ get_or payload.now 0 0 }
{
    payload.first().copied().unwrap_or(0)
}
