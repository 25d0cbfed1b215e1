//! Versions of a session.
ghost use Rattle.std.specs.Prelude.{◌≡◌};
ghost use Rattle.wire.specs.Fields.{version_number};

/// The version of a session. It begins with the first.
#[derive(Clone, Copy, Debug, PartialEq, Eq)]
pub enum Version {
    One,
    /// Adds the letter C: a document is set if what stands there is what is expected.
    Two,
    /// Adds the letters U and M: all bundles are fetched unless their digest is the one that is known, and counts are told.
    Three,
}

impl Version {
    /// The byte that spells it.
    pub fn number(self) -> u8
        ensures { result ≡ version_number self }
    {
        match self {
            Version::One => 1,
            Version::Two => 2,
            Version::Three => 3,
        }
    }
}
