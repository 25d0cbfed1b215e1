//! Texts that a document gives.
ghost use Rattle.std.specs.Prelude.{◌≡◌, string_bytes};

use std::marker::Model;

/// The text of a member, as it stands in a document: of any length, and of any characters.
#[derive(Drop)]
pub struct MemberText {
    text: String,
}

impl Model for MemberText {
    ghost use Rattle.std.specs.Prelude.{List, ℕ, string_bytes};

    ghost Value = { List ℕ };

    ghost view = { λ member. string_bytes member.text };
}

impl MemberText {
    /// The text of a member.
    pub fn new(text: String) -> MemberText
        ensures { result ≡ string_bytes text }
    {
        MemberText { text }
    }

    /// The text, which is to be escaped before a terminal shows it.
    pub fn as_str(&self) -> &str
        ensures { result.now ≡ self.now }
    {
        self.text.as_str()
    }
}
