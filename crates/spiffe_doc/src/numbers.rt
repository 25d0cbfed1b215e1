//! The numbers of a bundle, as they are kept.
ghost use Rattle.std.specs.Prelude.{◌≡◌, ◌<◌, ◌^◌};

use std::marker::Model;

/// The sequence and the refresh hint of a bundle, and how many bytes of its text stand up to the last entry, in three
/// words: a store keeps many bundles, and options of the two would take five. Contracts see the numbers.
#[derive(Drop)]
pub(crate) struct Numbers {
    sequence: u64,
    refresh_hint: u64,
    front_len: u32,
    has_sequence: bool,
    has_refresh_hint: bool,
}

impl Model for Numbers {
    ghost use Rattle.std.specs.Prelude.{cond, Some, None};
    ghost use Rattle.spiffe_doc.specs.Private.Numbers.{NumbersValue};

    ghost Value = { NumbersValue };

    ghost view = { λ kept. record { sequence = cond kept.has_sequence (Some kept.sequence) None; refresh_hint = cond kept.has_refresh_hint (Some kept.refresh_hint) None; front_len = kept.front_len } };
}

impl Numbers {
    pub(crate) fn new(sequence: Option<u64>, refresh_hint: Option<u64>, front_len: usize) -> Numbers
        requires { front_len < 2 ^ 32 }
        ensures { result ≡ record { sequence = sequence; refresh_hint = refresh_hint; front_len = front_len } }
    {
        Numbers {
            sequence: sequence.unwrap_or(0),
            refresh_hint: refresh_hint.unwrap_or(0),
            front_len: front_len as u32,
            has_sequence: sequence.is_some(),
            has_refresh_hint: refresh_hint.is_some(),
        }
    }

    pub(crate) fn sequence(&self) -> Option<u64>
        ensures { result ≡ self.now.sequence }
    {
        if self.has_sequence {
            Some(self.sequence)
        } else {
            None
        }
    }

    pub(crate) fn refresh_hint(&self) -> Option<u64>
        ensures { result ≡ self.now.refresh_hint }
    {
        if self.has_refresh_hint {
            Some(self.refresh_hint)
        } else {
            None
        }
    }

    /// How many bytes of the text stand up to the last entry.
    pub(crate) fn front_len(&self) -> usize
        ensures { result ≡ self.now.front_len }
    {
        self.front_len as usize
    }
}
