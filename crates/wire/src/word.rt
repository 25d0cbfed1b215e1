//! Words with single spaces between.
ghost use Rattle.std.specs.Prelude.{◌≡◌, ◌<◌, ◌^◌, ◌==◌, ℕ, None, Some, decimal, position, MatchOption};
ghost use Rattle.wire.specs.RequestForm.{IsWord, ◌then◌};
ghost use Rattle.wire.specs.Private.RequestReading.{split_word as word_split, lone_word as word_alone, short_name as name_short, split_name as name_split, lone_name as name_alone, number_of};

use itoa::Buffer;

/// The place of the first space.
fn first_space(bytes: &[u8]) -> Option<usize>
    ensures { result ≡ position (λ byte. byte == 32) bytes.now }
{
    bytes.iter().position(|byte| *byte == b' ')
}

/// The bytes up to the first space, and those after it. None if there is no space.
pub fn split_word(bytes: &[u8]) -> Option<(&[u8], &[u8])>
    ensures words { MatchOption result (IsWord bytes.now) (λ parts. IsWord parts.0.now × (bytes.now ≡ parts.0.now then parts.1.now)) }
    ensures read { MatchOption result (word_split bytes.now ≡ None) (λ parts. word_split bytes.now ≡ Some (parts.0.now, parts.1.now)) }
{
    let at = first_space(bytes)?;
    let (word, rest) = bytes.split_at(at);
    Some((word, &rest[1..]))
}

/// The bytes, if there is no space in them.
#[tactic(auto, unfolding(crate::specs::Private::RequestReading::lone_word))]
fn lone_word(bytes: &[u8]) -> Option<&[u8]>
    ensures { MatchOption result (word_alone bytes.now ≡ None) (λ word. word_alone bytes.now ≡ Some word.now) }
{
    match split_word(bytes) {
        None => Some(bytes),
        Some(_) => None,
    }
}

/// The word, if it has at most 255 bytes.
#[tactic(auto, unfolding(crate::specs::Private::RequestReading::short_name))]
fn short_name(word: &[u8]) -> Option<&[u8]>
    ensures { MatchOption result (name_short word.now ≡ None) (λ name. name_short word.now ≡ Some name.now) }
{
    if word.len() < 256 { Some(word) } else { None }
}

/// A name that a space ends, and what follows it.
#[tactic(auto, unfolding(crate::specs::Private::RequestReading::split_name))]
pub(crate) fn split_name(bytes: &[u8]) -> Option<(&[u8], &[u8])>
    ensures { MatchOption result (name_split bytes.now ≡ None) (λ parts. name_split bytes.now ≡ Some (parts.0.now, parts.1.now)) }
{
    let (word, rest) = split_word(bytes)?;
    Some((short_name(word)?, rest))
}

/// A name, and nothing after it.
#[tactic(auto, unfolding(crate::specs::Private::RequestReading::lone_name))]
pub(crate) fn lone_name(bytes: &[u8]) -> Option<&[u8]>
    ensures { MatchOption result (name_alone bytes.now ≡ None) (λ name. name_alone bytes.now ≡ Some name.now) }
{
    short_name(lone_word(bytes)?)
}

/// The number that a word writes in decimal, with no leading zeros and no sign.
pub fn read_number(word: &[u8]) -> Option<u64>
    ensures number { MatchOption result ((number : ℕ) → number < 2 ^ 64 → word.now ≡ decimal number → ⊥)
        (λ number. (number < 2 ^ 64) × (word.now ≡ decimal number)) }
    ensures read { result ≡ number_of word.now }
{
    let text = str::from_utf8(word).ok()?;
    let number = text.parse::<u64>().ok()?;
    if Buffer::new().format(number).as_bytes() == word {
        Some(number)
    } else {
        None
    }
}
