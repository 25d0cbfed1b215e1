//! Requests, read from lines and written as lines.
ghost use Rattle.std.specs.Prelude.{◌≡◌, false, ◌+◌, ◌≤◌, [], ◌∷◌, ◌++◌, ◌==◌, codes, length, None, Some, Option, MatchOption, IfSome};
ghost use Rattle.std.specs.List.{list_any};
ghost use Rattle.arrayvec.specs.ArrayVec.{array_vec_len};
ghost use Rattle.wire.specs.RequestForm.{Request, request, text_of, line_of, expect_word, HasLine, IsLined, IsNameWord, IsOneLine, Spells, is_text_name, ◌then◌};
ghost use Rattle.hex.specs.Hex.{encode_lower};
ghost use Rattle.wire.specs.Private.RequestReading.{expect_of, version_of, digest_of, fetch_unless_of, set_if_of, request_by_verb, read_line as line_read};

use crate::Version;
use crate::head::{Head, has, head_of, put, put_expect};
use crate::line_frame::text_name;
use crate::request::{MAX_NAME, RequestForm};
use crate::word::{lone_name, read_number, split_name, split_word};
use map_core::{DIGEST_BYTES, DumpDigest, Expect};

/// `absent`, `none` or `unnumbered` for a bundle without a sequence, or a sequence.
#[tactic(auto, unfolding(crate::specs::Private::RequestReading::expect_of))]
pub(crate) fn read_expect(word: &[u8]) -> Option<Expect>
    ensures { result ≡ expect_of word.now }
{
    if word == b"absent".as_slice() {
        Some(Expect::Absent)
    } else if word == b"none".as_slice() || word == b"unnumbered".as_slice() {
        Some(Expect::Unnumbered)
    } else {
        Some(Expect::Sequence(read_number(word)?))
    }
}

/// A version, by its number.
#[tactic(auto, unfolding(crate::specs::Private::RequestReading::version_of))]
pub(crate) fn read_version(word: &[u8]) -> Option<Version>
    ensures { result ≡ version_of word.now }
{
    if word == b"1".as_slice() {
        Some(Version::One)
    } else if word == b"2".as_slice() {
        Some(Version::Two)
    } else if word == b"3".as_slice() {
        Some(Version::Three)
    } else {
        None
    }
}

#[tactic(auto, unfolding(crate::specs::Private::RequestReading::set_if_of))]
fn read_set_if(bytes: &[u8]) -> Option<RequestForm<'_>>
    ensures { MatchOption result (set_if_of bytes.now ≡ None) (λ form. set_if_of bytes.now ≡ Some (request form)) }
{
    let (name, bytes) = split_name(bytes)?;
    let (expect, document) = split_word(bytes)?;
    Some(RequestForm::SetIf(name, read_expect(expect)?, document))
}

/// The digest that a word writes.
#[tactic(auto, unfolding(crate::specs::Private::RequestReading::digest_of))]
fn read_digest(word: &[u8]) -> Option<DumpDigest>
    ensures { result ≡ digest_of word.now }
{
    let mut digest = [0; DIGEST_BYTES];
    hex::decode_to_slice(word, &mut digest).ok()?;
    if digest_word(&digest).as_slice() == word {
        Some(digest)
    } else {
        None
    }
}

/// The digest in lower-case hexadecimal digits.
fn digest_word(digest: &DumpDigest) -> [u8; 2 * DIGEST_BYTES]
    ensures { result ≡ encode_lower digest.now }
{
    let mut word = [0; 2 * DIGEST_BYTES];
    let _fits = hex::encode_to_slice(digest, &mut word);
    word
}

#[tactic(auto, unfolding(crate::specs::Private::RequestReading::fetch_unless_of))]
fn read_fetch_unless(bytes: &[u8]) -> Option<RequestForm<'_>>
    ensures { MatchOption result (fetch_unless_of bytes.now ≡ None) (λ form. fetch_unless_of bytes.now ≡ Some (request form)) }
{
    let (word, known) = split_word(bytes)?;
    if word == b"unless".as_slice() {
        Some(RequestForm::FetchUnless(read_digest(known)?))
    } else {
        None
    }
}

#[tactic(auto, unfolding(crate::specs::Private::RequestReading::request_by_verb))]
fn read_by_verb<'a>(verb: &[u8], rest: &'a [u8]) -> Option<RequestForm<'a>>
    ensures { MatchOption result (request_by_verb verb.now rest.now ≡ None) (λ form. request_by_verb verb.now rest.now ≡ Some (request form)) }
{
    if verb == b"set".as_slice() {
        let (name, document) = split_name(rest)?;
        Some(RequestForm::Set(name, document))
    } else if verb == b"get".as_slice() {
        Some(RequestForm::Get(lone_name(rest)?))
    } else if verb == b"append".as_slice() {
        let (name, jwk) = split_name(rest)?;
        Some(RequestForm::Append(name, jwk))
    } else if verb == b"remove".as_slice() {
        Some(RequestForm::Remove(lone_name(rest)?))
    } else if verb == b"setif".as_slice() {
        read_set_if(rest)
    } else if verb == b"fetch".as_slice() {
        read_fetch_unless(rest)
    } else if verb == b"version".as_slice() {
        Some(RequestForm::Speak(read_version(rest)?))
    } else {
        None
    }
}

#[tactic(auto, unfolding(crate::specs::Private::RequestReading::read_line))]
fn read_line(line: &[u8]) -> Option<RequestForm<'_>>
    ensures { MatchOption result (line_read line.now ≡ None) (λ form. line_read line.now ≡ Some (request form)) }
{
    match split_word(line) {
        Some((verb, rest)) => read_by_verb(verb, rest),
        None if line == b"fetch".as_slice() => Some(RequestForm::Fetch),
        None if line == b"stats".as_slice() => Some(RequestForm::Stats),
        None => None,
    }
}

/// The request of a line, without its line feed. None if the line is not a request.
pub fn request_of_line(line: &[u8]) -> Option<RequestForm<'_>>
    ensures found { IfSome result (λ form. Spells (request form) line.now × HasLine (request form)) }
    ensures only { (wanted : Request) → HasLine wanted → Spells wanted line.now → MatchOption result ⊥ (λ form. request form ≡ wanted) }
{
    read_line(line)
}

impl<'a> RequestForm<'a> {
    /// What stands before the text in the line of the request. None if it has no line: its name has over 255 bytes or a space,
    /// a line feed is in its name or in its text, or the text begins with `@`.
    pub fn line_head(&self) -> Option<Head>
        ensures { MatchOption result (IsLined (request self.now) → ⊥)
            (λ head. IsLined (request self.now) × (head.items ++ text_of (request self.now) ≡ line_of (request self.now))) }
    {
        match self {
            RequestForm::Set(name, document) => words_head(b"set ", name, b" ", document),
            RequestForm::SetIf(name, expect, document) => {
                words_head(b"setif ", name, expect_words(*expect).as_slice(), document)
            }
            RequestForm::Append(name, jwk) => words_head(b"append ", name, b" ", jwk),
            RequestForm::Remove(name) => words_head(b"remove ", name, &[], &[]),
            RequestForm::Get(name) => words_head(b"get ", name, &[], &[]),
            RequestForm::Fetch => Some(head_of(b"fetch")),
            RequestForm::Speak(Version::One) => Some(head_of(b"version 1")),
            RequestForm::FetchUnless(known) => Some(digest_words(known)),
            RequestForm::Stats => Some(head_of(b"stats")),
            RequestForm::Speak(Version::Two) => Some(head_of(b"version 2")),
            RequestForm::Speak(Version::Three) => Some(head_of(b"version 3")),
        }
    }
}

/// The line of a fetch with a digest that is known.
fn digest_words(known: &DumpDigest) -> Head
    ensures line { result.items ≡ codes "fetch" then codes "unless" then encode_lower known.now }
    ensures plain { IsOneLine result.items }
{
    let mut words = head_of(b"fetch unless ");
    put(&mut words, &digest_word(known));
    words
}

/// What stands before the text in a line of these parts.
fn words_head(verb: &[u8], name: &[u8], middle: &[u8], text: &[u8]) -> Option<Head>
    requires few { length verb.now + length middle.now ≤ 28 }
    requires plain { IsOneLine verb.now × IsOneLine middle.now }
    ensures { MatchOption result
        (IsNameWord name.now × IsOneLine (verb.now ++ (name.now ++ (middle.now ++ text.now))) × (is_text_name text.now ≡ false) → ⊥)
        (λ head. (IsNameWord name.now × IsOneLine (verb.now ++ (name.now ++ (middle.now ++ text.now))) × (is_text_name text.now ≡ false))
        × (head.items ++ text.now ≡ verb.now ++ (name.now ++ (middle.now ++ text.now)))) }
{
    if name.len() > MAX_NAME || has(name, b' ') || has(name, b'\n') || has(text, b'\n') {
        return None;
    }
    if text_name(text).is_some() {
        return None;
    }
    let mut head = head_of(verb);
    put(&mut head, name);
    put(&mut head, middle);
    Some(head)
}

/// The word of an expectation, with a space on each side.
fn expect_words(expect: Expect) -> Head
    ensures words { result.items ≡ 32 ∷ expect_word expect ++ 32 ∷ [] }
    ensures few { array_vec_len result ≤ 22 }
    ensures plain { IsOneLine result.items }
{
    let mut words = head_of(b" ");
    put_expect(&mut words, expect);
    put(&mut words, b" ");
    words
}
