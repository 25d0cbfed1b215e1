//! Requests, read from the payloads of frames and written as frames.
ghost use Rattle.std.specs.Prelude.{◌≡◌, ◌+◌, ◌<◌, ◌≤◌, ◌∷◌, ◌++◌, length, None, Some, Option, MatchOption, IfSome};
ghost use Rattle.arrayvec.specs.ArrayVec.{array_vec_len};
ghost use Rattle.wire.specs.Frame.{frame, most_payload};
ghost use Rattle.wire.specs.RequestForm.{Request, request, text_of, named, payload_of, HasPayload, IsFramed};
ghost use Rattle.wire.specs.PayloadReading.{split_named as named_split, lone_named as named_alone, split_expect as expect_split, set_if_in, version_in, digest_in, read_payload as payload_read};

use crate::Version;
use crate::field::expect_bytes;
use crate::frame::MAX_PAYLOAD;
use crate::head::{Head, head_of, put};
use crate::request::{MAX_NAME, RequestForm};
use map_core::{DIGEST_BYTES, DumpDigest, Expect};

/// The bytes of a name, after a byte that says how many, and what follows them.
#[tactic(auto, unfolding(crate::specs::PayloadReading::split_named))]
pub(crate) fn split_named(bytes: &[u8]) -> Option<(&[u8], &[u8])>
    ensures { MatchOption result (named_split bytes.now ≡ None) (λ parts. named_split bytes.now ≡ Some (parts.0.now, parts.1.now)) }
{
    let (size, bytes) = bytes.split_first()?;
    let size = *size as usize;
    if bytes.len() < size {
        return None;
    }
    Some(bytes.split_at(size))
}

/// A name and nothing after it.
#[tactic(auto, unfolding(crate::specs::PayloadReading::lone_named))]
fn lone_named(bytes: &[u8]) -> Option<&[u8]>
    ensures { MatchOption result (named_alone bytes.now ≡ None) (λ name. named_alone bytes.now ≡ Some name.now) }
{
    let (name, rest) = split_named(bytes)?;
    if rest.is_empty() { Some(name) } else { None }
}

/// An expectation, and what follows it.
#[tactic(auto, unfolding(crate::specs::PayloadReading::split_expect))]
fn split_expect(bytes: &[u8]) -> Option<(Expect, &[u8])>
    ensures { MatchOption result (expect_split bytes.now ≡ None) (λ parts. expect_split bytes.now ≡ Some (parts.0, parts.1.now)) }
{
    match bytes {
        [0, rest @ ..] => Some((Expect::Absent, rest)),
        [1, a, b, c, d, e, f, g, h, rest @ ..] => {
            let sequence = u64::from_be_bytes([*a, *b, *c, *d, *e, *f, *g, *h]);
            Some((Expect::Sequence(sequence), rest))
        }
        [2, rest @ ..] => Some((Expect::Unnumbered, rest)),
        _ => None,
    }
}

/// A version, and nothing after it.
#[tactic(auto, unfolding(crate::specs::PayloadReading::version_in))]
pub(crate) fn read_version(bytes: &[u8]) -> Option<Version>
    ensures { result ≡ version_in bytes.now }
{
    match bytes {
        [1] => Some(Version::One),
        [2] => Some(Version::Two),
        [3] => Some(Version::Three),
        _ => None,
    }
}

/// A digest, and nothing after it.
#[tactic(auto, unfolding(crate::specs::PayloadReading::digest_in))]
fn read_digest(bytes: &[u8]) -> Option<DumpDigest>
    ensures { result ≡ digest_in bytes.now }
{
    if bytes.len() != DIGEST_BYTES {
        return None;
    }
    let mut digest = [0; DIGEST_BYTES];
    digest.copy_from_slice(bytes);
    Some(digest)
}

#[tactic(auto, unfolding(crate::specs::PayloadReading::set_if_in))]
fn read_set_if(bytes: &[u8]) -> Option<RequestForm<'_>>
    ensures { MatchOption result (set_if_in bytes.now ≡ None) (λ form. set_if_in bytes.now ≡ Some (request form)) }
{
    let (name, bytes) = split_named(bytes)?;
    let (expect, document) = split_expect(bytes)?;
    Some(RequestForm::SetIf(name, expect, document))
}

#[tactic(auto, unfolding(crate::specs::PayloadReading::request_by_letter, crate::specs::PayloadReading::read_payload))]
fn read_payload(payload: &[u8]) -> Option<RequestForm<'_>>
    ensures { MatchOption result (payload_read payload.now ≡ None) (λ form. payload_read payload.now ≡ Some (request form)) }
{
    match payload {
        [b'S', bytes @ ..] => {
            let (name, document) = split_named(bytes)?;
            Some(RequestForm::Set(name, document))
        }
        [b'A', bytes @ ..] => {
            let (name, jwk) = split_named(bytes)?;
            Some(RequestForm::Append(name, jwk))
        }
        [b'R', bytes @ ..] => Some(RequestForm::Remove(lone_named(bytes)?)),
        [b'G', bytes @ ..] => Some(RequestForm::Get(lone_named(bytes)?)),
        b"F" => Some(RequestForm::Fetch),
        [b'U', bytes @ ..] => Some(RequestForm::FetchUnless(read_digest(bytes)?)),
        b"M" => Some(RequestForm::Stats),
        [b'V', bytes @ ..] => Some(RequestForm::Speak(read_version(bytes)?)),
        [b'C', bytes @ ..] => read_set_if(bytes),
        _ => None,
    }
}

/// The request of a payload. None if the payload is not a request. Neither its name nor its document is judged.
pub fn request_of_payload(payload: &[u8]) -> Option<RequestForm<'_>>
    ensures reads { MatchOption result (payload_read payload.now ≡ None) (λ form. payload_read payload.now ≡ Some (request form)) }
    ensures found { IfSome result (λ form. (payload.now ≡ payload_of (request form)) × HasPayload (request form)) }
    ensures only { (wanted : Request) → HasPayload wanted → payload.now ≡ payload_of wanted → MatchOption result ⊥ (λ form. request form ≡ wanted) }
{
    read_payload(payload)
}

impl<'a> RequestForm<'a> {
    /// What stands before the text in the frame of the request. None if no frame carries it: its name has over 255 bytes, or its
    /// payload over 1,049,000.
    pub fn frame_head(&self) -> Option<Head>
        ensures few { IfSome result (λ head. array_vec_len head ≤ 270) }
        ensures head { MatchOption result (IsFramed (request self.now) → ⊥)
            (λ head. IsFramed (request self.now) × (head.items ++ text_of (request self.now) ≡ frame (payload_of (request self.now)))) }
    {
        match self {
            RequestForm::Set(name, document) => named_head(b'S', name, &[], document),
            RequestForm::SetIf(name, expect, document) => {
                named_head(b'C', name, expect_bytes(*expect).as_slice(), document)
            }
            RequestForm::Append(name, jwk) => named_head(b'A', name, &[], jwk),
            RequestForm::Remove(name) => named_head(b'R', name, &[], &[]),
            RequestForm::Get(name) => named_head(b'G', name, &[], &[]),
            RequestForm::Fetch => Some(head_of(&[0, 0, 0, 1, b'F'])),
            RequestForm::FetchUnless(known) => Some(digest_head(known)),
            RequestForm::Stats => Some(head_of(&[0, 0, 0, 1, b'M'])),
            RequestForm::Speak(version) => Some(head_of(&[0, 0, 0, 2, b'V', version.number()])),
        }
    }
}

/// The frame of a fetch with a digest that is known.
fn digest_head(known: &DumpDigest) -> Head
    ensures few { array_vec_len result ≤ 270 }
    ensures whole { result.items ≡ frame (85 ∷ known.now) }
    ensures long { length known.now ≡ 32 }
{
    let mut head = head_of(&[0, 0, 0, 33, b'U']);
    put(&mut head, known);
    head
}

/// What stands before the text in the frame of a payload: a letter, a name, what is in the middle, and the text.
fn named_head(letter: u8, name: &[u8], middle: &[u8], text: &[u8]) -> Option<Head>
    requires few { length middle.now ≤ 9 }
    ensures few { IfSome result (λ head. array_vec_len head ≤ 270) }
    ensures head { MatchOption result
        ((length name.now < 256) × (length (letter ∷ named name.now ++ (middle.now ++ text.now)) ≤ most_payload) → ⊥)
        (λ head. ((length name.now < 256) × (length (letter ∷ named name.now ++ (middle.now ++ text.now)) ≤ most_payload))
        × (head.items ++ text.now ≡ frame (letter ∷ named name.now ++ (middle.now ++ text.now)))) }
{
    if name.len() > MAX_NAME {
        return None;
    }
    let size = text.len().checked_add(2 + name.len() + middle.len())?;
    if size > MAX_PAYLOAD {
        return None;
    }
    let mut head = head_of(&(size as u32).to_be_bytes());
    put(&mut head, &[letter, name.len() as u8]);
    put(&mut head, name);
    put(&mut head, middle);
    Some(head)
}
