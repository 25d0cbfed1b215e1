//! Replies, read from the payloads of frames and written as frames.
ghost use Rattle.std.specs.Prelude.{◌≡◌, ◌+◌, ◌≤◌, ◌∷◌, ◌++◌, [], length, false, None, Some, Option, MatchOption, IfSome};
ghost use Rattle.arrayvec.specs.ArrayVec.{array_vec_len};
ghost use Rattle.wire.specs.Frame.{frame};
ghost use Rattle.wire.specs.ReplyForm.{Reply, Moved, Held, reply, text_of, payload_of, HasPayload, detail_bytes as bytes_of_detail, is_bundle};
ghost use Rattle.wire.specs.Private.ReplyReading.{short_number, long_number, sequence_in, expect_in, detail_in, split_at as parts_at, moved_in, held_in, error_by_number, reply_by_letter, read_payload as payload_read};

use crate::field::{Field, expect_bytes, field_of, sequence_bytes};
use crate::reply::{Detail, Kind, ReplyForm, is_error_code, kind_of};
use crate::request::payload::{read_version, split_named};
use arrayvec::ArrayVec;
use map_core::Expect;

/// A length, a code, and at most 20 bytes of numbers.
pub const FRONT_BYTES: usize = 25;

/// What stands before the text in the frame of a reply.
pub type ReplyFront = ArrayVec<u8, FRONT_BYTES>;

/// A number of 4 bytes, and nothing more.
#[tactic(auto, unfolding(crate::specs::Private::ReplyReading::short_number))]
fn read_short(bytes: &[u8]) -> Option<u32>
    ensures { result ≡ short_number bytes.now }
{
    let [a, b, c, d] = bytes else {
        return None;
    };
    Some(u32::from_be_bytes([*a, *b, *c, *d]))
}

/// A number of 8 bytes, and nothing more.
#[tactic(auto, unfolding(crate::specs::Private::ReplyReading::long_number))]
fn read_long(bytes: &[u8]) -> Option<u64>
    ensures { result ≡ long_number bytes.now }
{
    let [a, b, c, d, e, f, g, h] = bytes else {
        return None;
    };
    Some(u64::from_be_bytes([*a, *b, *c, *d, *e, *f, *g, *h]))
}

/// 0, or 1 and a sequence.
#[tactic(auto, unfolding(crate::specs::Private::ReplyReading::sequence_in))]
fn read_sequence(bytes: &[u8]) -> Option<Option<u64>>
    ensures { result ≡ sequence_in bytes.now }
{
    match bytes {
        [0] => Some(None),
        [1, number @ ..] => Some(Some(read_long(number)?)),
        _ => None,
    }
}

/// 0, or 1 and a sequence, or 2.
#[tactic(auto, unfolding(crate::specs::Private::ReplyReading::expect_in))]
fn read_expect(bytes: &[u8]) -> Option<Expect>
    ensures { result ≡ expect_in bytes.now }
{
    match bytes {
        [0] => Some(Expect::Absent),
        [1, number @ ..] => Some(Expect::Sequence(read_long(number)?)),
        [2] => Some(Expect::Unnumbered),
        _ => None,
    }
}

#[tactic(auto, unfolding(crate::specs::Private::ReplyReading::detail_in))]
fn read_detail(kind: Kind, bytes: &[u8]) -> Option<Detail>
    ensures { result ≡ detail_in kind bytes.now }
{
    match kind {
        Kind::Bare if bytes.is_empty() => Some(Detail::Nothing),
        Kind::Bare => None,
        Kind::OfPlace => Some(Detail::Place(read_short(bytes)?)),
        Kind::OfSequence => Some(Detail::SequenceOf(read_long(bytes)?)),
        Kind::OfExpect => Some(Detail::Expected(read_expect(bytes)?)),
    }
}

/// So many bytes, and those after them. None if there are fewer.
#[tactic(auto, unfolding(crate::specs::Private::ReplyReading::split_at))]
fn split_at(bytes: &[u8], size: usize) -> Option<(&[u8], &[u8])>
    ensures { MatchOption result (parts_at size bytes.now ≡ None) (λ parts. parts_at size bytes.now ≡ Some (parts.0.now, parts.1.now)) }
{
    if bytes.len() < size {
        return None;
    }
    Some(bytes.split_at(size))
}

#[tactic(auto, unfolding(crate::specs::Private::ReplyReading::moved_in))]
fn read_moved(bytes: &[u8]) -> Option<ReplyForm<'_>>
    ensures { MatchOption result (moved_in bytes.now ≡ None) (λ form. moved_in bytes.now ≡ Some (reply form)) }
{
    let (shard, bytes) = split_at(bytes, 4)?;
    let (first, second) = split_at(bytes, 8)?;
    Some(ReplyForm::Moved {
        shard: read_short(shard)?,
        first: read_long(first)?,
        second: read_long(second)?,
    })
}

#[tactic(auto, unfolding(crate::specs::Private::ReplyReading::held_in))]
fn read_held(bytes: &[u8]) -> Option<ReplyForm<'_>>
    ensures { MatchOption result (held_in bytes.now ≡ None) (λ form. held_in bytes.now ≡ Some (reply form)) }
{
    let (shard, revision) = split_at(bytes, 4)?;
    Some(ReplyForm::Held {
        shard: read_short(shard)?,
        revision: read_long(revision)?,
    })
}

/// A reply that says that the operation was given up.
#[tactic(auto, unfolding(crate::specs::Private::ReplyReading::error_by_number))]
fn read_error(number: u8, bytes: &[u8]) -> Option<ReplyForm<'_>>
    ensures { MatchOption result (error_by_number number bytes.now ≡ None) (λ form. error_by_number number bytes.now ≡ Some (reply form)) }
{
    match (number, bytes) {
        (22, []) => Some(ReplyForm::Memory),
        (40, _) => Some(ReplyForm::Worn {
            shard: read_short(bytes)?,
        }),
        (41, _) => read_moved(bytes),
        (42, _) => read_held(bytes),
        (56, []) => Some(ReplyForm::Shut),
        _ => None,
    }
}

#[tactic(auto, unfolding(crate::specs::Private::ReplyReading::reply_by_letter))]
fn read_by_letter(letter: u8, bytes: &[u8]) -> Option<ReplyForm<'_>>
    ensures { MatchOption result (reply_by_letter letter bytes.now ≡ None) (λ form. reply_by_letter letter bytes.now ≡ Some (reply form)) }
{
    match (letter, bytes) {
        (b'f', _) => Some(ReplyForm::Found(bytes)),
        (b's', []) => Some(ReplyForm::Stored),
        (b'u', []) => Some(ReplyForm::Unchanged),
        (b'd', []) => Some(ReplyForm::Removed),
        (b'p', _) => Some(ReplyForm::Appended(read_sequence(bytes)?)),
        (b'a', _) => Some(ReplyForm::All(read_long(bytes)?)),
        (b'i', _) => {
            let (name, text) = split_named(bytes)?;
            Some(ReplyForm::Bundle(name, text))
        }
        (b'e', []) => Some(ReplyForm::Same),
        (b'm', _) => Some(ReplyForm::Counts(bytes)),
        (b'v', _) => Some(ReplyForm::Speaks(read_version(bytes)?)),
        _ => None,
    }
}

#[tactic(auto, unfolding(crate::specs::Private::ReplyReading::read_payload))]
fn read_payload(payload: &[u8]) -> Option<ReplyForm<'_>>
    ensures { MatchOption result (payload_read payload.now ≡ None) (λ form. payload_read payload.now ≡ Some (reply form)) }
{
    let (code, bytes) = payload.split_first()?;
    match kind_of(*code) {
        Some(kind) => Some(ReplyForm::Refused(*code, read_detail(kind, bytes)?)),
        None if is_error_code(*code) => read_error(*code, bytes),
        None => read_by_letter(*code, bytes),
    }
}

/// The reply of the payload of a frame. None if the payload is not a reply.
pub fn reply_of_payload(payload: &[u8]) -> Option<ReplyForm<'_>>
    ensures found { IfSome result (λ form. (payload.now ≡ payload_of (reply form)) × HasPayload (reply form)) }
    ensures only { (wanted : Reply) → HasPayload wanted → payload.now ≡ payload_of wanted → MatchOption result ⊥ (λ form. reply form ≡ wanted) }
{
    read_payload(payload)
}

impl<'a> ReplyForm<'a> {
    /// What stands before the text in the frame of a reply that is no bundle's under a name.
    pub fn frame_front(&self) -> ReplyFront
        requires alone { is_bundle (reply self.now) ≡ false }
        requires short { length (text_of (reply self.now)) ≤ 1048576 }
        ensures whole { result.items ++ text_of (reply self.now) ≡ frame (payload_of (reply self.now)) }
        ensures long { 5 ≤ length result.items }
    {
        match self {
            ReplyForm::Stored => front_of(b's', &[]),
            ReplyForm::Unchanged => front_of(b'u', &[]),
            ReplyForm::Removed => front_of(b'd', &[]),
            ReplyForm::Appended(sequence) => front_of(b'p', sequence_bytes(*sequence).as_slice()),
            ReplyForm::Found(text) => found_front(text),
            ReplyForm::Counts(text) => counts_front(text),
            ReplyForm::Bundle(_, _) => unreachable!(),
            ReplyForm::All(count) => front_of(b'a', &count.to_be_bytes()),
            ReplyForm::Speaks(version) => front_of(b'v', &[version.number()]),
            ReplyForm::Refused(number, detail) => front_of(
                *number,
                detail_bytes(*detail).as_slice(),
            ),
            ReplyForm::Moved {
                shard,
                first,
                second,
            } => moved_front(*shard, *first, *second),
            ReplyForm::Held { shard, revision } => held_front(*shard, *revision),
            ReplyForm::Worn { shard } => front_of(40, &shard.to_be_bytes()),
            ReplyForm::Same => front_of(b'e', &[]),
            ReplyForm::Memory => front_of(22, &[]),
            ReplyForm::Shut => front_of(56, &[]),
        }
    }
}

/// A frame of a code and a few numbers.
fn front_of(code: u8, numbers: &[u8]) -> ReplyFront
    requires { length numbers.now ≤ 20 }
    ensures whole { result.items ≡ frame (code ∷ numbers.now) }
    ensures long { 5 ≤ length result.items }
{
    let mut front = ArrayVec::new();
    let size = (numbers.len() + 1) as u32;
    put(&mut front, &size.to_be_bytes());
    put(&mut front, &[code]);
    put(&mut front, numbers);
    front
}

/// The frame of a code, a shard and two revisions.
fn moved_front(shard: u32, first: u64, second: u64) -> ReplyFront
    ensures whole { result.items ≡ frame (payload_of (Moved shard first second)) }
    ensures long { 5 ≤ length result.items }
{
    let mut numbers = ReplyFront::new();
    put(&mut numbers, &shard.to_be_bytes());
    put(&mut numbers, &first.to_be_bytes());
    put(&mut numbers, &second.to_be_bytes());
    front_of(41, numbers.as_slice())
}

/// The frame of a code, a shard and its revision.
fn held_front(shard: u32, revision: u64) -> ReplyFront
    ensures whole { result.items ≡ frame (payload_of (Held shard revision)) }
    ensures long { 5 ≤ length result.items }
{
    let mut numbers = ReplyFront::new();
    put(&mut numbers, &shard.to_be_bytes());
    put(&mut numbers, &revision.to_be_bytes());
    front_of(42, numbers.as_slice())
}

/// What stands before the text of a bundle that was found: the length, and the code.
pub fn found_front(text: &[u8]) -> ReplyFront
    requires short { length text.now ≤ 1048576 }
    ensures whole { result.items ++ text.now ≡ frame (102 ∷ text.now) }
    ensures long { length result.items ≡ 5 }
{
    text_front(b'f', text)
}

/// The same of counts.
pub fn counts_front(text: &[u8]) -> ReplyFront
    requires short { length text.now ≤ 1048576 }
    ensures whole { result.items ++ text.now ≡ frame (109 ∷ text.now) }
    ensures long { length result.items ≡ 5 }
{
    text_front(b'm', text)
}

/// What stands before a text that follows a code.
fn text_front(code: u8, text: &[u8]) -> ReplyFront
    requires short { length text.now ≤ 1048576 }
    ensures whole { result.items ++ text.now ≡ frame (code ∷ text.now) }
    ensures long { length result.items ≡ 5 }
{
    let mut front = ArrayVec::new();
    let size = (text.len() + 1) as u32;
    put(&mut front, &size.to_be_bytes());
    put(&mut front, &[code]);
    front
}

fn put(front: &mut ReplyFront, more: &[u8])
    requires { array_vec_len front.old + length more.now ≤ 25 }
    ensures { front.new.items ≡ front.old.items ++ more.now }
{
    let _fits = front.try_extend_from_slice(more);
}

/// What a refusal says beside its number.
fn detail_bytes(detail: Detail) -> Field
    ensures value { result.items ≡ bytes_of_detail detail }
    ensures few { array_vec_len result ≤ 9 }
{
    match detail {
        Detail::Nothing => Field::new(),
        Detail::Place(place) => field_of(&place.to_be_bytes()),
        Detail::SequenceOf(sequence) => field_of(&sequence.to_be_bytes()),
        Detail::Expected(expect) => expect_bytes(expect),
    }
}
