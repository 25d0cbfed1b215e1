//! Replies, written as lines.
ghost use Rattle.std.specs.Prelude.{◌≡◌, ◌+◌, ◌≤◌, ◌++◌, List, ℕ, codes, length, decimal, MatchOption};
ghost use Rattle.arrayvec.specs.ArrayVec.{array_vec_len};
ghost use Rattle.wire.specs.RequestForm.{IsNameWord, IsOneLine, ◌then◌};
ghost use Rattle.wire.specs.ReplyForm.{reply, text_of, line_of, refusal_words, HasLine, IsLined, IsRefusal};

use crate::Version;
use crate::head::{Head, has, head_of, put, put_expect, put_number};
use crate::reply::{Detail, Kind, ReplyForm, kind_of};

impl<'a> ReplyForm<'a> {
    /// What stands before the text in the line of the reply. None if it has no line: no refusal of its number has its detail,
    /// its name has over 255 bytes or a space, or a line feed is in its name or in its text.
    pub fn line_head(&self) -> Option<Head>
        ensures { MatchOption result (IsLined (reply self.now) → ⊥)
            (λ head. IsLined (reply self.now) × (head.items ++ text_of (reply self.now) ≡ line_of (reply self.now))) }
    {
        let head = self.words()?;
        if has(head.as_slice(), b'\n') || has(self.text(), b'\n') {
            return None;
        }
        Some(head)
    }

    /// What stands before the text, whatever bytes the name and the text have.
    fn words(&self) -> Option<Head>
        ensures { MatchOption result (HasLine (reply self.now) → ⊥)
            (λ head. HasLine (reply self.now) × (head.items ++ text_of (reply self.now) ≡ line_of (reply self.now))) }
    {
        match self {
            ReplyForm::Stored => Some(head_of(b"stored")),
            ReplyForm::Unchanged => Some(head_of(b"unchanged")),
            ReplyForm::Removed => Some(head_of(b"removed")),
            ReplyForm::Appended(None) => Some(head_of(b"appended -")),
            ReplyForm::Appended(Some(sequence)) => Some(number_words(b"appended ", *sequence)),
            ReplyForm::Found(_) => Some(head_of(b"found ")),
            ReplyForm::Counts(_) => Some(head_of(b"stats ")),
            ReplyForm::All(count) => Some(number_words(b"all ", *count)),
            ReplyForm::Bundle(name, _) => bundle_words(name),
            ReplyForm::Same => Some(head_of(b"same")),
            ReplyForm::Speaks(Version::One) => Some(head_of(b"version 1")),
            ReplyForm::Speaks(Version::Two) => Some(head_of(b"version 2")),
            ReplyForm::Speaks(Version::Three) => Some(head_of(b"version 3")),
            ReplyForm::Refused(number, detail) => refused_words(*number, *detail),
            ReplyForm::Moved {
                shard,
                first,
                second,
            } => {
                let mut head = number_words(b"moved ", u64::from(*shard));
                put_next(&mut head, *first);
                put_next(&mut head, *second);
                Some(head)
            }
            ReplyForm::Held { shard, revision } => {
                let mut head = number_words(b"held ", u64::from(*shard));
                put_next(&mut head, *revision);
                Some(head)
            }
            ReplyForm::Worn { shard } => Some(number_words(b"worn ", u64::from(*shard))),
            ReplyForm::Memory => Some(head_of(b"memory")),
            ReplyForm::Shut => Some(head_of(b"shut")),
        }
    }
}

/// A verb and a number.
fn number_words(verb: &[u8], number: u64) -> Head
    requires { length verb.now ≤ 20 }
    ensures items { result.items ≡ verb.now ++ decimal number }
    ensures few { array_vec_len result ≤ length verb.now + 20 }
{
    let mut head = head_of(verb);
    put_number(&mut head, number);
    head
}

/// Puts a space and the number.
fn put_next(head: &mut Head, number: u64)
    requires { array_vec_len head.old ≤ 100 }
    ensures items { head.new.items ≡ head.old.items then decimal number }
    ensures few { array_vec_len head.new ≤ array_vec_len head.old + 21 }
{
    put(head, b" ");
    put_number(head, number);
}

fn bundle_words(name: &[u8]) -> Option<Head>
    ensures { MatchOption result (IsNameWord name.now → ⊥)
        (λ head. IsNameWord name.now × ((text : List ℕ) → head.items ++ text ≡ codes "bundle" then name.now then text)) }
{
    if name.len() > 255 || has(name, b' ') {
        return None;
    }
    let mut head = head_of(b"bundle ");
    put(&mut head, name);
    put(&mut head, b" ");
    Some(head)
}

fn refused_words(number: u8, detail: Detail) -> Option<Head>
    ensures { MatchOption result (IsRefusal number detail → ⊥)
        (λ head. IsRefusal number detail × (head.items ≡ codes "refused" then refusal_words number detail)) }
{
    let mut head = number_words(b"refused ", u64::from(number));
    match (kind_of(number)?, detail) {
        (Kind::Bare, Detail::Nothing) => {}
        (Kind::OfPlace, Detail::Place(place)) => put_next(&mut head, u64::from(place)),
        (Kind::OfSequence, Detail::SequenceOf(sequence)) => put_next(&mut head, sequence),
        (Kind::OfExpect, Detail::Expected(expect)) => {
            put(&mut head, b" ");
            put_expect(&mut head, expect);
        }
        _ => return None,
    }
    Some(head)
}
