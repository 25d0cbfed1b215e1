//! What a map answers, as replies.
ghost use Rattle.std.specs.Prelude.{◌≡◌, Some};
ghost use Rattle.spiffe_doc.specs.Text.{text_of};
ghost use Rattle.wire.specs.Answers.{answer_form, reply_form, refusal_form, error_form, detail_of, shard_number as shard_of, request_refusal_form, place_detail as detail_of_place};
ghost use Rattle.wire.specs.ReplyForm.{reply, Appended, Found, Moved, Held, DetailFits, IsLined};

use crate::refusal::Refusal;
use crate::reply::{Detail, ReplyForm};
use map_core::{AskError, Expect, MapRefusal, Reply};
use spiffe_doc::Bundle;

impl<'a> ReplyForm<'a> {
    /// The reply that says an answer. It has a line. Of all bundles it says how many there are.
    pub fn of_answer(answer: &'a Result<Reply, AskError>) -> ReplyForm<'a>
        ensures form { reply result ≡ answer_form answer.now }
        ensures lined { IsLined (reply result) }
    {
        match answer {
            Ok(reply) => ReplyForm::of_reply(reply),
            Err(error) => ReplyForm::of_error(error),
        }
    }

    /// The same of a reply of a map.
    pub fn of_reply(said: &'a Reply) -> ReplyForm<'a>
        ensures form { reply result ≡ reply_form said.now }
        ensures lined { IsLined (reply result) }
    {
        match said {
            Reply::Stored => ReplyForm::Stored,
            Reply::Unchanged => ReplyForm::Unchanged,
            Reply::Removed => ReplyForm::Removed,
            Reply::Appended(None) => ReplyForm::Appended(None),
            Reply::Appended(Some(sequence)) => appended(*sequence),
            Reply::Found(bundle) => found(bundle),
            Reply::All(snapshot) => ReplyForm::All(snapshot.len() as u64),
            Reply::Same => ReplyForm::Same,
            Reply::Refused(refusal) => ReplyForm::of_refusal(refusal),
        }
    }

    /// The reply to a payload that is refused.
    pub fn of_request_refusal(refusal: Refusal) -> ReplyForm<'a>
        ensures { reply result ≡ request_refusal_form refusal }
    {
        match refusal {
            Refusal::Memory => ReplyForm::Memory,
            _ => ReplyForm::Refused(refusal.number(), place_detail(refusal.place())),
        }
    }

    /// The same of a refusal of a map.
    pub fn of_refusal(refusal: &MapRefusal) -> ReplyForm<'a>
        ensures form { reply result ≡ refusal_form refusal.now }
        ensures lined { IsLined (reply result) }
    {
        ReplyForm::Refused(refusal.number(), refusal_detail(refusal))
    }

    /// The same of an error of whoever is asked.
    pub fn of_error(error: &AskError) -> ReplyForm<'a>
        ensures form { reply result ≡ error_form error.now }
        ensures lined { IsLined (reply result) }
    {
        match *error {
            AskError::Memory => ReplyForm::Memory,
            AskError::Worn { shard } => ReplyForm::Worn {
                shard: shard_number(shard),
            },
            AskError::Moved {
                shard,
                first,
                second,
            } => moved(shard_number(shard), first, second),
            AskError::Held { shard, revision } => held(shard_number(shard), revision),
            AskError::GateShut => ReplyForm::Shut,
        }
    }
}

fn appended<'a>(sequence: u64) -> ReplyForm<'a>
    ensures form { reply result ≡ Appended (Some sequence) }
    ensures lined { IsLined (reply result) }
{
    ReplyForm::Appended(Some(sequence))
}

fn found(bundle: &Bundle) -> ReplyForm<'_>
    ensures form { reply result ≡ Found (text_of bundle.now) }
    ensures lined { IsLined (reply result) }
{
    // They are those of a valid bundle, so no line feed is in its text.
    let _authorities = bundle.authorities();
    ReplyForm::Found(bundle.text())
}

fn moved<'a>(shard: u32, first: u64, second: u64) -> ReplyForm<'a>
    ensures form { reply result ≡ Moved shard first second }
    ensures lined { IsLined (reply result) }
{
    ReplyForm::Moved {
        shard,
        first,
        second,
    }
}

fn held<'a>(shard: u32, revision: u64) -> ReplyForm<'a>
    ensures form { reply result ≡ Held shard revision }
    ensures lined { IsLined (reply result) }
{
    ReplyForm::Held { shard, revision }
}

fn refusal_detail(refusal: &MapRefusal) -> Detail
    ensures is { result ≡ detail_of refusal.now }
    ensures fits { DetailFits result }
{
    match *refusal {
        MapRefusal::Stale(sequence) => stored(sequence),
        MapRefusal::NotExpected(Expect::Sequence(sequence)) => found_sequence(sequence),
        MapRefusal::NotExpected(found) => Detail::Expected(found),
        _ => Detail::Nothing,
    }
}

/// The sequence that is stored.
fn stored(sequence: u64) -> Detail
    ensures is { result ≡ Detail.SequenceOf sequence }
    ensures fits { DetailFits result }
{
    Detail::SequenceOf(sequence)
}

/// A bundle of this sequence was found.
fn found_sequence(sequence: u64) -> Detail
    ensures is { result ≡ Detail.Expected (Expect.Sequence sequence) }
    ensures fits { DetailFits result }
{
    Detail::Expected(Expect::Sequence(sequence))
}

fn place_detail(place: Option<usize>) -> Detail
    ensures { result ≡ detail_of_place place }
{
    match place {
        Some(place) => Detail::Place(shard_number(place)),
        None => Detail::Nothing,
    }
}

/// A shard or a place as 4 bytes hold it.
fn shard_number(shard: usize) -> u32
    ensures { result ≡ shard_of shard }
{
    shard.min(0xffff_ffff) as u32
}
