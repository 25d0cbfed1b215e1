//! Answers, as a client takes them from replies.
ghost use Rattle.std.specs.Prelude.{◌≡◌, ◌⊎◌, ℕ, List, Option, IfOk, IfErr, IfSome};
ghost use Rattle.spiffe_doc.specs.Bundle.{IsBundle};
ghost use Rattle.spiffe_doc.specs.Text.{text_of};
ghost use Rattle.wire.specs.Frame.{IsPayload, frame};
ghost use Rattle.wire.specs.Answers.{answer_frames, refusal_form, error_form};
ghost use Rattle.wire.specs.ReplyForm.{Refused, reply as said};
ghost use Rattle.client.specs.Answer.{is_code_for as code_for, letter_of as request_letter};
ghost use Rattle.client.specs.Client.{Breaks};
ghost use Rattle.client.specs.Private.Answers.{refusal_of, error_of, found_of, first_of, Says, Begins};

use crate::ClientError;
use crate::reply_codes::is_answer_code;
use map_core::{AskError, MapRefusal, Op, Reply};
use spiffe_doc::{Bundle, DocError, read_document};
use std::alloc::{AllocError, Global};
use wire::{Detail, ReplyForm, is_error_code, reply_of_payload};

/// What the first reply to a request says.
#[derive(Drop)]
pub(crate) enum First {
    /// The whole reply of a map.
    Reply(Reply),
    Error(AskError),
    /// That so many bundles follow.
    Count(u64),
}

/// Whether a reply to the operation may have the code.
fn is_code_for(op: &Op, code: u8) -> bool
    ensures { result ≡ code_for op.now code }
{
    is_error_code(code) || is_answer_code(letter_of(op), code)
}

/// The letter of the request that says the operation.
fn letter_of(op: &Op) -> u8
    ensures { result ≡ request_letter op.now }
{
    match op {
        Op::Set(_, _) => b'S',
        Op::SetIf(_, _, _) => b'C',
        Op::Append(_, _) => b'A',
        Op::Remove(_) => b'R',
        Op::Get(_) => b'G',
        Op::FetchAll => b'F',
        Op::FetchUnless(_) => b'U',
    }
}

/// The refusal of a map that a number and what stands beside it tell.
#[tactic(auto, unfolding(crate::specs::Private::Answers::refusal_of))]
fn read_refusal(number: u8, detail: Detail) -> Option<MapRefusal>
    ensures value { result ≡ refusal_of number detail }
    ensures found { IfSome result (λ why. refusal_form why ≡ Refused number detail) }
{
    match (number, detail) {
        (30, Detail::Nothing) => Some(MapRefusal::NoDomain),
        (31, Detail::SequenceOf(sequence)) => Some(MapRefusal::Stale(sequence)),
        (32, Detail::Nothing) => Some(MapRefusal::KidTaken),
        (33, Detail::Nothing) => Some(MapRefusal::TooMany),
        (34, Detail::Nothing) => Some(MapRefusal::TooLong),
        (35, Detail::Nothing) => Some(MapRefusal::SequenceFull),
        (36, Detail::Expected(found)) => Some(MapRefusal::NotExpected(found)),
        _ => None,
    }
}

/// Why the operation was given up, if the reply says so.
#[tactic(auto, unfolding(crate::specs::Private::Answers::error_of))]
fn read_error(reply: &ReplyForm<'_>) -> Option<AskError>
    ensures value { result ≡ error_of (said reply.now) }
    ensures found { IfSome result (λ error. error_form error ≡ said reply.now) }
{
    match *reply {
        ReplyForm::Memory => Some(AskError::Memory),
        ReplyForm::Worn { shard } => Some(AskError::Worn {
            shard: shard as usize,
        }),
        ReplyForm::Moved {
            shard,
            first,
            second,
        } => Some(AskError::Moved {
            shard: shard as usize,
            first,
            second,
        }),
        ReplyForm::Held { shard, revision } => Some(AskError::Held {
            shard: shard as usize,
            revision,
        }),
        ReplyForm::Shut => Some(AskError::GateShut),
        _ => None,
    }
}

/// The bundle whose canonical text stands there.
#[tactic(auto, unfolding(crate::specs::Private::Answers::found_of))]
fn read_found(alloc: Global, bytes: &[u8]) -> Result<Option<Bundle>, AllocError>
    ensures value { IfOk result (λ found. found_of bytes.now ≡ found) }
    ensures found { IfOk result (λ found. IfSome found (λ bundle. (bytes.now ≡ text_of bundle) × IsBundle bundle)) }
{
    match read_document(alloc, bytes) {
        Ok(bundle) => {
            let _authorities = bundle.authorities();
            if bundle.text() == bytes {
                Ok(Some(bundle))
            } else {
                Ok(None)
            }
        }
        Err(DocError::Memory) => Err(AllocError),
        Err(_) => Ok(None),
    }
}

/// What a reply says, if it may be the first to a request.
#[tactic(auto, unfolding(crate::specs::Private::Answers::first_of))]
fn read_first(alloc: Global, reply: &ReplyForm<'_>) -> Result<Option<First>, AllocError>
    ensures value { IfOk result (λ told. first_of (said reply.now) ≡ told) }
    ensures found { IfOk result (λ told. IfSome told (λ first. Says first (said reply.now))) }
{
    match *reply {
        ReplyForm::Stored => Ok(Some(First::Reply(Reply::Stored))),
        ReplyForm::Unchanged => Ok(Some(First::Reply(Reply::Unchanged))),
        ReplyForm::Removed => Ok(Some(First::Reply(Reply::Removed))),
        ReplyForm::Appended(sequence) => Ok(Some(First::Reply(Reply::Appended(sequence)))),
        ReplyForm::Found(text) => Ok(read_found(alloc, text)?.map(Reply::Found).map(First::Reply)),
        ReplyForm::Refused(number, detail) => Ok(
            read_refusal(number, detail)
                .map(Reply::Refused)
                .map(First::Reply),
        ),
        ReplyForm::All(count) => Ok(Some(First::Count(count))),
        ReplyForm::Same => Ok(Some(First::Reply(Reply::Same))),
        ReplyForm::Bundle(_, _) | ReplyForm::Speaks(_) => Ok(None),
        _ => Ok(read_error(reply).map(First::Error)),
    }
}

/// What the payload of the first reply to the operation says.
pub(crate) fn judge_payload(alloc: Global, op: &Op, payload: &[u8]) -> Result<First, ClientError>
    requires payload { IsPayload payload.now }
    ensures ok { IfOk result (λ first. Begins op.now payload.now first) }
    ensures why { IfErr result (λ why. (why ≡ ClientError.BadReply) ⊎ (why ≡ ClientError.Memory)) }
    ensures err { IfErr result (λ why. (left : Option (List ℕ)) → Breaks op.now answer_frames why (frame payload.now) left) }
{
    if !is_code_for(op, payload[0]) {
        return Err(ClientError::BadReply);
    }
    let Some(reply) = reply_of_payload(payload) else {
        return Err(ClientError::BadReply);
    };
    let Some(first) = read_first(alloc, &reply)? else {
        return Err(ClientError::BadReply);
    };
    Ok(first)
}
