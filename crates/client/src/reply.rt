//! What replies are to a client.
ghost use Rattle.std.specs.Prelude.{◌≡◌, ◌≢◌, ◌∷◌, [], ◌⊎◌, ◌≤◌, true, false};
ghost use Rattle.wire.specs.Frame.{IsPayload};
ghost use Rattle.wire.specs.ReplyForm.{payload_of, reply as said};
ghost use Rattle.wire.specs.Fields.{version_number};
ghost use Rattle.client.specs.Asking.{letter_of};
ghost use Rattle.client.specs.declared.reply.Due.TheVariants.{AnswerTo};
ghost use Rattle.client.specs.Replies.{bundles_after as bundles_of, comes_at as comes, is_bundle as bundle, is_text as text_alone, is_transient as again, is_refusal as refusal};

use crate::reply_codes::may_come;
use wire::{ReplyForm, Version};

/// Where a reply comes.
#[derive(Clone, Copy)]
pub enum Due {
    /// It answers a request of this letter.
    AnswerTo(u8),
    /// It is one of all bundles, behind their number.
    OneOfAll,
}

/// Whether the reply may come there. Its payload begins with its code.
pub(crate) fn comes_at(due: Due, reply: &ReplyForm<'_>, payload: &[u8]) -> bool
    requires payload { payload.now ≡ payload_of (said reply.now) }
    requires good { IsPayload payload.now }
    ensures { result ≡ comes due (said reply.now) }
{
    match due {
        Due::AnswerTo(letter) => may_come(letter, payload[0]),
        Due::OneOfAll => is_bundle(reply),
    }
}

/// Where the reply to a request comes: its letter stands behind the four bytes of its length.
pub(crate) fn due_to(request: &[u8]) -> Due
    ensures { result ≡ AnswerTo (letter_of request.now) }
{
    match request.get(4) {
        Some(letter) => Due::AnswerTo(*letter),
        None => Due::AnswerTo(0),
    }
}

/// After such a reply the request is asked again.
fn is_transient(reply: &ReplyForm<'_>) -> bool
    ensures { result ≡ again (said reply.now) }
{
    matches!(
        reply,
        ReplyForm::Memory | ReplyForm::Moved { .. } | ReplyForm::Held { .. }
    )
}

/// Whether the request is asked again, if it may be so often still.
pub(crate) fn is_asked_again(left: u32, reply: &ReplyForm<'_>) -> bool
    ensures yes { result ≡ true → (1 ≤ left) × (again (said reply.now) ≡ true) }
    ensures no { result ≡ false → (left ≡ 0) ⊎ (again (said reply.now) ≡ false) }
{
    left > 0 && is_transient(reply)
}

/// Whether the request was not done.
pub(crate) fn is_refusal(reply: &ReplyForm<'_>) -> bool
    ensures { result ≡ refusal (said reply.now) }
{
    matches!(
        reply,
        ReplyForm::Refused(_, _)
            | ReplyForm::Moved { .. }
            | ReplyForm::Held { .. }
            | ReplyForm::Worn { .. }
            | ReplyForm::Memory
            | ReplyForm::Shut
    )
}

/// How many bundles follow.
pub(crate) fn bundles_after(reply: &ReplyForm<'_>) -> u64
    ensures { result ≡ bundles_of (said reply.now) }
{
    match reply {
        ReplyForm::All(count) => *count,
        _ => 0,
    }
}

fn is_bundle(reply: &ReplyForm<'_>) -> bool
    ensures { result ≡ bundle (said reply.now) }
{
    matches!(reply, ReplyForm::Bundle(_, _))
}

/// Whether the reply is all text: the bundle that was asked for, or counts.
pub(crate) fn is_text(reply: &ReplyForm<'_>) -> bool
    ensures { result ≡ text_alone (said reply.now) }
{
    matches!(reply, ReplyForm::Found(_) | ReplyForm::Counts(_))
}

/// Whether the payload is that of the reply that the version is set.
pub(crate) fn is_version(payload: &[u8], version: Version) -> bool
    ensures yes { result ≡ true → payload.now ≡ 118 ∷ version_number version ∷ [] }
    ensures no { result ≡ false → payload.now ≢ 118 ∷ version_number version ∷ [] }
{
    payload == [b'v', version.number()].as_slice()
}
