//! Replies: an answer as bytes. What they need of memory is held before any of them is written.
ghost use Rattle.std.specs.Prelude.{◌≡◌, ◌≤◌, ◌++◌, [], length, false};
ghost use Rattle.wire.specs.Answers.{refusal_frame, version_frame, code_of, is_error_reply, GoesOut};
ghost use Rattle.wire.specs.ReplyForm.{is_bundle, payload_of, reply, text_of};
ghost use Rattle.wire.specs.Frame.{frame};
ghost use Rattle.frame_front.specs.Private.Storage.{body_text};
ghost use Rattle.frame_front.specs.Session.{shut_frame};

use map_core::{AskError, Reply, Snapshot};
use spiffe_doc::Bundle;
use std::marker::Model;
use wire::{Refusal, ReplyForm, ReplyFront, Version, is_error_code};

/// The code of a reply stands after its length.
const CODE_PLACE: usize = 4;

/// What follows the first bytes of a reply.
#[derive(Drop)]
pub(crate) enum Body {
    Empty,
    /// The canonical text of a bundle, as the bundle keeps it.
    Canonical(Bundle),
    /// A frame for each domain, made as it is written.
    All(Snapshot),
}

/// The bytes of a reply, made without memory. Bundles stand in it as they are, so no reply is ever one great buffer.
#[derive(Drop)]
pub(crate) struct ReplyBytes {
    front: ReplyFront,
    body: Body,
}

impl Model for ReplyBytes {
    ghost use Rattle.std.specs.Prelude.{ℕ, List, ◌++◌, ◌≤◌, length};
    ghost use Rattle.frame_front.specs.Private.Storage.{body_text};

    ghost Value = { List ℕ };

    ghost view = { λ text. text.front.items ++ body_text text.body };

    ghost invariant = { λ text. 5 ≤ length text.front.items };
}

impl ReplyBytes {
    /// Gives the first bytes, and what follows them.
    pub(crate) fn into_parts(self) -> (ReplyFront, Body)
        ensures whole { result.0.items ++ body_text result.1 ≡ self }
        ensures long { 5 ≤ length result.0.items }
    {
        let ReplyBytes { front, body } = self;
        (front, body)
    }

    /// The code: its first byte after the length.
    pub(crate) fn code(&self) -> u8
        ensures { result ≡ code_of self.now }
    {
        self.front.as_slice()[CODE_PLACE]
    }

    /// Whether it is the number of an error of whoever was asked.
    pub(crate) fn is_error(&self) -> bool
        ensures { result ≡ is_error_reply self.now }
    {
        is_error_code(self.code())
    }

    /// A reply without a text.
    fn short(form: &ReplyForm<'_>) -> ReplyBytes
        requires alone { is_bundle (reply form.now) ≡ false }
        requires none { text_of (reply form.now) ≡ [] }
        ensures { result ≡ frame (payload_of (reply form.now)) }
    {
        ReplyBytes {
            front: form.frame_front(),
            body: Body::Empty,
        }
    }
}

/// The reply to a payload that is refused.
pub(crate) fn refusal_reply(refusal: Refusal) -> ReplyBytes
    ensures { result ≡ refusal_frame refusal }
{
    ReplyBytes::short(&ReplyForm::of_request_refusal(refusal))
}

/// The reply to a payload that sets the version.
pub(crate) fn version_reply(version: Version) -> ReplyBytes
    ensures { result ≡ version_frame version }
{
    ReplyBytes::short(&ReplyForm::Speaks(version))
}

/// The reply to a payload that is turned away.
pub(crate) fn shut_reply() -> ReplyBytes
    ensures { result ≡ shut_frame }
{
    ReplyBytes::short(&ReplyForm::Shut)
}

/// The answer as it goes out.
pub(crate) fn answer_reply(answer: Result<Reply, AskError>) -> ReplyBytes
    ensures { GoesOut answer result }
{
    let front = ReplyForm::of_answer(&answer).frame_front();
    let body = match answer {
        Ok(Reply::Found(bundle)) => Body::Canonical(bundle),
        Ok(Reply::All(snapshot)) => Body::All(snapshot),
        _ => Body::Empty,
    };
    ReplyBytes { front, body }
}
