//! Payloads answered, and the replies to them until they are sent.
ghost use Rattle.std.specs.Prelude.{◌≡◌, ◌+◌, ◌≤◌, ◌++◌, ℕ, List, [], Ok, Result, OnOk, OnErr, length};
ghost use Rattle.frame_front.specs.Live.{most_part};
ghost use Rattle.wire.specs.Judge.{judged, request_of};
ghost use Rattle.wire.specs.Answers.{counts_frame, is_error_reply};
ghost use Rattle.wire.specs.RequestForm.{Get, IsOneLine, request};
ghost use Rattle.wire.specs.declared.judge.Judged.TheVariants.{TellCounts};
ghost use Rattle.frame_front.specs.Session.{Answers, AnswersRead, shut_frame};
ghost use Rattle.frame_front.specs.Terms.{begun};
ghost use Rattle.frame_front.specs.Private.Pending.{AnswersLater, AnswersNow, reply_left};

use crate::pending::{PendingReply, store_both};
use crate::reply::{ReplyBytes, answer_reply, refusal_reply, shut_reply, version_reply};
use crate::terms::{Terms, letter_of};
use bytes::BytesMut;
use map_core::{Ask, Viewer};
use spiffe_doc::{Bundle, DocumentReader, Memory};
use std::alloc::Global;
use wire::{
    Judged, Refusal, RequestForm, canonical_text, counts_front, found_front, read_name,
    request_of_payload,
};

/// The most bytes of counts.
const MOST_COUNTS: usize = 65_536;

/// The replies that are ready to be sent. The bundle that a get finds is stored among them where it is shown.
#[derive(Drop)]
pub(crate) struct ReplyBuffer {
    pub(crate) bytes: BytesMut,
}

impl Viewer for ReplyBuffer {
    ghost use Rattle.frame_front.specs.Private.Pending.{stores_found};

    ghost noted = { λ ready. ready.bytes.items };

    ghost notes = { stores_found };

    fn see(&mut self, bundle: &Bundle) -> Result<(), Memory> {
        let text = canonical_text(bundle);
        let front = found_front(text);
        store_both(&mut self.bytes, front.as_slice(), text)
    }
}

/// What a session answers in: its terms, the replies that are ready to be sent, and what is left to store of the last one.
#[derive(Drop)]
pub(crate) struct Replies {
    pub(crate) alloc: Global,
    pub(crate) terms: Terms,
    pub(crate) ready: ReplyBuffer,
    pub(crate) pending: PendingReply,
    /// How many payloads were turned away. It stays at 2^64 - 1 once there.
    pub(crate) turned_away: u64,
}

impl Replies {
    /// Nothing was answered yet, to a session that may only read, or do all.
    pub(crate) fn new(alloc: Global, reads_only: bool) -> Replies
        ensures terms { result.terms ≡ begun reads_only }
        ensures ready { result.ready.bytes.items ≡ [] }
        ensures pending { reply_left result.pending ≡ [] }
    {
        Replies {
            alloc,
            terms: Terms::begun(reads_only),
            ready: ReplyBuffer {
                bytes: BytesMut::new(alloc),
            },
            pending: PendingReply::nothing(),
            turned_away: 0,
        }
    }

    /// Answers a payload, and says whether the reply is that whoever was asked gave an error, or one that reads the same. The
    /// reply comes after what is ready; what is left to store of it is pending.
    #[inline(always)]
    pub(crate) fn answer<A: Ask>(
        &mut self,
        documents: &mut DocumentReader,
        ask: &mut A,
        payload: &[u8],
    ) -> bool
        requires { reply_left self.old.pending ≡ [] }
        ensures answers { AnswersLater (λ text. Answers A.answers (self.old.terms, ask.old) payload.now text (self.new.terms, ask.new)) result self.old.ready.bytes.items self.new.ready.bytes.items (reply_left self.new.pending) }
        ensures few { length self.new.ready.bytes.items ≤ length self.old.ready.bytes.items + most_part }
    {
        if self.terms.turns_away(payload) {
            self.turn_away(ask, payload)
        } else {
            self.answer_read(documents, ask, payload)
        }
    }

    /// Turns a payload away.
    #[inline(never)]
    fn turn_away<A: Ask>(&mut self, ask: &A, payload: &[u8]) -> bool
        ensures answers { AnswersLater (λ text. text ≡ shut_frame) result self.old.ready.bytes.items self.new.ready.bytes.items (reply_left self.new.pending) }
        ensures terms { self.new.terms ≡ self.old.terms }
        ensures ready { self.new.ready.bytes.items ≡ self.old.ready.bytes.items }
    {
        self.turned_away = self.turned_away.saturating_add(1);
        let reply = shut_reply();
        ask.answered(letter_of(payload), reply.code());
        self.wait(reply)
    }

    /// Answers a payload that is not turned away.
    #[inline(always)]
    #[tactic(auto, unfolding(wire::specs::Judge::request_of))]
    fn answer_read<A: Ask>(
        &mut self,
        documents: &mut DocumentReader,
        ask: &mut A,
        payload: &[u8],
    ) -> bool
        requires { reply_left self.old.pending ≡ [] }
        ensures answers { AnswersLater (λ text. AnswersRead A.answers (request_of self.old.terms.version payload.now) (self.old.terms, ask.old) text (self.new.terms, ask.new)) result self.old.ready.bytes.items self.new.ready.bytes.items (reply_left self.new.pending) }
        ensures few { length self.new.ready.bytes.items ≤ length self.old.ready.bytes.items + most_part }
    {
        let reply = match request_of_payload(payload) {
            Some(RequestForm::Get(name)) => self.show_get(ask, name),
            Some(form) => self.answer_form(documents, ask, &form),
            None => Some(refusal_reply(Refusal::BadRequest)),
        };
        let Some(reply) = reply else {
            return false;
        };
        ask.answered(letter_of(payload), reply.code());
        self.wait(reply)
    }

    /// All of the reply is left to store. Says whether it is that whoever was asked gave an error.
    fn wait(&mut self, reply: ReplyBytes) -> bool
        ensures left { reply_left self.new.pending ≡ reply }
        ensures long { 5 ≤ length reply }
        ensures tells { result ≡ is_error_reply reply }
        ensures terms { self.new.terms ≡ self.old.terms }
        ensures ready { self.new.ready ≡ self.old.ready }
    {
        let is_error = reply.is_error();
        self.pending = PendingReply::of(reply);
        is_error
    }

    /// Answers a get of a name, by itself since most requests are gets. The answer is the reply, but for a bundle that was shown:
    /// that is stored already.
    #[tactic(auto, unfolding(wire::specs::Judge::judged))]
    fn show_get<A: Ask>(&mut self, ask: &mut A, name: &[u8]) -> Option<ReplyBytes>
        ensures answers { AnswersNow A.answers result (self.old.terms, ask.old) (judged self.old.terms.version (Get name.now)) (self.new.terms, ask.new) self.old.ready.bytes.items self.new.ready.bytes.items }
        ensures pending { self.new.pending ≡ self.old.pending }
    {
        let domain = match read_name(self.alloc, name) {
            Ok(domain) => domain,
            Err(refusal) => return Some(refusal_reply(refusal)),
        };
        match ask.show_get(domain, &mut self.ready) {
            Ok(None) => {
                ask.answered(b'G', b'f');
                None
            }
            Ok(Some(reply)) => Some(answer_reply(Ok(reply))),
            Err(error) => Some(answer_reply(Err(error))),
        }
    }

    /// Answers a request of any kind. Out of line, so that a get pays for no other request. The answer is the reply, but for counts: they
    /// are stored already.
    #[inline(never)]
    fn answer_form<A: Ask>(
        &mut self,
        documents: &mut DocumentReader,
        ask: &mut A,
        form: &RequestForm<'_>,
    ) -> Option<ReplyBytes>
        ensures answers { AnswersNow A.answers result (self.old.terms, ask.old) (judged self.old.terms.version (request form.now)) (self.new.terms, ask.new) self.old.ready.bytes.items self.new.ready.bytes.items }
        ensures pending { self.new.pending ≡ self.old.pending }
    {
        match form.judge(self.alloc, documents, self.terms.version) {
            Ok(Judged::Ask(op)) => Some(answer_reply(ask.ask(op))),
            Ok(Judged::SetVersion(wanted)) => {
                self.terms.version = wanted;
                Some(version_reply(wanted))
            }
            Ok(Judged::TellCounts) => self.tell_counts(ask),
            Err(refusal) => Some(refusal_reply(refusal)),
        }
    }

    /// Tells what whoever is asked has counted: that is stored after what is ready. The answer is that memory ran out, if it did.
    fn tell_counts<A: Ask>(&mut self, ask: &A) -> Option<ReplyBytes>
        ensures answers { (read : Result Judged Refusal) → read ≡ Ok TellCounts
            → AnswersNow A.answers result (self.old.terms, ask.now) read (self.new.terms, ask.now) self.old.ready.bytes.items self.new.ready.bytes.items }
        ensures pending { self.new.pending ≡ self.old.pending }
        ensures terms { self.new.terms ≡ self.old.terms }
    {
        match store_counts(self.alloc, &mut self.ready.bytes, ask) {
            Ok(()) => {
                ask.answered(b'M', b'm');
                None
            }
            Err(_) => Some(refusal_reply(Refusal::Memory)),
        }
    }
}

/// Stores what whoever is asked has counted after what is ready. If memory is refused, nothing has changed.
fn store_counts<A: Ask>(alloc: Global, ready: &mut BytesMut, ask: &A) -> Result<(), Memory>
    ensures ok { OnOk result ((counts : List ℕ) × IsOneLine counts × (length counts ≤ 1048576) × (ready.new.items ≡ ready.old.items ++ counts_frame counts)) }
    ensures err { OnErr result (ready.new.items ≡ ready.old.items) }
{
    let counts = ask.counts(alloc)?;
    let text = one_line(counts.as_slice());
    let front = counts_front(text);
    store_both(ready, front.as_slice(), text)
}

/// The bytes, if they are one line that a reply has room for; else none.
fn one_line(bytes: &[u8]) -> &[u8]
    ensures line { IsOneLine result.now }
    ensures short { length result.now ≤ 1048576 }
{
    if bytes.len() > MOST_COUNTS || bytes.contains(&b'\n') {
        &[]
    } else {
        bytes
    }
}
