//! Storing a reply for sending, part by part.
ghost use Rattle.std.specs.Prelude.{◌≡◌, ◌≢◌, ◌⊎◌, ◌+◌, ◌<◌, ◌≤◌, ◌++◌, [], length, true, false, OnOk, OnErr, IfErr};
ghost use Rattle.std.specs.Io.KnownBytes.{Appends};
ghost use Rattle.spiffe_doc.specs.Text.{text_of};
ghost use Rattle.wire.specs.Answers.{item_frame};
ghost use Rattle.wire.specs.Counted.{end_in, faults_in, next_count};
ghost use Rattle.frame_front.specs.Live.{most_part, most_ready, reply_limit};
ghost use Rattle.wire.specs.Output.{WritesFront};
ghost use Rattle.frame_front.specs.Private.Gathered.{Takes};
ghost use Rattle.frame_front.specs.Private.Pending.{HasNoText, body_left, domains_left, reply_left, items_left};

use crate::reply::{Body, ReplyBytes};
use bytes::BytesMut;
use spiffe_doc::{Bundle, TrustDomain};
use std::alloc::AllocError;
use std::io::Write;
use wire::{
    Counted, FrontError, LENGTH_BYTES, ReplyFront, canonical_text, item_front, write_both,
    write_flushed, write_whole,
};

/// With so many bytes ready, no further part of a reply is stored.
pub(crate) const REPLY_LIMIT: usize = 196_608;

/// What is left to store of a reply: its first bytes, what follows them, and how many of its domains are stored.
#[derive(Drop)]
pub(crate) struct PendingReply {
    head: ReplyFront,
    body: Body,
    stored: usize,
}

impl PendingReply {
    /// Nothing is left.
    pub(crate) fn nothing() -> PendingReply
        ensures { reply_left result ≡ [] }
    {
        PendingReply {
            head: ReplyFront::new(),
            body: Body::Empty,
            stored: 0,
        }
    }

    /// All of the reply is left.
    pub(crate) fn of(reply: ReplyBytes) -> PendingReply
        ensures whole { reply_left result ≡ reply }
        ensures long { 5 ≤ length (reply_left result) }
    {
        let (head, body) = reply.into_parts();
        PendingReply {
            head,
            body,
            stored: 0,
        }
    }

    /// Whether nothing is left, as after most gets.
    fn is_nothing(&self) -> bool
        ensures { result ≡ true → reply_left self.now ≡ [] }
    {
        self.head.is_empty() && matches!(&self.body, Body::Empty)
    }

    /// Stores part after part until all are stored or as many bytes are ready as may wait. If memory is refused,
    /// the rest is still left.
    pub(crate) fn store(&mut self, ready: &mut BytesMut) -> Result<(), AllocError>
        ensures moved { ready.new.items ++ reply_left self.new ≡ ready.old.items ++ reply_left self.old }
        ensures ok { OnOk result ((reply_left self.new ≡ []) ⊎ (reply_limit ≤ length ready.new.items)) }
        ensures err { OnErr result (reply_left self.new ≢ []) }
        ensures few { length ready.old.items ≤ most_ready → length ready.new.items ≤ most_ready }
    {
        if self.is_nothing() || ready.len() >= REPLY_LIMIT {
            return Ok(());
        }
        self.store_front(ready)?;
        self.store_items(ready)?;
        if !self.has_more() {
            *self = PendingReply::nothing();
        }
        Ok(())
    }

    /// Whether some of the first bytes are left.
    fn has_front(&self) -> bool
        ensures some { result ≡ true → 0 < length self.now.head.items }
        ensures none { result ≡ false → self.now.head.items ≡ [] }
    {
        !self.head.is_empty()
    }

    /// Whether a part is left. What is stored whole is held no longer, so it is also whether bundles are held for a reply.
    pub(crate) fn has_more(&self) -> bool
        ensures some { result ≡ true → reply_left self.now ≢ [] }
        ensures none { result ≡ false → reply_left self.now ≡ [] }
    {
        if self.has_front() {
            return true;
        }
        match &self.body {
            Body::Empty => false,
            Body::Canonical(bundle) => !canonical_text(bundle).is_empty(),
            Body::All(snapshot) => self.stored < snapshot.pairs().len(),
        }
    }

    /// Stores the first bytes and the text.
    fn store_front(&mut self, ready: &mut BytesMut) -> Result<(), AllocError>
        ensures moved { ready.new.items ++ reply_left self.new ≡ ready.old.items ++ reply_left self.old }
        ensures ok { OnOk result ((self.new.head.items ≡ []) × HasNoText self.new.body) }
        ensures err { OnErr result (reply_left self.new ≢ []) }
        ensures few { length ready.new.items ≤ length ready.old.items + most_part }
    {
        store_both(ready, self.head.as_slice(), self.text())?;
        self.head.clear();
        if let Body::Canonical(_) = &self.body {
            self.body = Body::Empty;
        }
        Ok(())
    }

    /// The text that is left, if one is.
    fn text(&self) -> &[u8]
        ensures left { body_left self.now.body self.now.stored ≡ result.now ++ domains_left self.now }
        ensures short { length result.now ≤ 1048576 }
    {
        match &self.body {
            Body::Canonical(bundle) => canonical_text(bundle),
            _ => &[],
        }
    }

    /// Writes what is ready and then all that is left, and sees that the writer keeps nothing back. The room of what is ready
    /// gathers what is left for few writes; a part that has no room there is written from where it is kept, so this needs no
    /// memory.
    pub(crate) fn write<W: Write>(
        &mut self,
        ready: &mut BytesMut,
        writer: &mut Counted<W>,
    ) -> Result<(), FrontError>
        ensures ok { OnOk result (Appends (W.contents (end_in writer.old)) (W.contents (end_in writer.new)) (ready.old.items ++ reply_left self.old)) }
        ensures none { OnOk result ((ready.new.items ≡ []) × (reply_left self.new ≡ [])) }
        ensures few { length ready.old.items ≤ most_ready → length ready.new.items ≤ most_ready }
        ensures quiet { OnOk result (faults_in writer.new ≡ faults_in writer.old) }
        ensures fault { IfErr result (λ fault. (fault ≡ FrontError.WriteFault) × (faults_in writer.new ≡ next_count (faults_in writer.old))) }
        ensures front { WritesFront (W.contents (end_in writer.old)) (W.contents (end_in writer.new)) (ready.old.items ++ reply_left self.old) }
    {
        put(ready, writer, self.head.as_slice(), self.text())?;
        self.put_domains(ready, writer)?;
        *self = PendingReply::nothing();
        write_flushed(writer, ready.as_slice())?;
        ready.clear();
        Ok(())
    }

    /// Puts the frames of the domains that are left behind what is ready, as `put` does.
    fn put_domains<W: Write>(
        &self,
        ready: &mut BytesMut,
        writer: &mut Counted<W>,
    ) -> Result<(), FrontError>
        ensures ok { OnOk result (Takes (W.contents (end_in writer.old)) (W.contents (end_in writer.new)) ready.old.items (domains_left self.now) ready.new.items) }
        ensures few { length ready.old.items ≤ most_ready → length ready.new.items ≤ most_ready }
        ensures quiet { OnOk result (faults_in writer.new ≡ faults_in writer.old) }
        ensures fault { IfErr result (λ fault. (fault ≡ FrontError.WriteFault) × (faults_in writer.new ≡ next_count (faults_in writer.old))) }
        ensures front { WritesFront (W.contents (end_in writer.old)) (W.contents (end_in writer.new)) (ready.old.items ++ domains_left self.now) }
    {
        match &self.body {
            Body::All(snapshot) => put_pairs(ready, writer, snapshot.pairs(), self.stored),
            _ => Ok(()),
        }
    }

    /// Stores the frames of domains.
    fn store_items(&mut self, ready: &mut BytesMut) -> Result<(), AllocError>
        requires front { (self.old.head.items ≡ []) × HasNoText self.old.body }
        ensures moved { ready.new.items ++ reply_left self.new ≡ ready.old.items ++ reply_left self.old }
        ensures ok { OnOk result ((reply_left self.new ≡ []) ⊎ (reply_limit ≤ length ready.new.items)) }
        ensures err { OnErr result (reply_left self.new ≢ []) }
        ensures few { length ready.old.items ≤ most_ready → length ready.new.items ≤ most_ready }
    {
        match &self.body {
            Body::All(snapshot) => store_pairs(ready, snapshot.pairs(), &mut self.stored),
            _ => Ok(()),
        }
    }
}

/// Stores the frames of the domains that are not stored, until all are or as many bytes are ready as may wait.
fn store_pairs(
    ready: &mut BytesMut,
    pairs: &[(TrustDomain, Bundle)],
    stored: &mut usize,
) -> Result<(), AllocError>
    ensures moved { ready.new.items ++ items_left pairs.now stored.new ≡ ready.old.items ++ items_left pairs.now stored.old }
    ensures ok { OnOk result ((length pairs.now ≤ stored.new) ⊎ (reply_limit ≤ length ready.new.items)) }
    ensures err { OnErr result (stored.new < length pairs.now) }
    ensures few { length ready.old.items ≤ most_ready → length ready.new.items ≤ most_ready }
{
    while *stored < pairs.len() && ready.len() < REPLY_LIMIT {
        store_pair(ready, &pairs[*stored])?;
        *stored += 1;
    }
    Ok(())
}

/// Stores the frame of a domain.
#[inline(never)]
fn store_pair(ready: &mut BytesMut, item: &(TrustDomain, Bundle)) -> Result<(), AllocError>
    ensures ok { OnOk result (ready.new.items ≡ ready.old.items ++ item_frame item.now) }
    ensures err { OnErr result (ready.new.items ≡ ready.old.items) }
    ensures few { length ready.new.items ≤ length ready.old.items + most_part }
{
    let (domain, bundle) = item;
    let name = domain.as_str().as_bytes();
    let text = canonical_text(bundle);
    let size = 2 + name.len() + text.len();
    ready.reserve(LENGTH_BYTES + size)?;
    ready.extend_reserved(&(size as u32).to_be_bytes());
    ready.extend_reserved(&[b'i', name.len() as u8]);
    ready.extend_reserved(name);
    ready.extend_reserved(text);
    Ok(())
}

/// Puts the frames of the domains, but for those that are stored, behind what is ready.
fn put_pairs<W: Write>(
    ready: &mut BytesMut,
    writer: &mut Counted<W>,
    pairs: &[(TrustDomain, Bundle)],
    stored: usize,
) -> Result<(), FrontError>
    ensures ok { OnOk result (Takes (W.contents (end_in writer.old)) (W.contents (end_in writer.new)) ready.old.items (items_left pairs.now stored) ready.new.items) }
    ensures few { length ready.old.items ≤ most_ready → length ready.new.items ≤ most_ready }
    ensures quiet { OnOk result (faults_in writer.new ≡ faults_in writer.old) }
    ensures fault { IfErr result (λ fault. (fault ≡ FrontError.WriteFault) × (faults_in writer.new ≡ next_count (faults_in writer.old))) }
    ensures front { WritesFront (W.contents (end_in writer.old)) (W.contents (end_in writer.new)) (ready.old.items ++ items_left pairs.now stored) }
{
    let mut place = stored;
    while place < pairs.len() {
        let (domain, bundle) = &pairs[place];
        let front = item_front(domain, bundle);
        put(ready, writer, front.as_slice(), canonical_text(bundle))?;
        place += 1;
    }
    Ok(())
}

/// Puts two parts behind what is ready, if there is room for them. If not, what is ready is written first, and parts for which
/// there is no room then are written after it.
fn put<W: Write>(
    ready: &mut BytesMut,
    writer: &mut Counted<W>,
    first: &[u8],
    others: &[u8],
) -> Result<(), FrontError>
    ensures ok { OnOk result (Takes (W.contents (end_in writer.old)) (W.contents (end_in writer.new)) ready.old.items (first.now ++ others.now) ready.new.items) }
    ensures few { length ready.old.items ≤ most_ready → length ready.new.items ≤ most_ready }
    ensures quiet { OnOk result (faults_in writer.new ≡ faults_in writer.old) }
    ensures fault { IfErr result (λ fault. (fault ≡ FrontError.WriteFault) × (faults_in writer.new ≡ next_count (faults_in writer.old))) }
    ensures front { WritesFront (W.contents (end_in writer.old)) (W.contents (end_in writer.new)) (ready.old.items ++ (first.now ++ others.now)) }
{
    if put_fitting(ready, first, others) {
        return Ok(());
    }
    write_whole(writer, ready.as_slice())?;
    ready.clear();
    if put_fitting(ready, first, others) {
        return Ok(());
    }
    write_both(writer, first, others)
}

/// Puts two parts behind what is ready, if there is room for both without more memory.
fn put_fitting(ready: &mut BytesMut, first: &[u8], others: &[u8]) -> bool
    ensures put { result ≡ true → ready.new.items ≡ ready.old.items ++ (first.now ++ others.now) }
    ensures same { result ≡ false → ready.new.items ≡ ready.old.items }
    ensures few { length ready.old.items ≤ most_ready → length ready.new.items ≤ most_ready }
{
    let size = first.len().saturating_add(others.len());
    let room = ready
        .capacity()
        .min(REPLY_LIMIT)
        .saturating_sub(ready.len());
    if room < size || ready.reserve(size).is_err() {
        return false;
    }
    ready.extend_reserved(first);
    ready.extend_reserved(others);
    true
}

/// Stores two parts together.
#[inline(always)]
pub(crate) fn store_both(
    ready: &mut BytesMut,
    first: &[u8],
    others: &[u8],
) -> Result<(), AllocError>
    requires few { length first.now + length others.now ≤ most_part }
    ensures ok { OnOk result (ready.new.items ≡ ready.old.items ++ (first.now ++ others.now)) }
    ensures err { OnErr result (ready.new.items ≡ ready.old.items) }
    ensures some { OnErr result (0 < length (first.now ++ others.now)) }
    ensures few { length ready.new.items ≤ length ready.old.items + most_part }
{
    ready.reserve(first.len() + others.len())?;
    ready.extend_reserved(first);
    ready.extend_reserved(others);
    Ok(())
}
