//! Requests, as they are written.
ghost use Rattle.std.specs.Prelude.{◌≡◌, ◌⊎◌, ◌<◌, ◌≤◌, ◌++◌, true, false, length, Ok, None, OnOk, IfOk, IfErr, IfSome};
ghost use Rattle.std.specs.Io.KnownBytes.{Appends};
ghost use Rattle.std.specs.Cow.{cow_slice_items};
ghost use Rattle.wire.specs.Counted.{end_in, faults_in, next_count};
ghost use Rattle.wire.specs.RequestForm.{request, FetchUnless, IsFramed};
ghost use Rattle.wire.specs.Output.{WritesFront};
ghost use Rattle.client.specs.Request.{request_bytes, request_form as form_of, is_append, is_written as can_be_written, version_for as version_of, IsUnwritable};
ghost use Rattle.client.specs.Private.Requests.{document_part};

use map_core::{DumpDigest, Op};
use spiffe_doc::{TrustDomain, write_entry};
use std::alloc::{AllocError, Global};
use std::borrow::CowSlice;
use std::io::Write;
use thiserror::Error;
use wire::head::{Head, head_of, put};
use wire::{Counted, FrontError, RequestForm, Version, canonical_text, write_both};

/// Why a request was not written, or not whole.
#[derive(Clone, Copy, Debug, PartialEq, Eq, Error)]
pub enum RequestError {
    /// There was no memory for the text of the authority that is appended.
    #[error("out of memory")]
    Memory,
    #[error("the text of the authority has more than 1048576 bytes")]
    TooLong,
    #[error("the writer failed")]
    WriteFault,
}

/// The longest document that a request may end with.
const MAX_DOCUMENT: usize = 1_048_576;

/// Writes the request for an operation, and sees that the writer keeps nothing back. If the
/// operation needs a version of the session that is not the first, the request that sets it comes before.
///
/// Nothing is written of an append whose authority has a text of over 1,048,576 bytes, or for whose text
/// there is no memory. If the writer fails, a front of the request may be written.
pub fn write_request<W: Write>(
    alloc: Global,
    writer: &mut Counted<W>,
    op: &Op,
) -> Result<(), RequestError>
    ensures ok { OnOk result (Appends (W.contents (end_in writer.old)) (W.contents (end_in writer.new)) (request_bytes op.now)) }
    ensures written { OnOk result (can_be_written op.now ≡ true) }
    ensures quiet { OnOk result (faults_in writer.new ≡ faults_in writer.old) }
    ensures why { IfErr result (λ why. (IsUnwritable op.now why × (writer.new ≡ writer.old))
        ⊎ ((why ≡ RequestError.WriteFault) × (faults_in writer.new ≡ next_count (faults_in writer.old)))) }
    ensures front { WritesFront (W.contents (end_in writer.old)) (W.contents (end_in writer.new)) (request_bytes op.now) }
{
    let document = match request_document(alloc, op) {
        Ok(Some(document)) => document,
        Ok(None) => return Err(RequestError::TooLong),
        Err(AllocError) => return Err(RequestError::Memory),
    };
    match send_request(writer, op, document.as_slice()) {
        Ok(()) => Ok(()),
        Err(_) => Err(RequestError::WriteFault),
    }
}

/// The document at the end of a request: lent by the operation, or written for an append. None if it is
/// too long.
pub(crate) fn request_document<'a>(
    alloc: Global,
    op: &'a Op,
) -> Result<Option<CowSlice<'a, u8>>, AllocError>
    ensures some { IfOk result (λ told. IfSome told (λ document. (cow_slice_items document ≡ document_part op.now)
        × (length (document_part op.now) ≤ 1048576) × (can_be_written op.now ≡ true))) }
    ensures none { result ≡ Ok None → can_be_written op.now ≡ false }
    ensures memory { IfErr result (λ _. is_append op.now ≡ true) }
{
    match op {
        Op::Set(_, bundle) | Op::SetIf(_, _, bundle) => {
            Ok(Some(CowSlice::Borrowed(canonical_text(bundle))))
        }
        Op::Append(_, authority) => {
            let text = write_entry(alloc, authority)?;
            if text.len() > MAX_DOCUMENT {
                return Ok(None);
            }
            Ok(Some(CowSlice::Owned(text)))
        }
        Op::Remove(_) | Op::Get(_) | Op::FetchAll | Op::FetchUnless(_) => {
            Ok(Some(CowSlice::Borrowed(&[])))
        }
    }
}

/// Writes the request for an operation that ends with the document, and flushes.
pub(crate) fn send_request<W: Write>(
    writer: &mut Counted<W>,
    op: &Op,
    document: &[u8],
) -> Result<(), FrontError>
    requires document { document.now ≡ document_part op.now }
    requires short { length document.now ≤ 1048576 }
    ensures ok { OnOk result (Appends (W.contents (end_in writer.old)) (W.contents (end_in writer.new)) (request_bytes op.now)) }
    ensures quiet { OnOk result (faults_in writer.new ≡ faults_in writer.old) }
    ensures fault { IfErr result (λ fault. (fault ≡ FrontError.WriteFault) × (faults_in writer.new ≡ next_count (faults_in writer.old))) }
    ensures front { WritesFront (W.contents (end_in writer.old)) (W.contents (end_in writer.new)) (request_bytes op.now) }
{
    let head = request_head(op, document);
    write_both(writer, head.as_slice(), document)?;
    match writer.flush() {
        Ok(()) => Ok(()),
        Err(_) => Err(FrontError::WriteFault),
    }
}

/// The request that says an operation, whose document is the text. A frame may carry it.
fn request_form<'a>(op: &'a Op, text: &'a [u8]) -> RequestForm<'a>
    requires document { text.now ≡ document_part op.now }
    requires short { length text.now ≤ 1048576 }
    ensures form { request result ≡ form_of op.now }
    ensures framed { IsFramed (request result) }
{
    match op {
        Op::Set(domain, _) => RequestForm::Set(name_of(domain), text),
        Op::SetIf(domain, expect, _) => RequestForm::SetIf(name_of(domain), *expect, text),
        Op::Append(domain, _) => RequestForm::Append(name_of(domain), text),
        Op::Remove(domain) => RequestForm::Remove(name_of(domain)),
        Op::Get(domain) => RequestForm::Get(name_of(domain)),
        Op::FetchAll => RequestForm::Fetch,
        Op::FetchUnless(known) => fetch_unless(known),
    }
}

fn fetch_unless<'a>(known: &DumpDigest) -> RequestForm<'a>
    ensures form { request result ≡ FetchUnless known.now }
    ensures framed { IsFramed (request result) }
{
    RequestForm::FetchUnless(*known)
}

/// The version of the session that the operation needs, if it is not the first.
pub(crate) fn version_for(op: &Op) -> Option<Version>
    ensures { result ≡ version_of op.now }
{
    match op {
        Op::SetIf(_, _, _) => Some(Version::Two),
        Op::FetchUnless(_) => Some(Version::Three),
        _ => None,
    }
}

fn name_of(domain: &TrustDomain) -> &[u8]
    ensures name { result.now ≡ domain.now }
    ensures few { length result.now < 256 }
{
    domain.as_str().as_bytes()
}

/// What stands before the document of a request.
fn request_head(op: &Op, document: &[u8]) -> Head
    requires document { document.now ≡ document_part op.now }
    requires short { length document.now ≤ 1048576 }
    ensures { result.items ++ document_part op.now ≡ request_bytes op.now }
{
    let Some(head) = request_form(op, document).frame_head() else {
        unreachable!();
    };
    let Some(version) = version_for(op) else {
        return head;
    };
    let mut both = head_of(&[0, 0, 0, 2, b'V', version.number()]);
    put(&mut both, head.as_slice());
    both
}
