//! Payloads become lines.
ghost use Rattle.std.specs.Prelude.{◌≡◌, ◌∷◌, [], ◌++◌, List, ℕ, Err, MatchOption, OnOk, OnErr};
ghost use Rattle.wire.specs.Decoding.{IsLineOf, IsRequestLine, IsReplyLine};

use crate::frame::append;
use crate::head::Head;
use crate::reply::payload::reply_of_payload;
use crate::request::payload::request_of_payload;
use std::alloc::AllocError;
use thiserror::Error;

/// Why a payload becomes no line.
#[derive(Clone, Copy, Debug, PartialEq, Eq, Error)]
pub enum PayloadError {
    /// It is no request and no reply; or it has no line, since a space or a line feed is where none may be, or its document
    /// begins with `@`.
    #[error("the frame is not a request or a reply that has a line")]
    NoLine,
    #[error("out of memory")]
    Memory,
}

/// Appends the line of a request or a reply, and a line feed. If the payload becomes no line, nothing is appended.
pub fn put_line_of(payload: &[u8], out: &mut Vec<u8>) -> Result<(), PayloadError>
    ensures ok { OnOk result ((line : List ℕ) × IsLineOf payload.now line × (out.new.items ≡ out.old.items ++ (line ++ 10 ∷ []))) }
    ensures none { result ≡ Err PayloadError.NoLine → (line : List ℕ) → IsLineOf payload.now line → ⊥ }
    ensures err { OnErr result (out.new.items ≡ out.old.items) }
{
    let Some((head, text)) = line_parts(payload) else {
        return Err(PayloadError::NoLine);
    };
    match append_line(out, head.as_slice(), text) {
        Ok(()) => Ok(()),
        Err(_) => Err(PayloadError::Memory),
    }
}

/// The line of a payload: what stands before the text, and the text.
fn line_parts(payload: &[u8]) -> Option<(Head, &[u8])>
    ensures { MatchOption result ((line : List ℕ) → IsLineOf payload.now line → ⊥)
        (λ parts. IsLineOf payload.now (parts.0.items ++ parts.1.now)) }
{
    if let Some(parts) = request_parts(payload) {
        return Some(parts);
    }
    reply_parts(payload)
}

fn request_parts(payload: &[u8]) -> Option<(Head, &[u8])>
    ensures { MatchOption result ((line : List ℕ) → IsRequestLine payload.now line → ⊥)
        (λ parts. IsRequestLine payload.now (parts.0.items ++ parts.1.now)) }
{
    let form = request_of_payload(payload)?;
    let head = form.line_head()?;
    Some((head, form.text()))
}

fn reply_parts(payload: &[u8]) -> Option<(Head, &[u8])>
    ensures { MatchOption result ((line : List ℕ) → IsReplyLine payload.now line → ⊥)
        (λ parts. IsReplyLine payload.now (parts.0.items ++ parts.1.now)) }
{
    let form = reply_of_payload(payload)?;
    let head = form.line_head()?;
    Some((head, form.text()))
}

/// Appends both and a line feed, or nothing.
fn append_line(out: &mut Vec<u8>, head: &[u8], text: &[u8]) -> Result<(), AllocError>
    ensures ok { OnOk result (out.new.items ≡ out.old.items ++ ((head.now ++ text.now) ++ 10 ∷ [])) }
    ensures err { OnErr result (out.new.items ≡ out.old.items) }
{
    let before = out.len();
    append(out, head, text)?;
    if let Err(refused) = out.extend_from_slice(b"\n") {
        out.truncate(before);
        return Err(refused);
    }
    Ok(())
}
