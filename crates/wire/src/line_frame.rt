//! A line becomes a frame.
ghost use Rattle.std.specs.Prelude.{◌≡◌, ◌++◌, List, ℕ, drop, Err, OnOk, OnErr, MatchOption, false, true};
ghost use Rattle.wire.specs.Frame.{frame};
ghost use Rattle.wire.specs.Encoding.{Becomes, IsBadLine, NamesUnreadable, is_comment as comment};
ghost use Rattle.wire.specs.RequestForm.{IsFramed, is_text_name, payload_of, request};

use crate::frame::append;
use crate::request::RequestForm;
use crate::request::line::request_of_line;
use crate::text_source::{TextError, TextSource};
use std::alloc::Global;

/// Why one line becomes nothing.
#[derive(Clone, Copy)]
pub(crate) enum LineError {
    Bad,
    Unreadable,
    Memory,
}

fn is_comment(line: &[u8]) -> bool
    ensures { result ≡ comment line.now }
{
    matches!(line, [] | [b'#', ..])
}

/// The name of a text, if these bytes of a line are one.
pub(crate) fn text_name(text: &[u8]) -> Option<&[u8]>
    ensures { MatchOption result (is_text_name text.now ≡ false) (λ name. (is_text_name text.now ≡ true) × (name.now ≡ drop 1 text.now)) }
{
    match text {
        [b'@', name @ ..] => Some(name),
        _ => None,
    }
}

/// Appends what a line becomes. If it becomes nothing, nothing is appended.
pub(crate) fn put_line<T: TextSource>(
    alloc: Global,
    texts: &T,
    line: &[u8],
    out: &mut Vec<u8>,
) -> Result<(), LineError>
    ensures ok { OnOk result ((bytes : List ℕ) × Becomes (T.gives texts.now) (line.now, bytes) × (out.new.items ≡ out.old.items ++ bytes)) }
    ensures bad { result ≡ Err LineError.Bad → IsBadLine (T.gives texts.now) line.now }
    ensures unreadable { result ≡ Err LineError.Unreadable → NamesUnreadable (T.gives texts.now) line.now }
    ensures err { OnErr result (out.new.items ≡ out.old.items) }
{
    if is_comment(line) {
        return Ok(());
    }
    let Some(form) = request_of_line(line) else {
        return Err(LineError::Bad);
    };
    let Some(name) = text_name(form.text()) else {
        return put_frame(&form, out);
    };
    match texts.text(alloc, name) {
        Ok(text) => put_frame(&form.with_text(text.as_slice()), out),
        Err(TextError::Unreadable) => Err(LineError::Unreadable),
        Err(TextError::Memory) => Err(LineError::Memory),
    }
}

/// Appends the frame of a request. If no frame carries it, nothing is appended.
fn put_frame(form: &RequestForm<'_>, out: &mut Vec<u8>) -> Result<(), LineError>
    ensures ok { OnOk result (IsFramed (request form.now) × (out.new.items ≡ out.old.items ++ frame (payload_of (request form.now)))) }
    ensures bad { result ≡ Err LineError.Bad → IsFramed (request form.now) → ⊥ }
    ensures readable { result ≡ Err LineError.Unreadable → ⊥ }
    ensures err { OnErr result (out.new.items ≡ out.old.items) }
{
    let Some(head) = form.frame_head() else {
        return Err(LineError::Bad);
    };
    match append(out, head.as_slice(), form.text()) {
        Ok(()) => Ok(()),
        Err(_) => Err(LineError::Memory),
    }
}
