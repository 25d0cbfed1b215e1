//! Which codes the reply to a request may have, by the letter of the request.
ghost use Rattle.std.specs.Prelude.{◌≡◌};
ghost use Rattle.wire.specs.ReplyForm.{is_one_of};
ghost use Rattle.client.specs.ReplyCodes.{answer_codes, judged_codes, name_codes, document_codes, may_come as comes};

use wire::is_error_code;

/// Whether it is the code of what comes of a request, or of why the map refuses it.
pub(crate) fn is_answer_code(letter: u8, code: u8) -> bool
    ensures { result ≡ is_one_of (answer_codes letter) code }
{
    match letter {
        b'S' => matches!(code, b's' | b'u' | 31),
        b'C' => matches!(code, b's' | b'u' | 31 | 36),
        b'A' => matches!(code, b'p' | b'u' | 30 | 32 | 33 | 34 | 35),
        b'R' => matches!(code, b'd' | 30),
        b'G' => matches!(code, b'f' | 30),
        b'F' => code == b'a',
        b'U' => matches!(code, b'a' | b'e'),
        b'M' => code == b'm',
        b'V' => code == b'v',
        _ => false,
    }
}

/// Whether it is the number of why a request is refused before anybody is asked.
fn is_judged_code(letter: u8, code: u8) -> bool
    ensures { result ≡ is_one_of (judged_codes letter) code }
{
    match letter {
        b'S' | b'C' => is_name_code(code) || is_document_code(code),
        b'A' => is_name_code(code) || code == 23 || is_document_code(code),
        b'R' | b'G' => is_name_code(code),
        _ => false,
    }
}

/// Whether it is the number of why a name is refused.
fn is_name_code(code: u8) -> bool
    ensures { result ≡ is_one_of name_codes code }
{
    matches!(code, 1 | 3)
}

/// Whether it is the number of why a document is refused.
fn is_document_code(code: u8) -> bool
    ensures { result ≡ is_one_of document_codes code }
{
    matches!(
        code,
        10 | 11 | 12 | 13 | 14 | 15 | 16 | 17 | 18 | 19 | 20 | 21
    )
}

/// Whether the reply to a request of this letter may have the code.
pub(crate) fn may_come(letter: u8, code: u8) -> bool
    ensures { result ≡ comes letter code }
{
    is_error_code(code)
        || code == 51
        || is_answer_code(letter, code)
        || is_judged_code(letter, code)
}
