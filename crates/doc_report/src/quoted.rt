//! Texts of a document, escaped for a terminal.
ghost use Rattle.std.specs.Prelude.{◌≡◌, ◌++◌, OnOk, OnErr, IfOk, chars, take, length, flat_map, nat_le};
ghost use Rattle.std.specs.Char.Escape.{encode_utf16};
ghost use Rattle.doc_report.specs.Quoted.{hex_digit as digit_of, unit_text, char_text, quoted};

use crate::words::put;
use std::alloc::AllocError;

/// The most characters that are shown of a text.
const MAX_SHOWN: usize = 64;

/// Puts the text as a JSON string of ASCII (RFC 8259, section 7), of its first 64 characters if it has more.
#[tactic(auto, unfolding(crate::specs::Quoted::quoted))]
pub(crate) fn put_quoted(out: &mut Vec<u8>, text: &str) -> Result<(), AllocError>
    ensures { OnOk result (out.new.items ≡ out.old.items ++ quoted text.now) }
{
    put(out, "\"")?;
    let is_whole = put_chars(out, text)?;
    put(out, if is_whole { "\"" } else { "\"..." })
}

/// Puts the characters that are shown of a text. Answers whether they are all that it has.
fn put_chars(out: &mut Vec<u8>, text: &str) -> Result<bool, AllocError>
    ensures { IfOk result (λ is_whole. (out.new.items ≡ out.old.items ++ flat_map char_text (take 64 (chars text.now)))
        × (is_whole ≡ nat_le (length (chars text.now)) 64)) }
{
    let mut shown = 0;
    for c in text.chars() {
        if shown == MAX_SHOWN {
            return Ok(false);
        }
        put_char(out, c)?;
        shown += 1;
    }
    Ok(true)
}

/// Puts a character of a JSON string.
#[tactic(auto, unfolding(crate::specs::Quoted::char_text))]
fn put_char(out: &mut Vec<u8>, c: char) -> Result<(), AllocError>
    ensures { OnOk result (out.new.items ≡ out.old.items ++ char_text c) }
{
    match c {
        '"' => put(out, "\\\""),
        '\\' => put(out, "\\\\"),
        ' '..='~' => out.extend_from_slice(&[c as u8]),
        _ => put_escape(out, u32::from(c)),
    }
}

/// Puts the escape of a character: of its one or two units of UTF-16.
fn put_escape(out: &mut Vec<u8>, c: u32) -> Result<(), AllocError>
    ensures { OnOk result (out.new.items ≡ out.old.items ++ flat_map unit_text (encode_utf16 c)) }
{
    if c < 0x1_0000 {
        return put_unit(out, c);
    }
    let above = c - 0x1_0000;
    put_unit(out, 0xD800 + above / 0x400)?;
    put_unit(out, 0xDC00 + above % 0x400)
}

/// Puts `\u` and four digits.
#[tactic(auto, unfolding(crate::specs::Quoted::unit_text))]
fn put_unit(out: &mut Vec<u8>, unit: u32) -> Result<(), AllocError>
    ensures { OnOk result (out.new.items ≡ out.old.items ++ unit_text unit) }
{
    let text = [
        b'\\',
        b'u',
        hex_digit(unit / 0x1000),
        hex_digit(unit / 0x100),
        hex_digit(unit / 0x10),
        hex_digit(unit),
    ];
    out.extend_from_slice(&text)
}

/// The last digit of the number, in hexadecimal.
fn hex_digit(number: u32) -> u8
    ensures { result ≡ digit_of number }
{
    let digit = (number % 16) as u8;
    if digit < 10 {
        b'0' + digit
    } else {
        b'a' + (digit - 10)
    }
}
