//! A text that is compared piece by piece.
ghost use Rattle.std.specs.Prelude.{◌≡◌, ◌≤◌, ◌<◌, length, MatchOption, None, Some, is_some};
ghost use Rattle.std.specs.Char.{digit_char};
ghost use Rattle.json.specs.Print.{escape, escape_byte, escape_letter as letter_of};
ghost use Rattle.base64.specs.Engines.{standard, url_safe_no_pad};
ghost use Rattle.base64.specs.GeneralPurpose.{encode_of};
ghost use Rattle.spiffe_doc.specs.Private.Matching.{strip_quote, after, after_quote as quote_after, is_whole as whole};

use crate::octets::Octets;
use base64::engine::general_purpose::{GeneralPurpose, STANDARD, URL_SAFE_NO_PAD};
use std::marker::Model;

/// How many bytes are encoded at a time: whole groups of three, so only the last ones are padded.
const CHUNK_LEN: usize = 48;

/// The most bytes of a chunk's encoding.
const CHUNK_TEXT_LEN: usize = 64;

/// What is left of a text behind the pieces that it began with; nothing once it differed from one. Each method takes
/// one piece more. A piece is compared where it lies or a few bytes at a time, so none of them takes memory.
#[derive(Drop)]
pub(crate) struct Rest<'a> {
    left: Option<&'a [u8]>,
}

impl<'a> Model for Rest<'a> {
    ghost use Rattle.std.specs.Prelude.{ℕ, List, Option, option_copied};

    ghost Value = { Option (List ℕ) };

    ghost view = { λ rest. option_copied rest.left };
}

impl<'a> Rest<'a> {
    /// The whole text.
    pub(crate) fn of(text: &'a [u8]) -> Rest<'a>
        ensures { result ≡ Some text.now }
    {
        Rest { left: Some(text) }
    }

    /// Whether the text was these pieces and no more.
    pub(crate) fn is_whole(self) -> bool
        ensures { result ≡ whole self.entry }
    {
        match self.left {
            Some(text) => text.is_empty(),
            None => false,
        }
    }

    /// Whether the text began with these pieces.
    pub(crate) fn is_match(self) -> bool
        ensures { result ≡ is_some self.entry }
    {
        self.left.is_some()
    }

    /// What follows these bytes.
    pub(crate) fn literal(self, piece: &[u8]) -> Rest<'a>
        ensures { result ≡ after piece.now self.entry }
    {
        match self.left {
            Some(text) => Rest {
                left: text.strip_prefix(piece),
            },
            None => self,
        }
    }

    /// What follows the next quotation mark.
    pub(crate) fn after_quote(self) -> Rest<'a>
        ensures { result ≡ quote_after self.entry }
    {
        match self.left {
            Some(text) => Rest {
                left: behind_quote(text),
            },
            None => self,
        }
    }

    /// What follows the bytes as unpadded base64url.
    pub(crate) fn url_safe(self, bytes: &Octets) -> Rest<'a>
        ensures { result ≡ after (encode_of url_safe_no_pad bytes.now) self.entry }
    {
        self.encoded(&URL_SAFE_NO_PAD, bytes.as_slice())
    }

    /// What follows the bytes as padded base64.
    pub(crate) fn standard(self, bytes: &Octets) -> Rest<'a>
        ensures { result ≡ after (encode_of standard bytes.now) self.entry }
    {
        self.encoded(&STANDARD, bytes.as_slice())
    }

    /// What follows the encoding of the bytes.
    fn encoded(self, engine: &GeneralPurpose, bytes: &[u8]) -> Rest<'a>
        ensures { result ≡ after (encode_of engine.now bytes.now) self.entry }
    {
        let mut rest = self;
        let mut bytes = bytes;
        while bytes.len() > CHUNK_LEN {
            let (chunk, more) = bytes.split_at(CHUNK_LEN);
            rest = rest.encoded_chunk(engine, chunk);
            bytes = more;
        }
        rest.encoded_chunk(engine, bytes)
    }

    /// What follows the encoding of a chunk. Nothing is encoded once the text differed.
    fn encoded_chunk(self, engine: &GeneralPurpose, chunk: &[u8]) -> Rest<'a>
        requires { length chunk.now ≤ 48 }
        ensures { result ≡ after (encode_of engine.now chunk.now) self.entry }
    {
        match self.left {
            Some(_) => {
                let mut text = [0; CHUNK_TEXT_LEN];
                let len = engine.encode_slice(chunk, &mut text).unwrap();
                self.literal(&text[..len])
            }
            None => self,
        }
    }

    /// What follows the text as it stands in a string of JSON, between its quotation marks.
    pub(crate) fn escaped(self, text: &str) -> Rest<'a>
        ensures { result ≡ after (escape text.now) self.entry }
    {
        let mut rest = self;
        for byte in text.as_bytes() {
            rest = rest.escaped_byte(*byte);
        }
        rest
    }

    /// What follows the byte as it stands in a string of JSON.
    fn escaped_byte(self, byte: u8) -> Rest<'a>
        ensures { result ≡ after (escape_byte byte) self.entry }
    {
        let letter = escape_letter(byte);
        if letter > 0 {
            return self.literal(&[b'\\', letter]);
        }
        if byte < 32 {
            return self.literal(&[b'\\', b'u', b'0', b'0', hex(byte / 16), hex(byte % 16)]);
        }
        self.literal(&[byte])
    }
}

/// What follows the next quotation mark.
fn behind_quote(text: &[u8]) -> Option<&[u8]>
    ensures { MatchOption result (strip_quote text.now ≡ None) (λ rest. strip_quote text.now ≡ Some rest.now) }
{
    for (at, byte) in text.iter().enumerate() {
        if *byte == b'"' {
            return Some(&text[at + 1..]);
        }
    }
    None
}

/// The letter that stands for the byte behind a backslash, or 0 if it has none.
fn escape_letter(byte: u8) -> u8
    ensures { result ≡ letter_of byte }
{
    match byte {
        b'"' | b'\\' => byte,
        8 => b'b',
        12 => b'f',
        b'\n' => b'n',
        b'\r' => b'r',
        b'\t' => b't',
        _ => 0,
    }
}

/// The hexadecimal digit.
fn hex(digit: u8) -> u8
    requires { digit < 16 }
    ensures { result ≡ digit_char digit }
{
    if digit < 10 {
        b'0' + digit
    } else {
        b'a' - 10 + digit
    }
}
