//! Standard output that is a terminal: what it would obey is written escaped.
ghost use Rattle.std.specs.Prelude.{◌≡◌, ◌≤◌};
ghost use Rattle.std.specs.List.{All};
ghost use Rattle.bundled.specs.Screen.{IsShown, held_by};

use arrayvec::ArrayVec;
use std::cell::Cell;
use std::io;
use std::io::Write;

/// The most bytes that one write takes, and the room for what they become: at most two escapes for a byte.
const PIECE_BYTES: usize = 256;

const TEXT_BYTES: usize = 3072;

/// The most bytes of a character.
const CHAR_BYTES: usize = 4;

type Text = ArrayVec<u8, TEXT_BYTES>;

/// An end that can be told that what comes is text.
pub trait Shows {
    /// From now on text is written.
    fn show_text(&self);
}

/// Standard output. If it is a terminal, and text is written, then no byte but printable ASCII and line feeds is: each other
/// character becomes `\u` and the four digits of each of its units of UTF-16, and what is not UTF-8 becomes `\ufffd`. To all
/// else the bytes go as they are.
#[derive(Drop)]
pub struct Screen<W> {
    end: W,
    is_terminal: bool,
    is_text: Cell<bool>,
    /// The first bytes of a character, whose others have not come.
    begun: ArrayVec<u8, CHAR_BYTES>,
}

impl<W> Screen<W> {
    /// The end is a terminal, or not.
    pub fn new(end: W, is_terminal: bool) -> Screen<W> {
        Screen {
            end,
            is_terminal,
            is_text: Cell::new(false),
            begun: ArrayVec::new(),
        }
    }

    /// What the bytes become, behind those of a character that has begun.
    fn shown(&mut self, bytes: &[u8]) -> Text
        ensures { All IsShown result.items }
    {
        let mut text = ArrayVec::new();
        for byte in bytes {
            take_byte(&mut self.begun, *byte, &mut text);
        }
        text
    }
}

impl<W> Shows for Screen<W> {
    fn show_text(&self) {
        self.is_text.set(true);
    }
}

impl<W: Write> Write for Screen<W> {
    // (What a terminal is given is not what was written.)
    ghost contents = { λ screen. held_by W.contents screen.is_terminal screen.end };

    fn write(&mut self, buf: &[u8]) -> io::Result<usize> {
        if !self.is_terminal || !self.is_text.get() {
            return self.end.write(buf);
        }
        let size = buf.len().min(PIECE_BYTES);
        let text = self.shown(&buf[..size]);
        give(&mut self.end, text.as_slice())?;
        Ok(size)
    }

    fn flush(&mut self) -> io::Result<()> {
        self.end.flush()
    }
}

/// Writes all of the bytes: a terminal shows each of them.
fn give<W: Write>(end: &mut W, text: &[u8]) -> io::Result<()>
    requires { All IsShown text.now }
{
    end.write_all(text)
}

/// Takes a byte more of a text: a character that is whole then is put, or what is not one.
fn take_byte(begun: &mut ArrayVec<u8, CHAR_BYTES>, byte: u8, text: &mut Text)
    requires { All IsShown text.old.items }
    ensures { All IsShown text.new.items }
{
    if byte < 0x80 {
        if !begun.is_empty() {
            begun.clear();
            put_escape(text, 0xFFFD);
        }
        put_ascii(text, byte);
        return;
    }
    let _fits = begun.try_push(byte);
    match str::from_utf8(begun.as_slice()) {
        Ok(whole) => {
            if let Some(c) = whole.chars().next() {
                put_escape(text, u32::from(c));
            }
            begun.clear();
        }
        Err(error) => {
            if error.error_len().is_some() || begun.is_full() {
                begun.clear();
                put_escape(text, 0xFFFD);
            }
        }
    }
}

/// Puts a character of ASCII: itself if it is shown, or its escape.
fn put_ascii(text: &mut Text, byte: u8)
    requires { All IsShown text.old.items }
    ensures { All IsShown text.new.items }
{
    if byte == b'\n' || (32 <= byte && byte <= 126) {
        put(text, byte);
    } else {
        put_unit(text, u32::from(byte));
    }
}

/// Puts the escape of a character: of its one or two units of UTF-16.
fn put_escape(text: &mut Text, c: u32)
    requires { All IsShown text.old.items }
    ensures { All IsShown text.new.items }
{
    if c < 0x1_0000 {
        put_unit(text, c);
        return;
    }
    let above = c - 0x1_0000;
    put_unit(text, 0xD800 + above / 0x400 % 0x400);
    put_unit(text, 0xDC00 + above % 0x400);
}

/// Puts `\u` and the last four hexadecimal digits.
fn put_unit(text: &mut Text, unit: u32)
    requires { All IsShown text.old.items }
    ensures { All IsShown text.new.items }
{
    put(text, b'\\');
    put(text, b'u');
    put(text, hex_digit(unit / 0x1000));
    put(text, hex_digit(unit / 0x100));
    put(text, hex_digit(unit / 0x10));
    put(text, hex_digit(unit));
}

/// Puts a byte. There is room for it: a piece is short enough.
fn put(text: &mut Text, byte: u8)
    requires byte { IsShown byte }
    requires text { All IsShown text.old.items }
    ensures { All IsShown text.new.items }
{
    let _fits = text.try_push(byte);
}

/// The last digit of the number, in hexadecimal.
fn hex_digit(number: u32) -> u8
    ensures { IsShown result }
{
    let digit = (number % 16) as u8;
    if digit < 10 {
        b'0' + digit
    } else {
        b'a' + (digit - 10)
    }
}
