//! Frames as the tests write and read them: examples, texts with parts that come many times, and doubles of readers and writers.
use std::alloc::{AllocError, Global};
use std::io;
use std::io::{Read, Write};

/// Set `a` to the empty document.
pub const SET: &[u8] = b"\x00\x00\x00\x0eS\x01a{\"keys\":[]}";

pub const STORED: &[u8] = b"\x00\x00\x00\x01s";

pub const GET: &[u8] = b"\x00\x00\x00\x03G\x01a";

pub const FOUND: &[u8] = b"\x00\x00\x00\x0cf{\"keys\":[]}";

/// The reply that no bundle stands under the name.
pub const ABSENT: &[u8] = b"\x00\x00\x00\x01\x1e";

pub const FETCH_ALL: &[u8] = b"\x00\x00\x00\x01F";

/// The reply to a fetch-all of `a` and the empty document.
pub const ALL_OF_ONE: &[u8] =
    b"\x00\x00\x00\x09a\x00\x00\x00\x00\x00\x00\x00\x01\x00\x00\x00\x0ei\x01a{\"keys\":[]}";

pub const ALL_OF_NONE: &[u8] = b"\x00\x00\x00\x09a\x00\x00\x00\x00\x00\x00\x00\x00";

/// Bytes, and how often they come. If they come more than once, each `####` among them is the number of the time, from `0000` on.
pub type Part<'a> = (&'a [u8], u32);

/// Adds the bytes with this number.
fn put_numbered(out: &mut Vec<u8>, bytes: &[u8], number: u32) -> Result<(), AllocError> {
    let mut digits = [
        b'0' + (number / 1000 % 10) as u8,
        b'0' + (number / 100 % 10) as u8,
        b'0' + (number / 10 % 10) as u8,
        b'0' + (number % 10) as u8,
    ];
    for &byte in bytes {
        if byte == b'#' {
            let [first, second, third, fourth] = digits;
            out.push(first)?;
            digits = [second, third, fourth, first];
        } else {
            out.push(byte)?;
        }
    }
    Ok(())
}

/// The text of these parts.
pub fn text_of(alloc: Global, parts: &[Part<'_>]) -> Result<Vec<u8>, AllocError> {
    let mut text = Vec::new(alloc);
    for &(bytes, times) in parts {
        let is_numbered = times > 1 && bytes.contains(&b'#');
        for number in 0..times {
            if is_numbered {
                put_numbered(&mut text, bytes, number)?;
            } else {
                text.extend_from_slice(bytes)?;
            }
        }
    }
    Ok(text)
}

/// A reader that gives its bytes in pieces of a size, and the first of another size.
#[derive(Drop)]
pub struct Pieces<'a> {
    pub bytes: &'a [u8],
    pub first: usize,
    pub size: usize,
}

impl<'a> Read for Pieces<'a> {
    fn read(&mut self, buf: &mut [u8]) -> io::Result<usize> {
        let size = self.first.min(buf.len()).min(self.bytes.len());
        let (given, rest) = self.bytes.split_at(size);
        let (front, _) = buf.split_at_mut(size);
        front.copy_from_slice(given);
        self.bytes = rest;
        self.first = self.size;
        Ok(size)
    }
}

/// A writer that counts its calls.
#[derive(Drop)]
pub struct Calls {
    pub writes: u64,
    pub flushes: u64,
}

impl Write for Calls {
    fn write(&mut self, buf: &[u8]) -> io::Result<usize> {
        self.writes = self.writes.saturating_add(1);
        Ok(buf.len())
    }

    fn flush(&mut self) -> io::Result<()> {
        self.flushes = self.flushes.saturating_add(1);
        Ok(())
    }
}
