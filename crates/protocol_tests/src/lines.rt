//! Worked examples of requests and replies as lines.
mod encoders;
mod line_decoders;
mod replies;
mod requests;
mod streams;

use std::alloc::{AllocError, Global};
use wire::{TextError, TextSource};

/// One text, whose name is `doc`, one that is longer than a frame, `long`, and one for which there is no memory, `huge`.
#[derive(Drop)]
struct OneText;

const TEXT: &[u8] = b"{\n}";

impl TextSource for OneText {
    ghost gives = { λ texts name found. Unit {0} };

    fn text(&self, alloc: Global, name: &[u8]) -> Result<Vec<u8>, TextError> {
        let given = match name {
            b"doc" => Vec::from_slice(alloc, TEXT),
            b"long" => longer_than_a_frame(alloc),
            b"huge" => return Err(TextError::Memory),
            _ => return Err(TextError::Unreadable),
        };
        match given {
            Ok(text) => Ok(text),
            Err(_) => Err(TextError::Memory),
        }
    }
}

fn longer_than_a_frame(alloc: Global) -> Result<Vec<u8>, AllocError> {
    let mut text = Vec::new(alloc);
    for _ in 0..1_049_001 {
        text.push(b'.')?;
    }
    Ok(text)
}
