//! The commands `encode` and `decode`: lines become frames, and frames become lines.
ghost use Rattle.std.specs.Prelude.{◌≡◌};
ghost use Rattle.commands.specs.Encode.{Decodes, Encodes};
ghost use Rattle.commands.specs.Streams.{streams};

use crate::fault::Fault;
use std::alloc::Global;
use std::io::{Read, Write};
use wire::{Counted, DecodeError, StreamError, TextSource, decode_stream, encode_stream};

/// Writes the frames of the requests that the input has a line each of, with the texts that they name; answers the exit status.
pub fn encode_over<T: TextSource, R: Read, W: Write, E: Write>(
    alloc: Global,
    texts: &T,
    reader: &mut Counted<R>,
    out: &mut Counted<W>,
    err: &mut Counted<E>,
) -> u8
    ensures encodes { Encodes (T.gives texts.now) result
        (streams R.remaining W.contents E.contents reader.old out.old err.old)
        (streams R.remaining W.contents E.contents reader.new out.new err.new) }
    ensures silent { result ≡ 0 → err.new ≡ err.old }
{
    match encode_stream(alloc, texts, reader, out) {
        Ok(()) => 0,
        Err(StreamError::BadLine(line)) => Fault::BadLine(line).tell(err),
        Err(StreamError::Unreadable(line)) => Fault::UnreadText(line).tell(err),
        Err(StreamError::Front(error)) => Fault::Front(error).tell(err),
    }
}

/// Writes the lines of the requests and replies that the input has a frame each of; answers the exit status.
pub fn decode_over<R: Read, W: Write, E: Write>(
    alloc: Global,
    reader: &mut Counted<R>,
    out: &mut Counted<W>,
    err: &mut Counted<E>,
) -> u8
    ensures decodes { Decodes result
        (streams R.remaining W.contents E.contents reader.old out.old err.old)
        (streams R.remaining W.contents E.contents reader.new out.new err.new) }
    ensures silent { result ≡ 0 → err.new ≡ err.old }
{
    match decode_stream(alloc, reader, out) {
        Ok(()) => 0,
        Err(DecodeError::BadFrame(frame)) => Fault::BadFrame(frame).tell(err),
        Err(DecodeError::Front(error)) => Fault::Front(error).tell(err),
    }
}
