//! A stream of frames becomes a stream of lines.
ghost use Rattle.std.specs.Prelude.{◌≡◌, ◌++◌, List, ℕ, [], Err};
ghost use Rattle.wire.specs.Counted.{end_in, faults_in, next_count};
ghost use Rattle.wire.specs.declared.error.FrontError.TheVariants.{ReadFault, WriteFault};
ghost use Rattle.wire.specs.DecodedStream.{DecodesStream};
ghost use Rattle.wire.specs.Private.Decoders.{DecodesKept};
ghost use Rattle.wire.specs.declared.decode.DecodeError.TheVariants.{Front};

use crate::payload_line::{PayloadError, put_line_of};
use crate::stream::PIECE_BYTES;
use crate::{Counted, Decoder, FrontError, write_flushed};
use std::alloc::Global;
use std::io::{Read, Write};
use thiserror::Error;

/// Why a stream of frames is not decoded to its end.
#[derive(Clone, Copy, Debug, PartialEq, Eq, Error)]
pub enum DecodeError {
    /// The frame, from 0, is not a request or a reply that has a line.
    #[error("frame {0} is not a request or a reply that has a line")]
    BadFrame(u64),
    /// A length is wrong, the input ends inside a frame, memory ran out, an end failed, or the reads are used up.
    #[error(transparent)]
    Front(FrontError),
}

/// Writes the lines of requests and replies, those of each read before the next. If a frame has no line, or the stream ends inside
/// a frame, the lines of the frames before it stand written.
pub fn decode_stream<R: Read, W: Write>(
    alloc: Global,
    reader: &mut Counted<R>,
    writer: &mut Counted<W>,
) -> Result<(), DecodeError>
    ensures decodes { DecodesStream result (R.remaining (end_in reader.old)) (R.remaining (end_in reader.new)) (W.contents (end_in writer.old)) (W.contents (end_in writer.new)) }
    ensures read_fault { result ≡ Err (Front ReadFault) → faults_in reader.new ≡ next_count (faults_in reader.old) }
    ensures write_fault { result ≡ Err (Front WriteFault) → faults_in writer.new ≡ next_count (faults_in writer.old) }
{
    let Ok(mut decoder) = Decoder::new(alloc) else {
        return Err(DecodeError::Front(FrontError::Memory));
    };
    let mut out = Vec::new(alloc);
    let mut frames = 0;
    let mut piece = [0; PIECE_BYTES];
    for _turn in 0..u64::MAX {
        let count = match reader.read(&mut piece) {
            Ok(count) => count,
            Err(_) => return Err(DecodeError::Front(FrontError::ReadFault)),
        };
        if count == 0 {
            return match decoder.finish() {
                Ok(()) => Ok(()),
                Err(_) => Err(DecodeError::Front(FrontError::Truncated)),
            };
        }
        let (fresh, _) = piece.split_at(count);
        if let Err(_) = decoder.feed(fresh) {
            return Err(DecodeError::Front(FrontError::Memory));
        }
        let ended = decode_kept(&mut decoder, &mut frames, &mut out);
        if let Err(_) = write_flushed(writer, out.as_slice()) {
            return Err(DecodeError::Front(FrontError::WriteFault));
        }
        out.clear();
        ended?;
    }
    Err(DecodeError::Front(FrontError::TurnsUsed))
}

/// Appends the lines of the whole frames that are kept, and counts these frames.
fn decode_kept(
    decoder: &mut Decoder,
    frames: &mut u64,
    out: &mut Vec<u8>,
) -> Result<(), DecodeError>
    ensures { (written : List ℕ) × (out.new.items ≡ out.old.items ++ written) × DecodesKept result decoder.old frames.old decoder.new frames.new written }
{
    loop {
        let payload = match decoder.next_frame() {
            Ok(Some(payload)) => payload,
            Ok(None) => return Ok(()),
            Err(FrontError::BadLength) => return Err(DecodeError::Front(FrontError::BadLength)),
            Err(_) => return Err(DecodeError::Front(FrontError::Memory)),
        };
        match put_line_of(payload.as_slice(), out) {
            Ok(()) => {}
            Err(PayloadError::NoLine) => return Err(DecodeError::BadFrame(*frames)),
            Err(PayloadError::Memory) => return Err(DecodeError::Front(FrontError::Memory)),
        }
        *frames = frames.saturating_add(1);
    }
}
