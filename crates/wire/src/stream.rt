//! A stream of lines becomes a stream of frames.
ghost use Rattle.std.specs.Prelude.{◌≡◌, ◌++◌, ℕ, List, [], Err, OnOk, OnErr, IfErr};
ghost use Rattle.std.specs.Io.KnownBytes.{Appends};
ghost use Rattle.wire.specs.Counted.{end_in, faults_in, next_count};
ghost use Rattle.wire.specs.Output.{WritesFront};
ghost use Rattle.wire.specs.declared.error.FrontError.TheVariants.{ReadFault, WriteFault};
ghost use Rattle.wire.specs.EncodedStream.{EncodesStream};
ghost use Rattle.wire.specs.declared.stream.StreamError.TheVariants.{Front};
ghost use Rattle.wire.specs.Private.Encoders.{EncodesKept, EncodesLast, stream_error as stream_error_of};

use crate::encoder::{EncodeError, Encoder};
use crate::text_source::TextSource;
use crate::{Counted, FrontError, write_flushed};
use std::alloc::Global;
use std::io::{Read, Write};
use thiserror::Error;

/// The most bytes of one read.
pub(crate) const PIECE_BYTES: usize = 4096;

/// Frames wait until so many bytes of them are there, or the lines of a read are used up.
const SEND_BYTES: usize = 65_536;

/// Why a stream of lines is not encoded to its end.
#[derive(Clone, Copy, Debug, PartialEq, Eq, Error)]
pub enum StreamError {
    /// The line, from 1, is neither a comment nor a request that a frame carries, or it has over 1,049,300 bytes.
    #[error("line {0} is not a request")]
    BadLine(u64),
    /// The text that the line, from 1, names cannot be read.
    #[error("the text that line {0} names cannot be read")]
    Unreadable(u64),
    /// Memory ran out, an end failed, or the reads are used up.
    #[error(transparent)]
    Front(FrontError),
}

impl From<FrontError> for StreamError {
    ghost use Rattle.std.specs.Prelude.{◌≡◌};
    ghost use Rattle.wire.specs.declared.stream.StreamError.TheVariants.{Front};

    ghost from_gives = { λ error result. result ≡ Front error };

    fn from(error: FrontError) -> StreamError {
        StreamError::Front(error)
    }
}

/// Writes the frames that lines become, with the texts that they name, those of each read before the next. If a line is bad, the
/// frames of the lines before it stand written. It keeps one line, one text and one frame, and some 64 KiB of frames beside them.
pub fn encode_stream<T: TextSource, R: Read, W: Write>(
    alloc: Global,
    texts: &T,
    reader: &mut Counted<R>,
    writer: &mut Counted<W>,
) -> Result<(), StreamError>
    ensures encodes { EncodesStream (T.gives texts.now) result (R.remaining (end_in reader.old)) (R.remaining (end_in reader.new)) (W.contents (end_in writer.old)) (W.contents (end_in writer.new)) }
    ensures read_fault { result ≡ Err (Front ReadFault) → faults_in reader.new ≡ next_count (faults_in reader.old) }
    ensures write_fault { result ≡ Err (Front WriteFault) → faults_in writer.new ≡ next_count (faults_in writer.old) }
{
    let Ok(mut encoder) = Encoder::new(alloc) else {
        return Err(StreamError::Front(FrontError::Memory));
    };
    let mut out = Vec::new(alloc);
    let mut piece = [0; PIECE_BYTES];
    for _turn in 0..u64::MAX {
        let count = match reader.read(&mut piece) {
            Ok(count) => count,
            Err(_) => return Err(StreamError::Front(FrontError::ReadFault)),
        };
        if count == 0 {
            return encode_last(alloc, encoder, texts, writer);
        }
        let (fresh, _) = piece.split_at(count);
        if let Err(_) = encoder.feed(fresh) {
            return Err(StreamError::Front(FrontError::Memory));
        }
        encode_kept(alloc, &mut encoder, texts, &mut out, writer)?;
    }
    Err(StreamError::Front(FrontError::TurnsUsed))
}

/// Sends the frames of the whole lines that are kept. If a line is bad, those of the lines before it are sent.
fn encode_kept<T: TextSource, W: Write>(
    alloc: Global,
    encoder: &mut Encoder,
    texts: &T,
    out: &mut Vec<u8>,
    writer: &mut Counted<W>,
) -> Result<(), StreamError>
    requires empty { out.old.items ≡ [] }
    ensures encodes { EncodesKept (T.gives texts.now) result encoder.old encoder.new (W.contents (end_in writer.old)) (W.contents (end_in writer.new)) }
    ensures cleared { OnOk result (out.new.items ≡ []) }
    ensures quiet { OnOk result (faults_in writer.new ≡ faults_in writer.old) }
    ensures read_fault { result ≡ Err (Front ReadFault) → ⊥ }
    ensures write_fault { result ≡ Err (Front WriteFault) → faults_in writer.new ≡ next_count (faults_in writer.old) }
{
    loop {
        match encoder.encode_next(alloc, texts, out) {
            Ok(true) => send_much(writer, out)?,
            Ok(false) => {
                send_out(writer, out)?;
                return Ok(());
            }
            Err(error) => {
                send_out(writer, out)?;
                return Err(stream_error(error));
            }
        }
    }
}

/// Sends the frame of the last line, which no line feed has ended, if there is one.
fn encode_last<T: TextSource, W: Write>(
    alloc: Global,
    encoder: Encoder,
    texts: &T,
    writer: &mut Counted<W>,
) -> Result<(), StreamError>
    ensures encodes { EncodesLast (T.gives texts.now) result encoder (W.contents (end_in writer.old)) (W.contents (end_in writer.new)) }
    ensures read_fault { result ≡ Err (Front ReadFault) → ⊥ }
    ensures write_fault { result ≡ Err (Front WriteFault) → faults_in writer.new ≡ next_count (faults_in writer.old) }
{
    let mut out = Vec::new(alloc);
    if let Err(error) = encoder.finish(alloc, texts, &mut out) {
        return Err(stream_error(error));
    }
    write_flushed(writer, out.as_slice())?;
    Ok(())
}

/// Sends what waits, if it is much.
fn send_much<W: Write>(writer: &mut Counted<W>, out: &mut Vec<u8>) -> Result<(), FrontError>
    ensures ok { OnOk result ((sent : List ℕ) × (out.old.items ≡ sent ++ out.new.items) × Appends (W.contents (end_in writer.old)) (W.contents (end_in writer.new)) sent) }
    ensures quiet { OnOk result (faults_in writer.new ≡ faults_in writer.old) }
    ensures fault { IfErr result (λ error. (error ≡ WriteFault) × (faults_in writer.new ≡ next_count (faults_in writer.old))) }
    ensures front { OnErr result (WritesFront (W.contents (end_in writer.old)) (W.contents (end_in writer.new)) out.old.items) }
{
    if out.len() < SEND_BYTES {
        return Ok(());
    }
    send_out(writer, out)
}

/// Sends all that waits.
fn send_out<W: Write>(writer: &mut Counted<W>, out: &mut Vec<u8>) -> Result<(), FrontError>
    ensures cleared { OnOk result (out.new.items ≡ []) }
    ensures ok { OnOk result (Appends (W.contents (end_in writer.old)) (W.contents (end_in writer.new)) out.old.items) }
    ensures quiet { OnOk result (faults_in writer.new ≡ faults_in writer.old) }
    ensures fault { IfErr result (λ error. (error ≡ WriteFault) × (faults_in writer.new ≡ next_count (faults_in writer.old))) }
    ensures front { OnErr result (WritesFront (W.contents (end_in writer.old)) (W.contents (end_in writer.new)) out.old.items) }
{
    write_flushed(writer, out.as_slice())?;
    out.clear();
    Ok(())
}

/// The same error of the stream.
fn stream_error(error: EncodeError) -> StreamError
    ensures { result ≡ stream_error_of error }
{
    match error {
        EncodeError::BadLine(line) => StreamError::BadLine(line),
        EncodeError::Unreadable(line) => StreamError::Unreadable(line),
        EncodeError::Memory => StreamError::Front(FrontError::Memory),
    }
}
