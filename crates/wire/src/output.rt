//! Bytes that are written whole.
ghost use Rattle.std.specs.Prelude.{◌≡◌, ◌++◌, OnOk, IfErr};
ghost use Rattle.std.specs.Io.KnownBytes.{Appends};
ghost use Rattle.wire.specs.Counted.{end_in, faults_in, next_count};
ghost use Rattle.wire.specs.Output.{Tells, WritesFront, end_of};

use crate::{Counted, FrontError};
use std::io::Write;

/// Writes all of the bytes.
///
/// A call that fails is the end of it, even if a signal interrupted it: the program handles no signals, so the system
/// interrupts none of its writes.
pub fn write_whole<W: Write>(writer: &mut Counted<W>, bytes: &[u8]) -> Result<(), FrontError>
    ensures ok { OnOk result (Appends (W.contents (end_in writer.old)) (W.contents (end_in writer.new)) bytes.now) }
    ensures quiet { OnOk result (faults_in writer.new ≡ faults_in writer.old) }
    ensures fault { IfErr result (λ fault. (fault ≡ FrontError.WriteFault) × (faults_in writer.new ≡ next_count (faults_in writer.old))) }
    ensures front { WritesFront (W.contents (end_in writer.old)) (W.contents (end_in writer.new)) bytes.now }
{
    let mut rest = bytes;
    while !rest.is_empty() {
        match writer.write(rest) {
            Ok(0) => return Err(FrontError::WriteFault),
            Ok(taken) => {
                let (_, after) = rest.split_at(taken);
                rest = after;
            }
            Err(_) => return Err(FrontError::WriteFault),
        }
    }
    Ok(())
}

/// Writes all of the first bytes, and then all of the others.
pub fn write_both<W: Write>(
    writer: &mut Counted<W>,
    first: &[u8],
    others: &[u8],
) -> Result<(), FrontError>
    ensures ok { OnOk result (Appends (W.contents (end_in writer.old)) (W.contents (end_in writer.new)) (first.now ++ others.now)) }
    ensures quiet { OnOk result (faults_in writer.new ≡ faults_in writer.old) }
    ensures fault { IfErr result (λ fault. (fault ≡ FrontError.WriteFault) × (faults_in writer.new ≡ next_count (faults_in writer.old))) }
    ensures front { WritesFront (W.contents (end_in writer.old)) (W.contents (end_in writer.new)) (first.now ++ others.now) }
{
    write_whole(writer, first)?;
    write_whole(writer, others)
}

/// Writes all of the bytes, and sees that the writer keeps nothing back.
pub fn write_flushed<W: Write>(writer: &mut Counted<W>, bytes: &[u8]) -> Result<(), FrontError>
    ensures ok { OnOk result (Appends (W.contents (end_in writer.old)) (W.contents (end_in writer.new)) bytes.now) }
    ensures quiet { OnOk result (faults_in writer.new ≡ faults_in writer.old) }
    ensures fault { IfErr result (λ fault. (fault ≡ FrontError.WriteFault) × (faults_in writer.new ≡ next_count (faults_in writer.old))) }
    ensures front { WritesFront (W.contents (end_in writer.old)) (W.contents (end_in writer.new)) bytes.now }
{
    write_whole(writer, bytes)?;
    match writer.flush() {
        Ok(()) => Ok(()),
        Err(_) => Err(FrontError::WriteFault),
    }
}

/// Writes a text. What the writer does not take of it is dropped.
pub fn tell<W: Write>(writer: &mut Counted<W>, text: &[u8])
    ensures { Tells (end_of W.contents writer.old) (end_of W.contents writer.new) text.now }
{
    let _ = write_whole(writer, text);
}

/// Writes a text, and sees that the writer keeps nothing back. What the writer does not take of it is dropped.
pub fn tell_flushed<W: Write>(writer: &mut Counted<W>, text: &[u8])
    ensures { Tells (end_of W.contents writer.old) (end_of W.contents writer.new) text.now }
{
    let _ = write_flushed(writer, text);
}
