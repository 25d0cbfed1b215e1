//! Output that is written whole.
ghost use Rattle.std.specs.Prelude.{◌≡◌, OnOk, IfErr, OnErr};
ghost use Rattle.std.specs.Io.KnownBytes.{Appends};
ghost use Rattle.wire.specs.Counted.{end_in, faults_in, next_count};
ghost use Rattle.wire.specs.Output.{WritesFront};
ghost use Rattle.commands.specs.declared.fault.Fault.TheVariants.{Front};

use crate::fault::Fault;
use std::io::Write;
use wire::{Counted, FrontError};

/// Writes all of the bytes, and sees that the writer keeps nothing back.
pub fn write_flushed<W: Write>(writer: &mut Counted<W>, bytes: &[u8]) -> Result<(), Fault>
    ensures ok { OnOk result (Appends (W.contents (end_in writer.old)) (W.contents (end_in writer.new)) bytes.now) }
    ensures quiet { OnOk result (faults_in writer.new ≡ faults_in writer.old) }
    ensures fault { IfErr result (λ fault. fault ≡ Front FrontError.WriteFault) }
    ensures failed { OnErr result (faults_in writer.new ≡ next_count (faults_in writer.old)) }
    ensures front { WritesFront (W.contents (end_in writer.old)) (W.contents (end_in writer.new)) bytes.now }
{
    Ok(wire::write_flushed(writer, bytes)?)
}
