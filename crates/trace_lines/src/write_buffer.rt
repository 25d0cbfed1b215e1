//! Bytes gathered for few writes.
ghost use Rattle.std.specs.Prelude.{◌≡◌, ◌++◌, [], true, false, OnOk, IfErr};
ghost use Rattle.std.specs.Io.KnownBytes.{Appends};
ghost use Rattle.wire.specs.Counted.{end_in, faults_in, next_count};
ghost use Rattle.wire.specs.Output.{WritesFront};
ghost use Rattle.trace_lines.specs.Private.Puts.{Puts, out_of};

use arrayvec::ArrayVec;
use std::io::Write;
use std::marker::Model;
use wire::{Counted, FrontError, write_both};

/// The bytes that are gathered for one write.
const ROOM: usize = 4096;

/// Bytes that wait for the next write. It takes no memory. Contracts see it as these bytes.
#[derive(Drop)]
pub(crate) struct WriteBuffer {
    bytes: ArrayVec<u8, ROOM>,
}

impl Model for WriteBuffer {
    ghost use Rattle.std.specs.Prelude.{ℕ, List};

    ghost Value = { List ℕ };

    ghost view = { λ g. g.bytes.items };
}

impl WriteBuffer {
    pub(crate) fn new() -> WriteBuffer
        ensures { result ≡ [] }
    {
        WriteBuffer {
            bytes: ArrayVec::new(),
        }
    }

    /// Puts two parts behind what waits. If there is no room for them, that is written first.
    pub(crate) fn put<W: Write>(
        &mut self,
        out: &mut Counted<W>,
        first: &[u8],
        others: &[u8],
    ) -> Result<(), FrontError>
        ensures { Puts result (out_of W.contents out.old self.old) (out_of W.contents out.new self.new) (first.now ++ others.now) }
    {
        if self.gather(first, others) {
            return Ok(());
        }
        self.put_late(out, first, others)
    }

    /// Puts two parts for which there is no room beside what waits. If there is no room for them at all, they are written.
    fn put_late<W: Write>(
        &mut self,
        out: &mut Counted<W>,
        first: &[u8],
        others: &[u8],
    ) -> Result<(), FrontError>
        ensures { Puts result (out_of W.contents out.old self.old) (out_of W.contents out.new self.new) (first.now ++ others.now) }
    {
        self.send(out)?;
        if self.gather(first, others) {
            return Ok(());
        }
        write_both(out, first, others)
    }

    /// Gathers two parts, if there is room for both.
    fn gather(&mut self, first: &[u8], others: &[u8]) -> bool
        ensures gathered { result ≡ true → self.new ≡ self.old ++ (first.now ++ others.now) }
        ensures refused { result ≡ false → self.new ≡ self.old }
    {
        let room = self.bytes.remaining_capacity();
        if room < first.len() || room - first.len() < others.len() {
            return false;
        }
        let _fits = self.bytes.try_extend_from_slice(first);
        let _fits = self.bytes.try_extend_from_slice(others);
        true
    }

    /// Writes what waits.
    fn send<W: Write>(&mut self, out: &mut Counted<W>) -> Result<(), FrontError>
        ensures ok { OnOk result (Appends (W.contents (end_in out.old)) (W.contents (end_in out.new)) self.old) }
        ensures empty { OnOk result (self.new ≡ []) }
        ensures quiet { OnOk result (faults_in out.new ≡ faults_in out.old) }
        ensures fault { IfErr result (λ fault. (fault ≡ FrontError.WriteFault) × (faults_in out.new ≡ next_count (faults_in out.old))) }
        ensures front { WritesFront (W.contents (end_in out.old)) (W.contents (end_in out.new)) self.old }
    {
        write_both(out, self.bytes.as_slice(), &[])?;
        self.bytes.clear();
        Ok(())
    }

    /// Writes what waits, and sees that the writer keeps nothing back.
    pub(crate) fn flush<W: Write>(&mut self, out: &mut Counted<W>) -> Result<(), FrontError>
        ensures ok { OnOk result (Appends (W.contents (end_in out.old)) (W.contents (end_in out.new)) self.old) }
        ensures quiet { OnOk result (faults_in out.new ≡ faults_in out.old) }
        ensures fault { IfErr result (λ fault. (fault ≡ FrontError.WriteFault) × (faults_in out.new ≡ next_count (faults_in out.old))) }
        ensures front { WritesFront (W.contents (end_in out.old)) (W.contents (end_in out.new)) self.old }
    {
        self.send(out)?;
        match out.flush() {
            Ok(()) => Ok(()),
            Err(_) => Err(FrontError::WriteFault),
        }
    }
}
