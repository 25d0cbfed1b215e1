//! Readers and writers that fail when a test wants it.
ghost use Rattle.std.specs.Prelude.{◌≡◌, ◌+◌, ◌-◌, ◌<◌, ◌≤◌, ◌++◌, [], take, drop, length, min, Some, IsOk, OnOk, OnErr, IfOk, IfErr, ◌⊎◌};
ghost use Rattle.std.specs.IoError.{error_kind};
ghost use Rattle.std.specs.declared.io.ErrorKind.TheVariants.{OutOfMemory};
ghost use Rattle.std.specs.Io.{ReadsAtMost, WritesAtMost};
ghost use Rattle.std.specs.Io.KnownBytes.{ReadConsumes, WriteAppends, Keeps};

use std::alloc::Global;
use std::io;
use std::io::{ErrorKind, Read, Write};

/// A reader that gives its bytes up to `after` of them, and then fails at each read.
#[derive(Drop)]
pub struct FaultyReader {
    /// The bytes that were not given yet.
    pub bytes: Vec<u8>,
    /// How many more of them it gives.
    pub after: usize,
}

/// A writer that takes `room` bytes in all, and then fails at each write.
#[derive(Drop)]
pub struct FaultyWriter {
    /// How many more bytes it takes.
    pub room: usize,
    pub taken: Vec<u8>,
}

impl FaultyReader {
    /// Has given nothing yet.
    pub fn new(bytes: Vec<u8>, after: usize) -> FaultyReader
        ensures bytes { result.bytes ≡ bytes }
        ensures after { result.after ≡ after }
    {
        FaultyReader { bytes, after }
    }
}

impl Read for FaultyReader {
    ghost remaining = { λ r. Some r.bytes.items };

    fn read(&mut self, buf: &mut [u8]) -> io::Result<usize>
        ensures bound { ReadsAtMost result buf.new }
        ensures bytes { ReadConsumes (Some self.old.bytes.items) (Some self.new.bytes.items) result buf.new }
        ensures ok { IfOk result (λ count. self.new.after + count ≡ self.old.after) }
        ensures count { IfOk result (λ count. count ≡ min (length buf.new) (min self.old.after (length self.old.bytes.items))) }
        ensures left { OnOk result (0 < min self.old.after (length self.old.bytes.items)) }
        ensures fails { OnErr result ((min self.old.after (length self.old.bytes.items) ≡ 0) × (self.new ≡ self.old)) }
    {
        let left = self.after.min(self.bytes.len());
        if left == 0 {
            return Err(io::Error::from(ErrorKind::Other));
        }
        let count = buf.len().min(left);
        let (given, _) = self.bytes.as_slice().split_at(count);
        let (front, _) = buf.split_at_mut(count);
        front.copy_from_slice(given);
        self.bytes.drain(..count);
        self.after -= count;
        Ok(count)
    }
}

impl FaultyWriter {
    /// Has taken nothing yet.
    pub fn new(alloc: Global, room: usize) -> FaultyWriter
        ensures taken { result.taken.items ≡ [] }
        ensures room { result.room ≡ room }
    {
        FaultyWriter {
            room,
            taken: Vec::new(alloc),
        }
    }
}

impl Write for FaultyWriter {
    ghost contents = { λ w. Some w.taken.items };

    fn write(&mut self, buf: &[u8]) -> io::Result<usize>
        ensures bound { WritesAtMost result buf.now }
        ensures bytes { WriteAppends (Some self.old.taken.items) (Some self.new.taken.items) result buf.now }
        ensures ok { IfOk result (λ count. (count ≡ min (length buf.now) self.old.room) × (self.new.room + count ≡ self.old.room)) }
        ensures full { OnOk result (0 < length buf.now → 0 < self.old.room) }
        ensures err { OnErr result (self.new.room ≡ self.old.room) }
        ensures why { IfErr result (λ e. (self.old.room ≡ 0) ⊎ (error_kind e ≡ OutOfMemory)) }
    {
        let count = buf.len().min(self.room);
        if count == 0 && !buf.is_empty() {
            return Err(io::Error::from(ErrorKind::Other));
        }
        let (front, _) = buf.split_at(count);
        self.taken.extend_from_slice(front)?;
        self.room -= count;
        Ok(count)
    }

    fn flush(&mut self) -> io::Result<()>
        ensures bytes { Keeps (Some self.old.taken.items) (Some self.new.taken.items) }
        ensures same { self.new ≡ self.old }
        ensures ok { IsOk result }
    {
        Ok(())
    }
}
