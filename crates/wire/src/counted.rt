//! Readers and writers whose failing calls are counted, and readers whose reads are.
ghost use Rattle.std.specs.Prelude.{◌≡◌, ◌+◌, ◌-◌, ◌^◌, ◌<◌, ◌≤◌, OnOk, OnErr, IfOk, length, min};
ghost use Rattle.std.specs.Io.{ReadsAtMost, WritesAtMost};
ghost use Rattle.std.specs.Io.KnownBytes.{ReadConsumes, WriteAppends, Keeps};
ghost use Rattle.wire.specs.Counted.{end_in, faults_in, next_count, next_read, reads_of};

use std::io;
use std::io::{Read, Write};

/// A reader or a writer, how many of its calls have failed, and how often it was read. A write of at
/// least one byte that takes none has failed.
///
/// No other module sees the fields. So whoever is lent a `Counted` can't read or write past it, and can't count what
/// was not called: what a session says of its reads and its faults is what it did. Code elsewhere that calls `read` of
/// `reader.end`, or adds to `reader.faults`, does not compile.
#[derive(Drop)]
pub struct Counted<E> {
    end: E,
    faults: u64,
    reads: u64,
}

impl<E> Counted<E> {
    pub fn new(end: E) -> Counted<E>
        ensures end { end_in result ≡ end }
        ensures faults { faults_in result ≡ 0 }
        ensures reads { reads_of result ≡ 0 }
    {
        Counted {
            end,
            faults: 0,
            reads: 0,
        }
    }

    /// The reader or the writer.
    pub fn end(&self) -> &E
        ensures { result.now ≡ end_in self.now }
    {
        &self.end
    }

    /// Gives the reader or the writer back.
    pub fn into_end(self) -> E
        ensures { result ≡ end_in self }
    {
        let Counted { end, .. } = self;
        end
    }

    /// How many calls have failed; after 2^64 - 1 it stays there.
    pub fn faults(&self) -> u64
        ensures { result ≡ faults_in self.now }
    {
        self.faults
    }

    /// How many calls of `read` there were; after 2^64 - 1 the count goes on at 0.
    pub fn reads(&self) -> u64
        ensures { result ≡ reads_of self.now }
    {
        self.reads
    }

    fn count(&mut self)
        ensures end { end_in self.new ≡ end_in self.old }
        ensures faults { faults_in self.new ≡ next_count (faults_in self.old) }
        ensures reads { reads_of self.new ≡ reads_of self.old }
    {
        self.faults = self.faults.saturating_add(1);
    }
}

impl<R: Read> Read for Counted<R> {
    ghost remaining = { λ c. R.remaining (end_in c) };

    fn read(&mut self, buf: &mut [u8]) -> io::Result<usize>
        ensures bound { ReadsAtMost result buf.new }
        ensures bytes { ReadConsumes (R.remaining (end_in self.old)) (R.remaining (end_in self.new)) result buf.new }
        ensures quiet { OnOk result (faults_in self.new ≡ faults_in self.old) }
        ensures counted { OnErr result (faults_in self.new ≡ next_count (faults_in self.old)) }
        ensures one_read { reads_of self.new ≡ next_read (reads_of self.old) }
    {
        self.reads = self.reads.wrapping_add(1);
        match self.end.read(buf) {
            Ok(count) => Ok(count),
            Err(fault) => {
                self.count();
                Err(fault)
            }
        }
    }
}

impl<W: Write> Write for Counted<W> {
    ghost contents = { λ c. W.contents (end_in c) };

    fn write(&mut self, buf: &[u8]) -> io::Result<usize>
        ensures bound { WritesAtMost result buf.now }
        ensures bytes { WriteAppends (W.contents (end_in self.old)) (W.contents (end_in self.new)) result buf.now }
        ensures quiet { IfOk result (λ n. 0 < n → faults_in self.new ≡ faults_in self.old) }
        ensures none_taken { IfOk result (λ n. n ≡ 0 → 0 < length buf.now → faults_in self.new ≡ next_count (faults_in self.old)) }
        ensures none_given { OnOk result (length buf.now ≡ 0 → faults_in self.new ≡ faults_in self.old) }
        ensures counted { OnErr result (faults_in self.new ≡ next_count (faults_in self.old)) }
        ensures no_read { reads_of self.new ≡ reads_of self.old }
    {
        match self.end.write(buf) {
            Ok(0) if !buf.is_empty() => {
                self.count();
                Ok(0)
            }
            Ok(count) => Ok(count),
            Err(fault) => {
                self.count();
                Err(fault)
            }
        }
    }

    fn flush(&mut self) -> io::Result<()>
        ensures bytes { Keeps (W.contents (end_in self.old)) (W.contents (end_in self.new)) }
        ensures quiet { OnOk result (faults_in self.new ≡ faults_in self.old) }
        ensures counted { OnErr result (faults_in self.new ≡ next_count (faults_in self.old)) }
        ensures no_read { reads_of self.new ≡ reads_of self.old }
    {
        match self.end.flush() {
            Ok(()) => Ok(()),
            Err(fault) => {
                self.count();
                Err(fault)
            }
        }
    }
}
