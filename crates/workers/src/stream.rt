//! Streams that never wait.
use std::io;

/// A stream that goes both ways, and whose reads and writes return at once: if they would have to wait, they fail with
/// `WouldBlock`, and have done nothing. What is read leaves what was written as it is, and the other way round.
pub trait Stream {
    ghost use Rattle.std.specs.Prelude.{◌≡◌, ℕ, List, Option, length};
    ghost use Rattle.std.specs.Io.{ReadsAtMost, WritesAtMost};
    ghost use Rattle.std.specs.Io.KnownBytes.{ReadConsumes, WriteAppends};
    ghost use Rattle.workers.specs.Stream.{StreamLimits, ReadsAs, WritesAs};

    // The bytes that are left to be read, where they are known.
    ghost left: { Self → Option (List ℕ) };

    // The bytes that were written, where they are known.
    ghost held: { Self → Option (List ℕ) };

    // What its calls may come to.
    ghost may: { Self → StreamLimits };

    /// As `Read::read`.
    fn read(&mut self, buf: &mut [u8]) -> io::Result<usize>
        ensures bound { ReadsAtMost result buf.new }
        ensures bytes { ReadConsumes (left self.old) (left self.new) result buf.new }
        ensures held { held self.new ≡ held self.old }
        ensures may { ReadsAs (may self.old) (length buf.new) result }
        ensures same { may self.new ≡ may self.old };

    /// As `Write::write`.
    fn write(&mut self, buf: &[u8]) -> io::Result<usize>
        ensures bound { WritesAtMost result buf.now }
        ensures bytes { WriteAppends (held self.old) (held self.new) result buf.now }
        ensures left { left self.new ≡ left self.old }
        ensures may { WritesAs (may self.old) result }
        ensures same { may self.new ≡ may self.old };

    /// The port of the client at the other end, if it has one.
    fn peer(&self) -> Option<u16> {
        None
    }
}
