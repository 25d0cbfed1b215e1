//! What a server says, on its output and on standard error.
ghost use Rattle.std.specs.Prelude.{◌≡◌, ◌<◌, ◌≤◌, ◌-◌, ◌+◌, ◌^◌, ◌++◌, ◌∷◌, [], min, length, decimal, None, Some};
ghost use Rattle.server.specs.Address.{address_text};
ghost use Rattle.server.specs.Serve.{IsOffered, listening_line, said_line, write_fault, begun_by, have_all_come, session_lines, faults_by};
ghost use Rattle.wire.specs.Output.{TellsUnlessFailed, end_of};

use crate::address::Address;
use arrayvec::ArrayVec;
use commands::{Fault, write_flushed};
use itoa::Buffer;
use std::io::Write;
use wire::Counted;
use workers::{SessionFault, Worked};

/// The most bytes of a line: two words of 9 letters, two paths of 107 bytes, three spaces and a line feed.
const LINE_BYTES: usize = 236;

type Line = ArrayVec<u8, LINE_BYTES>;

/// What a server says on its output: words, each with an address or a number.
#[derive(Clone, Copy)]
pub enum ServerLine<'a> {
    /// Where it listens, and where for clients that only read, if there is such a place.
    Listening(&'a Address, Option<&'a Address>),
    /// How many sessions were begun.
    Served(u64),
    /// How many domains had a bundle at the end.
    Domains(u64),
}

impl ServerLine<'_> {
    fn line(self) -> Line
        ensures { result.items ≡ said_line self.entry }
    {
        match self {
            ServerLine::Listening(all, None) => address_line(all),
            ServerLine::Listening(all, Some(reads)) => addresses_line(all, reads),
            ServerLine::Served(count) => line_of(b"served ", count),
            ServerLine::Domains(count) => line_of(b"domains ", count),
        }
    }
}

fn line_of(word: &[u8], number: u64) -> Line
    requires { length word.now ≤ 10 }
    ensures { result.items ≡ word.now ++ (decimal number ++ 10 ∷ []) }
{
    let mut line = ArrayVec::new();
    let mut digits = Buffer::new();
    let _fits = line.try_extend_from_slice(word);
    let _fits = line.try_extend_from_slice(digits.format(number).as_bytes());
    let _fits = line.try_extend_from_slice(b"\n");
    line
}

/// Adds the number of a port, or the path of a socket.
fn push_address(line: &mut Line, address: &Address)
    requires { length line.old.items + 107 ≤ 236 }
    ensures pushed { line.new.items ≡ line.old.items ++ address_text address.now }
    ensures short { length line.new.items ≤ length line.old.items + 107 }
{
    match address {
        Address::Port(number) => {
            let mut digits = Buffer::new();
            let _fits = line.try_extend_from_slice(digits.format(u64::from(*number)).as_bytes());
        }
        Address::Socket(path) => {
            let _fits = line.try_extend_from_slice(path.as_str().as_bytes());
        }
    }
}

/// Adds a word and an address.
fn push_both(line: &mut Line, word: &[u8], address: &Address)
    requires { length line.old.items + length word.now + 107 ≤ 236 }
    ensures pushed { line.new.items ≡ line.old.items ++ (word.now ++ address_text address.now) }
    ensures short { length line.new.items ≤ length line.old.items + length word.now + 107 }
{
    let _fits = line.try_extend_from_slice(word);
    push_address(line, address);
}

/// Adds a line feed.
fn end_line(line: &mut Line)
    requires { length line.old.items < 236 }
    ensures { line.new.items ≡ line.old.items ++ 10 ∷ [] }
{
    let _fits = line.try_extend_from_slice(b"\n");
}

fn address_line(all: &Address) -> Line
    ensures { result.items ≡ listening_line all.now None }
{
    let mut line = Line::new();
    push_both(&mut line, b"listening ", all);
    end_line(&mut line);
    line
}

fn addresses_line(all: &Address, reads: &Address) -> Line
    ensures { result.items ≡ listening_line all.now (Some reads.now) }
{
    let mut line = Line::new();
    push_both(&mut line, b"listening ", all);
    push_both(&mut line, b" read-only ", reads);
    end_line(&mut line);
    line
}

/// Writes a line, and sees that the writer keeps nothing back. If the line is not taken, that is told as a fault.
/// Answers whether it was taken.
#[tactic(auto, using(wire::proofs::OutputLemmas::told_nothing))]
pub fn say<W: Write, E: Write>(
    out: &mut Counted<W>,
    err: &mut Counted<E>,
    before: u64,
    said: ServerLine<'_>,
) -> bool
    ensures offered { IsOffered result (said_line said.entry) (end_of W.contents out.old) (end_of W.contents out.new) }
    ensures tells { TellsUnlessFailed before (end_of E.contents err.old) (end_of E.contents err.new) (write_fault result) }
{
    let line = said.line();
    match write_flushed(out, line.as_slice()) {
        Ok(()) => true,
        Err(fault) => {
            fault.tell_unless_failed(err, before);
            false
        }
    }
}

/// How many sessions the workers have begun.
pub fn count_begun(worked: &[Worked]) -> u64
    ensures { result ≡ min (begun_by worked.now) 18446744073709551615 }
{
    let mut count: u64 = 0;
    for worker in worked {
        count = count.saturating_add(worker.ends.begun());
    }
    count
}

/// Tells the faults of sessions that are kept, in order of the workers; but nothing once a call of the writer has failed
/// since `before` of them had failed. Answers whether a session came each time that a worker waited for one.
pub fn tell_faults<E: Write>(worked: &[Worked], err: &mut Counted<E>, before: u64) -> bool
    requires { before < 2 ^ 64 - 1 }
    ensures tells { TellsUnlessFailed before (end_of E.contents err.old) (end_of E.contents err.new) (session_lines (faults_by worked.now)) }
    ensures came { result ≡ have_all_come worked.now }
{
    let mut have_come = true;
    for worker in worked {
        tell_each(worker.ends.faults(), err, before);
        have_come &= worker.ends.have_come();
    }
    have_come
}

/// And those of one worker.
fn tell_each<E: Write>(faults: &[SessionFault], err: &mut Counted<E>, before: u64)
    requires { before < 2 ^ 64 - 1 }
    ensures { TellsUnlessFailed before (end_of E.contents err.old) (end_of E.contents err.new) (session_lines faults.now) }
{
    for fault in faults {
        tell_fault(fault, err, before);
    }
}

/// And one fault.
fn tell_fault<E: Write>(fault: &SessionFault, err: &mut Counted<E>, before: u64)
    ensures { TellsUnlessFailed before (end_of E.contents err.old) (end_of E.contents err.new) (session_lines (fault.now ∷ [])) }
{
    match fault {
        SessionFault::Front(error) => Fault::Front(*error).tell_unless_failed(err, before),
        SessionFault::Listen => Fault::Listen.tell_unless_failed(err, before),
    }
}
