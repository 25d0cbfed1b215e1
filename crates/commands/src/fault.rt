//! Faults of commands.
ghost use Rattle.std.specs.Prelude.{◌≡◌, ◌≤◌, ◌+◌, ◌∷◌, ◌++◌, length};
ghost use Rattle.wire.specs.Counted.{faults_in};
ghost use Rattle.commands.specs.Fault.{asking_numbers, fault_line, fault_number, fault_numbers, number_text, numbers_text};
ghost use Rattle.wire.specs.Output.{Tells, TellsUnlessFailed, end_of};

use arrayvec::ArrayVec;
use client::{AskFault, ClientError};
use frame_front::DumpError;
use itoa::Buffer;
use map_core::AskError;
use refresh::{RefreshError, RelationError};
use shard_store::CloseError;
use std::alloc::AllocError;
use std::io::Write;
use thiserror::Error;
use wire::{Counted, FrontError, tell};

/// The most bytes of a fault's line: `fault`, a number of 3 digits, three of 20, four spaces and a line feed.
const LINE_BYTES: usize = 73;

type Line = ArrayVec<u8, LINE_BYTES>;

/// What a fault carries: at most three numbers.
type Carried = ArrayVec<u64, 3>;

/// Why a command ends with status 1. It is told as one line: `fault`, its number, and the numbers that say where and why.
#[derive(Clone, Copy, Debug, PartialEq, Eq, Error)]
pub enum Fault {
    /// Memory ran out, an end failed, the reads are used up, or frames are wrong.
    #[error(transparent)]
    Front(FrontError),
    /// The input is not a dump.
    #[error(transparent)]
    Dump(DumpError),
    /// This line of the input, from 1, is not an event, or not the words of a relationship whose domain is new.
    #[error("line {0} of the input is not what the command reads")]
    BadLine(u64),
    /// This frame of the input, from 0, is not a request or a reply that has a line.
    #[error("frame {0} of the input has no line")]
    BadFrame(u64),
    /// The text that this line of the input names, from 1, or this file of the command line, from 1, cannot be read.
    #[error("the file of line or place {0} cannot be read")]
    UnreadText(u64),
    /// No domain of the dump has this name of the command line, from 1.
    #[error("no domain of the dump has name {0}")]
    NotInDump(u64),
    /// The input is not a SPIFFE bundle map.
    #[error("the input is not a SPIFFE bundle map")]
    BadMap,
    /// This member of the bundle map, from 0, is not a trust domain and its bundle, or its name stands twice.
    #[error("member {0} of the bundle map is not a trust domain and its bundle")]
    BadMember(u64),
    /// The input has over 16,777,216 bytes.
    #[error("the input has over 16777216 bytes")]
    InputTooLong,
    /// A server cannot be asked.
    #[error(transparent)]
    Server(ServerFault),
    /// Relationships cannot be refreshed.
    #[error(transparent)]
    Refresh(RefreshFault),
    /// No snapshot is written, or it is not shown.
    #[error(transparent)]
    Snapshot(SnapshotFault),
    /// No connection can be accepted.
    #[error("no connection can be accepted")]
    Listen,
    /// The store gave no map at its end.
    #[error(transparent)]
    Close(CloseError),
    /// The file in which a server keeps its last map cannot be written.
    #[error("the file of the last map cannot be written")]
    Unsaved,
}

impl From<FrontError> for Fault {
    ghost use Rattle.std.specs.Prelude.{◌≡◌};
    ghost use Rattle.commands.specs.declared.fault.Fault.TheVariants.{Front};

    ghost from_gives = { λ error fault. fault ≡ Front error };

    fn from(error: FrontError) -> Fault {
        Fault::Front(error)
    }
}

impl From<AllocError> for Fault {
    ghost use Rattle.std.specs.Prelude.{◌≡◌};
    ghost use Rattle.commands.specs.declared.fault.Fault.TheVariants.{Front};
    ghost use Rattle.wire.specs.declared.error.FrontError.TheVariants.{Memory};

    ghost from_gives = { λ _ fault. fault ≡ Front Memory };

    fn from(_refused: AllocError) -> Fault {
        Fault::Front(FrontError::Memory)
    }
}

impl From<DumpError> for Fault {
    ghost use Rattle.std.specs.Prelude.{◌≡◌};
    ghost use Rattle.commands.specs.declared.fault.Fault.TheVariants.{Dump};

    ghost from_gives = { λ error fault. fault ≡ Dump error };

    fn from(error: DumpError) -> Fault {
        Fault::Dump(error)
    }
}

impl From<AskFault> for Fault {
    ghost use Rattle.std.specs.Prelude.{◌≡◌};
    ghost use Rattle.commands.specs.Ask.{asking_fault};

    ghost from_gives = { λ error fault. fault ≡ asking_fault error };

    fn from(error: AskFault) -> Fault {
        match error {
            AskFault::BadLine(line) => Fault::BadLine(line),
            AskFault::Unreadable(line) => Fault::UnreadText(line),
            AskFault::Server(error) => Fault::Server(ServerFault::Client(error)),
            AskFault::Front(error) => Fault::Front(error),
        }
    }
}

impl From<RefreshError> for Fault {
    ghost use Rattle.std.specs.Prelude.{◌≡◌};
    ghost use Rattle.commands.specs.Fault.{refresh_fault};

    ghost from_gives = { λ error result. result ≡ refresh_fault error };

    fn from(error: RefreshError) -> Fault {
        match error {
            RefreshError::Front(error) => Fault::Front(error),
            RefreshError::Client(error) => Fault::Server(ServerFault::Client(error)),
        }
    }
}

/// Why a server cannot be asked.
#[derive(Clone, Copy, Debug, PartialEq, Eq, Error)]
pub enum ServerFault {
    /// The stream to the server failed, or what came over it is not a reply.
    #[error(transparent)]
    Client(ClientError),
    /// No server listens at the port.
    #[error("no server listens at the port")]
    NoConnection,
}

/// Why relationships cannot be refreshed.
#[derive(Clone, Copy, Debug, PartialEq, Eq, Error)]
pub enum RefreshFault {
    /// The words of this line, from 1, are not a relationship.
    #[error("line {1} is not a relationship: {0}")]
    BadRelationship(RelationError, u64),
    /// The clock cannot be read.
    #[error("the clock cannot be read")]
    NoClock,
}

/// Why no snapshot is written, or why it is not shown.
#[derive(Clone, Copy, Debug, PartialEq, Eq, Error)]
pub enum SnapshotFault {
    /// The server refuses the fetch-all.
    #[error("the server refuses: {0}")]
    Refused(AskError),
    /// The name of this domain, from 1, is too long for a file.
    #[error("the name of domain {0} is too long for a file")]
    LongName(u64),
    /// The folder of snapshots cannot be read or written.
    #[error("the folder of snapshots cannot be read or written")]
    BadFolder,
}

impl Fault {
    pub fn number(&self) -> u8
        ensures { result ≡ fault_number self.now }
    {
        let (number, _) = self.numbers();
        number
    }

    /// Its number, and what it carries: a frame or a member, from 0, a line, a name, a domain or a file, from 1, or a shard.
    fn numbers(&self) -> (u8, Carried)
        ensures { result.0 ∷ result.1.items ≡ fault_numbers self.now }
    {
        match self {
            Fault::Front(error) => (error.number(), carried(&[])),
            Fault::Dump(DumpError::BadDump(frame)) => {
                (DumpError::BadDump(*frame).number(), carried(&[*frame]))
            }
            Fault::Dump(error) => (error.number(), carried(&[])),
            Fault::BadLine(line) => (70, carried(&[*line])),
            Fault::BadFrame(frame) => (76, carried(&[*frame])),
            Fault::UnreadText(line) => (77, carried(&[*line])),
            Fault::NotInDump(name) => (75, carried(&[*name])),
            Fault::BadMap => (64, carried(&[])),
            Fault::BadMember(member) => (65, carried(&[*member])),
            Fault::InputTooLong => (71, carried(&[])),
            Fault::Server(ServerFault::Client(error)) => (error.number(), carried(&[])),
            Fault::Server(ServerFault::NoConnection) => (78, carried(&[])),
            Fault::Refresh(RefreshFault::BadRelationship(error, line)) => {
                (79, carried(&[*line, u64::from(error.number())]))
            }
            Fault::Refresh(RefreshFault::NoClock) => (72, carried(&[])),
            Fault::Snapshot(SnapshotFault::Refused(error)) => (error.number(), asked(error)),
            Fault::Snapshot(SnapshotFault::LongName(domain)) => (73, carried(&[*domain])),
            Fault::Snapshot(SnapshotFault::BadFolder) => (74, carried(&[])),
            Fault::Listen => (57, carried(&[])),
            Fault::Close(CloseError::HeldAtEnd(shard)) => {
                (
                    CloseError::HeldAtEnd(*shard).number(),
                    carried(&[*shard as u64]),
                )
            }
            Fault::Close(error) => (error.number(), carried(&[])),
            Fault::Unsaved => (59, carried(&[])),
        }
    }

    fn line(&self) -> Line
        ensures { result.items ≡ fault_line self.now }
    {
        let (number, carried) = self.numbers();
        let mut line = ArrayVec::new();
        let mut digits = Buffer::new();
        let _fits = line.try_extend_from_slice(b"fault ");
        let _fits = line.try_extend_from_slice(digits.format(number).as_bytes());
        push_each(&mut line, carried.as_slice());
        let _fits = line.try_extend_from_slice(b"\n");
        line
    }

    /// Writes the line of the fault, and answers the exit status that goes with it. A line that standard error does not
    /// take is dropped.
    pub fn tell<E: Write>(&self, err: &mut Counted<E>) -> u8
        ensures status { result ≡ 1 }
        ensures tells { Tells (end_of E.contents err.old) (end_of E.contents err.new) (fault_line self.now) }
    {
        let line = self.line();
        tell(err, line.as_slice());
        1
    }

    /// Writes the line of the fault; but nothing if a call of the writer has failed since `before` of them had failed.
    pub fn tell_unless_failed<E: Write>(&self, err: &mut Counted<E>, before: u64)
        ensures { TellsUnlessFailed before (end_of E.contents err.old) (end_of E.contents err.new) (fault_line self.now) }
    {
        if err.faults() == before {
            self.tell(err);
        }
    }
}

/// The shard of a request that was given up, and its revisions.
fn asked(error: &AskError) -> Carried
    ensures { result.items ≡ asking_numbers error.now }
{
    match error {
        AskError::Worn { shard } => carried(&[*shard as u64]),
        AskError::Moved {
            shard,
            first,
            second,
        } => carried(&[*shard as u64, *first, *second]),
        AskError::Held { shard, revision } => carried(&[*shard as u64, *revision]),
        AskError::Memory | AskError::GateShut => carried(&[]),
    }
}

fn carried(numbers: &[u64]) -> Carried
    requires { length numbers.now ≤ 3 }
    ensures { result.items ≡ numbers.now }
{
    let mut carried = ArrayVec::new();
    let _fits = carried.try_extend_from_slice(numbers);
    carried
}

/// Adds numbers, at most three, each behind a space.
fn push_each(line: &mut Line, numbers: &[u64])
    requires room { length line.old.items ≤ 9 }
    requires few { length numbers.now ≤ 3 }
    ensures pushed { line.new.items ≡ line.old.items ++ numbers_text numbers.now }
    ensures short { length line.new.items ≤ 72 }
{
    for number in numbers {
        push_number(line, *number);
    }
}

/// Adds a space and a number.
fn push_number(line: &mut Line, number: u64)
    requires { length line.old.items + 21 ≤ 73 }
    ensures pushed { line.new.items ≡ line.old.items ++ number_text number }
    ensures short { length line.new.items ≤ length line.old.items + 21 }
{
    let mut digits = Buffer::new();
    let _fits = line.try_extend_from_slice(b" ");
    let _fits = line.try_extend_from_slice(digits.format(number).as_bytes());
}
