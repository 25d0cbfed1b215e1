//! Readers and writers that fail.
use super::{SET_AND_FETCH_ALL, SET_AND_GET, SET_GET_AND_FETCH_ALL, STORED_AND_FOUND, ended_of};
use std::alloc::AllocError;
use std::test::Fail;
use test_kit::protocol::{ALL_OF_NONE, ALL_OF_ONE, Calls, Pieces, STORED};
use test_kit::{holds_at, is_equal, is_equal_at};
use wire::{Counted, FaultyReader, FaultyWriter, FrontError};

// The reader fails after each front of the set and the get: the whole frames before are answered.
#[test]
fn a_reader_that_fails(rt: HostRuntime) -> Result<(), Fail> {
    for after in 0..=25 {
        let bytes = Vec::from_slice(rt.alloc(), SET_AND_GET)?;
        let mut reader = Counted::new(FaultyReader::new(bytes, after));
        let mut writer = Counted::new(Vec::new(rt.alloc()));
        let ended = ended_of(rt.alloc(), &mut reader, &mut writer, 100);
        let written = match after {
            0..=17 => 0,
            18..=24 => 5,
            _ => 21,
        };
        let is_front = Some(writer.end().as_slice()) == STORED_AND_FOUND.get(..written);
        let found = (ended, is_front, reader.faults(), writer.faults());
        let wanted = (Err(FrontError::ReadFault), true, 1, 0);
        is_equal_at(&found, &wanted, &after)?;
    }
    Ok(())
}

// The writer fails after each front of the output: what it took is that front.
#[test]
fn a_writer_that_fails(rt: HostRuntime) -> Result<(), Fail> {
    for room in 0..=21 {
        let mut reader = Counted::new(SET_AND_GET);
        let mut writer = Counted::new(FaultyWriter::new(rt.alloc(), room));
        let ended = ended_of(rt.alloc(), &mut reader, &mut writer, 100);
        let is_front = Some(writer.end().taken.as_slice()) == STORED_AND_FOUND.get(..room);
        let found = (ended, is_front, reader.faults(), writer.faults());
        let wanted = if room < 21 {
            (Err(FrontError::WriteFault), true, 0, 1)
        } else {
            (Ok(2), true, 0, 0)
        };
        is_equal_at(&found, &wanted, &room)?;
    }
    Ok(())
}

/// Whether the bytes are the first and then the second.
fn is_joined(bytes: &[u8], first: &[u8], second: &[u8]) -> bool {
    bytes.strip_prefix(first) == Some(second)
}

/// To be run with each allocation refused in turn. A session that meets a refusal ends out of memory with whole replies to
/// a prefix of the requests, or has answered one of them so; the test tells that as an error. So it passes only if nothing was
/// refused.
#[test]
fn a_refused_growth_is_answered(rt: HostRuntime) -> Result<(), Fail> {
    const NO_MEMORY: &[u8] = b"\x00\x00\x00\x01\x16";
    let mut reader = Counted::new(SET_AND_FETCH_ALL);
    // Room for all replies, so that the writer has no growth of its own.
    let mut writer = Counted::new(Vec::with_capacity(rt.alloc(), 64)?);
    let ended = ended_of(rt.alloc(), &mut reader, &mut writer, 100);
    let written = writer.end().as_slice();
    let both = is_joined(written, STORED, ALL_OF_ONE);
    let one_refused = is_joined(written, NO_MEMORY, ALL_OF_NONE)
        || is_joined(written, STORED, NO_MEMORY);
    let prefix = written.is_empty() || written == STORED || both;
    match ended {
        Ok(2) if both => Ok(()),
        Ok(2) if one_refused => Err(Fail::from(AllocError)),
        Err(FrontError::Memory) if prefix => Err(Fail::from(FrontError::Memory)),
        _ => holds_at(false, &ended),
    }
}

/// Two requests come by one read and a third by the next: each round is one write, which is flushed.
#[test]
fn each_round_is_one_write(rt: HostRuntime) -> Result<(), Fail> {
    let mut reader = Counted::new(Pieces {
        bytes: SET_GET_AND_FETCH_ALL,
        first: 25,
        size: 4096,
    });
    let mut writer = Counted::new(Calls {
        writes: 0,
        flushes: 0,
    });
    let ended = ended_of(rt.alloc(), &mut reader, &mut writer, 100);
    let found = (ended, writer.end().writes, writer.end().flushes);
    is_equal(&found, &(Ok(3), 2, 2))
}
