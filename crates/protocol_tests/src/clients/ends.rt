//! Readers, writers and memory that fail.
use super::exchanges::{EXCHANGES, Exchange};
use super::is_answered;
use client::{Client, ClientError};
use map_core::{Ask, AskError};
use std::alloc::{AllocError, Global};
use std::test::Fail;
use test_kit::protocol::{ALL_OF_ONE, FOUND};
use test_kit::{holds_at, is_equal_at, operation};
use wire::{Counted, FaultyReader, FaultyWriter};

/// The reader fails after so many bytes of the reply.
fn ends_as_the_reader_fails(
    alloc: Global,
    (line, request, reply, _): Exchange<'_>,
    after: usize,
) -> Result<(), Fail> {
    let reader = Counted::new(FaultyReader::new(Vec::from_slice(alloc, reply)?, after));
    let mut client = Client::new(alloc, reader, Counted::new(Vec::new(alloc)));
    let told = is_answered(
        alloc,
        &mut client,
        (line, "shut"),
        Some(ClientError::ReadFault),
    );
    let (reader, writer) = client.into_ends();
    told?;
    // What it was to give before it failed was read.
    let found = (reader.faults(), reader.end().after, writer.faults());
    is_equal_at(&found, &(1, 0, 0), &line)?;
    is_equal_at(&writer.end().as_slice(), &request, &after)
}

#[test]
fn a_reader_that_fails(rt: HostRuntime) -> Result<(), Fail> {
    for &exchange in &EXCHANGES {
        for after in 0..exchange.2.len() {
            ends_as_the_reader_fails(rt.alloc(), exchange, after)?;
        }
    }
    Ok(())
}

/// The writer takes so many bytes of the request: the client writes a front of it, and reads nothing.
fn ends_as_the_writer_fails(
    alloc: Global,
    (line, request, reply, _): Exchange<'_>,
    room: usize,
) -> Result<(), Fail> {
    let writer = Counted::new(FaultyWriter::new(alloc, room));
    let mut client = Client::new(alloc, Counted::new(reply), writer);
    let told = is_answered(
        alloc,
        &mut client,
        (line, "shut"),
        Some(ClientError::WriteFault),
    );
    let (reader, writer) = client.into_ends();
    told?;
    is_equal_at(&(*reader.end(), writer.faults()), &(reply, 1), &room)?;
    let taken = Some(writer.end().taken.as_slice());
    is_equal_at(&taken, &request.get(..room), &room)
}

#[test]
fn a_writer_that_fails(rt: HostRuntime) -> Result<(), Fail> {
    for &exchange in &EXCHANGES {
        for room in 0..exchange.1.len() {
            ends_as_the_writer_fails(rt.alloc(), exchange, room)?;
        }
    }
    Ok(())
}

/// If memory runs out before the request, the client says so and goes on; if it runs out at the reply, it has ended. The
/// test tells that as an error.
fn without_memory(alloc: Global, line: &str, reply: &[u8]) -> Result<(), Fail> {
    // Room for the request, so that the writer has no growth of its own.
    let room = Vec::with_capacity(alloc, 128)?;
    let request = operation(alloc, line)?;
    let mut client = Client::new(alloc, Counted::new(reply), Counted::new(room));
    let answer = client.ask(request);
    let was_refused = answer.is_err();
    let ended = client.ended();
    let (reader, writer) = client.into_ends();
    let is_read = reader.end().is_empty();
    let allowed = match answer {
        Ok(_) => ended.is_none() && is_read,
        Err(AskError::Memory) => ended.is_none()
            && writer.end().is_empty()
            && *reader.end() == reply,
        Err(AskError::GateShut) => ended == Some(ClientError::Memory) && is_read,
        _ => false,
    };
    holds_at(allowed, &ended)?;
    if was_refused {
        return Err(Fail::from(AllocError));
    }
    Ok(())
}

/// To be run with each allocation refused in turn: it passes only if nothing was refused.
#[test]
fn a_refused_growth_of_each_kind(rt: HostRuntime) -> Result<(), Fail> {
    without_memory(rt.alloc(), "get a", FOUND)?;
    without_memory(rt.alloc(), "fetch", ALL_OF_ONE)?;
    without_memory(rt.alloc(), "append a k", b"\x00\x00\x00\x02p\x00")
}
