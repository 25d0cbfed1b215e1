//! A client whose server's bytes are written down beforehand: what it writes, and what it makes of what it reads.
mod broken;
mod ends;
mod exchanges;
mod longest;

use client::{Client, ClientError};
use map_core::Ask;
use std::alloc::Global;
use std::io::{Read, Write};
use std::test::Fail;
use test_kit::{Shown, is_equal, is_equal_at, play_line};

/// A line is answered so, and then the client has ended for this reason, if for one.
fn is_answered<R: Read, W: Write>(
    alloc: Global,
    client: &mut Client<R, W>,
    (line, answer): (&str, &str),
    ended: Option<ClientError>,
) -> Result<(), Fail> {
    play_line(alloc, Shown::Whole, client, (line, answer))?;
    is_equal_at(&client.ended(), &ended, &line)
}

/// The numbers by which users know why a client has ended.
#[test]
fn numbers_of_errors(_rt: HostRuntime) -> Result<(), Fail> {
    let rows = [
        (ClientError::Memory.number(), 22),
        (ClientError::BadLength.number(), 50),
        (ClientError::BadReply.number(), 58),
        (ClientError::Truncated.number(), 52),
        (ClientError::ReadFault.number(), 53),
        (ClientError::WriteFault.number(), 54),
    ];
    for &(found, wanted) in &rows {
        is_equal(&found, &wanted)?;
    }
    Ok(())
}
