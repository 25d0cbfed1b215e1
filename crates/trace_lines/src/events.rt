//! Events, read from an input that has a line for each.
ghost use Rattle.std.specs.Prelude.{◌≡◌, ◌<◌, ◌∷◌, length, IfOk, IfErr};
ghost use Rattle.trace_lines.specs.Events.{lines_in, AreEvents, AreNone};

use crate::event_line::read_event;
use crate::operation::LineError;
use memchr::memchr;
use std::alloc::Global;
use step_core::Event;
use thiserror::Error;

/// Why lines are not events.
#[derive(Clone, Copy, Debug, PartialEq, Eq, Error)]
pub enum LinesError {
    /// The first line, from 1, that is not an event's.
    #[error("line {0} is not an event")]
    BadLine(u64),
    #[error("out of memory")]
    Memory,
}

/// The events of an input, a line each, in order. A line feed ends a line, which the last may lack.
pub fn read_events(alloc: Global, input: &[u8]) -> Result<Vec<Event>, LinesError>
    ensures ok { IfOk result (λ events. AreEvents (lines_in input.now) events.items) }
    ensures err { IfErr result (λ error. AreNone error (lines_in input.now)) }
{
    let mut events = Vec::new(alloc);
    let mut rest = input;
    while !rest.is_empty() {
        let (line, after) = split_line(rest);
        let event = match read_event(alloc, line) {
            Ok(event) => event,
            Err(LineError::NoEvent) => return Err(LinesError::BadLine(events.len() as u64 + 1)),
            Err(LineError::Memory) => return Err(LinesError::Memory),
        };
        if let Err(_) = events.push(event) {
            return Err(LinesError::Memory);
        }
        rest = after;
    }
    Ok(events)
}

/// The first line, without its line feed, and what follows it.
fn split_line(bytes: &[u8]) -> (&[u8], &[u8])
    requires { 0 < length bytes.now }
    ensures first { lines_in bytes.now ≡ result.0.now ∷ lines_in result.1.now }
    ensures less { length result.1.now < length bytes.now }
{
    match memchr(b'\n', bytes) {
        Some(at) => (&bytes[..at], &bytes[at + 1..]),
        None => (bytes, &[]),
    }
}
