//! One event, read from its line.
ghost use Rattle.std.specs.Prelude.{◌≡◌, ◌^◌, None, Some, MatchOption};
ghost use Rattle.wire.specs.RequestForm.{request};
ghost use Rattle.wire.specs.Private.RequestReading.{read_line};
ghost use Rattle.trace_lines.specs.Private.EventReading.{number_below, Reads, caller_of, held_of, why_of, begin_of, step_of, end_of, quit_of, event_by_verb, event_of};

use crate::operation::{LineError, read_operation};
use std::alloc::Global;
use step_core::{Event, Why};
use wire::word::{read_number, split_word};
use wire::{RequestForm, request_of_line};

/// The event of a line, without its line feed: a verb, a caller, and what the verb takes, with single spaces between.
#[tactic(auto, unfolding(crate::specs::Private::EventReading::event_of))]
pub(crate) fn read_event(alloc: Global, line: &[u8]) -> Result<Event, LineError>
    ensures { Reads result (event_of line.now) }
{
    let Some((verb, rest)) = split_word(line) else {
        return Err(LineError::NoEvent);
    };
    read_by_verb(alloc, verb, rest)
}

#[tactic(auto, unfolding(crate::specs::Private::EventReading::event_by_verb))]
fn read_by_verb(alloc: Global, verb: &[u8], rest: &[u8]) -> Result<Event, LineError>
    ensures { Reads result (event_by_verb verb.now rest.now) }
{
    if verb == b"begin".as_slice() {
        read_begin(alloc, rest)
    } else if verb == b"step".as_slice() {
        or_no_event(read_step(rest))
    } else if verb == b"end".as_slice() {
        or_no_event(read_end(rest))
    } else if verb == b"quit".as_slice() {
        or_no_event(read_quit(rest))
    } else {
        Err(LineError::NoEvent)
    }
}

fn or_no_event(event: Option<Event>) -> Result<Event, LineError>
    ensures { Reads result event }
{
    match event {
        Some(event) => Ok(event),
        None => Err(LineError::NoEvent),
    }
}

/// A caller and a request.
#[tactic(auto, unfolding(crate::specs::Private::EventReading::begin_of))]
fn read_begin(alloc: Global, bytes: &[u8]) -> Result<Event, LineError>
    ensures { Reads result (begin_of bytes.now) }
{
    let Some((caller, line)) = split_word(bytes) else {
        return Err(LineError::NoEvent);
    };
    let Some(caller) = read_caller(caller) else {
        return Err(LineError::NoEvent);
    };
    let Some(form) = read_request(line) else {
        return Err(LineError::NoEvent);
    };
    let operation = read_operation(alloc, &form)?;
    Ok(Event::Begin(caller, operation))
}

fn read_request(line: &[u8]) -> Option<RequestForm<'_>>
    ensures { MatchOption result (read_line line.now ≡ None) (λ form. read_line line.now ≡ Some (request form)) }
{
    request_of_line(line)
}

#[tactic(auto, unfolding(crate::specs::Private::EventReading::step_of))]
fn read_step(word: &[u8]) -> Option<Event>
    ensures { result ≡ step_of word.now }
{
    Some(Event::Step(read_caller(word)?))
}

#[tactic(auto, unfolding(crate::specs::Private::EventReading::end_of))]
fn read_end(word: &[u8]) -> Option<Event>
    ensures { result ≡ end_of word.now }
{
    Some(Event::End(read_caller(word)?))
}

/// A caller, and why it gives up.
#[tactic(auto, unfolding(crate::specs::Private::EventReading::quit_of))]
fn read_quit(bytes: &[u8]) -> Option<Event>
    ensures { result ≡ quit_of bytes.now }
{
    let (caller, why) = split_word(bytes)?;
    let caller = read_caller(caller)?;
    Some(Event::Quit(caller, read_why(why)?))
}

#[tactic(auto, unfolding(crate::specs::Private::EventReading::caller_of, crate::specs::Private::EventReading::number_below))]
fn read_caller(word: &[u8]) -> Option<u32>
    ensures { result ≡ caller_of word.now }
{
    let number = read_number(word)?;
    if number < 0x1_0000_0000 {
        Some(number as u32)
    } else {
        None
    }
}

/// `memory`, or `held`, a shard from 0 to 255 and a revision.
#[tactic(auto, unfolding(crate::specs::Private::EventReading::why_of))]
fn read_why(bytes: &[u8]) -> Option<Why>
    ensures { result ≡ why_of bytes.now }
{
    match split_word(bytes) {
        None if bytes == b"memory".as_slice() => Some(Why::Memory),
        Some((word, rest)) if word == b"held".as_slice() => read_held(rest),
        _ => None,
    }
}

#[tactic(auto, unfolding(crate::specs::Private::EventReading::held_of))]
fn read_held(bytes: &[u8]) -> Option<Why>
    ensures { result ≡ held_of bytes.now }
{
    let (shard, revision) = split_word(bytes)?;
    let shard = read_shard(shard)?;
    Some(Why::Held {
        shard,
        revision: read_number(revision)?,
    })
}

#[tactic(auto, unfolding(crate::specs::Private::EventReading::number_below))]
fn read_shard(word: &[u8]) -> Option<usize>
    ensures { result ≡ number_below 256 word.now }
{
    let number = read_number(word)?;
    if number < 256 {
        Some(number as usize)
    } else {
        None
    }
}
