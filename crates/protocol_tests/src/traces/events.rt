//! Lines, and the events that they are.
use map_core::{Expect, Op};
use spiffe_doc::{Authority, Bundle, TrustDomain};
use std::alloc::{AllocError, Global};
use std::test::Fail;
use step_core::{Event, Why};
use test_kit::is_equal_at;
use trace_lines::{LinesError, read_events};

fn bundle_words(alloc: Global, bundle: &Bundle) -> Result<String, AllocError> {
    let count = bundle.authorities().len();
    match bundle.sequence() {
        Some(sequence) => format!(in alloc; "{count} authorities, sequence {sequence}"),
        None => format!(in alloc; "{count} authorities"),
    }
}

fn operation_words(alloc: Global, operation: &Op) -> Result<String, AllocError> {
    match operation {
        Op::Set(domain, bundle) => {
            let words = bundle_words(alloc, bundle)?;
            let name = domain.as_str();
            format!(in alloc; "sets {name} to {words}")
        }
        Op::SetIf(domain, expect, bundle) => {
            let words = bundle_words(alloc, bundle)?;
            let name = domain.as_str();
            format!(in alloc; "sets {name}, if {expect}, to {words}")
        }
        Op::Append(domain, authority) => {
            let name = domain.as_str();
            match authority {
                Authority::X509 { .. } => format!(in alloc; "appends an X.509 authority to {name}"),
                Authority::Jwt { .. } => format!(in alloc; "appends a JWT authority to {name}"),
            }
        }
        Op::Remove(domain) => format!(in alloc; "removes {}", domain.as_str()),
        Op::Get(domain) => format!(in alloc; "gets {}", domain.as_str()),
        Op::FetchAll => format!(in alloc; "fetches all"),
        Op::FetchUnless([first, ..]) => format!(in alloc; "fetches unless {first}.."),
    }
}

fn event_words(alloc: Global, event: &Event) -> Result<String, AllocError> {
    match event {
        Event::Begin(caller, operation) => {
            let words = operation_words(alloc, operation)?;
            format!(in alloc; "{caller} {words}")
        }
        Event::Step(caller) => format!(in alloc; "{caller} steps"),
        Event::End(caller) => format!(in alloc; "{caller} ends"),
        Event::Quit(caller, Why::Memory) => format!(in alloc; "{caller} is out of memory"),
        Event::Quit(caller, Why::Held { shard, revision }) => {
            format!(in alloc; "{caller} is held off from {shard} at {revision}")
        }
    }
}

/// Lines, each the only one of its input, and what happens.
static LINES: [(&str, &str); 18] = [
    ("begin 1 set a {\"keys\":[]}", "1 sets a to 0 authorities"),
    (
        "begin 4294967295 set a.example {\"keys\":[],\"spiffe_sequence\":7}\n",
        "4294967295 sets a.example to 0 authorities, sequence 7",
    ),
    (
        "begin 1 set a { \"keys\" : [] }",
        "1 sets a to 0 authorities",
    ),
    (
        "begin 0 setif a absent {\"keys\":[]}",
        "0 sets a, if no bundle, to 0 authorities",
    ),
    (
        "begin 0 setif a none {\"keys\":[]}\n",
        "0 sets a, if a bundle without a sequence, to 0 authorities",
    ),
    (
        "begin 0 setif a 18446744073709551615 {\"keys\":[]}",
        "0 sets a, if a bundle of sequence 18446744073709551615, to 0 authorities",
    ),
    (
        "begin 2 append a {\"kty\":\"RSA\",\"use\":\"jwt-svid\",\"n\":\"AQAB\",\"e\":\"AQAB\",\"kid\":\"k\"}",
        "2 appends a JWT authority to a",
    ),
    (
        "begin 2 append b {\"kty\":\"RSA\",\"use\":\"x509-svid\",\"n\":\"AQAB\",\"e\":\"AQAB\",\"x5c\":[\"AA==\"]}",
        "2 appends an X.509 authority to b",
    ),
    ("begin 3 remove a", "3 removes a"),
    ("begin 3 get a\n", "3 gets a"),
    ("begin 3 fetch", "3 fetches all"),
    (
        "begin 3 fetch unless 9cf4b161f3571e751912f9a78ae2015c4fb288afe59c798f5452a18d6254c893",
        "3 fetches unless 156..",
    ),
    ("step 10", "10 steps"),
    ("end 10\n", "10 ends"),
    ("quit 1 memory", "1 is out of memory"),
    ("quit 1 held 0 0", "1 is held off from 0 at 0"),
    (
        "quit 1 held 255 18446744073709551615\n",
        "1 is held off from 255 at 18446744073709551615",
    ),
    ("quit 0 held 9 1", "0 is held off from 9 at 1"),
];

#[test]
fn a_line_is_an_event(rt: HostRuntime) -> Result<(), Fail> {
    let alloc = rt.alloc();
    for &(line, wanted) in &LINES {
        let events = read_events(alloc, line.as_bytes())?;
        let words = match events.as_slice() {
            [event] => event_words(alloc, event)?,
            _ => return Err(Fail::from(line)),
        };
        drop(events);
        is_equal_at(&words.as_str(), &wanted, &line)?;
    }
    Ok(())
}

/// Inputs, and how many events they have or the number of their first line that is not an event.
static INPUTS: [(&[u8], Result<usize, LinesError>); 42] = [
    (b"", Ok(0)),
    (b"step 1", Ok(1)),
    (b"step 1\n", Ok(1)),
    (b"step 1\nstep 2", Ok(2)),
    (b"step 1\nstep 2\n", Ok(2)),
    (b"\n", Err(LinesError::BadLine(1))),
    (b"step 1\n\n", Err(LinesError::BadLine(2))),
    (b"step 1\n\nstep 2", Err(LinesError::BadLine(2))),
    (b"step 1\nstep\nend", Err(LinesError::BadLine(2))),
    (b"step 1\r\n", Err(LinesError::BadLine(1))),
    (b" step 1", Err(LinesError::BadLine(1))),
    (b"step  1", Err(LinesError::BadLine(1))),
    (b"step 1 ", Err(LinesError::BadLine(1))),
    (b"step 01", Err(LinesError::BadLine(1))),
    (b"step +1", Err(LinesError::BadLine(1))),
    (b"step -1", Err(LinesError::BadLine(1))),
    (b"step 4294967296", Err(LinesError::BadLine(1))),
    (b"Step 1", Err(LinesError::BadLine(1))),
    (b"stop 1", Err(LinesError::BadLine(1))),
    (b"# step 1", Err(LinesError::BadLine(1))),
    (b"end", Err(LinesError::BadLine(1))),
    (b"end a", Err(LinesError::BadLine(1))),
    (b"quit 1", Err(LinesError::BadLine(1))),
    (b"quit 1 out", Err(LinesError::BadLine(1))),
    (b"quit 1 memory 2", Err(LinesError::BadLine(1))),
    (b"quit 1 held 256 0", Err(LinesError::BadLine(1))),
    (b"quit 1 held 1", Err(LinesError::BadLine(1))),
    (
        b"quit 1 held 1 18446744073709551616",
        Err(LinesError::BadLine(1)),
    ),
    (b"begin 1", Err(LinesError::BadLine(1))),
    (b"begin fetch", Err(LinesError::BadLine(1))),
    (b"begin 1 fetch all", Err(LinesError::BadLine(1))),
    (b"begin 1 version 2", Err(LinesError::BadLine(1))),
    (b"begin 1 get", Err(LinesError::BadLine(1))),
    (b"begin 1 get A", Err(LinesError::BadLine(1))),
    (b"begin 1 get a b", Err(LinesError::BadLine(1))),
    (b"begin 1 remove ", Err(LinesError::BadLine(1))),
    (b"begin 1 set a", Err(LinesError::BadLine(1))),
    (b"begin 1 set a {}", Err(LinesError::BadLine(1))),
    (
        b"begin 1 set a {\"keys\":[],\"x\":\"\xff\"}",
        Err(LinesError::BadLine(1)),
    ),
    (
        b"begin 1 setif a 07 {\"keys\":[]}",
        Err(LinesError::BadLine(1)),
    ),
    (b"begin 1 append a {}", Err(LinesError::BadLine(1))),
    (
        b"step 1\nbegin 1 append a {\"kty\":\"RSA\",\"use\":\"jwt-svid\"}",
        Err(LinesError::BadLine(2)),
    ),
];

#[test]
fn the_first_line_that_is_no_event_is_told(rt: HostRuntime) -> Result<(), Fail> {
    for &(input, wanted) in &INPUTS {
        let found = match read_events(rt.alloc(), input) {
            Ok(events) => Ok(events.len()),
            Err(error) => Err(error),
        };
        is_equal_at(&found, &wanted, &input)?;
    }
    Ok(())
}

#[test]
fn a_refused_growth_gives_no_events(rt: HostRuntime) -> Result<(), Fail> {
    let input = b"begin 1 set a-name-of-over-24-bytes.example {\"keys\":[]}\nstep 1\nend 1\n";
    match read_events(rt.alloc(), input.as_slice()) {
        Ok(events) => is_equal_at(&events.len(), &3, &"all lines"),
        Err(LinesError::Memory) => Err(Fail::from(AllocError)),
        Err(error) => is_equal_at(&error, &LinesError::Memory, &"a refused growth"),
    }
}
