//! What is left if memory runs out.
use super::examples::{DIGEST, DUMP, MAP, PEM, SETS};
use super::{Command, left_by};
use dump_views::Profile;
use std::alloc::AllocError;
use std::test::Fail;
use test_kit::ends::{Left, Sink, Source};
use test_kit::holds_at;

/// A command, an input, and the output if memory does not run out.
static ROWS: [(Command, &[u8], &[u8]); 5] = [
    (
        Command::Map(&["a", "b", "example.org"], Profile::Whole),
        DUMP,
        MAP,
    ),
    (Command::Import, MAP, SETS),
    (Command::Pem("example.org"), DUMP, PEM),
    (Command::Digest, DUMP, DIGEST),
    (
        Command::Check(&["whole.json", "twice.json"]),
        b"",
        b"whole.json: bundle of 2 authorities (1 X.509, 1 JWT), sequence 1, refresh hint 2\ntwice.json: bundle of 1 authority (1 X.509, 0 JWT), sequence 0, no refresh hint\ntwice.json: 1 entry repeats an earlier one, kept once\n",
    ),
];

/// All went well; or a fault is told, out of memory or of a writer that could not grow, if standard error could.
fn is_left_by(left: &Left, output: &[u8]) -> bool {
    if left.status == 0 {
        return left.output.as_slice() == output && left.faults.is_empty();
    }
    let memory: &[u8] = b"fault 22\n";
    let writer: &[u8] = b"fault 54\n";
    let faults = left.faults.as_slice();
    let is_told = faults == memory || faults == writer || faults.is_empty();
    left.status == 1 && is_told && output.starts_with(left.output.as_slice())
}

#[test]
fn a_refused_growth_is_told(rt: HostRuntime) -> Result<(), Fail> {
    let alloc = rt.alloc();
    for &(command, input, output) in &ROWS {
        let (out, err) = (Sink::new(alloc), Sink::new(alloc));
        let left = left_by(alloc, command, Source::new(input), out, err)?;
        holds_at(is_left_by(&left, output), &output)?;
        if left.status != 0 {
            return Err(Fail::from(AllocError));
        }
    }
    Ok(())
}
