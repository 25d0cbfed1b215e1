//! Lines that are asked of whoever keeps a map, and their answers.
use crate::texts::{Shown, answer_text};
use crate::words::operation;
use map_core::{Ask, AskError, Reply};
use std::alloc::Global;
use std::test::Fail;

/// Fails unless the answer to the line is this one.
pub fn is_answer(
    alloc: Global,
    shown: Shown,
    row: (&str, &str),
    answer: &Result<Reply, AskError>,
) -> Result<(), Fail> {
    let (line, wanted) = row;
    let text = answer_text(alloc, shown, answer)?;
    if text.as_str() == wanted {
        return Ok(());
    }
    Err(Fail::from(format!(in alloc; "{line}: {text}, and not {wanted}")?))
}

/// Asks a line. Fails unless it is answered so.
pub fn play_line<A: Ask>(
    alloc: Global,
    shown: Shown,
    map: &mut A,
    row: (&str, &str),
) -> Result<(), Fail> {
    let (line, _) = row;
    let answer = map.ask(operation(alloc, line)?);
    is_answer(alloc, shown, row, &answer)
}

/// Asks one line after another. Fails unless each is answered so.
pub fn play<A: Ask>(
    alloc: Global,
    shown: Shown,
    map: &mut A,
    rows: &[(&str, &str)],
) -> Result<(), Fail> {
    for &row in rows {
        play_line(alloc, shown, map, row)?;
    }
    Ok(())
}
