//! Lines of refreshes, as they are written.
ghost use Rattle.std.specs.Prelude.{◌≡◌, ◌==◌};
ghost use Rattle.wire.specs.Counted.{faults_in};
ghost use Rattle.wire.specs.Output.{TellsUnlessFailed, end_of};
ghost use Rattle.refresh.specs.OutcomeLine.{details_of, outcome_line as line_of_outcome};

use crate::outcome::What;
use crate::outcome_lines::{LineDetails, outcome_line};
use std::io::Write;
use wire::{Counted, tell_flushed};

/// Writes the line of an outcome, and sees that the writer keeps nothing back; but nothing if a call of the writer has
/// failed since `before` of them had failed. Answers whether none has failed since.
pub fn write_line<W: Write>(
    end: &mut Counted<W>,
    before: u64,
    what: &What,
    details: &LineDetails<'_>,
) -> bool
    ensures tells { TellsUnlessFailed before (end_of W.contents end.old) (end_of W.contents end.new) (line_of_outcome (details_of details.now) what.now) }
    ensures taken { result ≡ (faults_in end.new == before) }
{
    if end.faults() != before {
        return false;
    }
    let line = outcome_line(what, details);
    tell_flushed(end, line.as_slice());
    end.faults() == before
}
