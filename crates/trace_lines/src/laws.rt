//! Laws of events as lines, and of pictures.
ghost use Rattle.trace_lines.specs.Laws.{HasOneReading, HaveOneReading, CanTakeEffect, FitPage};

/// A line is that of at most one event.
pub fn line_has_one_reading()
    ensures { HasOneReading }
{}

/// Lines are those of at most one list of events.
pub fn lines_have_one_reading()
    ensures { HaveOneReading }
{}

/// The moments in a picture are those of operations one after another, each while it is open.
pub fn moments_can_be()
    ensures { CanTakeEffect }
{}

/// The lines of a picture have at most 80 columns.
pub fn pictures_fit_a_page()
    ensures { FitPage }
{}
