//! How commands end.
ghost use Rattle.std.specs.Prelude.{◌≡◌, ◌≢◌};
ghost use Rattle.commands.specs.Streams.{Ends, exit_status, last_line};
ghost use Rattle.wire.specs.Output.{TellsUnlessFailed, end_of};

use crate::fault::Fault;
use std::io::Write;
use wire::Counted;

/// What a command comes to, if no fault ends it.
pub trait Outcome {
    ghost use Rattle.std.specs.Prelude.{◌≡◌, ℕ};

    // The exit status that goes with it.
    ghost status_of: { Self → ℕ };

    fn status(&self) -> u8
        ensures { result ≡ status_of self.now };
}

/// All went well.
impl Outcome for () {
    ghost use Rattle.commands.specs.Streams.{well};

    ghost status_of = { well };

    fn status(&self) -> u8 {
        0
    }
}

/// Whether there is something that the caller is to know.
impl Outcome for bool {
    ghost use Rattle.commands.specs.Streams.{three_if};

    ghost status_of = { three_if };

    fn status(&self) -> u8 {
        if *self { 3 } else { 0 }
    }
}

/// Tells the fault that ended a command, if one did; answers the exit status.
pub fn ended<T: Outcome + Drop, E: Write>(end: Result<T, Fault>, err: &mut Counted<E>) -> u8
    ensures ends { Ends T.status_of end result (end_of E.contents err.old) (end_of E.contents err.new) }
    ensures silent { result ≢ 1 → err.new ≡ err.old }
{
    match end {
        Ok(outcome) => outcome.status(),
        Err(fault) => fault.tell(err),
    }
}

/// The same after other lines: nothing is told if a call of the writer has failed since `before` of them had failed.
#[tactic(auto, using(wire::proofs::OutputLemmas::told_nothing))]
pub fn ended_after<T: Outcome + Drop, E: Write>(
    end: Result<T, Fault>,
    err: &mut Counted<E>,
    before: u64,
) -> u8
    ensures status { result ≡ exit_status T.status_of end }
    ensures tells { TellsUnlessFailed before (end_of E.contents err.old) (end_of E.contents err.new) (last_line end) }
{
    match end {
        Ok(outcome) => outcome.status(),
        Err(fault) => {
            fault.tell_unless_failed(err, before);
            1
        }
    }
}
