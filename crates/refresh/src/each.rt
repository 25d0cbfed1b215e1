//! Each relationship refreshed once, and what is said of it.
ghost use Rattle.std.specs.Prelude.{◌≡◌, ◌<◌, ◌-◌, ◌^◌, List, ℕ};
ghost use Rattle.wire.specs.Counted.{faults_in};
ghost use Rattle.wire.specs.Output.{Tells, end_of};
ghost use Rattle.refresh.specs.Due.{due_not_before};
ghost use Rattle.refresh.specs.Each.{RefreshesEach, is_good as good};
ghost use Rattle.refresh.specs.Folder.{FetchesFile};

use crate::error::RefreshError;
use crate::folder::Folder;
use crate::outcome::{Outcome, What};
use crate::outcome_lines::LineDetails;
use crate::report::write_line;
use crate::schedule::{Schedule, refresh_at};
use crate::target::Target;
use map_core::Reply;
use std::alloc::Global;
use std::fs::Files;
use std::io::Write;
use wire::{Counted, FrontError};

/// The time of the refreshes, and how long a relationship is not due again, in seconds.
#[derive(Clone, Copy)]
pub struct Times {
    pub time: u64,
    pub at_least: u64,
}

impl Times {
    /// When a relationship is due again. A server that asks to be asked each second is not obeyed.
    pub fn due(&self, outcome: &Outcome) -> u64
        ensures { result ≡ due_not_before self.now.time self.now.at_least outcome.now.due }
    {
        outcome.due.max(self.time.saturating_add(self.at_least))
    }
}

/// Refreshes each relationship once, in the order in which the schedule has them, and writes a line for each. Nothing else is
/// asked of the target. Answers whether each bundle was set or stood there already. A line that is not taken is a fault if
/// it belongs to the output; else it is dropped, and so are those after it. After a fault the refreshes before it are done.
pub fn refresh_each<H: Files, T: Target, L: Write>(
    alloc: Global,
    folder: &mut Folder<'_, H>,
    target: &mut T,
    schedule: &mut Schedule,
    times: &Times,
    lines: &mut Counted<L>,
    is_output: bool,
) -> Result<bool, RefreshError>
    requires { faults_in lines.old < 2 ^ 64 - 1 }
    ensures tells { (text : List ℕ) × Tells (end_of L.contents lines.old) (end_of L.contents lines.new) text }
    ensures each { RefreshesEach FetchesFile (λ f. f.remark) T.answers T.fault_in T.empties_in T.only_sends times.now (faults_in lines.old) is_output result
        (record { source = folder.old; target = target.old; schedule = schedule.old; lines = end_of L.contents lines.old })
        (record { source = folder.new; target = target.new; schedule = schedule.new; lines = end_of L.contents lines.new }) }
{
    let before = lines.faults();
    let mut all_went_well = true;
    for place in 0..schedule.len() {
        let Ok(outcome) = refresh_at(alloc, folder, target, schedule, place, times.time) else {
            return Err(RefreshError::Front(FrontError::Memory));
        };
        if let Some(fault) = target.fault() {
            return Err(fault);
        }
        let details = LineDetails {
            time: times.time,
            due: times.due(&outcome),
            domain: schedule.relationship(place).domain(),
            is_sent: target.is_sender(),
            has_emptied: target.has_emptied(),
            remark: folder.remark(),
        };
        let is_taken = write_line(lines, before, &outcome.what, &details);
        if is_output && !is_taken {
            return Err(RefreshError::Front(FrontError::WriteFault));
        }
        let is_well = is_good(&outcome);
        all_went_well = all_went_well && is_well;
    }
    Ok(all_went_well)
}

/// Whether the bundle was set, or an equal one stood there.
fn is_good(outcome: &Outcome) -> bool
    ensures { result ≡ good outcome.now.what }
{
    matches!(outcome.what, What::Taken(Reply::Stored | Reply::Unchanged))
}
