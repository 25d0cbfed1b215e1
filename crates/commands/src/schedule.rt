//! Schedules of the lists that the command `refresh` reads.
ghost use Rattle.std.specs.Prelude.{◌≡◌, ℕ, List, Option, IfOk, IfErr};
ghost use Rattle.wire.specs.Counted.{end_in};
ghost use Rattle.commands.specs.Schedule.{list_fault, NoSchedule, Schedules};

use crate::fault::{Fault, RefreshFault};
use crate::input::{Extent, read_input};
use refresh::{ListError, Schedule, read_list};
use std::alloc::Global;
use std::fs::{File, Files};
use std::io::Read;
use wire::{Counted, FrontError};

/// The relationships of the list that is the file of this path, each due at 0.
pub fn read_schedule<H: Files>(alloc: Global, host: &H, list: &str) -> Result<Schedule, Fault>
    ensures ok { IfOk result (λ schedule. (left_old : Option (List ℕ)) × (left_new : Option (List ℕ)) × Schedules schedule left_old left_new) }
    ensures err { IfErr result (λ fault. (left_old : Option (List ℕ)) × (left_new : Option (List ℕ)) × NoSchedule fault left_old left_new) }
{
    let Ok(file) = File::open(host, list) else {
        return Err(Fault::Front(FrontError::ReadFault));
    };
    schedule_of(alloc, &mut Counted::new(file))
}

/// The relationships of the list that is the input, each due at 0.
fn schedule_of<R: Read>(alloc: Global, reader: &mut Counted<R>) -> Result<Schedule, Fault>
    ensures ok { IfOk result (λ schedule. Schedules schedule (R.remaining (end_in reader.old)) (R.remaining (end_in reader.new))) }
    ensures err { IfErr result (λ fault. NoSchedule fault (R.remaining (end_in reader.old)) (R.remaining (end_in reader.new))) }
{
    let list = read_input(alloc, Extent::Limited, reader)?;
    let relationships = match read_list(alloc, list.as_slice()) {
        Ok(listed) => listed,
        Err(error) => return Err(fault_of(error)),
    };
    Ok(Schedule::new(alloc, relationships)?)
}

/// The fault of a list that is refused.
fn fault_of(error: ListError) -> Fault
    ensures { result ≡ list_fault error }
{
    match error {
        ListError::BadLine(line) => Fault::BadLine(line),
        ListError::BadRelationship(error, line) => {
            Fault::Refresh(RefreshFault::BadRelationship(error, line))
        }
        ListError::Memory => Fault::Front(FrontError::Memory),
    }
}
