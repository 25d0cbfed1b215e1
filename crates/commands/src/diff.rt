//! The command `diff`: what changed from one dump to another.
ghost use Rattle.std.specs.Prelude.{◌≡◌, List, Err, IfOk, IfErr};
ghost use Rattle.commands.specs.Streams.{WritesText};
ghost use Rattle.wire.specs.Output.{end_of};
ghost use Rattle.commands.specs.declared.fault.Fault.TheVariants.{Front};
ghost use Rattle.commands.specs.Diff.{AreReadFew, Differ, DiffOf, DiffRun, NoDiff, inputs};
ghost use Rattle.dump_views.specs.ChangeLines.{lines_of};
ghost use Rattle.dump_views.specs.Changes.{Change};
ghost use Rattle.wire.specs.Counted.{faults_in, next_count};
ghost use Rattle.wire.specs.declared.error.FrontError.TheVariants.{WriteFault};
ghost use Rattle.map_core.specs.Name.{Name};

use crate::reading::read_domains;
use crate::{Fault, ended, write_flushed};
use dump_views::put_diff;
use std::alloc::{AllocError, Global};
use std::io::{Read, Write};
use wire::{Counted, FrontError};

/// Writes what changed from the dump of the old reader to that of the new one; answers the exit status: 0 if nothing changed,
/// 3 if something did, 1 after a fault. The new one is read only if the old one is a dump.
pub fn diff_over<R: Read, S: Read, W: Write, E: Write>(
    alloc: Global,
    old: &mut Counted<R>,
    new: &mut Counted<S>,
    out: &mut Counted<W>,
    err: &mut Counted<E>,
) -> u8
    ensures { DiffRun (inputs R.remaining S.remaining old.old old.new new.old new.new) result
        (end_of W.contents out.old) (end_of W.contents out.new) (end_of E.contents err.old) (end_of E.contents err.new) }
{
    ended(diff_inputs(alloc, old, new, out), err)
}

/// Writes what changed, and says whether something did.
fn diff_inputs<R: Read, S: Read, W: Write>(
    alloc: Global,
    old: &mut Counted<R>,
    new: &mut Counted<S>,
    out: &mut Counted<W>,
) -> Result<bool, Fault>
    ensures writes { let dumps = inputs R.remaining S.remaining old.old old.new new.old new.new in
        WritesText (DiffOf dumps) (NoDiff dumps) result (end_of W.contents out.old) (end_of W.contents out.new) }
    ensures reads { AreReadFew (inputs R.remaining S.remaining old.old old.new new.old new.new) }
    ensures write_fault { result ≡ Err (Front WriteFault) → faults_in out.new ≡ next_count (faults_in out.old) }
{
    let lines = match lines_between(alloc, old, new) {
        Ok(lines) => lines,
        Err(fault) => return Err(fault),
    };
    let text = lines.as_slice();
    match write_flushed(out, text) {
        Ok(()) => Ok(!text.is_empty()),
        Err(fault) => Err(fault),
    }
}

/// The lines of what changed.
fn lines_between<R: Read, S: Read>(
    alloc: Global,
    old: &mut Counted<R>,
    new: &mut Counted<S>,
) -> Result<Vec<u8>, Fault>
    ensures ok { IfOk result (λ lines. (changes : List (Name × Change))
        × Differ (inputs R.remaining S.remaining old.old old.new new.old new.new) changes × (lines.items ≡ lines_of changes)) }
    ensures err { IfErr result (λ fault. NoDiff (inputs R.remaining S.remaining old.old old.new new.old new.new) fault) }
    ensures reads { AreReadFew (inputs R.remaining S.remaining old.old old.new new.old new.new) }
    ensures no_write_fault { result ≡ Err (Front WriteFault) → ⊥ }
{
    let olds = match read_domains(alloc, old) {
        Ok(domains) => domains,
        Err(fault) => return Err(fault),
    };
    let news = match read_domains(alloc, new) {
        Ok(domains) => domains,
        Err(fault) => return Err(fault),
    };
    let mut lines = Vec::new(alloc);
    match put_diff(olds.pairs(), news.pairs(), &mut lines) {
        Ok(()) => Ok(lines),
        Err(AllocError) => Err(Fault::Front(FrontError::Memory)),
    }
}
