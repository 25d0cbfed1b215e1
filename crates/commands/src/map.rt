//! The command `map`: a dump becomes one bundle map.
ghost use Rattle.std.specs.Prelude.{◌≡◌, ◌++◌, ◌∷◌, [], map, Err, IfOk, IfErr};
ghost use Rattle.commands.specs.declared.input.Extent.TheVariants.{Any};
ghost use Rattle.dump_views.specs.Choice.{AreThere};
ghost use Rattle.dump_views.specs.Map.{map_text, shown};
ghost use Rattle.commands.specs.Input.{ReadsInput};
ghost use Rattle.commands.specs.Streams.{source_of, streams};
ghost use Rattle.commands.specs.declared.fault.Fault.TheVariants.{Front, NotInDump};
ghost use Rattle.commands.specs.Map.{MapOf, NoMap, wanted as wanted_of};
ghost use Rattle.commands.specs.Private.Choosing.{NotWanted};
ghost use Rattle.commands.specs.Reading.{Filtered, Filters};
ghost use Rattle.wire.specs.Counted.{end_in, faults_in, next_count, reads_of};
ghost use Rattle.wire.specs.Output.{end_of};
ghost use Rattle.wire.specs.declared.error.FrontError.TheVariants.{Memory, ReadFault, WriteFault};

use crate::reading::read_domains;
use crate::{Fault, ended, write_flushed};
use dump_views::{ChoiceError, Profile, choose, write_map};
use map_core::Snapshot;
use spiffe_doc::{Bundle, TrustDomain};
use std::alloc::{AllocError, Global};
use std::io::{Read, Write};
use wire::{Counted, FrontError};

/// Reads a dump and writes the bundle map of the domains of these names, of all if there are no names; answers the exit status.
pub fn map_over<R: Read, W: Write, E: Write>(
    alloc: Global,
    names: &[TrustDomain],
    profile: Profile,
    reader: &mut Counted<R>,
    out: &mut Counted<W>,
    err: &mut Counted<E>,
) -> u8
    ensures maps { Filters Any (MapOf names.now profile) (NoMap names.now) result
        (streams R.remaining W.contents E.contents reader.old out.old err.old)
        (streams R.remaining W.contents E.contents reader.new out.new err.new) }
    ensures silent { result ≡ 0 → err.new ≡ err.old }
{
    ended(map_input(alloc, names, profile, reader, out), err)
}

fn map_input<R: Read, W: Write>(
    alloc: Global,
    names: &[TrustDomain],
    profile: Profile,
    reader: &mut Counted<R>,
    out: &mut Counted<W>,
) -> Result<(), Fault>
    ensures { Filtered Any (MapOf names.now profile) (NoMap names.now) result (source_of R.remaining reader.old) (source_of R.remaining reader.new)
        (end_of W.contents out.old) (end_of W.contents out.new) }
{
    let text = map_of(alloc, names, profile, reader)?;
    write_flushed(out, text.as_slice())
}

/// The map of the dump that is the input.
fn map_of<R: Read>(
    alloc: Global,
    names: &[TrustDomain],
    profile: Profile,
    reader: &mut Counted<R>,
) -> Result<Vec<u8>, Fault>
    ensures ok { IfOk result (λ text. MapOf names.now profile text.items (R.remaining (end_in reader.old)) (R.remaining (end_in reader.new))) }
    ensures err { IfErr result (λ fault. NoMap names.now fault (R.remaining (end_in reader.old)) (R.remaining (end_in reader.new))) }
    ensures reads { ReadsInput Any result (reads_of reader.old) (reads_of reader.new) }
    ensures read_fault { result ≡ Err (Front ReadFault) → faults_in reader.new ≡ next_count (faults_in reader.old) }
    ensures no_write_fault { result ≡ Err (Front WriteFault) → ⊥ }
{
    let domains = read_domains(alloc, reader)?;
    let domains = wanted(alloc, domains, names)?;
    Ok(map_line(alloc, domains.pairs(), profile)?)
}

/// The domains of these names; all of them, if there are no names.
fn wanted(alloc: Global, domains: Snapshot, names: &[TrustDomain]) -> Result<Snapshot, Fault>
    ensures ok { IfOk result (λ some. (some ≡ wanted_of names.now domains) × AreThere names.now domains) }
    ensures err { IfErr result (λ fault. NotWanted fault names.now domains) }
{
    if names.is_empty() {
        return Ok(domains);
    }
    match choose(alloc, domains, names) {
        Ok(some) => Ok(some),
        Err(ChoiceError::NoDomain(place)) => {
            Err(Fault::NotInDump((place as u64).saturating_add(1)))
        }
        Err(ChoiceError::Memory) => Err(Fault::Front(FrontError::Memory)),
    }
}

/// The map of these domains, as a line.
fn map_line(
    alloc: Global,
    domains: &[(TrustDomain, Bundle)],
    profile: Profile,
) -> Result<Vec<u8>, AllocError>
    ensures { IfOk result (λ text. text.items ≡ map_text (map (shown profile) domains.now) ++ 10 ∷ []) }
{
    let mut text = write_map(alloc, domains, profile)?;
    text.push(b'\n')?;
    Ok(text)
}
