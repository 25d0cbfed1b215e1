//! The command `pem`: the X.509 authorities of a domain of a dump.
ghost use Rattle.std.specs.Prelude.{◌≡◌, Err};
ghost use Rattle.commands.specs.declared.input.Extent.TheVariants.{Any};
ghost use Rattle.commands.specs.Streams.{source_of, streams};
ghost use Rattle.commands.specs.declared.fault.Fault.TheVariants.{Front};
ghost use Rattle.commands.specs.Pem.{NoPem, PemOf};
ghost use Rattle.commands.specs.Reading.{Filtered, Filters};
ghost use Rattle.wire.specs.Output.{end_of};

use crate::{DumpSink, Fault, ended, read_dump_into, write_flushed};
use dump_views::put_pem;
use spiffe_doc::{Bundle, Memory, TrustDomain};
use std::alloc::Global;
use std::io::{Read, Write};
use wire::{Counted, FrontError};

/// Reads a dump and writes the X.509 authorities of the domain of this name as PEM; answers the exit status.
pub fn pem_over<R: Read, W: Write, E: Write>(
    alloc: Global,
    name: &TrustDomain,
    reader: &mut Counted<R>,
    out: &mut Counted<W>,
    err: &mut Counted<E>,
) -> u8
    ensures shows { Filters Any (PemOf name.now) (NoPem name.now) result
        (streams R.remaining W.contents E.contents reader.old out.old err.old)
        (streams R.remaining W.contents E.contents reader.new out.new err.new) }
    ensures silent { result ≡ 0 → err.new ≡ err.old }
{
    ended(pem_input(alloc, name, reader, out), err)
}

fn pem_input<R: Read, W: Write>(
    alloc: Global,
    name: &TrustDomain,
    reader: &mut Counted<R>,
    out: &mut Counted<W>,
) -> Result<(), Fault>
    ensures { Filtered Any (PemOf name.now) (NoPem name.now) result (source_of R.remaining reader.old) (source_of R.remaining reader.new)
        (end_of W.contents out.old) (end_of W.contents out.new) }
{
    let mut sought = Sought { name, bundle: None };
    read_dump_into(alloc, reader, &mut sought)?;
    let Sought { bundle, .. } = sought;
    let Some(bundle) = bundle else {
        return Err(Fault::NotInDump(1));
    };
    let mut text = Vec::new(alloc);
    put_pem(&bundle, &mut text)?;
    write_flushed(out, text.as_slice())
}

/// The bundle of a domain, once it has come.
#[derive(Drop)]
struct Sought<'a> {
    name: &'a TrustDomain,
    bundle: Option<Bundle>,
}

/// Of all domains that of the name is kept.
impl DumpSink for Sought<'_> {
    ghost use Rattle.std.specs.Prelude.{◌≡◌, ℕ, List};
    ghost use Rattle.dump_views.specs.Changes.{held_under};

    ghost holds = { λ sought came items. held_under items sought.name.now ≡ sought.bundle };

    ghost Kept = { List ℕ };

    ghost kept = { λ sought. sought.name.now };

    fn take_bytes(&mut self, _piece: &[u8]) {}

    fn take_domain(&mut self, domain: TrustDomain, bundle: Bundle) -> Result<(), Memory> {
        if let Some(_) = &self.bundle {
            return Ok(());
        }
        if domain == *self.name {
            self.bundle = Some(bundle);
            return Ok(());
        }
        Ok(())
    }
}
