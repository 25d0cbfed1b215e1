//! The command `digest`: the SHA-256 of a dump.
ghost use Rattle.std.specs.Prelude.{◌≡◌};
ghost use Rattle.commands.specs.declared.input.Extent.TheVariants.{Any};
ghost use Rattle.commands.specs.Streams.{source_of, streams};
ghost use Rattle.commands.specs.Pem.{DigestOf};
ghost use Rattle.commands.specs.Reading.{Filtered, Filters, Unread};
ghost use Rattle.wire.specs.Output.{end_of};

use crate::{DumpSink, Fault, ended, read_dump_into, write_flushed};
use dump_views::PieceDigest;
use spiffe_doc::{Bundle, Memory, TrustDomain};
use std::alloc::Global;
use std::io::{Read, Write};
use wire::Counted;

/// Reads a dump and writes its SHA-256; answers the exit status.
pub fn digest_over<R: Read, W: Write, E: Write>(
    alloc: Global,
    reader: &mut Counted<R>,
    out: &mut Counted<W>,
    err: &mut Counted<E>,
) -> u8
    ensures tells { Filters Any DigestOf (Unread Any) result
        (streams R.remaining W.contents E.contents reader.old out.old err.old)
        (streams R.remaining W.contents E.contents reader.new out.new err.new) }
    ensures silent { result ≡ 0 → err.new ≡ err.old }
{
    ended(digest_input(alloc, reader, out), err)
}

fn digest_input<R: Read, W: Write>(
    alloc: Global,
    reader: &mut Counted<R>,
    out: &mut Counted<W>,
) -> Result<(), Fault>
    ensures { Filtered Any DigestOf (Unread Any) result (source_of R.remaining reader.old) (source_of R.remaining reader.new)
        (end_of W.contents out.old) (end_of W.contents out.new) }
{
    let mut digest = PieceDigest::new();
    read_dump_into(alloc, reader, &mut digest)?;
    let line = digest.line();
    write_flushed(out, &line)
}

/// The digest is of the bytes, whatever the domains are.
impl DumpSink for PieceDigest {
    ghost use Rattle.dump_views.specs.Digest.{HasHashed};

    ghost holds = { λ digest came items. HasHashed digest came };

    ghost kept = { λ _. tt };

    fn take_bytes(&mut self, piece: &[u8]) {
        self.take(piece);
    }

    fn take_domain(&mut self, _domain: TrustDomain, _bundle: Bundle) -> Result<(), Memory> {
        Ok(())
    }
}
