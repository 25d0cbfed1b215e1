//! The command `migrate`: a dump of version 1 becomes requests of version 2.
ghost use Rattle.std.specs.Prelude.{◌≡◌};
ghost use Rattle.commands.specs.declared.input.Extent.TheVariants.{Limited};
ghost use Rattle.wire.specs.Output.{end_of};
ghost use Rattle.commands.specs.Migrate.{MigrationOf};
ghost use Rattle.commands.specs.Reading.{Filtered, Filters, Unread};
ghost use Rattle.commands.specs.Streams.{source_of, streams};

use crate::ending::ended;
use crate::fault::Fault;
use crate::input::{Extent, read_input};
use crate::output::write_flushed;
use frame_front::migrate;
use std::alloc::Global;
use std::io::{Read, Write};
use wire::Counted;

/// Reads a dump and writes the requests that store it again; answers the exit status.
pub fn migrate_over<R: Read, W: Write, E: Write>(
    alloc: Global,
    reader: &mut Counted<R>,
    out: &mut Counted<W>,
    err: &mut Counted<E>,
) -> u8
    ensures migrates { Filters Limited MigrationOf (Unread Limited) result
        (streams R.remaining W.contents E.contents reader.old out.old err.old)
        (streams R.remaining W.contents E.contents reader.new out.new err.new) }
    ensures silent { result ≡ 0 → err.new ≡ err.old }
{
    ended(migrate_input(alloc, reader, out), err)
}

fn migrate_input<R: Read, W: Write>(
    alloc: Global,
    reader: &mut Counted<R>,
    out: &mut Counted<W>,
) -> Result<(), Fault>
    ensures { Filtered Limited MigrationOf (Unread Limited) result (source_of R.remaining reader.old) (source_of R.remaining reader.new)
        (end_of W.contents out.old) (end_of W.contents out.new) }
{
    let input = read_input(alloc, Extent::Limited, reader)?;
    let stream = migrate(alloc, input.as_slice())?;
    write_flushed(out, stream.as_slice())
}
