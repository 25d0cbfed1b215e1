//! The command `import`: a bundle map becomes requests.
ghost use Rattle.std.specs.Prelude.{◌≡◌, Err};
ghost use Rattle.commands.specs.declared.input.Extent.TheVariants.{Limited};
ghost use Rattle.commands.specs.Streams.{source_of, streams};
ghost use Rattle.commands.specs.declared.fault.Fault.TheVariants.{Front};
ghost use Rattle.commands.specs.Import.{NoRequests, RequestsOf};
ghost use Rattle.commands.specs.Reading.{Filtered, Filters};
ghost use Rattle.wire.specs.Output.{end_of};

use crate::{Extent, Fault, ended, read_input, write_flushed};
use dump_views::{MapError, requests_of_map};
use std::alloc::Global;
use std::io::{Read, Write};
use wire::{Counted, FrontError};

/// Reads a bundle map and writes the requests that set each of its bundles; answers the exit status.
pub fn import_over<R: Read, W: Write, E: Write>(
    alloc: Global,
    reader: &mut Counted<R>,
    out: &mut Counted<W>,
    err: &mut Counted<E>,
) -> u8
    ensures imports { Filters Limited RequestsOf NoRequests result
        (streams R.remaining W.contents E.contents reader.old out.old err.old)
        (streams R.remaining W.contents E.contents reader.new out.new err.new) }
    ensures silent { result ≡ 0 → err.new ≡ err.old }
{
    ended(import_input(alloc, reader, out), err)
}

fn import_input<R: Read, W: Write>(
    alloc: Global,
    reader: &mut Counted<R>,
    out: &mut Counted<W>,
) -> Result<(), Fault>
    ensures { Filtered Limited RequestsOf NoRequests result (source_of R.remaining reader.old) (source_of R.remaining reader.new)
        (end_of W.contents out.old) (end_of W.contents out.new) }
{
    let input = read_input(alloc, Extent::Limited, reader)?;
    let requests = match requests_of_map(alloc, input.as_slice()) {
        Ok(requests) => requests,
        Err(MapError::NotMap) => return Err(Fault::BadMap),
        Err(MapError::BadMember { place, .. }) => return Err(Fault::BadMember(place as u64)),
        Err(MapError::Memory) => return Err(Fault::Front(FrontError::Memory)),
    };
    write_flushed(out, requests.as_slice())
}
