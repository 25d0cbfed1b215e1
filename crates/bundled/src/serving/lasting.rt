//! A server that lasts: each worker serves many clients beside each other.
ghost use Rattle.std.specs.Prelude.{◌≡◌, false, ◌<◌, ◌-◌, ◌^◌, vec_len};
ghost use Rattle.std.specs.List.{All};
ghost use Rattle.shard_store.specs.Pass.{IsOf};
ghost use Rattle.workers.specs.Closing.{AreAll, ranges_of};
ghost use Rattle.wire.specs.Counted.{faults_in};
ghost use Rattle.wire.specs.Output.{end_of};
ghost use Rattle.server.specs.Saving.{IsUnknown};
ghost use Rattle.server.specs.Serve.{SetUpRun};
ghost use Rattle.server.specs.Serving.{ServedBeside};

use crate::serving::ports::{BoundPorts, ports_or_told};
use crate::serving::waits::waits_of;
use command_line::{Lasting, Places, Settings};
use server::{Host, SavedFile, ServerLog, SetUp, Task, serve_at, tell_early};
use std::fs::Files;
use std::io::{Read, Write};
use std::net::{Net, TcpListener, TcpStream};
use std::thread::Threads;
use std::time::Clock;
use wire::Counted;

/// Where a server listens, how it serves and over which store, which is set up; and in which file its last map is kept, if one
/// is named.
#[derive(Drop)]
pub struct At<'a, H> {
    pub places: Places<'a>,
    pub settings: Settings,
    pub lasting: Lasting,
    pub set_up: SetUp,
    pub keeper: Option<SavedFile<'a, H>>,
}

/// Serves many clients beside each other; answers the exit status. A place that can't be had is a fault, and so it is if memory
/// runs out.
pub fn serve_many<
    H: Files + Threads + Clock + Net<Listener = TcpListener, Stream = TcpStream> + Sync,
    I: Read,
    W: Write,
    E: Write,
    L: ServerLog + Copy + Sync,
>(
    host: &Host<'_, H, L>,
    at: At<'_, H>,
    input: &mut Counted<I>,
    out: &mut Counted<W>,
    err: &mut Counted<E>,
) -> u8
    requires count { faults_in err.old < 2 ^ 64 - 1 }
    requires workers { vec_len at.set_up.passes ≡ at.settings.workers }
    requires own { All (λ pass. IsOf pass at.set_up.store) at.set_up.passes.items }
    requires all { AreAll (ranges_of at.set_up.passes.items) }
    ensures run { SetUpRun IsUnknown (ServedBeside at.entry.lasting at.entry.settings.turns) at.entry.set_up.store at.entry.set_up.passes.items result
        (end_of W.contents out.old) (end_of W.contents out.new) (end_of E.contents err.old) (end_of E.contents err.new) }
    ensures read { at.entry.lasting.until_eof ≡ false → input.new ≡ input.old }
{
    let At {
        places,
        settings,
        lasting,
        set_up,
        keeper,
    } = at;
    let BoundPorts {
        ports,
        files: _files,
    } = match ports_or_told(host.rt, host.alloc, places, err) {
        Ok(bound) => bound,
        Err(status) => return status,
    };
    let waits = match waits_of(host.rt, host.alloc, &ports, settings.workers) {
        Ok(waits) => waits,
        Err(fault) => return tell_early(fault, err),
    };
    let task = Task {
        ports,
        waits,
        settings,
        lasting,
        set_up,
        keeper,
    };
    serve_at(host, task, input, out, err)
}
