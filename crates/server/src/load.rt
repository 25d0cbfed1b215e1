//! What fills the store of a server before anything is accepted.
ghost use Rattle.std.specs.Prelude.{List, ℕ, IfOk, IfErr};
ghost use Rattle.std.specs.List.{All};
ghost use Rattle.shard_store.specs.Pass.{IsOf};
ghost use Rattle.server.specs.Serve.{IsLoad, IsNotBegun, IsNotLoaded, IsSetUp};

use crate::set_up::SetUp;
use command_line::Settings;
use commands::{Fault, read_requests};
use std::alloc::Global;
use std::fs::{File, Files};
use wire::{Counted, FrontError};

/// The requests that store again what the dump of the file holds; none without a file.
fn requests_of<H: Files>(alloc: Global, host: &H, load: Option<&str>) -> Result<Vec<u8>, Fault>
    ensures ok { IfOk result (λ requests. IsLoad load.entry requests.items) }
    ensures err { IfErr result (λ fault. IsNotLoaded load.entry fault) }
{
    let Some(path) = load else {
        return Ok(Vec::new(alloc));
    };
    let Ok(file) = File::open(host, path) else {
        return Err(Fault::Front(FrontError::ReadFault));
    };
    let requests = read_requests(alloc, &mut Counted::new(file))?;
    Ok(requests)
}

/// A store of these settings with a pass for each worker, filled with the dump of the file, if one is named: of any length.
pub fn set_up_of<H: Files>(
    alloc: Global,
    host: &H,
    load: Option<&str>,
    settings: Settings,
) -> Result<SetUp, Fault>
    ensures set_up { IfOk result (λ made. (requests : List ℕ) × IsLoad load.entry requests × IsSetUp settings requests made.store made.passes.items) }
    ensures own { IfOk result (λ made. All (λ pass. IsOf pass made.store) made.passes.items) }
    ensures err { IfErr result (λ fault. IsNotBegun load.entry fault) }
{
    let requests = match requests_of(alloc, host, load) {
        Ok(requests) => requests,
        Err(fault) => return Err(fault),
    };
    match SetUp::new(alloc, settings, requests.as_slice()) {
        Ok(set_up) => Ok(set_up),
        Err(error) => Err(Fault::Front(error)),
    }
}
