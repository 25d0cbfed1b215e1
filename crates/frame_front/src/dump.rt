//! Dumps of version 1: the domains that they hold, and the requests of version 2 that they become.
ghost use Rattle.std.specs.Prelude.{◌≡◌, ◌≤◌, ◌++◌, ℕ, length, List, [], ◌∷◌, Some, None, true, false, IfOk, IfErr, IfSome, IfNone, OnOk, OnErr};
ghost use Rattle.spiffe_doc.specs.Bundle.{IsBundle};
ghost use Rattle.spiffe_doc.specs.Text.{text_of};
ghost use Rattle.wire.specs.Frame.{IsPayload, frame, stream_of};
ghost use Rattle.frame_front.specs.Dump.{Domains, IsDump, HaveValidBundles, FaultOfDump, count_of, request_for, requests_for, dump_number};
ghost use Rattle.wire.specs.Items.{item_of};
ghost use Rattle.frame_front.specs.Private.Refusals.{NoItem, NoCount, last_of};
ghost use Rattle.map_core.specs.Laws.{IsAfter};

use map_core::Snapshot;
use spiffe_doc::{Bundle, DocumentReader, Memory, TrustDomain};
use std::alloc::{AllocError, Global};
use std::marker::Model;
use thiserror::Error;
use wire::{LENGTH_BYTES, first_frame, put_frame, put_request, read_item};

/// Why a dump is not read.
#[derive(Clone, Copy, Debug, PartialEq, Eq, Error)]
pub enum DumpError {
    /// The first frame, from 0, that is wrong, missing or too much.
    #[error("frame {0} of the dump is wrong, missing or too much")]
    BadDump(u64),
    #[error("out of memory")]
    Memory,
}

impl DumpError {
    /// The number under which fault lines show the error.
    pub fn number(&self) -> u8
        ensures { result ≡ dump_number self.now }
    {
        match self {
            DumpError::BadDump(_) => 63,
            DumpError::Memory => 22,
        }
    }
}

impl From<AllocError> for DumpError {
    ghost use Rattle.std.specs.Prelude.{◌≡◌};
    ghost use Rattle.frame_front.specs.declared.dump.DumpError.TheVariants.{Memory};

    ghost from_gives = { λ _ e. e ≡ Memory };

    fn from(_refused: AllocError) -> DumpError {
        DumpError::Memory
    }
}

/// The domains of a dump of version 1. A dump is the frames of a reply to a fetch-all: the number of domains, and a
/// frame for each in order of their names. An error tells the first frame that is wrong, or that memory ran out.
pub fn read_dump(alloc: Global, dump: &[u8]) -> Result<Snapshot, DumpError>
    ensures ok { IfOk result (λ items. IsDump dump.now items × HaveValidBundles items) }
    ensures err { IfErr result (λ fault. FaultOfDump fault dump.now) }
{
    let Some((count, mut rest)) = first_count(dump) else {
        return Err(DumpError::BadDump(0));
    };
    let mut domains = Vec::new(alloc);
    let mut place = 0;
    while place < count {
        place += 1;
        let item = match next_item(alloc, domains.as_slice(), rest) {
            Ok(Some(item)) => item,
            Ok(None) => return Err(DumpError::BadDump(place)),
            Err(_) => return Err(DumpError::Memory),
        };
        if let Err(_) = domains.push((item.domain, item.bundle)) {
            return Err(DumpError::Memory);
        }
        rest = item.rest;
    }
    if !rest.is_empty() {
        return Err(DumpError::BadDump(place + 1));
    }
    Ok(Snapshot::from_pairs(domains))
}

/// The requests of version 2 that store again what a dump of version 1 holds. Errors as `read_dump` does.
pub fn migrate(alloc: Global, dump: &[u8]) -> Result<Vec<u8>, DumpError>
    ensures ok { IfOk result (λ stream. (items : Domains) × IsDump dump.now items × HaveValidBundles items
        × (stream.items ≡ stream_of (requests_for items) [])) }
    ensures err { IfErr result (λ fault. FaultOfDump fault dump.now) }
{
    let domains = read_dump(alloc, dump)?;
    let mut migration = Migration::new(alloc)?;
    for item in domains.pairs() {
        migration.add(&item.0, &item.1)?;
    }
    Ok(migration.into_requests())
}

/// The requests of version 2 that store domains again. Contracts see it as their bytes.
#[derive(Drop)]
pub struct Migration {
    stream: Vec<u8>,
}

impl Model for Migration {
    ghost use Rattle.std.specs.Prelude.{ℕ, List};

    ghost Value = { List ℕ };

    ghost view = { λ migration. migration.stream.items };
}

impl Migration {
    /// Only the request for version 2.
    pub fn new(alloc: Global) -> Result<Migration, AllocError>
        ensures { IfOk result (λ made. made ≡ stream_of (requests_for []) []) }
    {
        let mut stream = Vec::new(alloc);
        put_frame(&mut stream, b"V", &[2])?;
        Ok(Migration { stream })
    }

    /// Adds the request that stores a domain again, if it is absent. If memory is refused, nothing is added.
    pub fn add(&mut self, domain: &TrustDomain, bundle: &Bundle) -> Result<(), AllocError>
        ensures ok { OnOk result (self.new ≡ self.old ++ frame (request_for (domain.now, bundle.now))) }
        ensures err { OnErr result (self.new ≡ self.old) }
    {
        put_request(&mut self.stream, b'C', domain, &[0], bundle)
    }

    /// The requests.
    pub fn into_requests(self) -> Vec<u8>
        ensures { result.items ≡ self }
    {
        let Migration { stream } = self;
        stream
    }
}

/// The first frame's payload, and the bytes after the frame.
fn split_frame(bytes: &[u8]) -> Option<(&[u8], &[u8])>
    ensures found { IfSome result (λ parts. IsPayload parts.0.now × (bytes.now ≡ frame parts.0.now ++ parts.1.now)) }
    ensures none { IfNone result ((payload rest : List ℕ) → IsPayload payload → bytes.now ≡ frame payload ++ rest → ⊥) }
{
    match first_frame(bytes) {
        Ok(Some(payload)) => {
            let (_, rest) = bytes.split_at(LENGTH_BYTES + payload.len());
            Some((payload, rest))
        }
        Ok(None) => None,
        Err(_) => None,
    }
}

/// The number of domains, if the payload of the first frame tells it.
pub(crate) fn read_count(payload: &[u8]) -> Option<u64>
    ensures { result ≡ count_of payload.now }
{
    let [b'a', a, b, c, d, e, f, g, h] = payload else {
        return None;
    };
    Some(u64::from_be_bytes([*a, *b, *c, *d, *e, *f, *g, *h]))
}

/// The count of a dump, and the bytes after its frame.
fn first_count(dump: &[u8]) -> Option<(u64, &[u8])>
    ensures found { IfSome result (λ parts. (head : List ℕ) × IsPayload head
        × (dump.now ≡ frame head ++ parts.1.now) × (count_of head ≡ Some parts.0)) }
    ensures none { IfNone result (NoCount dump.now) }
{
    let Some((head, rest)) = split_frame(dump) else {
        return None;
    };
    match read_count(head) {
        Some(count) => Some((count, rest)),
        None => None,
    }
}

/// A domain of a dump, and what follows it.
#[derive(Drop)]
struct Item<'a> {
    domain: TrustDomain,
    bundle: Bundle,
    rest: &'a [u8],
}

/// The next domain, whose name comes after that of the last one.
fn next_item<'a>(
    alloc: Global,
    domains: &[(TrustDomain, Bundle)],
    bytes: &'a [u8],
) -> Result<Option<Item<'a>>, AllocError>
    ensures found { IfOk result (λ next. IfSome next (λ item. (payload : List ℕ) × IsPayload payload
        × (bytes.now ≡ frame payload ++ item.rest.now) × (item_of payload ≡ Some (item.domain, item.bundle))
        × IsAfter (last_of None domains.now) item.domain × IsBundle item.bundle)) }
    ensures none { IfOk result (λ next. IfNone next (NoItem (last_of None domains.now) bytes.now)) }
{
    let Some((payload, rest)) = split_frame(bytes) else {
        return Ok(None);
    };
    let (domain, bundle) = match read_item(alloc, payload) {
        Ok(Some(item)) => item,
        Ok(None) => return Ok(None),
        Err(_) => return Err(AllocError),
    };
    if !follows(domains, &domain) {
        return Ok(None);
    }
    let _authorities = bundle.authorities();
    Ok(Some(Item {
        domain,
        bundle,
        rest,
    }))
}

/// Whether a domain may follow these.
fn follows(domains: &[(TrustDomain, Bundle)], domain: &TrustDomain) -> bool
    ensures after { result ≡ true → IsAfter (last_of None domains.now) domain.now }
    ensures not_after { result ≡ false → ¬ (IsAfter (last_of None domains.now) domain.now) }
{
    match domains.last() {
        Some(last) => last.0 < *domain,
        None => true,
    }
}
