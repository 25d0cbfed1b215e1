//! A store that is filled before its workers begin.
ghost use Rattle.std.specs.Prelude.{◌≡◌, ◌≢◌, ◌++◌, List, ℕ, true, false, None, IfOk, IfErr, IfSome};
ghost use Rattle.shard_store.specs.Pass.{IsOf};
ghost use Rattle.workers.specs.Filling.{Fills, NotFills, in_memory as told_in_memory, stored_replies};
ghost use Rattle.workers.specs.Workers.{IsFurther};

use frame_front::serve;
use shard_store::{Pass, Seated, Store};
use std::alloc::Global;
use thiserror::Error;
use wire::{Counted, FrontError};

/// The most reads that the requests may take: each takes at least a byte of them, so fewer bytes never use them up.
const MOST_READS: u64 = 1_000_000_000;

/// The reply to the request for version 2.
const VERSION_TWO: &[u8] = b"\x00\x00\x00\x02v\x02";

/// The reply to a request that stored a bundle.
const STORED: &[u8] = b"\x00\x00\x00\x01s";

/// Why a store is not filled.
#[derive(Clone, Copy, Debug, Error)]
pub enum FillError {
    /// The session ended so. Never `ReadFault` or `WriteFault`: its reader and its writer are memory.
    #[error("{0}")]
    Front(FrontError),
    /// Some request did not store a bundle.
    #[error("a request did not store a bundle")]
    NotStored,
}

/// What follows these bytes, if they come first.
fn after<'a>(bytes: &'a [u8], first: &[u8]) -> Option<&'a [u8]>
    ensures some { IfSome result (λ rest. bytes.now ≡ first.now ++ rest.now) }
    ensures none { result ≡ None → (rest : List ℕ) → bytes.now ≢ first.now ++ rest }
{
    if bytes.len() < first.len() {
        return None;
    }
    let (front, rest) = bytes.split_at(first.len());
    if front != first {
        return None;
    }
    Some(rest)
}

/// Whether these are the replies to the request for version 2 and to so many requests of which each stored a bundle.
fn are_stored(replies: &[u8], count: u64) -> bool
    ensures yes { result ≡ true → replies.now ≡ stored_replies count }
    ensures no { result ≡ false → replies.now ≢ stored_replies count }
{
    let Some(mut rest) = after(replies, VERSION_TWO) else {
        return false;
    };
    for _ in 0..count {
        let Some(next) = after(rest, STORED) else {
            return false;
        };
        rest = next;
    }
    rest.is_empty()
}

/// What is told of an error of a session over memory: no read of it fails, and a write to it only if memory runs out.
fn in_memory(error: FrontError) -> FrontError
    ensures { result ≡ told_in_memory error }
{
    match error {
        FrontError::ReadFault | FrontError::WriteFault => FrontError::Memory,
        _ => error,
    }
}

/// Serves a session of these requests over the first pass of a store: the request for version 2, and requests of which
/// each is to store a bundle, as `migrate` makes them of a dump. The pass has then seen what they stored, and its numbers
/// are as they were. After an error the pass is gone, and some of the bundles may be stored.
pub fn fill_store(
    alloc: Global,
    store: &Store,
    first: Pass,
    requests: &[u8],
) -> Result<Pass, FillError>
    requires own { IsOf first store.now }
    ensures own { IfOk result (λ pass. IsOf pass store.now) }
    ensures further { IfOk result (λ pass. IsFurther pass.seen first.seen) }
    ensures stored { IfOk result (λ pass. Fills requests.now store.now first.seen pass.seen) }
    ensures refused { IfErr result (λ error. NotFills requests.now store.now first.seen error) }
{
    let mut seated = Seated::new(store, first);
    let mut reader = Counted::new(requests);
    let mut writer = Counted::new(Vec::new(alloc));
    let answered = match serve(alloc, &mut reader, &mut writer, &mut seated, MOST_READS) {
        Ok(answered) => answered,
        Err(error) => return Err(FillError::Front(in_memory(error))),
    };
    let Some(count) = answered.checked_sub(1) else {
        return Err(FillError::NotStored);
    };
    if !are_stored(writer.end().as_slice(), count) {
        return Err(FillError::NotStored);
    }
    Ok(seated.into_pass())
}
