//! What a server keeps of its last map.
ghost use Rattle.std.specs.Prelude.{◌≡◌, ◌++◌, IfErr, OnOk, List, ℕ, []};
ghost use Rattle.wire.specs.Answers.{item_frame, reply_frames};
ghost use Rattle.wire.specs.Output.{TellsUnlessFailed, end_of};
ghost use Rattle.frame_front.specs.Dump.{dump_of};
ghost use Rattle.map_core.specs.declared.reply.Reply.TheVariants.{All};
ghost use Rattle.server.specs.Saving.{IsSaveFault, Keeps, KeepsDump};

use commands::Fault;
use map_core::Contents;
use spiffe_doc::{Bundle, TrustDomain};
use std::alloc::Global;
use std::io::Write;
use std::mem::forget;
use wire::{Counted, FrontError, canonical_text, item_front, put_frame};

/// What keeps the dump of the last map of a server. A dump is written to a draft piece by piece, so that it is never in memory
/// as a whole.
pub trait Keeper: Drop {
    ghost use Rattle.std.specs.Prelude.{ℕ, List, [], ◌++◌, IfOk, OnOk, IfErr};
    ghost use Rattle.server.specs.Saving.{IsSaveFault};

    /// What a dump is written to. If it is dropped before it is kept, nothing of it stays.
    type Draft: Drop;

    // That this is written to the draft.
    ghost holds: { Self.Draft → List ℕ → Type 0 };

    // That it keeps this dump.
    ghost keeps: { Self → List ℕ → Type 0 };

    /// A draft to which nothing is written yet.
    fn begin(&self) -> Result<Self::Draft, Fault>
        ensures ok { IfOk result (λ draft. holds draft []) }
        ensures err { IfErr result (λ fault. IsSaveFault fault) };

    /// Writes a piece behind what is written to the draft.
    fn put(&self, draft: &mut Self::Draft, piece: &[u8]) -> Result<(), Fault>
        ensures ok { OnOk result ((written : List ℕ) → holds draft.old written → holds draft.new (written ++ piece.now)) }
        ensures err { IfErr result (λ fault. IsSaveFault fault) };

    /// Keeps what is written to the draft in place of what it kept before. If that fails, what it kept before stays.
    fn keep(&self, draft: Self::Draft) -> Result<(), Fault>
        ensures ok { OnOk result ((written : List ℕ) → holds draft written → keeps self.now written) }
        ensures err { IfErr result (λ fault. IsSaveFault fault) };
}

/// Writes the frame of a domain behind what is written to the draft.
fn put_item<K: Keeper>(
    keeper: &K,
    draft: &mut K::Draft,
    item: &(TrustDomain, Bundle),
) -> Result<(), Fault>
    ensures ok { OnOk result ((written : List ℕ) → K.holds draft.old written → K.holds draft.new (written ++ item_frame item.now)) }
    ensures err { IfErr result (λ fault. IsSaveFault fault) }
{
    let front = item_front(&item.0, &item.1);
    keeper.put(draft, front.as_slice())?;
    keeper.put(draft, canonical_text(&item.1))?;
    Ok(())
}

/// Writes the dump of these domains to an empty draft: their number, and then a frame for each.
fn put_dump<K: Keeper>(
    alloc: Global,
    keeper: &K,
    draft: &mut K::Draft,
    domains: &[(TrustDomain, Bundle)],
) -> Result<(), Fault>
    requires empty { K.holds draft.old [] }
    ensures ok { OnOk result (K.holds draft.new (reply_frames (All domains.now))) }
    ensures err { IfErr result (λ fault. IsSaveFault fault) }
{
    let mut head = Vec::new(alloc);
    let count = domains.len() as u64;
    let Ok(()) = put_frame(&mut head, b"a", &count.to_be_bytes()) else {
        return Err(Fault::Front(FrontError::Memory));
    };
    keeper.put(draft, head.as_slice())?;
    for item in domains {
        put_item(keeper, draft, item)?;
    }
    Ok(())
}

/// Has the dump of these domains kept.
fn keep_domains<K: Keeper>(
    alloc: Global,
    keeper: &K,
    domains: &[(TrustDomain, Bundle)],
) -> Result<(), Fault>
    ensures ok { OnOk result (K.keeps keeper.now (reply_frames (All domains.now))) }
    ensures err { IfErr result (λ fault. IsSaveFault fault) }
{
    let mut draft = keeper.begin()?;
    put_dump(alloc, keeper, &mut draft, domains)?;
    keeper.keep(draft)?;
    Ok(())
}

/// Has the dump of the map kept. The map's memory goes back with the process: no walk over every bundle.
fn keep_map<K: Keeper>(alloc: Global, keeper: &K, contents: Contents) -> Result<(), Fault>
    ensures ok { OnOk result (K.keeps keeper.now (dump_of contents)) }
    ensures err { IfErr result (λ fault. IsSaveFault fault) }
{
    let Ok(all) = contents.into_snapshot() else {
        return Err(Fault::Front(FrontError::Memory));
    };
    let kept = keep_domains(alloc, keeper, all.pairs());
    forget(all);
    kept
}

/// Has the dump of the map kept, if somebody keeps it; or tells why it is not, but nothing once a call of the writer has
/// failed since `before` of them had failed. Answers whether it is kept as is wanted.
#[tactic(auto, using(wire::proofs::OutputLemmas::told_nothing))]
pub(crate) fn save<K: Keeper, E: Write>(
    alloc: Global,
    keeper: Option<K>,
    contents: Contents,
    err: &mut Counted<E>,
    before: u64,
) -> bool
    ensures { (line : List ℕ) × KeepsDump (Keeps K.keeps keeper) (dump_of contents) result line
        × TellsUnlessFailed before (end_of E.contents err.old) (end_of E.contents err.new) line }
{
    let Some(keeper) = keeper else {
        forget(contents);
        return true;
    };
    match keep_map(alloc, &keeper, contents) {
        Ok(()) => true,
        Err(fault) => {
            fault.tell_unless_failed(err, before);
            false
        }
    }
}
