//! A trust domain and its bundle: as a reply to a fetch-all tells them, and as a request sets them.
ghost use Rattle.std.specs.Prelude.{◌≡◌, ◌≤◌, ◌+◌, ◌∷◌, ◌++◌, length, true, false, IfOk, OnOk, OnErr};
ghost use Rattle.spiffe_doc.specs.Text.{text_of};
ghost use Rattle.wire.specs.Frame.{frame};
ghost use Rattle.wire.specs.Items.{item_of};
ghost use Rattle.map_core.specs.Laws.{IsAfter};

use crate::frame::put_frame;
use crate::judge::read_named_bundle;
use crate::refusal::Refusal;
use crate::request::payload::split_named;
use arrayvec::ArrayVec;
use map_core::canonical_text;
use spiffe_doc::{Bundle, DocumentReader, Memory, TrustDomain};
use std::alloc::{AllocError, Global};

/// A code, a length and the longest name.
pub const ITEM_HEAD_BYTES: usize = 257;

/// A letter, a length, the longest name and an expectation.
const REQUEST_HEAD_BYTES: usize = 258;

/// A domain and its bundle, if the payload is one.
#[tactic(auto, unfolding(crate::specs::Items::item_of))]
pub fn read_item(alloc: Global, payload: &[u8]) -> Result<Option<(TrustDomain, Bundle)>, Memory>
    ensures { IfOk result (λ item. item_of payload.now ≡ item) }
{
    let Some((code, bytes)) = payload.split_first() else {
        return Ok(None);
    };
    if *code != b'i' {
        return Ok(None);
    }
    let Some((name, document)) = split_named(bytes) else {
        return Ok(None);
    };
    let mut documents = DocumentReader::new(alloc);
    match read_named_bundle(alloc, &mut documents, name, document) {
        Ok(item) => Ok(Some(item)),
        Err(Refusal::Memory) => Err(AllocError),
        Err(_) => Ok(None),
    }
}

/// Whether a domain may follow the last one, if there is one: names ascend along a dump.
pub fn is_after(last: &Option<TrustDomain>, domain: &TrustDomain) -> bool
    ensures after { result ≡ true → IsAfter last.now domain.now }
    ensures not_after { result ≡ false → ¬ (IsAfter last.now domain.now) }
{
    match last {
        Some(before) => before < domain,
        None => true,
    }
}

/// Adds a request that ends with a document: its letter, the domain's name, an expectation of no byte or one, and the
/// canonical text of the bundle. If memory is refused, nothing is added.
pub fn put_request(
    stream: &mut Vec<u8>,
    letter: u8,
    domain: &TrustDomain,
    expectation: &[u8],
    bundle: &Bundle,
) -> Result<(), Memory>
    requires { length expectation.now ≤ 1 }
    ensures ok { OnOk result (stream.new.items
        ≡ stream.old.items ++ frame (letter ∷ length domain.now ∷ domain.now ++ (expectation.now ++ text_of bundle.now))) }
    ensures err { OnErr result (stream.new.items ≡ stream.old.items) }
{
    let name = domain.as_str().as_bytes();
    let text = canonical_text(bundle);
    let mut front = ArrayVec::<u8, REQUEST_HEAD_BYTES>::new();
    let _fits = front.try_extend_from_slice(&[letter, name.len() as u8]);
    let _fits = front.try_extend_from_slice(name);
    let _fits = front.try_extend_from_slice(expectation);
    put_frame(stream, front.as_slice(), text)
}
