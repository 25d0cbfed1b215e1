//! All bundles, as a client reads them: their number, and then a frame for each domain.
ghost use Rattle.std.specs.Prelude.{◌≡◌, ◌≢◌, ◌≤◌, ◌∷◌, ◌++◌, true, false, length, IfOk, IfErr, IfSome, IfNone, bytes_eq};
ghost use Rattle.std.specs.List.{flat_map};
ghost use Rattle.spiffe_doc.specs.Authority.{BundleValue};
ghost use Rattle.spiffe_doc.specs.Bundle.{IsBundle};
ghost use Rattle.spiffe_doc.specs.Name.{IsName};
ghost use Rattle.spiffe_doc.specs.Text.{text_of};
ghost use Rattle.map_core.specs.Name.{Name};
ghost use Rattle.wire.specs.Frame.{frame};
ghost use Rattle.wire.specs.Answers.{item_frame};
ghost use Rattle.wire.specs.Output.{end_of};
ghost use Rattle.map_core.specs.Laws.{IsAfter};
ghost use Rattle.client.specs.Private.Listing.{IsListing, BreaksListing};
ghost use Rattle.client.specs.Private.Reads.{ReadsWhole, StopsReading};

use crate::ClientError;
use crate::reply_room::ReplyRoom;
use arrayvec::ArrayVec;
use spiffe_doc::{Bundle, TrustDomain};
use std::alloc::{AllocError, Global};
use std::io::Read;
use wire::{Counted, ITEM_HEAD_BYTES, canonical_text, is_after, read_item};

/// Whether the bytes are the first and then the others.
fn is_joined(bytes: &[u8], first: &[u8], others: &[u8]) -> bool
    requires few { length first.now ≤ 257 }
    requires short { length others.now ≤ 1048576 }
    ensures yes { result ≡ true → bytes.now ≡ first.now ++ others.now }
    ensures no { result ≡ false → bytes.now ≢ first.now ++ others.now }
{
    if bytes.len() != first.len() + others.len() {
        return false;
    }
    let (start, end) = bytes.split_at(first.len());
    start == first && end == others
}

/// Whether the payload is that of a domain: its name and its canonical text.
fn is_item(payload: &[u8], domain: &TrustDomain, bundle: &Bundle) -> bool
    ensures yes { result ≡ true → payload.now ≡ 105 ∷ length domain.now ∷ domain.now ++ text_of bundle.now }
    ensures no { result ≡ false → payload.now ≢ 105 ∷ length domain.now ∷ domain.now ++ text_of bundle.now }
{
    let name = domain.as_str().as_bytes();
    let mut front = ArrayVec::<u8, ITEM_HEAD_BYTES>::new();
    let _fits = front.try_extend_from_slice(&[b'i', name.len() as u8]);
    let _fits = front.try_extend_from_slice(name);
    is_joined(payload, front.as_slice(), canonical_text(bundle))
}

/// The next domain, if the payload is one by its canonical text, and its name comes after the last one.
fn read_listed(
    alloc: Global,
    last: &Option<TrustDomain>,
    payload: &[u8],
) -> Result<Option<(TrustDomain, Bundle)>, AllocError>
    ensures found { IfOk result (λ next. IfSome next (λ item. (frame payload.now ≡ item_frame item)
        × IsAfter last.now item.0 × IsName item.0 × IsBundle item.1)) }
    ensures none { IfOk result (λ next. IfNone next ((item : Name × BundleValue)
        → IsName item.0 → IsBundle item.1 → IsAfter last.now item.0 → payload.now ≢ 105 ∷ length item.0 ∷ item.0 ++ text_of item.1)) }
{
    let Some((domain, bundle)) = read_item(alloc, payload)? else {
        return Ok(None);
    };
    let _name = domain.as_str();
    let _authorities = bundle.authorities();
    if is_item(payload, &domain, &bundle) && is_after(last, &domain) {
        Ok(Some((domain, bundle)))
    } else {
        Ok(None)
    }
}

/// Reads so many domains.
pub(crate) fn read_listing<R: Read>(
    alloc: Global,
    reader: &mut Counted<R>,
    room: &mut ReplyRoom,
    count: u64,
) -> Result<Vec<(TrustDomain, Bundle)>, ClientError>
    ensures valid { IfOk result (λ items. IsListing count items.items) }
    ensures ok { IfOk result (λ items.
        ReadsWhole (end_of R.remaining reader.old) (end_of R.remaining reader.new) (flat_map item_frame items.items)) }
    ensures err { IfErr result (λ why.
        StopsReading (BreaksListing count) why (end_of R.remaining reader.old) (end_of R.remaining reader.new)) }
{
    let mut items = Vec::new(alloc);
    let mut last = None;
    let mut place = 0;
    while place < count {
        let payload = room.read(reader)?;
        let Some(item) = read_listed(alloc, &last, payload)? else {
            return Err(ClientError::BadReply);
        };
        last = Some(item.0.copy()?);
        if let Err(_) = items.push(item) {
            return Err(ClientError::Memory);
        }
        place += 1;
    }
    Ok(items)
}
