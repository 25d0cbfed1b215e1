//! The dump of bundles and its digest, by which whoever has the bundles already need not be told them again.
ghost use Rattle.std.specs.Prelude.{◌≡◌, ◌++◌, ◌≤◌, length};
ghost use Rattle.spiffe_doc.specs.Text.{text_of};
ghost use Rattle.map_core.specs.Dump.{item_frame, digest};

use arrayvec::ArrayVec;
use sha2::{Digest, Sha256};
use spiffe_doc::{Bundle, TrustDomain};

/// How many bytes a digest has.
pub const DIGEST_BYTES: usize = 32;

/// The SHA-256 of a dump (FIPS 180-4, section 6.2).
pub type DumpDigest = [u8; DIGEST_BYTES];

/// A length, and then a code and the longest name.
const ITEM_FRONT_BYTES: usize = 261;

/// The canonical text, of at most 1,048,576 bytes.
pub fn canonical_text(bundle: &Bundle) -> &[u8]
    ensures value { result.now ≡ text_of bundle.now }
    ensures short { length result.now ≤ 1048576 }
{
    let _authorities = bundle.authorities();
    bundle.text()
}

/// What stands before the canonical text in a domain's frame: the length, the code, and the name.
pub fn item_front(domain: &TrustDomain, bundle: &Bundle) -> ArrayVec<u8, ITEM_FRONT_BYTES>
    ensures { result.items ++ text_of bundle.now ≡ item_frame (domain.now, bundle.now) }
{
    let name = domain.as_str().as_bytes();
    let size = (2 + name.len() + canonical_text(bundle).len()) as u32;
    let mut front = ArrayVec::<u8, ITEM_FRONT_BYTES>::new();
    let _fits = front.try_extend_from_slice(&size.to_be_bytes());
    let _fits = front.try_extend_from_slice(&[b'i', name.len() as u8]);
    let _fits = front.try_extend_from_slice(name);
    front
}

/// The digest of these bundles.
pub(crate) fn digest_of(pairs: &[(TrustDomain, Bundle)]) -> DumpDigest
    ensures { result ≡ digest pairs.now }
{
    let mut hasher = Sha256::new();
    hasher.update(&9u32.to_be_bytes());
    hasher.update(b"a");
    hasher.update(&(pairs.len() as u64).to_be_bytes());
    'pairs: for (domain, bundle) in pairs {
        hasher.update(item_front(domain, bundle).as_slice());
        hasher.update(canonical_text(bundle));
    }
    hasher.finalize()
}
