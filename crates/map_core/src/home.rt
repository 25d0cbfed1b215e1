//! The shard that a name belongs to.
ghost use Rattle.std.specs.Prelude.{◌≡◌, ◌<◌, ◌%◌, IfSome};
ghost use Rattle.map_core.specs.PlainMap.{home, shard_of};

use crate::Op;
use spiffe_doc::TrustDomain;

/// The shard that the name belongs to: the sum of its bytes, modulo the number of shards. A name has at most 255 bytes,
/// and sums of 32 bits are the cheaper ones.
pub fn home(domain: &TrustDomain, shards: usize) -> usize
    requires { 0 < shards }
    ensures shard { result ≡ home shards domain.now }
    ensures below { result < shards }
{
    let mut total: u32 = 0;
    let bytes = domain.as_str().as_bytes();
    for byte in bytes {
        total += u32::from(*byte);
    }
    modulo(total as usize, shards)
}

/// The remainder of a division by the number of shards. By a power of two that is written out it costs no division.
fn modulo(total: usize, shards: usize) -> usize
    requires { 0 < shards }
    ensures { result ≡ total % shards }
{
    match shards {
        4 => total % 4,
        8 => total % 8,
        16 => total % 16,
        32 => total % 32,
        64 => total % 64,
        _ => total % shards,
    }
}

/// The shard that an operation on one name is for; none for a fetch-all.
#[tactic(auto, unfolding(crate::specs::PlainMap::shard_of))]
pub fn shard_of(op: &Op, shards: usize) -> Option<usize>
    requires { 0 < shards }
    ensures shard { result ≡ shard_of shards op.now }
    ensures below { IfSome result (λ i. i < shards) }
{
    Some(home(op.domain()?, shards))
}
