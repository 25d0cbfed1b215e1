//! The digest of a dump (FIPS 180-4).
ghost use Rattle.std.specs.Prelude.{◌≡◌, ◌++◌, ◌∷◌, [], ℕ, List, IfOk, IfErr};
ghost use Rattle.frame_front.specs.Dump.{Domains, IsDump, FaultOfDump};
ghost use Rattle.hex.specs.Hex.{encode_lower};
ghost use Rattle.dump_views.specs.Digest.{HasHashed, digest_line_of};

use frame_front::{DumpError, read_dump};
use sha2::{Digest, Sha256};
use std::alloc::Global;

/// How many hexadecimal digits a SHA-256 digest has.
const DIGITS: usize = 64;

/// The line that tells a dump's SHA-256 digest: 64 lower-case hexadecimal digits and a line feed (FIPS 180-4, section 6.2).
/// The dumps of equal maps have equal lines.
pub fn digest_line(dump: &[u8]) -> [u8; DIGITS + 1]
    ensures { result ≡ digest_line_of dump.now }
{
    line_of(Sha256::digest(dump))
}

/// The line of these bytes of a digest.
fn line_of(digest: [u8; DIGITS / 2]) -> [u8; DIGITS + 1]
    ensures { result ≡ encode_lower digest ++ 10 ∷ [] }
{
    let mut line = [b'\n'; DIGITS + 1];
    let _fits = hex::encode_to_slice(digest, &mut line[..DIGITS]);
    line
}

/// The digest of bytes that come in pieces.
#[derive(Drop)]
pub struct PieceDigest {
    hasher: Sha256,
}

impl PieceDigest {
    /// Nothing has come.
    pub fn new() -> PieceDigest
        ensures { HasHashed result [] }
    {
        PieceDigest {
            hasher: Sha256::new(),
        }
    }

    /// Takes the next piece.
    pub fn take(&mut self, piece: &[u8])
        ensures { (came : List ℕ) → HasHashed self.old came → HasHashed self.new (came ++ piece.now) }
    {
        self.hasher.update(piece);
    }

    /// The line that tells the digest of all that came, as `digest_line` does.
    pub fn line(self) -> [u8; DIGITS + 1]
        ensures { (came : List ℕ) → HasHashed self came → result ≡ digest_line_of came }
    {
        let PieceDigest { hasher } = self;
        line_of(hasher.finalize())
    }
}

/// The line that tells the digest of a dump, as `digest_line` does, if the bytes are a dump.
pub fn dump_digest_line(alloc: Global, dump: &[u8]) -> Result<[u8; 65], DumpError>
    ensures ok { IfOk result (λ line. (items : Domains) × IsDump dump.now items × (line ≡ digest_line_of dump.now)) }
    ensures fault { IfErr result (λ fault. FaultOfDump fault dump.now) }
{
    let _domains = read_dump(alloc, dump)?;
    Ok(digest_line(dump))
}
