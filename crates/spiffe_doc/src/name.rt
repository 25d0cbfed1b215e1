//! Trust domain names (SPIFFE-ID, section 2).
ghost use Rattle.std.specs.Prelude.{◌≡◌, ◌<◌, length, Err, MatchResult, not, position};
ghost use Rattle.std.specs.List.{list_all};
ghost use Rattle.spiffe_doc.specs.Answer.{Gives};
ghost use Rattle.spiffe_doc.specs.Name.{IsName, is_name_byte as name_byte, name_fault as fault, trust_domain};
ghost use Rattle.spiffe_doc.specs.Number.{name_number};
ghost use Rattle.spiffe_doc.specs.Private.Prefix.{prefix_number};

use crate::Memory;
use crate::short_text::ShortText;
use std::alloc::{AllocError, Global};
use std::cmp::Ordering;
use std::marker::Model;
use thiserror::Error;

/// The most bytes of a trust domain name.
const MAX_NAME: usize = 255;

/// A yes and a no of the table below.
const Y: bool = true;

const N: bool = false;

/// Whether a byte is one of `a-z`, `0-9`, `.`, `-` and `_`, by its code: 32 codes a line. Each request has a name, and
/// one look-up costs less than the tests.
const NAME_BYTES: [bool; 256] = [
    N, N, N, N, N, N, N, N, N, N, N, N, N, N, N, N, N, N, N, N, N, N, N, N, N, N, N, N, N, N, N, N,
    N, N, N, N, N, N, N, N, N, N, N, N, N, Y, Y, N, Y, Y, Y, Y, Y, Y, Y, Y, Y, Y, N, N, N, N, N, N,
    N, N, N, N, N, N, N, N, N, N, N, N, N, N, N, N, N, N, N, N, N, N, N, N, N, N, N, N, N, N, N, Y,
    N, Y, Y, Y, Y, Y, Y, Y, Y, Y, Y, Y, Y, Y, Y, Y, Y, Y, Y, Y, Y, Y, Y, Y, Y, Y, Y, N, N, N, N, N,
    N, N, N, N, N, N, N, N, N, N, N, N, N, N, N, N, N, N, N, N, N, N, N, N, N, N, N, N, N, N, N, N,
    N, N, N, N, N, N, N, N, N, N, N, N, N, N, N, N, N, N, N, N, N, N, N, N, N, N, N, N, N, N, N, N,
    N, N, N, N, N, N, N, N, N, N, N, N, N, N, N, N, N, N, N, N, N, N, N, N, N, N, N, N, N, N, N, N,
    N, N, N, N, N, N, N, N, N, N, N, N, N, N, N, N, N, N, N, N, N, N, N, N, N, N, N, N, N, N, N, N,
];

/// Why a text is not a trust domain name.
#[derive(Clone, Copy, Debug, PartialEq, Eq, Drop, Error)]
pub enum NameError {
    #[error("the trust domain name is empty")]
    Empty,
    #[error("the trust domain name has over 255 bytes")]
    TooLong,
    /// The place of the first such byte, from 0.
    #[error("byte {0} of the trust domain name is none of a-z, 0-9, '.', '-' and '_'")]
    BadChar(u32),
    #[error("out of memory")]
    Memory,
}

impl NameError {
    /// The number by which replies and fault lines name the refusal: 1 to 3, or 22.
    pub fn number(&self) -> u8
        ensures { result ≡ name_number self.now }
    {
        match self {
            NameError::Empty => 1,
            NameError::TooLong => 2,
            NameError::BadChar(_) => 3,
            NameError::Memory => 22,
        }
    }
}

/// The name of a trust domain: 1 to 255 bytes of `a-z`, `0-9`, `.`, `-` and `_` (SPIFFE-ID, section 2.1). Names are
/// equal and ordered by their bytes.
#[derive(Drop)]
pub struct TrustDomain {
    /// The first 8 bytes, as one number: most names differ there, and a search finds them without going to the text.
    prefix: u64,
    text: ShortText,
}

impl Model for TrustDomain {
    ghost use Rattle.std.specs.Prelude.{◌≡◌, List, ℕ};
    ghost use Rattle.spiffe_doc.specs.Name.{IsName};
    ghost use Rattle.spiffe_doc.specs.Private.Prefix.{prefix_number};
    ghost use Rattle.spiffe_doc.specs.ShortText.{bytes_of};
    ghost use Rattle.spiffe_doc.specs.Private.Texts.{IsPlaced};

    ghost Value = { List ℕ };

    ghost view = { λ name. bytes_of name.text };

    ghost invariant = { λ name. IsName (bytes_of name.text) × (name.prefix ≡ prefix_number 8 (bytes_of name.text)) × IsPlaced name.text };
}

impl TrustDomain {
    /// Parses a trust domain name (SPIFFE-ID, section 2.1), or reports its first violation. Memory can run out only for
    /// a name of over 24 bytes.
    pub fn parse(alloc: Global, text: &str) -> Result<TrustDomain, NameError>
        ensures value { Gives NameError.Memory result (trust_domain text.now) }
        ensures memory { result ≡ Err NameError.Memory → IsName text.now × (24 < length text.now) }
    {
        Self::parse_bytes(alloc, text.as_bytes())
    }

    /// Parses a trust domain name from bytes, or reports its first violation. Memory can run out only for a name of over
    /// 24 bytes.
    pub fn parse_bytes(alloc: Global, bytes: &[u8]) -> Result<TrustDomain, NameError>
        ensures value { Gives NameError.Memory result (trust_domain bytes.now) }
        ensures memory { result ≡ Err NameError.Memory → IsName bytes.now × (24 < length bytes.now) }
    {
        if let Some(fault) = name_fault(bytes) {
            return Err(fault);
        }
        match ShortText::from_str(alloc, name_text(bytes)) {
            Ok(text) => Ok(TrustDomain {
                prefix: prefix_of(bytes),
                text,
            }),
            Err(_) => Err(NameError::Memory),
        }
    }

    /// The name's text.
    pub fn as_str(&self) -> &str
        ensures value { result.now ≡ self.now }
        ensures name { IsName result.now }
    {
        self.text.as_str()
    }

    /// The same name. Errors only if memory runs out, and only for a name of over 24 bytes.
    pub fn copy(&self) -> Result<TrustDomain, Memory>
        ensures { MatchResult result (λ copy. copy ≡ self.now) (λ _. 24 < length self.now) }
    {
        Ok(TrustDomain {
            prefix: self.prefix,
            text: self.text.copy()?,
        })
    }
}

/// Why the bytes are not a name.
pub(crate) fn name_fault(bytes: &[u8]) -> Option<NameError>
    ensures { result ≡ fault bytes.now }
{
    if bytes.is_empty() {
        return Some(NameError::Empty);
    }
    if bytes.len() > MAX_NAME {
        return Some(NameError::TooLong);
    }
    let at = first_bad_byte(bytes)?;
    Some(NameError::BadChar(at as u32))
}

fn first_bad_byte(bytes: &[u8]) -> Option<usize>
    ensures { result ≡ position (λ byte. not (name_byte byte)) bytes.now }
{
    if are_name_bytes(bytes) {
        return None;
    }
    bytes.iter().position(|byte| !is_name_byte(*byte))
}

/// Most names have no bad byte, so this reads all of them, with no branch at each.
fn are_name_bytes(bytes: &[u8]) -> bool
    ensures { result ≡ list_all name_byte bytes.now }
{
    let mut all = true;
    for byte in bytes {
        all &= is_name_byte(*byte);
    }
    all
}

/// A name is ASCII, which is UTF-8, so its bytes need no second test.
fn name_text(bytes: &[u8]) -> &str
    requires { IsName bytes.now }
    ensures { result.now ≡ bytes.now }
{
    unsafe { str::from_utf8_unchecked(bytes) }
}

/// The first 8 bytes as one number, the first byte the greatest; 0 stands for each that there is not.
pub(crate) fn prefix_of(bytes: &[u8]) -> u64
    ensures { result ≡ prefix_number 8 bytes.now }
{
    if let Some(first) = bytes.first_chunk::<8>() {
        return u64::from_be_bytes(*first);
    }
    let mut number = 0;
    for place in 0..8 {
        let byte = bytes.get(place).copied().unwrap_or(0);
        number = number * 256 + u64::from(byte);
    }
    number
}

fn is_name_byte(byte: u8) -> bool
    ensures { result ≡ name_byte byte }
{
    NAME_BYTES[byte as usize]
}

impl Clone for TrustDomain {
    ghost use Rattle.std.specs.Prelude.{◌≡◌, ◌≤◌, length};

    ghost is_clone = { λ domain clone. clone ≡ domain };

    ghost is_infallible = { λ domain. length domain ≤ 24 };

    fn clone(&self) -> Result<TrustDomain, AllocError> {
        self.copy()
    }
}

impl PartialEq for TrustDomain {
    ghost use Rattle.std.specs.Prelude.{bytes_eq};
    ghost use Rattle.std.specs.Cmp.{partial_equiv_from_equiv};
    ghost use Rattle.std.specs.Cmp.Lexicographic.{nat_list_eq_equiv};

    ghost eq = { bytes_eq };

    ghost laws = { partial_equiv_from_equiv nat_list_eq_equiv };

    fn eq(&self, other: &TrustDomain) -> bool {
        self.prefix == other.prefix && self.text.as_str() == other.text.as_str()
    }
}

impl Eq for TrustDomain {
    ghost use Rattle.std.specs.Cmp.Lexicographic.{nat_list_eq_equiv};

    ghost laws = { nat_list_eq_equiv };
}

impl PartialOrd for TrustDomain {
    ghost use Rattle.std.specs.Prelude.{Some};
    ghost use Rattle.std.specs.Ordering.{nat_cmp};
    ghost use Rattle.std.specs.Cmp.Lexicographic.{slice_cmp, texts_po};

    ghost partial_cmp = { λ a b. Some (slice_cmp nat_cmp a b) };

    ghost laws = { texts_po };

    fn partial_cmp(&self, other: &TrustDomain) -> Option<Ordering> {
        Some(self.cmp(other))
    }
}

impl Ord for TrustDomain {
    ghost use Rattle.std.specs.Prelude.{refl};
    ghost use Rattle.std.specs.Ordering.{nat_cmp};
    ghost use Rattle.std.specs.Cmp.Lexicographic.{slice_cmp, nat_list_cmp_total, texts_ties};

    ghost cmp = { slice_cmp nat_cmp };

    ghost total = { nat_list_cmp_total };

    ghost matches_partial_cmp = { λ a b. refl };

    ghost matches_eq = { texts_ties };

    #[inline]
    fn cmp(&self, other: &TrustDomain) -> Ordering {
        match self.prefix.cmp(&other.prefix) {
            Ordering::Equal => self.text.as_str().cmp(other.text.as_str()),
            order => order,
        }
    }
}
