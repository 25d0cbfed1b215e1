//! SPIFFE IDs (SPIFFE-ID, section 2).
ghost use Rattle.std.specs.Prelude.{◌≡◌, ◌<◌, ◌≤◌, ◌==◌, ◌&&◌, not, length, Err, IfOk, MatchOption, drop, position};
ghost use Rattle.std.specs.List.{list_all, slice_split, position_or_len, before_first, after_first};
ghost use Rattle.spiffe_doc.specs.Answer.{Gives};
ghost use Rattle.spiffe_doc.specs.Number.{id_number};
ghost use Rattle.spiffe_doc.specs.Id.{IdValue, IsId, id_text, IsPath, is_slash, is_segment_byte as segment_byte, is_segment as segment_test, first_bad as first_bad_from, segments_of, rest_fault as fault_of_rest, id_fault as fault, spiffe_id};

use crate::Memory;
use crate::name::{NameError, TrustDomain, name_fault};
use std::alloc::{AllocError, Global};
use std::marker::Model;
use thiserror::Error;

/// The most bytes of a SPIFFE ID.
const MAX_ID: usize = 2048;

/// Why a text is not a SPIFFE ID.
#[derive(Clone, Copy, Debug, PartialEq, Eq, Drop, Error)]
pub enum IdError {
    #[error("the trust domain name is empty")]
    Empty,
    #[error("the SPIFFE ID has over 2048 bytes, or its trust domain name over 255")]
    TooLong,
    /// The place of the first such byte in the trust domain name, from 0.
    #[error("byte {0} of the trust domain name is none of a-z, 0-9, '.', '-' and '_'")]
    BadChar(u32),
    #[error("the text does not begin with spiffe://")]
    NotSpiffe,
    /// The first such segment, from 0.
    #[error("segment {0} of the path is empty, '.', '..' or has a byte besides a-z, A-Z, 0-9, '.', '-' and '_'")]
    BadPath(u32),
    #[error("out of memory")]
    Memory,
}

impl IdError {
    /// The number by which replies and fault lines name the refusal: 1 to 5, or 22.
    pub fn number(&self) -> u8
        ensures { result ≡ id_number self.now }
    {
        match self {
            IdError::Empty => 1,
            IdError::TooLong => 2,
            IdError::BadChar(_) => 3,
            IdError::NotSpiffe => 4,
            IdError::BadPath(_) => 5,
            IdError::Memory => 22,
        }
    }
}

impl From<AllocError> for IdError {
    ghost use Rattle.std.specs.Prelude.{◌≡◌};
    ghost use Rattle.spiffe_doc.specs.declared.id.IdError.TheVariants.{Memory};

    ghost from_gives = { λ _ e. e ≡ Memory };

    fn from(_refused: AllocError) -> IdError {
        IdError::Memory
    }
}

impl From<NameError> for IdError {
    ghost use Rattle.std.specs.Prelude.{◌≡◌};
    ghost use Rattle.spiffe_doc.specs.Id.{id_error};

    ghost from_gives = { λ fault e. e ≡ id_error fault };

    fn from(fault: NameError) -> IdError {
        match fault {
            NameError::Empty => IdError::Empty,
            NameError::TooLong => IdError::TooLong,
            NameError::BadChar(at) => IdError::BadChar(at),
            NameError::Memory => IdError::Memory,
        }
    }
}

/// A SPIFFE ID: `spiffe://`, a trust domain and a path in it, at most 2,048 bytes.
#[derive(Drop)]
pub struct SpiffeId {
    domain: TrustDomain,
    path: String,
}

impl Model for SpiffeId {
    ghost use Rattle.std.specs.Prelude.{string_bytes};
    ghost use Rattle.spiffe_doc.specs.Id.{IdValue, IsId, id_text};

    ghost Value = { IdValue };

    ghost view = { λ id. record { domain = id.domain; path = string_bytes id.path } };

    ghost invariant = { λ id. IsId (id_text (record { domain = id.domain; path = string_bytes id.path })) (record { domain = id.domain; path = string_bytes id.path }) };
}

impl SpiffeId {
    /// Parses a SPIFFE ID (SPIFFE-ID, section 2), or reports its first violation. Memory can run out only for a text
    /// that is a SPIFFE ID.
    pub fn parse(alloc: Global, text: &str) -> Result<SpiffeId, IdError>
        ensures value { Gives IdError.Memory result (spiffe_id text.now) }
        ensures memory { result ≡ Err IdError.Memory → (id : IdValue) × IsId text.now id }
    {
        let bytes = text.as_bytes();
        if let Some(fault) = id_fault(bytes) {
            return Err(fault);
        }
        let rest = after_scheme(bytes);
        // The domain has no fault, so only memory can have run out.
        let Ok(domain) = TrustDomain::parse_bytes(alloc, before_slash(rest)) else {
            return Err(IdError::Memory);
        };
        Ok(SpiffeId {
            domain,
            path: String::from_str(alloc, path_str(from_slash(rest)))?,
        })
    }

    /// The trust domain.
    pub fn domain(&self) -> &TrustDomain
        ensures value { result.now ≡ self.now.domain }
        ensures valid { IsId (id_text self.now) self.now }
    {
        &self.domain
    }

    /// The path: empty, or a slash and a segment, once or more.
    pub fn path(&self) -> &str
        ensures value { result.now ≡ self.now.path }
        ensures path { IsPath result.now }
        ensures valid { IsId (id_text self.now) self.now }
    {
        self.path.as_str()
    }

    /// The same SPIFFE ID, in memory of its own.
    pub fn copy(&self) -> Result<SpiffeId, Memory>
        ensures { IfOk result (λ copy. copy ≡ self.now) }
    {
        Ok(SpiffeId {
            domain: self.domain.copy()?,
            path: self.path.clone()?,
        })
    }
}

/// Why the bytes are not a SPIFFE ID.
#[tactic(auto, unfolding(crate::specs::Id::id_fault))]
fn id_fault(text: &[u8]) -> Option<IdError>
    ensures { result ≡ fault text.now }
{
    if text.len() > MAX_ID {
        return Some(IdError::TooLong);
    }
    if !text.starts_with(b"spiffe://") {
        return Some(IdError::NotSpiffe);
    }
    rest_fault(after_scheme(text))
}

/// What follows `spiffe://`.
fn after_scheme(text: &[u8]) -> &[u8]
    requires { 9 ≤ length text.now }
    ensures { result.now ≡ drop 9 text.now }
{
    &text[9..]
}

/// Why what follows the scheme is not a trust domain and a path.
#[tactic(auto, unfolding(crate::specs::Id::rest_fault))]
fn rest_fault(rest: &[u8]) -> Option<IdError>
    requires { length rest.now ≤ 2048 }
    ensures { result ≡ fault_of_rest rest.now }
{
    if let Some(fault) = name_fault(before_slash(rest)) {
        return Some(IdError::from(fault));
    }
    let place = first_bad_after(rest)?;
    Some(IdError::BadPath(place))
}

fn first_slash(rest: &[u8]) -> Option<usize>
    ensures { result ≡ position is_slash rest.now }
{
    rest.iter().position(|byte| *byte == b'/')
}

/// The bytes up to the next slash or the end.
#[tactic(auto, using(crate::proofs::IdLemmas::slash_found, crate::proofs::IdLemmas::slash_missing))]
fn slash_or_end(rest: &[u8]) -> usize
    ensures { result ≡ position_or_len is_slash rest.now }
{
    match first_slash(rest) {
        Some(at) => at,
        None => rest.len(),
    }
}

#[tactic(auto, using(crate::proofs::IdLemmas::slash_inside))]
fn before_slash(rest: &[u8]) -> &[u8]
    ensures { result.now ≡ before_first is_slash rest.now }
{
    &rest[..slash_or_end(rest)]
}

#[tactic(auto, using(crate::proofs::IdLemmas::slash_inside))]
fn from_slash(rest: &[u8]) -> &[u8]
    ensures { result.now ≡ drop (position_or_len is_slash rest.now) rest.now }
{
    &rest[slash_or_end(rest)..]
}

/// What stands after the next slash, if there is one.
#[tactic(auto, using(crate::proofs::IdLemmas::slash_inside))]
fn after_slash(rest: &[u8]) -> Option<&[u8]>
    ensures { MatchOption result
        (length rest.now ≤ position_or_len is_slash rest.now)
        (λ after. (position_or_len is_slash rest.now < length rest.now) × (after.now ≡ after_first is_slash rest.now)) }
{
    let at = slash_or_end(rest);
    if at >= rest.len() {
        return None;
    }
    Some(&rest[at + 1..])
}

/// The first after the next slash that is not a segment.
#[tactic(auto, using(crate::proofs::IdLemmas::no_segments, crate::proofs::IdLemmas::segments_after))]
fn first_bad_after(rest: &[u8]) -> Option<u32>
    requires { length rest.now ≤ 2048 }
    ensures { result ≡ first_bad_from 0 (segments_of rest.now) }
{
    match after_slash(rest) {
        Some(after) => first_bad(after),
        None => None,
    }
}

/// The first that is not a segment.
fn first_bad(path: &[u8]) -> Option<u32>
    requires { length path.now ≤ 2048 }
    ensures { result ≡ first_bad_from 0 (slice_split is_slash path.now) }
{
    let mut rest = path;
    let mut place = 0;
    'segments: loop {
        if !is_segment(before_slash(rest)) {
            return Some(place);
        }
        let Some(after) = after_slash(rest) else {
            return None;
        };
        rest = after;
        place += 1;
    }
}

fn is_segment(segment: &[u8]) -> bool
    ensures { result ≡ segment_test segment.now }
{
    !segment.is_empty()
        && are_segment_bytes(segment)
        && segment != b".".as_slice()
        && segment != b"..".as_slice()
}

fn are_segment_bytes(segment: &[u8]) -> bool
    ensures { result ≡ list_all segment_byte segment.now }
{
    segment.iter().all(|byte| is_segment_byte(*byte))
}

fn is_segment_byte(byte: u8) -> bool
    ensures { result ≡ segment_byte byte }
{
    byte.is_ascii_alphanumeric() || matches!(byte, b'.' | b'-' | b'_')
}

/// A path is ASCII.
fn path_str(path: &[u8]) -> &str
    requires { IsPath path.now }
    ensures { result.now ≡ path.now }
{
    str::from_utf8(path).unwrap()
}
