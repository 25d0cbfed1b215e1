//! The member of a key that is malformed.
ghost use Rattle.std.specs.Prelude.{◌≡◌, IfOk, is_some, option_map};
ghost use Rattle.base64.specs.Engines.{url_safe_no_pad};
ghost use Rattle.serde_json.specs.View.{view};
ghost use Rattle.spiffe_doc.specs.Judgement as judged;
ghost use Rattle.doc_report.specs.KeyMember.{faulty_member as member_of, faulty_point as point_member_of, faulty_rsa as rsa_member_of, curve_in};

use crate::reason::{is_ec, text};
use base64::DecodeAllocError;
use base64::engine::general_purpose::URL_SAFE_NO_PAD;
use serde_json::Value;
use spiffe_doc::Curve;
use std::alloc::{AllocError, Global};

/// A member of which an entry's key is made (RFC 7518, sections 6.2.1 and 6.3.1).
#[derive(Clone, Copy, Debug, PartialEq, Eq, Drop)]
pub enum KeyMember {
    /// `crv`, the name of the curve.
    Crv,
    /// `x`, a coordinate over the curve.
    X(Curve),
    /// `y`, the other coordinate.
    Y(Curve),
    /// `n`, the modulus.
    N,
    /// `e`, the exponent.
    E,
}

/// The most bytes that a member of an RSA key has.
const MAX_RSA_MEMBER: usize = 1024;

/// Of an entry whose key is malformed, the first member that is missing or malformed.
#[tactic(auto, unfolding(crate::specs::KeyMember::faulty_member))]
pub(crate) fn faulty_member(alloc: Global, entry: &Value) -> Result<KeyMember, AllocError>
    ensures { IfOk result (λ member. member ≡ member_of (view entry.now)) }
{
    if is_ec(text(entry, "kty")) {
        faulty_point(alloc, entry, curve(entry))
    } else {
        faulty_rsa(alloc, entry)
    }
}

/// The same of an EC key over this curve.
fn faulty_point(alloc: Global, entry: &Value, curve: Option<Curve>) -> Result<KeyMember, AllocError>
    ensures { IfOk result (λ member. member ≡ point_member_of (view entry.now) curve) }
{
    let Some(curve) = curve else {
        return Ok(KeyMember::Crv);
    };
    if has_coordinate(alloc, entry, "x", curve)? {
        Ok(KeyMember::Y(curve))
    } else {
        Ok(KeyMember::X(curve))
    }
}

/// The same of an RSA key.
fn faulty_rsa(alloc: Global, entry: &Value) -> Result<KeyMember, AllocError>
    ensures { IfOk result (λ member. member ≡ rsa_member_of (view entry.now)) }
{
    if has_rsa_member(alloc, entry, "n")? {
        Ok(KeyMember::E)
    } else {
        Ok(KeyMember::N)
    }
}

/// The curve that the entry names, if it is known.
fn curve(entry: &Value) -> Option<Curve>
    ensures { result ≡ curve_in (view entry.now) }
{
    curve_named(text(entry, "crv")?)
}

fn curve_named(text: &str) -> Option<Curve>
    ensures { result ≡ judged.curve_named text.now }
{
    if text == "P-256" {
        Some(Curve::P256)
    } else if text == "P-384" {
        Some(Curve::P384)
    } else if text == "P-521" {
        Some(Curve::P521)
    } else {
        None
    }
}

fn has_coordinate(
    alloc: Global,
    entry: &Value,
    name: &str,
    curve: Curve,
) -> Result<bool, AllocError>
    ensures { IfOk result (λ has. has ≡ is_some (judged.coordinate curve name.now (view entry.now))) }
{
    match key_bytes(alloc, entry, name)? {
        Some(bytes) => Ok(bytes.len() == curve.coordinate_len()),
        None => Ok(false),
    }
}

fn has_rsa_member(alloc: Global, entry: &Value, name: &str) -> Result<bool, AllocError>
    ensures { IfOk result (λ has. has ≡ is_some (judged.rsa_member name.now (view entry.now))) }
{
    match key_bytes(alloc, entry, name)? {
        Some(bytes) => Ok(!bytes.is_empty() && bytes.len() <= MAX_RSA_MEMBER),
        None => Ok(false),
    }
}

/// The bytes of a key's member.
#[tactic(auto, unfolding(spiffe_doc::specs::Judgement::key_bytes))]
fn key_bytes(alloc: Global, entry: &Value, name: &str) -> Result<Option<Vec<u8>>, AllocError>
    ensures { IfOk result (λ found. option_map (λ bytes. bytes.items) found ≡ judged.key_bytes name.now (view entry.now)) }
{
    match text(entry, name) {
        Some(text) => url_safe_bytes(alloc, text),
        None => Ok(None),
    }
}

/// The bytes that an unpadded base64url text stands for.
fn url_safe_bytes(alloc: Global, text: &str) -> Result<Option<Vec<u8>>, AllocError>
    ensures { IfOk result (λ found. option_map (λ bytes. bytes.items) found ≡ judged.encoded_bytes url_safe_no_pad text.now) }
{
    match URL_SAFE_NO_PAD.decode(alloc, text.as_bytes()) {
        Ok(bytes) => Ok(Some(bytes)),
        Err(DecodeAllocError::OutOfMemory) => Err(AllocError),
        Err(DecodeAllocError::DecodeError(_)) => Ok(None),
    }
}
