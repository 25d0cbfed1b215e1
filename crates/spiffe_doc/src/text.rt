//! The canonical text of a bundle (RFC 7517, sections 4 and 5).
ghost use Rattle.std.specs.Prelude.{◌≡◌, ◌++◌, ◌∷◌, [], string_bytes, IfOk, OnOk, cond};
ghost use Rattle.json.specs.Print.{quoted};
ghost use Rattle.serde_json.specs.Written.{compact_text};
ghost use Rattle.base64.specs.Engines.{standard, url_safe_no_pad};
ghost use Rattle.base64.specs.GeneralPurpose.{encode_of};
ghost use Rattle.spiffe_doc.specs.Key.{curve_text};
ghost use Rattle.spiffe_doc.specs.Text.{entry_text, text_of};
ghost use Rattle.spiffe_doc.specs.Private.Writing.{NeedsNoEscape, number_text, rest_text, x509_point_tree, x509_rsa_tree, jwt_point_tree, jwt_rsa_tree};

use crate::Memory;
use crate::authority::{Authority, Certificate, KeyId};
use crate::bundle::Bundle;
use crate::key::{Curve, PublicKey};
use crate::octets::Octets;
use base64::engine::general_purpose::{STANDARD, URL_SAFE_NO_PAD};
use json::Writer;
use std::alloc::{AllocError, Allocator, Global};

/// The most bytes of an entry beside its three texts that vary, which are those of an X.509 authority over a curve.
const FIXED_LEN: usize = 69;

/// The canonical text of a bundle: compact JSON of the members that are kept, in byte order of their names. Errors only
/// if memory runs out; `Bundle::text` lends the same bytes without it.
pub fn write_document(alloc: Global, bundle: &Bundle) -> Result<Vec<u8>, Memory>
    ensures { IfOk result (λ text. text.items ≡ text_of bundle.now) }
{
    bundle.text().to_vec(alloc)
}

/// The canonical text of an authority by itself: compact JSON of a JWK (RFC 7517, section 4), its members in byte order
/// of their names, as it stands in the document of a bundle. One of at most 1,048,576 bytes reads back as the authority.
/// Errors only if memory runs out.
pub fn write_entry(alloc: Global, authority: &Authority) -> Result<Vec<u8>, Memory>
    ensures { IfOk result (λ text. text.items ≡ entry_text authority.now) }
{
    match authority {
        Authority::X509 { key, der } => write_x509(alloc, key, der),
        Authority::Jwt { kid, key } => write_jwt(alloc, kid, key),
    }
}

#[tactic(auto, unfolding(crate::specs::Text::entry_text))]
fn write_x509(alloc: Global, key: &PublicKey, der: &Certificate) -> Result<Vec<u8>, AllocError>
    ensures { IfOk result (λ text. text.items ≡ entry_text (Authority.X509 key.now der.now)) }
{
    let x5c = standard_text(alloc, der.der())?;
    match key {
        PublicKey::Ec(key) => {
            let x = url_safe_text(alloc, key.x())?;
            let y = url_safe_text(alloc, key.y())?;
            x509_point(alloc, key.curve(), &x, &y, &x5c)
        }
        PublicKey::Rsa(key) => {
            let n = url_safe_text(alloc, key.n())?;
            let e = url_safe_text(alloc, key.e())?;
            x509_rsa(alloc, &n, &e, &x5c)
        }
    }
}

#[tactic(auto, unfolding(crate::specs::Text::entry_text))]
fn write_jwt(alloc: Global, kid: &KeyId, key: &PublicKey) -> Result<Vec<u8>, AllocError>
    ensures { IfOk result (λ text. text.items ≡ entry_text (Authority.Jwt kid.now key.now)) }
{
    match key {
        PublicKey::Ec(key) => {
            let x = url_safe_text(alloc, key.x())?;
            let y = url_safe_text(alloc, key.y())?;
            jwt_point(alloc, kid.as_str(), key.curve(), &x, &y)
        }
        PublicKey::Rsa(key) => {
            let n = url_safe_text(alloc, key.n())?;
            let e = url_safe_text(alloc, key.e())?;
            jwt_rsa(alloc, kid.as_str(), &n, &e)
        }
    }
}

/// Adds an entry's text to the text up to the last entry.
pub(crate) fn push_entry<A: Allocator>(
    text: &mut Vec<u8, A>,
    is_first: bool,
    entry: &[u8],
) -> Result<(), AllocError>
    ensures { OnOk result (text.new.items ≡ text.old.items ++ (cond is_first [] (44 ∷ []) ++ entry.now)) }
{
    if !is_first {
        text.push(b',')?;
    }
    text.extend_from_slice(entry)
}

/// Adds what follows the last entry: the end of the list, the numbers and the end of the document.
pub(crate) fn push_rest<A: Allocator>(
    alloc: Global,
    text: &mut Vec<u8, A>,
    sequence: Option<u64>,
    refresh_hint: Option<u64>,
) -> Result<(), AllocError>
    ensures { OnOk result (text.new.items ≡ text.old.items ++ rest_text refresh_hint sequence) }
{
    text.push(b']')?;
    push_number(alloc, text, ",\"spiffe_refresh_hint\":", refresh_hint)?;
    push_number(alloc, text, ",\"spiffe_sequence\":", sequence)?;
    text.push(b'}')?;
    Ok(())
}

/// Adds a member of a number, if there is one.
fn push_number<A: Allocator>(
    alloc: Global,
    text: &mut Vec<u8, A>,
    label: &str,
    number: Option<u64>,
) -> Result<(), AllocError>
    ensures { OnOk result (text.new.items ≡ text.old.items ++ number_text label.now number) }
{
    match number {
        Some(n) => {
            text.extend_from_slice(label.as_bytes())?;
            text.extend_from_slice(n.to_string(alloc)?.as_bytes())
        }
        None => Ok(()),
    }
}

pub(crate) fn curve_name(curve: Curve) -> &'static str
    ensures { result.now ≡ curve_text curve }
{
    match curve {
        Curve::P256 => "P-256",
        Curve::P384 => "P-384",
        Curve::P521 => "P-521",
    }
}

fn url_safe_text(alloc: Global, bytes: &Octets) -> Result<String, AllocError>
    ensures value { IfOk result (λ text. string_bytes text ≡ encode_of url_safe_no_pad bytes.now) }
    ensures plain { IfOk result (λ text. NeedsNoEscape (string_bytes text)) }
{
    bytes.recall_valid();
    URL_SAFE_NO_PAD.encode(alloc, bytes.as_slice())
}

fn standard_text(alloc: Global, bytes: &Octets) -> Result<String, AllocError>
    ensures value { IfOk result (λ text. string_bytes text ≡ encode_of standard bytes.now) }
    ensures plain { IfOk result (λ text. NeedsNoEscape (string_bytes text)) }
{
    bytes.recall_valid();
    STANDARD.encode(alloc, bytes.as_slice())
}

/// No text of an entry yet, with room for the whole if these are the texts of the entry that vary. It grows only if the key id has
/// to be escaped.
fn entry_room<A: Allocator>(
    alloc: A,
    first: &str,
    second: &str,
    third: &str,
) -> Result<Vec<u8, A>, AllocError>
    ensures { IfOk result (λ text. text.items ≡ []) }
{
    let texts = first
        .len()
        .saturating_add(second.len())
        .saturating_add(third.len());
    Vec::with_capacity(alloc, texts.saturating_add(FIXED_LEN))
}

/// Adds a fixed text and one that varies.
fn push_pair<A: Allocator>(
    text: &mut Vec<u8, A>,
    fixed: &[u8],
    varying: &str,
) -> Result<(), AllocError>
    ensures { OnOk result (text.new.items ≡ text.old.items ++ (fixed.now ++ varying.now)) }
{
    text.extend_from_slice(fixed)?;
    text.extend_from_slice(varying.as_bytes())
}

/// The text with a string of JSON behind it.
fn with_string<A: Allocator>(text: Vec<u8, A>, string: &str) -> Result<Vec<u8, A>, AllocError>
    ensures { IfOk result (λ longer. longer.items ≡ text.items ++ quoted string.now) }
{
    let mut writer = Writer::new(text);
    writer.string(string)?;
    Ok(writer.into_inner())
}

// The four forms of an entry's text, put together from its texts. Base64 has no bytes to escape, so only a key id may have some.

/// The text of an X.509 authority over a curve, by the base64 texts of its members.
pub(crate) fn x509_point<A: Allocator>(
    alloc: A,
    curve: Curve,
    x: &str,
    y: &str,
    x5c: &str,
) -> Result<Vec<u8, A>, AllocError>
    requires x { NeedsNoEscape x.now }
    requires y { NeedsNoEscape y.now }
    requires x5c { NeedsNoEscape x5c.now }
    ensures { IfOk result (λ text. text.items ≡ compact_text (x509_point_tree curve x.now y.now x5c.now)) }
{
    let mut text = entry_room(alloc, x, y, x5c)?;
    push_pair(&mut text, b"{\"crv\":\"", curve_name(curve))?;
    push_pair(
        &mut text,
        b"\",\"kty\":\"EC\",\"use\":\"x509-svid\",\"x\":\"",
        x,
    )?;
    push_pair(&mut text, b"\",\"x5c\":[\"", x5c)?;
    push_pair(&mut text, b"\"],\"y\":\"", y)?;
    text.extend_from_slice(b"\"}")?;
    Ok(text)
}

/// The text of an X.509 authority with an RSA key, by the base64 texts of its members.
pub(crate) fn x509_rsa<A: Allocator>(
    alloc: A,
    n: &str,
    e: &str,
    x5c: &str,
) -> Result<Vec<u8, A>, AllocError>
    requires n { NeedsNoEscape n.now }
    requires e { NeedsNoEscape e.now }
    requires x5c { NeedsNoEscape x5c.now }
    ensures { IfOk result (λ text. text.items ≡ compact_text (x509_rsa_tree n.now e.now x5c.now)) }
{
    let mut text = entry_room(alloc, n, e, x5c)?;
    push_pair(&mut text, b"{\"e\":\"", e)?;
    push_pair(&mut text, b"\",\"kty\":\"RSA\",\"n\":\"", n)?;
    push_pair(&mut text, b"\",\"use\":\"x509-svid\",\"x5c\":[\"", x5c)?;
    text.extend_from_slice(b"\"]}")?;
    Ok(text)
}

/// The text of a JWT authority over a curve, by its key id and the base64 texts of its other members.
pub(crate) fn jwt_point<A: Allocator>(
    alloc: A,
    kid: &str,
    curve: Curve,
    x: &str,
    y: &str,
) -> Result<Vec<u8, A>, AllocError>
    requires x { NeedsNoEscape x.now }
    requires y { NeedsNoEscape y.now }
    ensures { IfOk result (λ text. text.items ≡ compact_text (jwt_point_tree kid.now curve x.now y.now)) }
{
    let mut front = entry_room(alloc, kid, x, y)?;
    push_pair(&mut front, b"{\"crv\":\"", curve_name(curve))?;
    front.extend_from_slice(b"\",\"kid\":")?;
    let mut text = with_string(front, kid)?;
    push_pair(
        &mut text,
        b",\"kty\":\"EC\",\"use\":\"jwt-svid\",\"x\":\"",
        x,
    )?;
    push_pair(&mut text, b"\",\"y\":\"", y)?;
    text.extend_from_slice(b"\"}")?;
    Ok(text)
}

/// The text of a JWT authority with an RSA key, by its key id and the base64 texts of its other members.
pub(crate) fn jwt_rsa<A: Allocator>(
    alloc: A,
    kid: &str,
    n: &str,
    e: &str,
) -> Result<Vec<u8, A>, AllocError>
    requires n { NeedsNoEscape n.now }
    requires e { NeedsNoEscape e.now }
    ensures { IfOk result (λ text. text.items ≡ compact_text (jwt_rsa_tree kid.now n.now e.now)) }
{
    let mut front = entry_room(alloc, kid, n, e)?;
    push_pair(&mut front, b"{\"e\":\"", e)?;
    front.extend_from_slice(b"\",\"kid\":")?;
    let mut text = with_string(front, kid)?;
    push_pair(&mut text, b",\"kty\":\"RSA\",\"n\":\"", n)?;
    text.extend_from_slice(b"\",\"use\":\"jwt-svid\"}")?;
    Ok(text)
}
