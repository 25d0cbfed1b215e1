//! What an entry comes to, by itself and in a document, and what is kept of it.
use super::documents::{Outcome, comes_to};
use super::{Parts, authority, bundle, holds_at, is_equal_at, text_of};
use spiffe_doc::{Authority, Bundle, Curve, DocError, PublicKey, read_entry};
use std::alloc::{AllocError, Global};
use std::process::Abort;
use std::test::Fail;

/// Up to the first coordinate.
const P256: &str = "{\"use\":\"x509-svid\",\"kty\":\"EC\",\"crv\":\"P-256\",\"x\":\"";

const P384: &str = "{\"use\":\"x509-svid\",\"kty\":\"EC\",\"crv\":\"P-384\",\"x\":\"";

const P521: &str = "{\"use\":\"x509-svid\",\"kty\":\"EC\",\"crv\":\"P-521\",\"x\":\"";

const P999: &str = "{\"use\":\"x509-svid\",\"kty\":\"EC\",\"crv\":\"P-999\",\"x\":\"";

/// Between the coordinates.
const Y: &str = "\",\"y\":\"";

/// Behind them.
const MAA: &str = "\",\"x5c\":[\"MAA=\"]}";

/// A point up to its certificate.
const X5C: &str =
    "{\"use\":\"x509-svid\",\"kty\":\"EC\",\"crv\":\"P-256\",\"x\":\"AAAAAAAAAAAAAAAAAAAAAAAAAAAAAAAAAAAAAAAAAAA\",\"y\":\"AAAAAAAAAAAAAAAAAAAAAAAAAAAAAAAAAAAAAAAAAAA\",\"x5c\":";

/// An RSA key up to its key id, and up to its modulus.
const KID: &str = "{\"use\":\"jwt-svid\",\"kty\":\"RSA\",\"n\":\"AQAB\",\"e\":\"AQAB\",\"kid\":\"";

const N: &str = "{\"use\":\"jwt-svid\",\"kty\":\"RSA\",\"kid\":\"k\",\"e\":\"AQAB\",\"n\":\"";

const BAD_KEY: Outcome = Err(DocError::BadKey(0));

const BAD_X5C: Outcome = Err(DocError::BadX5c(0));

const BAD_KID: Outcome = Err(DocError::BadKid(0));

/// An entry that is ignored comes to no authority.
static ENTRIES: [(Parts, Outcome); 47] = [
    // Points over curves.
    (&[(P256, 1), ("A", 43), (Y, 1), ("A", 43), (MAA, 1)], Ok(1)),
    (&[(P384, 1), ("A", 64), (Y, 1), ("A", 64), (MAA, 1)], Ok(1)),
    (&[(P521, 1), ("A", 88), (Y, 1), ("A", 88), (MAA, 1)], Ok(1)),
    (&[(P999, 1), ("A", 42), (Y, 1), ("A", 42), (MAA, 1)], Ok(0)),
    (
        &[(P256, 1), ("A", 42), (Y, 1), ("A", 43), (MAA, 1)],
        BAD_KEY,
    ),
    (
        &[(P256, 1), ("A", 42), ("B", 1), (Y, 1), ("A", 43), (MAA, 1)],
        BAD_KEY,
    ),
    (
        &[(P256, 1), ("A", 43), ("=", 1), (Y, 1), ("A", 43), (MAA, 1)],
        BAD_KEY,
    ),
    (
        &[(P256, 1), ("A", 64), (Y, 1), ("A", 64), (MAA, 1)],
        BAD_KEY,
    ),
    (
        &[(P256, 1), ("A", 43), (Y, 1), ("A", 42), ("B", 1), (MAA, 1)],
        BAD_KEY,
    ),
    (
        &[(P384, 1), ("A", 65), (Y, 1), ("A", 65), (MAA, 1)],
        BAD_KEY,
    ),
    (
        &[(P384, 1), ("A", 64), (Y, 1), ("A", 43), (MAA, 1)],
        BAD_KEY,
    ),
    (
        &[(P521, 1), ("A", 88), (Y, 1), ("A", 87), (MAA, 1)],
        BAD_KEY,
    ),
    // Certificates.
    (&[(X5C, 1), ("[\"MAA=\"]}", 1)], Ok(1)),
    (&[(X5C, 1), ("[\"MAA=\",\"MAA=\"]}", 1)], BAD_X5C),
    (&[(X5C, 1), ("[\"MAA\"]}", 1)], BAD_X5C),
    (&[(X5C, 1), ("[\"MAB=\"]}", 1)], BAD_X5C),
    (&[(X5C, 1), ("[\"MA_=\"]}", 1)], BAD_X5C),
    (&[(X5C, 1), ("[\"\"]}", 1)], BAD_X5C),
    (&[(X5C, 1), ("[]}", 1)], BAD_X5C),
    (&[(X5C, 1), ("[5]}", 1)], BAD_X5C),
    (&[(X5C, 1), ("\"MAA=\"}", 1)], BAD_X5C),
    (&[(X5C, 1), ("null}", 1)], BAD_X5C),
    // A key id has 255 bytes at most, and a modulus 1,024, which are 1,366 letters.
    (&[(KID, 1), ("k", 255), ("\"}", 1)], Ok(1)),
    (&[(KID, 1), ("k", 256), ("\"}", 1)], BAD_KID),
    (&[(N, 1), ("A", 1366), ("\"}", 1)], Ok(1)),
    (&[(N, 1), ("A", 1367), ("\"}", 1)], BAD_KEY),
    // The first fault is told.
    (&[("{\"kty\":\"EC\",\"use\":\"jwt-svid\"}", 1)], BAD_KEY),
    (
        &[("{\"kty\":\"EC\",\"use\":\"jwt-svid\",\"crv\":5}", 1)],
        BAD_KEY,
    ),
    (
        &[(
            "{\"kty\":\"EC\",\"use\":\"jwt-svid\",\"crv\":\"P-256\",\"x\":\"!\"}",
            1,
        )],
        BAD_KEY,
    ),
    (
        &[("{\"kty\":\"RSA\",\"use\":\"jwt-svid\",\"e\":\"AQAB\"}", 1)],
        BAD_KEY,
    ),
    (
        &[(
            "{\"kty\":\"RSA\",\"use\":\"jwt-svid\",\"n\":\"\",\"e\":\"AQAB\"}",
            1,
        )],
        BAD_KEY,
    ),
    (
        &[(
            "{\"kty\":\"RSA\",\"use\":\"jwt-svid\",\"n\":\"AQAB\",\"e\":5}",
            1,
        )],
        BAD_KEY,
    ),
    (&[("5", 1)], Err(DocError::BadEntry(0))),
    (
        &[(
            "{\"kty\":\"RSA\",\"use\":\"jwt-svid\",\"n\":\"AQAB\",\"e\":\"AQAB\"}",
            1,
        )],
        BAD_KID,
    ),
    (
        &[(
            "{\"kty\":\"RSA\",\"use\":\"jwt-svid\",\"n\":\"AQAB\",\"e\":\"AQAB\",\"kid\":\"\"}",
            1,
        )],
        BAD_KID,
    ),
    (
        &[(
            "{\"kty\":\"RSA\",\"use\":\"x509-svid\",\"n\":\"AQAB\",\"e\":\"AQAB\"}",
            1,
        )],
        BAD_X5C,
    ),
    (&[("[", 1)], Err(DocError::NotJson)),
    // Ignored.
    (&[("{}", 1)], Ok(0)),
    (&[("{\"kty\":\"OKP\",\"use\":\"jwt-svid\"}", 1)], Ok(0)),
    (&[("{\"kty\":\"ec\",\"use\":\"jwt-svid\"}", 1)], Ok(0)),
    (&[("{\"kty\":5,\"use\":\"jwt-svid\"}", 1)], Ok(0)),
    (&[("{\"kty\":\"RSA\"}", 1)], Ok(0)),
    (&[("{\"kty\":\"RSA\",\"use\":\"sig\"}", 1)], Ok(0)),
    (&[("{\"kty\":\"RSA\",\"use\":\"X509-svid\"}", 1)], Ok(0)),
    (
        &[("{\"kty\":\"EC\",\"use\":\"jwt-svid\",\"crv\":\"P-999\"}", 1)],
        Ok(0),
    ),
    (
        &[(
            "{\"use\":\"sig\",\"kty\":\"EC\",\"crv\":\"P-256\",\"x\":\"AAAAAAAAAAAAAAAAAAAAAAAAAAAAAAAAAAAAAAAAAAA\",\"y\":\"AAAAAAAAAAAAAAAAAAAAAAAAAAAAAAAAAAAAAAAAAAA\",\"x5c\":[\"MAA=\",\"MAA=\"]}",
            1,
        )],
        Ok(0),
    ),
    // With spaces behind it of 1,048,577 bytes.
    (
        &[(KID, 1), ("k\"}", 1), (" ", 1048515)],
        Err(DocError::TooLong),
    ),
];

/// How many authorities were read: one or none.
fn count_of(read: Option<Authority>) -> usize {
    let count = usize::from(read.is_some());
    drop(read);
    count
}

/// How many authorities an entry gives by itself, or why it is refused.
fn outcome(alloc: Global, entry: &str) -> Outcome {
    match read_entry(alloc, entry.as_bytes()) {
        Ok(read) => Ok(count_of(read)),
        Err(refusal) => Err(refusal),
    }
}

#[test]
fn entries(rt: HostRuntime) -> Result<(), AllocError> {
    for &(parts, wanted) in &ENTRIES {
        let entry = text_of(rt.alloc(), parts)?;
        let found = outcome(rt.alloc(), &entry);
        if found == Err(DocError::Memory) {
            return Err(AllocError);
        }
        is_equal_at(&rt, &found, &wanted, &entry);
        let document = format!(in rt.alloc(); "{{\"keys\":[{entry}]}}")?;
        comes_to(
            &rt,
            rt.alloc(),
            document.as_bytes(),
            wanted,
            document.as_str(),
        )?;
    }
    Ok(())
}

/// The curve of a key, and its coordinates, or its modulus and its exponent.
type Members<'a> = (Option<Curve>, &'a [u8], &'a [u8]);

/// An entry, the bytes of its certificate or of its key id, and the members of its key.
static KEPT: [(Parts, &[u8], Members<'static>); 7] = [
    (
        &[(P256, 1), ("A", 43), (Y, 1), ("A", 43), (MAA, 1)],
        b"\x30\x00",
        (Some(Curve::P256), &[0; 32], &[0; 32]),
    ),
    (
        &[(P521, 1), ("A", 88), (Y, 1), ("A", 88), (MAA, 1)],
        b"\x30\x00",
        (Some(Curve::P521), &[0; 66], &[0; 66]),
    ),
    (
        &[(P256, 1), ("E", 1), ("A", 42), (Y, 1), ("A", 43), (MAA, 1)],
        b"\x30\x00",
        (
            Some(Curve::P256),
            b"\x10\0\0\0\0\0\0\0\0\0\0\0\0\0\0\0\0\0\0\0\0\0\0\0\0\0\0\0\0\0\0\0",
            &[0; 32],
        ),
    ),
    (
        &[(
            "{\"use\":\"x509-svid\",\"kty\":\"RSA\",\"n\":\"AQAB\",\"e\":\"AQAB\",\"x5c\":[\"MAA=\"]}",
            1,
        )],
        b"\x30\x00",
        (None, b"\x01\x00\x01", b"\x01\x00\x01"),
    ),
    (
        &[(N, 1), ("AQAB\"}", 1)],
        b"k",
        (None, b"\x01\x00\x01", b"\x01\x00\x01"),
    ),
    // Zeros that a modulus begins with are kept.
    (
        &[(N, 1), ("AAAB\"}", 1)],
        b"k",
        (None, b"\x00\x00\x01", b"\x01\x00\x01"),
    ),
    // With spaces behind it of 1,048,576 bytes.
    (
        &[(KID, 1), ("k\"}", 1), (" ", 1048514)],
        b"k",
        (None, b"\x01\x00\x01", b"\x01\x00\x01"),
    ),
];

/// An authority that none of these is, with the key of the first one.
const OTHER: &str =
    "{\"keys\":[{\"use\":\"jwt-svid\",\"kty\":\"EC\",\"crv\":\"P-256\",\"kid\":\"k\",\"x\":\"AAAAAAAAAAAAAAAAAAAAAAAAAAAAAAAAAAAAAAAAAAA\",\"y\":\"AAAAAAAAAAAAAAAAAAAAAAAAAAAAAAAAAAAAAAAAAAA\"}]}";

/// The certificate of an authority, or its key id, and its key.
fn parts_of(authority: &Authority) -> (&[u8], &PublicKey) {
    match authority {
        Authority::X509 { key, der } => (der.der().as_slice(), key),
        Authority::Jwt { kid, key } => (kid.as_str().as_bytes(), key),
    }
}

fn members_of(key: &PublicKey) -> Members<'_> {
    match key {
        PublicKey::Ec(key) => (Some(key.curve()), key.x().as_slice(), key.y().as_slice()),
        PublicKey::Rsa(key) => (None, key.n().as_slice(), key.e().as_slice()),
    }
}

/// The key has these members, and so has its copy. It is equal to the other one only if that has the same.
fn is_kept(
    rt: &impl Abort,
    key: &PublicKey,
    other: &PublicKey,
    wanted: Members<'_>,
) -> Result<(), AllocError> {
    let (curve, first, second) = wanted;
    let copy: PublicKey = key.copy()?;
    is_equal_at(rt, &members_of(&copy), &(curve, first, second), &first);
    is_equal_at(rt, &members_of(key), &(curve, first, second), &first);
    let is_other = members_of(other) == (curve, first, second);
    is_equal_at(
        rt,
        &(copy == *key, copy == *other),
        &(true, is_other),
        &first,
    );
    Ok(())
}

/// A copy of the authority has this certificate or key id and these members, and is not the other one.
fn is_copied(
    rt: &impl Abort,
    authority: &Authority,
    other: &Authority,
    own: &[u8],
    wanted: Members<'_>,
) -> Result<(), AllocError> {
    let copy: Authority = authority.copy()?;
    let is_copy = copy == *authority && copy != *other;
    let is_so = is_kept_of(rt, &copy, other, own, wanted);
    drop(copy);
    holds_at(rt, is_copy, &own);
    is_so
}

/// The authority has this certificate or key id and these members.
fn is_kept_of(
    rt: &impl Abort,
    authority: &Authority,
    other: &Authority,
    own: &[u8],
    wanted: Members<'_>,
) -> Result<(), AllocError> {
    let (found, key) = parts_of(authority);
    let (_, other) = parts_of(other);
    is_equal_at(rt, &found, &own, &"certificate or key id");
    is_kept(rt, key, other, wanted)
}

/// The one authority of a document.
fn only_one(rt: &impl Abort, alloc: Global, document: &Bundle) -> Result<Authority, Fail> {
    let authorities = document.authorities();
    is_equal_at(rt, &authorities.len(), &1, &"authorities");
    let first = authorities.get(0).ok_or("an authority")?;
    Ok(first.decode(alloc)?)
}

/// The entry by itself gives an authority with this certificate or key id and these members.
fn is_kept_alone(
    rt: &impl Abort,
    alloc: Global,
    other: &Authority,
    entry: &str,
    kept: (&[u8], Members<'_>),
) -> Result<(), Fail> {
    let read = authority(alloc, entry)?;
    let is_so = is_copied(rt, &read, other, kept.0, kept.1);
    drop(read);
    Ok(is_so?)
}

/// A document of the entry has one authority, with this certificate or key id and these members.
fn is_kept_in_document(
    rt: &impl Abort,
    alloc: Global,
    other: &Authority,
    entry: &str,
    kept: (&[u8], Members<'_>),
) -> Result<(), Fail> {
    let document = format!(in alloc; "{{\"keys\":[{}]}}", entry.trim_end())?;
    let read = only_one(rt, alloc, &bundle(alloc, &document)?)?;
    let is_so = is_kept_of(rt, &read, other, kept.0, kept.1);
    drop(read);
    Ok(is_so?)
}

// By itself, and in a document, which has no room for the spaces behind an entry.
#[test]
fn members(rt: HostRuntime) -> Result<(), Fail> {
    let other = only_one(&rt, rt.alloc(), &bundle(rt.alloc(), OTHER)?)?;
    let are_so = are_kept(&rt, rt.alloc(), &other);
    drop(other);
    are_so
}

fn are_kept(rt: &impl Abort, alloc: Global, other: &Authority) -> Result<(), Fail> {
    for &(parts, own, wanted) in &KEPT {
        let entry = text_of(alloc, parts)?;
        is_kept_alone(rt, alloc, other, &entry, (own, wanted))?;
        is_kept_in_document(rt, alloc, other, &entry, (own, wanted))?;
    }
    Ok(())
}
