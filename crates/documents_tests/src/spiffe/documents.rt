//! What a document comes to: how many authorities, or why it is refused.
use super::{Parts, is_equal_at, text_of};
use spiffe_doc::{DocError, read_document};
use std::alloc::{AllocError, Global};
use std::process::Abort;

/// How many authorities a document has, or why it is refused.
pub(super) type Outcome = Result<usize, DocError>;

fn outcome(alloc: Global, document: &[u8]) -> Outcome {
    match read_document(alloc, document) {
        Ok(read) => Ok(read.authorities().len()),
        Err(refusal) => Err(refusal),
    }
}

/// The document comes to this, if there is memory.
pub(super) fn comes_to(
    rt: &impl Abort,
    alloc: Global,
    document: &[u8],
    wanted: Outcome,
    case: &str,
) -> Result<(), AllocError> {
    let found = outcome(alloc, document);
    if found == Err(DocError::Memory) {
        return Err(AllocError);
    }
    is_equal_at(rt, &found, &wanted, &case);
    Ok(())
}

const POINT_K: &str =
    "{\"use\":\"jwt-svid\",\"kty\":\"EC\",\"crv\":\"P-256\",\"kid\":\"k\",\"x\":\"AAAAAAAAAAAAAAAAAAAAAAAAAAAAAAAAAAAAAAAAAAA\",\"y\":\"AAAAAAAAAAAAAAAAAAAAAAAAAAAAAAAAAAAAAAAAAAA\"},";

const POINT_L: &str =
    "{\"use\":\"jwt-svid\",\"kty\":\"EC\",\"crv\":\"P-256\",\"kid\":\"l\",\"x\":\"AAAAAAAAAAAAAAAAAAAAAAAAAAAAAAAAAAAAAAAAAAA\",\"y\":\"AAAAAAAAAAAAAAAAAAAAAAAAAAAAAAAAAAAAAAAAAAA\"},";

/// Another key by the key id `k`.
const OTHER_K: &str =
    "{\"use\":\"jwt-svid\",\"kty\":\"EC\",\"crv\":\"P-256\",\"kid\":\"k\",\"x\":\"EAAAAAAAAAAAAAAAAAAAAAAAAAAAAAAAAAAAAAAAAAA\",\"y\":\"AAAAAAAAAAAAAAAAAAAAAAAAAAAAAAAAAAAAAAAAAAA\"}";

static DOCUMENTS: [(Parts, Outcome); 25] = [
    (&[("", 1)], Err(DocError::NotJson)),
    (&[("[]", 1)], Err(DocError::NotObject)),
    (&[("5", 1)], Err(DocError::NotObject)),
    (&[("{\"spiffe_sequence\":1}", 1)], Err(DocError::NoKeys)),
    (&[("{\"keys\":null}", 1)], Err(DocError::NoKeys)),
    (
        &[("{\"spiffe_sequence\":-1,\"keys\":{}}", 1)],
        Err(DocError::NoKeys),
    ),
    (
        &[("{\"keys\":[],\"spiffe_sequence\":18446744073709551616}", 1)],
        Err(DocError::BadSequence),
    ),
    (
        &[("{\"keys\":[],\"spiffe_sequence\":-1}", 1)],
        Err(DocError::BadSequence),
    ),
    (
        &[("{\"keys\":[],\"spiffe_sequence\":1.5}", 1)],
        Err(DocError::BadSequence),
    ),
    (
        &[("{\"keys\":[],\"spiffe_sequence\":1e0}", 1)],
        Err(DocError::BadSequence),
    ),
    (
        &[("{\"keys\":[],\"spiffe_sequence\":\"1\"}", 1)],
        Err(DocError::BadSequence),
    ),
    (
        &[("{\"keys\":[5],\"spiffe_refresh_hint\":\"x\"}", 1)],
        Err(DocError::BadHint),
    ),
    (
        &[(
            "{\"keys\":[5],\"spiffe_refresh_hint\":-1,\"spiffe_sequence\":-1}",
            1,
        )],
        Err(DocError::BadSequence),
    ),
    (&[("{\"keys\":[5]}", 1)], Err(DocError::BadEntry(0))),
    (
        &[("{\"keys\":[{\"kty\":\"OKP\",\"use\":\"jwt-svid\"},5]}", 1)],
        Err(DocError::BadEntry(1)),
    ),
    (
        &[(
            "{\"keys\":[{\"kty\":\"OKP\",\"use\":\"jwt-svid\"},{},{\"kty\":\"EC\",\"use\":\"jwt-svid\"},5]}",
            1,
        )],
        Err(DocError::BadKey(2)),
    ),
    (
        &[(
            "{\"keys\":[{},{\"kty\":\"RSA\",\"use\":\"jwt-svid\",\"n\":\"AQAB\"}]}",
            1,
        )],
        Err(DocError::BadKey(1)),
    ),
    (
        &[(
            "{\"keys\":[{},{\"kty\":\"RSA\",\"use\":\"x509-svid\",\"n\":\"AQAB\",\"e\":\"AQAB\"}]}",
            1,
        )],
        Err(DocError::BadX5c(1)),
    ),
    (
        &[(
            "{\"keys\":[{},{\"kty\":\"RSA\",\"use\":\"jwt-svid\",\"n\":\"AQAB\",\"e\":\"AQAB\"}]}",
            1,
        )],
        Err(DocError::BadKid(1)),
    ),
    (
        &[("{\"keys\":[", 1), (POINT_K, 1), (OTHER_K, 1), ("]}", 1)],
        Err(DocError::KidTwice(1)),
    ),
    // It comes before later faults.
    (
        &[
            ("{\"keys\":[", 1),
            (POINT_K, 1),
            (POINT_L, 1),
            (OTHER_K, 1),
            (",5]}", 1),
        ],
        Err(DocError::KidTwice(2)),
    ),
    // Of 1,048,576 bytes, and of 1,048,577.
    (&[("{\"keys\":[]}", 1), (" ", 1048565)], Ok(0)),
    (
        &[("{\"keys\":[]}", 1), (" ", 1048566)],
        Err(DocError::TooLong),
    ),
    // Nested 127 deep, and 128.
    (
        &[("{\"keys\":[],\"z\":", 1), ("[", 126), ("]", 126), ("}", 1)],
        Ok(0),
    ),
    (
        &[("{\"keys\":[],\"z\":", 1), ("[", 127), ("]", 127), ("}", 1)],
        Err(DocError::NotJson),
    ),
];

#[test]
fn documents(rt: HostRuntime) -> Result<(), AllocError> {
    for &(parts, wanted) in &DOCUMENTS {
        let document = text_of(rt.alloc(), parts)?;
        comes_to(
            &rt,
            rt.alloc(),
            document.as_bytes(),
            wanted,
            document.as_str(),
        )?;
    }
    Ok(())
}

/// A document of one point.
const WHOLE: &str =
    "{\"keys\":[{\"use\":\"x509-svid\",\"kty\":\"EC\",\"crv\":\"P-256\",\"x\":\"AAAAAAAAAAAAAAAAAAAAAAAAAAAAAAAAAAAAAAAAAAA\",\"y\":\"AAAAAAAAAAAAAAAAAAAAAAAAAAAAAAAAAAAAAAAAAAA\",\"x5c\":[\"MAA=\"]}]}";

/// No part of a document is one, and neither is what is not UTF-8.
#[test]
fn what_is_not_json(rt: HostRuntime) -> Result<(), AllocError> {
    let not_json = Err(DocError::NotJson);
    is_equal_at(&rt, &WHOLE.len(), &170, &WHOLE);
    comes_to(&rt, rt.alloc(), WHOLE.as_bytes(), Ok(1), WHOLE)?;
    for len in 0..170 {
        let front = WHOLE.as_bytes().get(..len).unwrap_or_default();
        comes_to(&rt, rt.alloc(), front, not_json, "a part")?;
    }
    comes_to(
        &rt,
        rt.alloc(),
        b"{\"keys\":[],\"z\":\"\xff\"}",
        not_json,
        "not UTF-8",
    )
}
