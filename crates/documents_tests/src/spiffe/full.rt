//! Documents of 1,024 authorities and of the longest canonical text, and what is not appended.
use super::documents::{Outcome, comes_to};
use super::{authority, bundle, is_equal_at};
use spiffe_doc::{AppendError, Bundle, DocError};
use std::alloc::{AllocError, Global};

/// A document of so many RSA keys with the key ids `k0`, `k1` and so on, or of one with a certificate of so many letters, and
/// what follows them.
fn many(alloc: Global, count: usize, letters: usize, rest: &str) -> Result<String, AllocError> {
    let mut text = String::from_str(alloc, "{\"keys\":[")?;
    for place in 0..count {
        text.push_str(if place > 0 { "," } else { "" })?;
        text.push_str(
            "{\"use\":\"jwt-svid\",\"kty\":\"RSA\",\"n\":\"AQAB\",\"e\":\"AQAB\",\"kid\":\"k",
        )?;
        text.push_str(&place.to_string(alloc)?)?;
        text.push_str("\"}")?;
    }
    if letters > 0 {
        text.push_str(
            "{\"use\":\"x509-svid\",\"kty\":\"RSA\",\"n\":\"AQAB\",\"e\":\"AQAB\",\"x5c\":[\"",
        )?;
        for _ in 0..letters {
            text.push('A')?;
        }
        text.push_str("\"]}")?;
    }
    text.push_str(rest)?;
    Ok(text)
}

/// An equal key is taken, and a key id that is taken is told before a full list.
static FULL: [(&str, Outcome); 4] = [
    ("]}", Ok(1024)),
    (
        ",{\"use\":\"jwt-svid\",\"kty\":\"RSA\",\"n\":\"AQAB\",\"e\":\"AQAB\",\"kid\":\"k0\"}]}",
        Ok(1024),
    ),
    (
        ",{\"use\":\"jwt-svid\",\"kty\":\"RSA\",\"n\":\"AQAB\",\"e\":\"AQAB\",\"kid\":\"k1024\"}]}",
        Err(DocError::TooMany),
    ),
    (
        ",{\"use\":\"jwt-svid\",\"kty\":\"RSA\",\"n\":\"AQAC\",\"e\":\"AQAB\",\"kid\":\"k0\"}]}",
        Err(DocError::KidTwice(1024)),
    ),
];

#[test]
fn full_documents(rt: HostRuntime) -> Result<(), AllocError> {
    for &(rest, wanted) in &FULL {
        let document = many(rt.alloc(), 1024, 0, rest)?;
        comes_to(&rt, rt.alloc(), document.as_bytes(), wanted, rest)?;
    }
    Ok(())
}

const FIRST_KEY: &str =
    "{\"use\":\"jwt-svid\",\"kty\":\"RSA\",\"n\":\"AQAB\",\"e\":\"AQAB\",\"kid\":\"k0\"}";

/// Another key by its key id.
const OTHER_KEY: &str =
    "{\"use\":\"jwt-svid\",\"kty\":\"RSA\",\"n\":\"AQAC\",\"e\":\"AQAB\",\"kid\":\"k0\"}";

const Z: &str =
    "{\"use\":\"jwt-svid\",\"kty\":\"RSA\",\"n\":\"AQAB\",\"e\":\"AQAB\",\"kid\":\"z\"}";

/// The end of a document whose sequence is the greatest.
const GREATEST: &str = "],\"spiffe_sequence\":18446744073709551615}";

/// How many keys a document has, or letters a certificate, what follows, how long the canonical text is, an entry, and why
/// it is not appended.
static REFUSED: [(usize, usize, &str, usize, &str, AppendError); 12] = [
    (
        1,
        0,
        "],\"spiffe_sequence\":9}",
        94,
        FIRST_KEY,
        AppendError::Present,
    ),
    (
        1,
        0,
        "],\"spiffe_sequence\":9}",
        94,
        OTHER_KEY,
        AppendError::KidTaken,
    ),
    (1024, 0, "]}", 67508, Z, AppendError::TooMany),
    (1024, 0, GREATEST, 67547, FIRST_KEY, AppendError::Present),
    (1024, 0, GREATEST, 67547, OTHER_KEY, AppendError::KidTaken),
    (1024, 0, GREATEST, 67547, Z, AppendError::TooMany),
    (1, 0, GREATEST, 113, FIRST_KEY, AppendError::Present),
    (1, 0, GREATEST, 113, OTHER_KEY, AppendError::KidTaken),
    (1, 0, GREATEST, 113, Z, AppendError::SequenceFull),
    (0, 0, GREATEST, 50, Z, AppendError::SequenceFull),
    (0, 1048500, "]}", 1048575, FIRST_KEY, AppendError::TooLong),
    (
        0,
        1048460,
        GREATEST,
        1048574,
        FIRST_KEY,
        AppendError::SequenceFull,
    ),
];

/// Why the authority of an entry is not appended to a bundle, if it is not.
fn refusal_of(
    alloc: Global,
    before: &Bundle,
    entry: &str,
) -> Result<Option<AppendError>, DocError> {
    let last = authority(alloc, entry)?;
    let refusal = before.appended(alloc, &last).err();
    drop(last);
    if refusal == Some(AppendError::Memory) {
        return Err(DocError::Memory);
    }
    Ok(refusal)
}

#[test]
fn refused_appends(rt: HostRuntime) -> Result<(), DocError> {
    for &(count, letters, rest, len, entry, wanted) in &REFUSED {
        let document = many(rt.alloc(), count, letters, rest)?;
        let before = bundle(rt.alloc(), &document)?;
        let found = (before.text_len(), refusal_of(rt.alloc(), &before, entry)?);
        is_equal_at(&rt, &found, &(len, Some(wanted)), &entry);
    }
    Ok(())
}
