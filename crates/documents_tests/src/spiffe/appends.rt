//! Authorities that are appended.
use super::{authority, bundle, holds_at, is_equal_at};
use spiffe_doc::{Authority, Bundle, write_entry};
use std::alloc::Global;
use std::process::Abort;
use std::test::Fail;

const K: &str =
    "{\"use\":\"jwt-svid\",\"kty\":\"RSA\",\"n\":\"AQAB\",\"e\":\"AQAB\",\"kid\":\"k\"}";

/// A document, an entry, and the canonical text with its authority.
static APPENDED: [(&str, &str, &str); 6] = [
    (
        "{\"keys\":[]}",
        K,
        "{\"keys\":[{\"e\":\"AQAB\",\"kid\":\"k\",\"kty\":\"RSA\",\"n\":\"AQAB\",\"use\":\"jwt-svid\"}]}",
    ),
    (
        "{\"keys\":[],\"spiffe_sequence\":9,\"spiffe_refresh_hint\":60}",
        K,
        "{\"keys\":[{\"e\":\"AQAB\",\"kid\":\"k\",\"kty\":\"RSA\",\"n\":\"AQAB\",\"use\":\"jwt-svid\"}],\"spiffe_refresh_hint\":60,\"spiffe_sequence\":10}",
    ),
    (
        "{\"keys\":[{\"e\":\"AQAB\",\"kid\":\"j\",\"kty\":\"RSA\",\"n\":\"AQAB\",\"use\":\"jwt-svid\"}]}",
        K,
        "{\"keys\":[{\"e\":\"AQAB\",\"kid\":\"j\",\"kty\":\"RSA\",\"n\":\"AQAB\",\"use\":\"jwt-svid\"},{\"e\":\"AQAB\",\"kid\":\"k\",\"kty\":\"RSA\",\"n\":\"AQAB\",\"use\":\"jwt-svid\"}]}",
    ),
    (
        "{\"keys\":[]}",
        "{\"use\":\"x509-svid\",\"kty\":\"EC\",\"crv\":\"P-256\",\"x\":\"AAAAAAAAAAAAAAAAAAAAAAAAAAAAAAAAAAAAAAAAAAA\",\"y\":\"AAAAAAAAAAAAAAAAAAAAAAAAAAAAAAAAAAAAAAAAAAA\",\"x5c\":[\"MAA=\"]}",
        "{\"keys\":[{\"crv\":\"P-256\",\"kty\":\"EC\",\"use\":\"x509-svid\",\"x\":\"AAAAAAAAAAAAAAAAAAAAAAAAAAAAAAAAAAAAAAAAAAA\",\"x5c\":[\"MAA=\"],\"y\":\"AAAAAAAAAAAAAAAAAAAAAAAAAAAAAAAAAAAAAAAAAAA\"}]}",
    ),
    (
        "{\"keys\":[]}",
        "{\"use\":\"x509-svid\",\"kty\":\"RSA\",\"n\":\"AAAB\",\"e\":\"AQAB\",\"x5c\":[\"MAA=\"]}",
        "{\"keys\":[{\"e\":\"AQAB\",\"kty\":\"RSA\",\"n\":\"AAAB\",\"use\":\"x509-svid\",\"x5c\":[\"MAA=\"]}]}",
    ),
    (
        "{\"keys\":[]}",
        "{\"use\":\"jwt-svid\",\"kty\":\"EC\",\"crv\":\"P-256\",\"kid\":\"k\",\"x\":\"AAAAAAAAAAAAAAAAAAAAAAAAAAAAAAAAAAAAAAAAAAA\",\"y\":\"AAAAAAAAAAAAAAAAAAAAAAAAAAAAAAAAAAAAAAAAAAA\"}",
        "{\"keys\":[{\"crv\":\"P-256\",\"kid\":\"k\",\"kty\":\"EC\",\"use\":\"jwt-svid\",\"x\":\"AAAAAAAAAAAAAAAAAAAAAAAAAAAAAAAAAAAAAAAAAAA\",\"y\":\"AAAAAAAAAAAAAAAAAAAAAAAAAAAAAAAAAAAAAAAAAAA\"}]}",
    ),
];

/// The bundle has the text and ends with the authority; its copy is equal to it, and not to the one before.
fn is_appended(
    rt: &impl Abort,
    alloc: Global,
    before: &Bundle,
    last: &Authority,
    wanted: &str,
) -> Result<(), Fail> {
    let after = before.appended(alloc, last)?;
    let copy: Bundle = after.copy()?;
    is_equal_at(rt, &copy.text(), &wanted.as_bytes(), &wanted);
    let entry = write_entry(alloc, last)?;
    let kept = after.authorities();
    let at = kept.len().saturating_sub(1);
    let is_last = kept.get(at).is_some_and(|it| it.text() == entry.as_slice());
    holds_at(rt, is_last, &wanted);
    holds_at(rt, copy == after && copy != *before, &wanted);
    holds_at(rt, after == bundle(alloc, wanted)?, &wanted);
    Ok(())
}

#[test]
fn appends(rt: HostRuntime) -> Result<(), Fail> {
    for &(before, entry, wanted) in &APPENDED {
        let before = bundle(rt.alloc(), before)?;
        let last = authority(rt.alloc(), entry)?;
        let is_so = is_appended(&rt, rt.alloc(), &before, &last, wanted);
        drop(last);
        is_so?;
    }
    Ok(())
}
