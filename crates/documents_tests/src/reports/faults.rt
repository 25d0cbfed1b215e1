//! A document for each fault. The numbers are those of docs/FORMATS.md.
use super::tells;
use std::alloc::{AllocError, Global};

/// Documents that are not bundles, and what is wrong.
static DOCUMENTS: [(&str, &str); 25] = [
    (
        "{\"keys\":[]",
        "it is not a JSON text of UTF-8, nested at most 127 deep (11)",
    ),
    (
        "{\"keys\":[],\"n\":1e400}",
        "it is not a JSON text of UTF-8, nested at most 127 deep (11)",
    ),
    ("[]", "it is not a JSON object (12)"),
    (
        "{\"key\":[]}",
        "it has no member keys that is an array (13)",
    ),
    (
        "{\"keys\":{}}",
        "it has no member keys that is an array (13)",
    ),
    (
        "{\"keys\":[],\"spiffe_sequence\":-1}",
        "spiffe_sequence is not a whole number from 0 to 18446744073709551615 (14)",
    ),
    (
        "{\"keys\":[],\"spiffe_refresh_hint\":\"300\"}",
        "spiffe_refresh_hint is not a whole number from 0 to 18446744073709551615 (15)",
    ),
    ("{\"keys\":[{},\"k\"]}", "keys[1] is not a JSON object (16)"),
    (
        "{\"keys\":[{\"kty\":\"EC\",\"use\":\"x509-svid\"}]}",
        "keys[0] has a malformed crv: it has to be a text (17)",
    ),
    (
        "{\"keys\":[{\"kty\":\"EC\",\"use\":\"x509-svid\",\"crv\":\"P-256\"}]}",
        "keys[0] has a malformed x: it has to be 32 bytes of unpadded base64url (17)",
    ),
    (
        "{\"keys\":[{\"kty\":\"EC\",\"use\":\"x509-svid\",\"crv\":\"P-384\",\"x\":\"AA\"}]}",
        "keys[0] has a malformed x: it has to be 48 bytes of unpadded base64url (17)",
    ),
    (
        "{\"keys\":[{\"kty\":\"EC\",\"use\":\"jwt-svid\",\"crv\":\"P-521\",\"x\":\"AA==\"}]}",
        "keys[0] has a malformed x: it has to be 66 bytes of unpadded base64url (17)",
    ),
    (
        "{\"keys\":[{\"kty\":\"EC\",\"use\":\"x509-svid\",\"crv\":\"P-256\",\"x\":\"AAAAAAAAAAAAAAAAAAAAAAAAAAAAAAAAAAAAAAAAAAA\"}]}",
        "keys[0] has a malformed y: it has to be 32 bytes of unpadded base64url (17)",
    ),
    (
        "{\"keys\":[{\"kty\":\"EC\",\"use\":\"x509-svid\",\"crv\":5}]}",
        "keys[0] has a malformed crv: it has to be a text (17)",
    ),
    (
        "{\"keys\":[{\"kty\":\"EC\",\"use\":\"jwt-svid\",\"crv\":\"P-384\",\"x\":\"AAAAAAAAAAAAAAAAAAAAAAAAAAAAAAAAAAAAAAAAAAAAAAAAAAAAAAAAAAAAAAAA\",\"y\":7}]}",
        "keys[0] has a malformed y: it has to be 48 bytes of unpadded base64url (17)",
    ),
    (
        "{\"keys\":[{\"kty\":\"EC\",\"use\":\"jwt-svid\",\"crv\":\"P-521\",\"x\":\"AAAAAAAAAAAAAAAAAAAAAAAAAAAAAAAAAAAAAAAAAAAAAAAAAAAAAAAAAAAAAAAAAAAAAAAAAAAAAAAAAAAAAAAA\",\"y\":\"AA\"}]}",
        "keys[0] has a malformed y: it has to be 66 bytes of unpadded base64url (17)",
    ),
    (
        "{\"keys\":[{\"kty\":\"OKP\"},{\"kty\":\"RSA\",\"use\":\"jwt-svid\",\"n\":\"AQ\",\"e\":\"Aw==\"}]}",
        "keys[1] has a malformed e: it has to be 1 to 1024 bytes of unpadded base64url (17)",
    ),
    (
        "{\"keys\":[{\"kty\":\"RSA\",\"use\":\"jwt-svid\",\"n\":\"\"}]}",
        "keys[0] has a malformed n: it has to be 1 to 1024 bytes of unpadded base64url (17)",
    ),
    (
        "{\"keys\":[{\"kty\":\"RSA\",\"use\":\"jwt-svid\",\"n\":\"AQ\"}]}",
        "keys[0] has a malformed e: it has to be 1 to 1024 bytes of unpadded base64url (17)",
    ),
    (
        "{\"keys\":[{\"kty\":\"RSA\",\"use\":\"x509-svid\",\"n\":\"AQ\",\"e\":\"Aw\",\"x5c\":\"AAAA\"}]}",
        "keys[0] has a malformed x5c: it has to be a list of one text of padded base64 (18)",
    ),
    (
        "{\"keys\":[{\"kty\":\"RSA\",\"use\":\"x509-svid\",\"n\":\"AQ\",\"e\":\"Aw\",\"x5c\":[]}]}",
        "keys[0] has a malformed x5c: it has to be a list of one text of padded base64 (18)",
    ),
    (
        "{\"keys\":[{\"kty\":\"RSA\",\"use\":\"jwt-svid\",\"n\":\"AQ\",\"e\":\"Aw\"}]}",
        "keys[0] has a malformed kid: it has to be a text of 1 to 255 bytes (19)",
    ),
    (
        "{\"keys\":[{\"kty\":\"OKP\"},{\"kty\":\"RSA\",\"use\":\"jwt-svid\",\"n\":\"AQ\",\"e\":\"Aw\",\"kid\":\"\"}]}",
        "keys[1] has a malformed kid: it has to be a text of 1 to 255 bytes (19)",
    ),
    (
        "{\"keys\":[{\"kty\":\"RSA\",\"use\":\"jwt-svid\",\"n\":\"AQ\",\"e\":\"Aw\",\"kid\":\"k\"},{\"kty\":\"RSA\",\"use\":\"jwt-svid\",\"n\":\"Aw\",\"e\":\"Aw\",\"kid\":\"k\"}]}",
        "keys[1] has the kid of an earlier entry, with another key (20)",
    ),
    (
        "",
        "it is not a JSON text of UTF-8, nested at most 127 deep (11)",
    ),
];

#[test]
fn documents_that_are_not_bundles(rt: HostRuntime) -> Result<(), AllocError> {
    for &(document, fault) in &DOCUMENTS {
        let wanted = format!(in rt.alloc(); "a.json: not a bundle: {fault}\n")?;
        tells(&rt, rt.alloc(), "a.json", document, &wanted)?;
    }
    Ok(())
}

/// A document of a first entry and so many JWT authorities, which differ by their key ids, with so many spaces behind it.
fn document_of(
    alloc: Global,
    first: &str,
    authorities: usize,
    spaces: usize,
) -> Result<String, AllocError> {
    let mut document = String::from_str(alloc, "{\"keys\":[")?;
    document.push_str(first)?;
    for at in 0..authorities {
        document.push_str(
            ",{\"kty\":\"RSA\",\"use\":\"jwt-svid\",\"n\":\"AQ\",\"e\":\"Aw\",\"kid\":\"",
        )?;
        document.push_str(&at.to_string(alloc)?)?;
        document.push_str("\"}")?;
    }
    document.push_str("]}")?;
    for _ in 0..spaces {
        document.push(' ')?;
    }
    Ok(document)
}

/// A first entry, how many authorities and spaces there are, and what is told: documents of 1,048,576 bytes and of one
/// more, and of 1,024 authorities and of one more.
static LIMITS: [(&str, usize, usize, &str); 4] = [
    (
        "",
        0,
        1048565,
        "a: bundle of 0 authorities (0 X.509, 0 JWT), no sequence, no refresh hint\na: no authorities: nothing would be kept of 0 entries\n",
    ),
    (
        "",
        0,
        1048566,
        "a: not a bundle: the document, or its canonical text, has over 1048576 bytes (10)\n",
    ),
    (
        "{}",
        1024,
        0,
        "a: bundle of 1024 authorities (0 X.509, 1024 JWT), no sequence, no refresh hint\na: keys[0] is ignored: it has no kty\n",
    ),
    (
        "{}",
        1025,
        0,
        "a: not a bundle: it has over 1024 different authorities (21)\n",
    ),
];

#[test]
fn documents_at_the_limits(rt: HostRuntime) -> Result<(), AllocError> {
    for &(first, authorities, spaces, wanted) in &LIMITS {
        let document = document_of(rt.alloc(), first, authorities, spaces)?;
        tells(&rt, rt.alloc(), "a", &document, wanted)?;
    }
    Ok(())
}
