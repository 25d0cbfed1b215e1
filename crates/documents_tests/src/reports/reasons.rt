//! A document for each reason why an entry is ignored.
use super::{IGNORED, tells};
use std::alloc::AllocError;

/// One entry by itself, and why it is ignored.
static ENTRIES: [(&str, &str); 15] = [
    ("{}", "it has no kty"),
    ("{\"kty\":null}", "its kty is not a text"),
    ("{\"kty\":[\"EC\"]}", "its kty is not a text"),
    (
        "{\"kty\":\"OKP\",\"use\":\"jwt-svid\"}",
        "its kty is \"OKP\", not EC or RSA",
    ),
    ("{\"kty\":\"ec\"}", "its kty is \"ec\", not EC or RSA"),
    ("{\"kty\":\"\"}", "its kty is \"\", not EC or RSA"),
    (
        "{\"kty\":\"EC\",\"kty\":\"oct\"}",
        "its kty is \"oct\", not EC or RSA",
    ),
    ("{\"kty\":\"EC\"}", "it has no use"),
    ("{\"kty\":\"RSA\",\"use\":7}", "its use is not a text"),
    (
        "{\"kty\":\"EC\",\"use\":\"sig\"}",
        "its use is \"sig\", not x509-svid or jwt-svid",
    ),
    (
        "{\"kty\":\"RSA\",\"use\":\"X509-SVID\"}",
        "its use is \"X509-SVID\", not x509-svid or jwt-svid",
    ),
    (
        "{\"kty\":\"EC\",\"use\":\"jwt-svid\",\"crv\":\"secp256k1\"}",
        "its crv is \"secp256k1\", not P-256, P-384 or P-521",
    ),
    (
        "{\"kty\":\"EC\",\"use\":\"x509-svid\",\"crv\":\"P-224\",\"x\":7}",
        "its crv is \"P-224\", not P-256, P-384 or P-521",
    ),
    (
        "{\"kty\":\"OKP\",\"use\":\"sig\",\"crv\":\"Ed25519\"}",
        "its kty is \"OKP\", not EC or RSA",
    ),
    (
        "{\"kty\":\"EC\",\"use\":\"sig\",\"crv\":\"P-224\"}",
        "its use is \"sig\", not x509-svid or jwt-svid",
    ),
];

#[test]
fn entries_by_themselves(rt: HostRuntime) -> Result<(), AllocError> {
    for &(entry, reason) in &ENTRIES {
        let document = format!(in rt.alloc(); "{{\"keys\":[{entry}]}}")?;
        let wanted = format!(in rt.alloc(); "{IGNORED}{reason}\n")?;
        tells(&rt, rt.alloc(), "a", &document, &wanted)?;
    }
    Ok(())
}

/// A name and a whole document, with entries that repeat, with none, and with three of which none is kept.
static DOCUMENTS: [(&str, &str, &str); 4] = [
    (
        "a",
        "{\"keys\":[{\"kty\":\"RSA\",\"use\":\"jwt-svid\",\"kid\":\"k\",\"n\":\"AQ\",\"e\":\"Aw\"},{\"e\":\"Aw\",\"n\":\"AQ\",\"kid\":\"k\",\"use\":\"jwt-svid\",\"kty\":\"RSA\",\"alg\":\"RS256\"}],\"spiffe_refresh_hint\":5}",
        "a: bundle of 1 authority (0 X.509, 1 JWT), no sequence, refresh hint 5\na: 1 entry repeats an earlier one, kept once\n",
    ),
    (
        "a",
        "{\"keys\":[{\"kty\":\"RSA\",\"use\":\"jwt-svid\",\"kid\":\"k\",\"n\":\"AQ\",\"e\":\"Aw\"},{},{\"kty\":\"RSA\",\"use\":\"jwt-svid\",\"kid\":\"l\",\"n\":\"AQ\",\"e\":\"Aw\"},{\"e\":\"Aw\",\"n\":\"AQ\",\"kid\":\"k\",\"use\":\"jwt-svid\",\"kty\":\"RSA\",\"alg\":\"RS256\"},{\"kty\":\"RSA\",\"use\":\"jwt-svid\",\"kid\":\"k\",\"n\":\"AQ\",\"e\":\"Aw\"}]}",
        "a: bundle of 2 authorities (0 X.509, 2 JWT), no sequence, no refresh hint\na: 2 entries repeat earlier ones, kept once\na: keys[1] is ignored: it has no kty\n",
    ),
    (
        "a",
        "{\"keys\":[],\"spiffe_sequence\":18446744073709551615,\"spiffe_refresh_hint\":0}",
        "a: bundle of 0 authorities (0 X.509, 0 JWT), sequence 18446744073709551615, refresh hint 0\na: no authorities: nothing would be kept of 0 entries\n",
    ),
    (
        "b.json",
        "{\"keys\":[{\"kty\":\"EC\",\"crv\":\"P-256\"},{\"kty\":\"oct\"},{\"use\":\"x509-svid\"}],\"spiffe_sequence\":1}",
        "b.json: bundle of 0 authorities (0 X.509, 0 JWT), sequence 1, no refresh hint\nb.json: no authorities: nothing would be kept of 3 entries\nb.json: keys[0] is ignored: it has no use\nb.json: keys[1] is ignored: its kty is \"oct\", not EC or RSA\nb.json: keys[2] is ignored: it has no kty\n",
    ),
];

#[test]
fn documents(rt: HostRuntime) -> Result<(), AllocError> {
    for &(name, document, wanted) in &DOCUMENTS {
        tells(&rt, rt.alloc(), name, document, wanted)?;
    }
    Ok(())
}
