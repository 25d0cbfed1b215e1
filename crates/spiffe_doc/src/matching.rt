//! Whether a canonical text is an authority's, without writing that out.
ghost use Rattle.std.specs.Prelude.{◌≡◌, bytes_eq, Some};
ghost use Rattle.spiffe_doc.specs.Text.{entry_text};
ghost use Rattle.spiffe_doc.specs.Authority.{IsAuthority};
ghost use Rattle.spiffe_doc.specs.Bundle.{same_kid};
ghost use Rattle.spiffe_doc.specs.Private.Matching.{after, behind_member, is_kid_next};

use crate::authority::{Authority, Certificate, KeyId};
use crate::key::{EcKey, PublicKey, RsaKey};
use crate::rest::Rest;
use crate::text::curve_name;

/// Whether this is the canonical text of the authority. It takes no memory.
pub(crate) fn is_text_of(text: &[u8], authority: &Authority) -> bool
    ensures { result ≡ bytes_eq text.now (entry_text authority.now) }
{
    after_entry(text, authority).is_whole()
}

/// Whether the canonical text of an authority is of a JWT authority with this one's key id. It takes no memory.
///
/// A key id follows the fourth quotation mark, as in `{"crv":"P-256","kid":` and `{"e":"AQAB","kid":`.
pub(crate) fn has_kid_of(text: &[u8], authority: &Authority) -> bool
    ensures { (other : Authority) → IsAuthority other → text.now ≡ entry_text other → result ≡ same_kid other authority.now }
{
    match authority {
        Authority::X509 { .. } => false,
        Authority::Jwt { kid, .. } => has_kid(text, kid.as_str()),
    }
}

/// Whether the second member is this key id.
fn has_kid(text: &[u8], kid: &str) -> bool
    ensures { result ≡ is_kid_next kid.now (behind_member text.now) }
{
    Rest::of(text)
        .after_quote()
        .after_quote()
        .after_quote()
        .after_quote()
        .literal(b",\"kid\":\"")
        .escaped(kid)
        .literal(b"\"")
        .is_match()
}

/// What follows the text of the authority.
fn after_entry<'a>(text: &'a [u8], authority: &Authority) -> Rest<'a>
    ensures { result ≡ after (entry_text authority.now) (Some text.now) }
{
    match authority {
        Authority::X509 { key, der } => after_x509(text, key, der),
        Authority::Jwt { kid, key } => after_jwt(text, kid, key),
    }
}

/// What follows the text of the X.509 authority of this key and certificate.
fn after_x509<'a>(text: &'a [u8], key: &PublicKey, der: &Certificate) -> Rest<'a>
    ensures { result ≡ after (entry_text (Authority.X509 key.now der.now)) (Some text.now) }
{
    match key {
        PublicKey::Ec(key) => after_x509_point(text, key, der),
        PublicKey::Rsa(key) => after_x509_rsa(text, key, der),
    }
}

/// What follows the text of the JWT authority of this key id and key.
fn after_jwt<'a>(text: &'a [u8], kid: &KeyId, key: &PublicKey) -> Rest<'a>
    ensures { result ≡ after (entry_text (Authority.Jwt kid.now key.now)) (Some text.now) }
{
    match key {
        PublicKey::Ec(key) => after_jwt_point(text, kid, key),
        PublicKey::Rsa(key) => after_jwt_rsa(text, kid, key),
    }
}

// The four forms of an entry's text, cut at the texts that vary. Only a key id may have bytes to escape.

fn after_x509_point<'a>(text: &'a [u8], key: &EcKey, der: &Certificate) -> Rest<'a>
    ensures { result ≡ after (entry_text (Authority.X509 (PublicKey.Ec key.now) der.now)) (Some text.now) }
{
    Rest::of(text)
        .literal(b"{\"crv\":\"")
        .literal(curve_name(key.curve()).as_bytes())
        .literal(b"\",\"kty\":\"EC\",\"use\":\"x509-svid\",\"x\":\"")
        .url_safe(key.x())
        .literal(b"\",\"x5c\":[\"")
        .standard(der.der())
        .literal(b"\"],\"y\":\"")
        .url_safe(key.y())
        .literal(b"\"}")
}

fn after_x509_rsa<'a>(text: &'a [u8], key: &RsaKey, der: &Certificate) -> Rest<'a>
    ensures { result ≡ after (entry_text (Authority.X509 (PublicKey.Rsa key.now) der.now)) (Some text.now) }
{
    Rest::of(text)
        .literal(b"{\"e\":\"")
        .url_safe(key.e())
        .literal(b"\",\"kty\":\"RSA\",\"n\":\"")
        .url_safe(key.n())
        .literal(b"\",\"use\":\"x509-svid\",\"x5c\":[\"")
        .standard(der.der())
        .literal(b"\"]}")
}

fn after_jwt_point<'a>(text: &'a [u8], kid: &KeyId, key: &EcKey) -> Rest<'a>
    ensures { result ≡ after (entry_text (Authority.Jwt kid.now (PublicKey.Ec key.now))) (Some text.now) }
{
    Rest::of(text)
        .literal(b"{\"crv\":\"")
        .literal(curve_name(key.curve()).as_bytes())
        .literal(b"\",\"kid\":\"")
        .escaped(kid.as_str())
        .literal(b"\",\"kty\":\"EC\",\"use\":\"jwt-svid\",\"x\":\"")
        .url_safe(key.x())
        .literal(b"\",\"y\":\"")
        .url_safe(key.y())
        .literal(b"\"}")
}

fn after_jwt_rsa<'a>(text: &'a [u8], kid: &KeyId, key: &RsaKey) -> Rest<'a>
    ensures { result ≡ after (entry_text (Authority.Jwt kid.now (PublicKey.Rsa key.now))) (Some text.now) }
{
    Rest::of(text)
        .literal(b"{\"e\":\"")
        .url_safe(key.e())
        .literal(b"\",\"kid\":\"")
        .escaped(kid.as_str())
        .literal(b"\",\"kty\":\"RSA\",\"n\":\"")
        .url_safe(key.n())
        .literal(b"\",\"use\":\"jwt-svid\"}")
}
