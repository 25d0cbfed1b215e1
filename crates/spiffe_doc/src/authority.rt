//! Authorities of a trust domain (SPIFFE Trust Domain and Bundle, section 4.2).
ghost use Rattle.std.specs.Prelude.{◌≡◌, ◌<◌, ◌≤◌, length, IfOk, string_bytes, string_len};

use crate::Memory;
use crate::key::PublicKey;
use crate::octets::Octets;
use std::marker::Model;

/// The DER bytes of an X.509 certificate, at least one (RFC 7517, section 4.7). Nothing is parsed.
#[derive(Drop)]
pub struct Certificate {
    der: Octets,
}

impl Model for Certificate {
    ghost use Rattle.std.specs.Prelude.{List, ℕ, ◌<◌, length};

    ghost Value = { List ℕ };

    ghost view = { λ certificate. certificate.der };

    ghost invariant = { λ certificate. 0 < length certificate.der };
}

impl Certificate {
    ghost use Rattle.spiffe_doc.specs.Authority.{IsCertificate};

    /// The certificate of these bytes.
    pub fn new(der: Octets) -> Certificate
        requires { 0 < length der }
        ensures { result ≡ der }
    {
        Certificate { der }
    }

    // Only for the prover: recalls that it has a byte at least.
    pub(crate) fn recall_valid(&self)
        ensures { IsCertificate self.now }
    {
        self.der.recall_valid();
    }

    /// The DER bytes, at least one.
    pub fn der(&self) -> &Octets
        ensures value { result.now ≡ self.now }
        ensures valid { IsCertificate self.now }
    {
        self.recall_valid();
        &self.der
    }

    /// The same certificate, in memory of its own.
    pub fn copy(&self) -> Result<Certificate, Memory>
        ensures { IfOk result (λ copy. copy ≡ self.now) }
    {
        Ok(Certificate {
            der: self.der.copy()?,
        })
    }
}

/// A key id: a text of 1 to 255 bytes (RFC 7517, section 4.5).
#[derive(Drop)]
pub struct KeyId {
    text: String,
}

impl Model for KeyId {
    ghost use Rattle.std.specs.Prelude.{List, ℕ, ◌<◌, ◌≤◌, length, string_bytes};

    ghost Value = { List ℕ };

    ghost view = { λ kid. string_bytes kid.text };

    ghost invariant = { λ kid. (0 < length (string_bytes kid.text)) × (length (string_bytes kid.text) ≤ 255) };
}

impl KeyId {
    ghost use Rattle.spiffe_doc.specs.Authority.{IsKeyId};

    /// The key id of a text.
    pub fn new(text: String) -> KeyId
        requires some { 0 < string_len text }
        requires short { string_len text ≤ 255 }
        ensures { result ≡ string_bytes text }
    {
        KeyId { text }
    }

    /// The text.
    pub fn as_str(&self) -> &str
        ensures value { result.now ≡ self.now }
        ensures valid { IsKeyId self.now }
    {
        self.text.as_str()
    }

    // Only for the prover: recalls that it is a short text.
    pub(crate) fn recall_valid(&self)
        ensures { IsKeyId self.now }
    {
        let _text = self.text.as_str();
    }

    /// The same key id, in memory of its own.
    pub fn copy(&self) -> Result<KeyId, Memory>
        ensures { IfOk result (λ copy. copy ≡ self.now) }
    {
        Ok(KeyId {
            text: self.text.clone()?,
        })
    }
}

/// What a trust domain vouches by: the key and certificate that sign its X.509-SVIDs, or a key that signs its JWT-SVIDs.
/// Authorities are equal if all their parts are.
#[derive(Drop)]
pub enum Authority {
    X509 { key: PublicKey, der: Certificate },
    Jwt { kid: KeyId, key: PublicKey },
}

impl Authority {
    ghost use Rattle.spiffe_doc.specs.Authority.{IsAuthority};

    // Only for the prover: recalls that its parts have their lengths, and that its key id is text.
    pub(crate) fn recall_valid(&self)
        ensures { IsAuthority self.now }
    {
        match self {
            Authority::X509 { key, der } => {
                key.recall_valid();
                der.recall_valid();
            }
            Authority::Jwt { kid, key } => {
                kid.recall_valid();
                key.recall_valid();
            }
        }
    }

    /// The same authority, in memory of its own.
    pub fn copy(&self) -> Result<Authority, Memory>
        ensures { IfOk result (λ copy. copy ≡ self.now) }
    {
        match self {
            Authority::X509 { key, der } => Ok(Authority::X509 {
                key: key.copy()?,
                der: der.copy()?,
            }),
            Authority::Jwt { kid, key } => Ok(Authority::Jwt {
                kid: kid.copy()?,
                key: key.copy()?,
            }),
        }
    }
}

impl PartialEq for Authority {
    ghost use Rattle.std.specs.Cmp.{partial_equiv_from_equiv, decided};
    ghost use Rattle.spiffe_doc.specs.Equal.{authority_eq};
    ghost use Rattle.spiffe_doc.specs.Private.Equality.{authority_decides};

    ghost eq = { authority_eq };

    ghost laws = { partial_equiv_from_equiv (decided authority_eq authority_decides) };

    fn eq(&self, other: &Authority) -> bool {
        match (self, other) {
            (
                Authority::X509 { key, der },
                Authority::X509 {
                    key: other_key,
                    der: other_der,
                },
            ) => { key == other_key && der.der() == other_der.der() }
            (
                Authority::Jwt { kid, key },
                Authority::Jwt {
                    kid: other_kid,
                    key: other_key,
                },
            ) => { kid.as_str() == other_kid.as_str() && key == other_key }
            _ => false,
        }
    }
}
