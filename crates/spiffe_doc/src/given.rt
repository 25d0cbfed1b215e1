//! What an entry of a document gives, as it lies in the document.
ghost use Rattle.std.specs.Prelude.{◌≡◌, IfOk};
ghost use Rattle.spiffe_doc.specs.Authority.{IsAuthority, IsPublicKey, IsCertificate, IsKeyId};
ghost use Rattle.spiffe_doc.specs.Bundle.{is_x509 as of_x509};
ghost use Rattle.spiffe_doc.specs.Text.{entry_text};
ghost use Rattle.spiffe_doc.specs.Private.Given.{key_given, authority_given};

use crate::authority::{Authority, Certificate, KeyId};
use crate::encoded::{Standard, UrlSafe};
use crate::entries::Entry;
use crate::key::{Curve, EcKey, PublicKey, RsaKey};
use crate::text::{jwt_point, jwt_rsa, x509_point, x509_rsa};
use std::alloc::{AllocError, Allocator, Global};

/// The public key that an entry gives, by the texts of its members.
#[derive(Drop)]
pub(crate) enum GivenKey<'a> {
    Ec {
        curve: Curve,
        x: UrlSafe<'a>,
        y: UrlSafe<'a>,
    },
    Rsa {
        n: UrlSafe<'a>,
        e: UrlSafe<'a>,
    },
}

impl<'a> GivenKey<'a> {
    /// The key by itself.
    fn decode(&self, alloc: Global) -> Result<PublicKey, AllocError>
        requires valid { IsPublicKey (key_given self.now) }
        ensures { IfOk result (λ key. key ≡ key_given self.now) }
    {
        match self {
            GivenKey::Ec { curve, x, y } => {
                let x = x.decode(alloc)?;
                let y = y.decode(alloc)?;
                Ok(PublicKey::Ec(EcKey::new(*curve, x, y)))
            }
            GivenKey::Rsa { n, e } => {
                let n = n.decode(alloc)?;
                let e = e.decode(alloc)?;
                Ok(PublicKey::Rsa(RsaKey::new(n, e)))
            }
        }
    }
}

/// The authority that an entry gives, by the texts of its members.
#[derive(Drop)]
pub(crate) enum Given<'a> {
    X509 {
        key: GivenKey<'a>,
        x5c: Standard<'a>,
    },
    Jwt {
        kid: &'a str,
        key: GivenKey<'a>,
    },
}

impl<'a> Given<'a> {
    /// The authority by itself.
    pub(crate) fn decode(&self, alloc: Global) -> Result<Authority, AllocError>
        requires valid { IsAuthority (authority_given self.now) }
        ensures { IfOk result (λ authority. authority ≡ authority_given self.now) }
    {
        match self {
            Given::X509 { key, x5c } => {
                let der = Certificate::new(x5c.decode(alloc)?);
                Ok(Authority::X509 {
                    key: key.decode(alloc)?,
                    der,
                })
            }
            Given::Jwt { kid, key } => {
                let kid = KeyId::new(String::from_str(alloc, kid)?);
                Ok(Authority::Jwt {
                    kid,
                    key: key.decode(alloc)?,
                })
            }
        }
    }

    /// The canonical text of the authority, put together from the entry's texts. Base64 is strict (RFC 4648, section 3.5):
    /// a text that stands for some bytes is their encoding, so nothing is encoded again.
    #[tactic(auto, unfolding(crate::specs::Text::entry_text))]
    pub(crate) fn text<A: Allocator>(&self, alloc: A) -> Result<Vec<u8, A>, AllocError>
        ensures { IfOk result (λ text. text.items ≡ entry_text (authority_given self.now)) }
    {
        match self {
            Given::X509 { key, x5c } => match key {
                GivenKey::Ec { curve, x, y } => {
                    x509_point(alloc, *curve, x.text(), y.text(), x5c.text())
                }
                GivenKey::Rsa { n, e } => x509_rsa(alloc, n.text(), e.text(), x5c.text()),
            },
            Given::Jwt { kid, key } => match key {
                GivenKey::Ec { curve, x, y } => jwt_point(alloc, kid, *curve, x.text(), y.text()),
                GivenKey::Rsa { n, e } => jwt_rsa(alloc, kid, n.text(), e.text()),
            },
        }
    }

    /// The authority's entry, by its canonical text.
    pub(crate) fn entry<'t>(&self, text: &'t [u8]) -> Entry<'t>
        requires valid { IsAuthority (authority_given self.now) }
        requires text { text.now ≡ entry_text (authority_given self.now) }
        ensures { result ≡ authority_given self.now }
    {
        Entry::new(text, self.is_x509())
    }

    fn is_x509(&self) -> bool
        ensures { result ≡ of_x509 (authority_given self.now) }
    {
        matches!(self, Given::X509 { .. })
    }
}
