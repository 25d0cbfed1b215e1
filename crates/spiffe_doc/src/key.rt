//! Public keys (RFC 7518, section 6).
ghost use Rattle.std.specs.Prelude.{◌≡◌, length, IfOk};
ghost use Rattle.spiffe_doc.specs.Key.{coordinate_len};

use crate::Memory;
use crate::octets::Octets;
use std::marker::Model;

/// An elliptic curve (RFC 7518, section 6.2.1.1).
#[derive(Clone, Copy, Debug, PartialEq, Eq, Drop)]
pub enum Curve {
    P256,
    P384,
    P521,
}

impl Curve {
    /// How many bytes a coordinate has: 32, 48 or 66.
    pub fn coordinate_len(self) -> usize
        ensures { result ≡ coordinate_len self }
    {
        match self {
            Curve::P256 => 32,
            Curve::P384 => 48,
            Curve::P521 => 66,
        }
    }
}

/// A key over a curve: the coordinates of a point, in the curve's bytes (RFC 7518, section 6.2.1).
#[derive(Drop)]
pub struct EcKey {
    curve: Curve,
    x: Octets,
    y: Octets,
}

impl Model for EcKey {
    ghost use Rattle.spiffe_doc.specs.Key.{EcKeyValue, IsEcKey};

    ghost Value = { EcKeyValue };

    ghost view = { λ key. record { curve = key.curve; x = key.x; y = key.y } };

    ghost invariant = { λ key. IsEcKey (record { curve = key.curve; x = key.x; y = key.y }) };
}

impl EcKey {
    ghost use Rattle.spiffe_doc.specs.Key.{IsEcKey};

    /// The key of these coordinates.
    pub fn new(curve: Curve, x: Octets, y: Octets) -> EcKey
        requires x_fits { length x ≡ coordinate_len curve }
        requires y_fits { length y ≡ coordinate_len curve }
        ensures { result ≡ record { curve = curve; x = x; y = y } }
    {
        EcKey { curve, x, y }
    }

    /// The curve.
    pub fn curve(&self) -> Curve
        ensures { result ≡ self.now.curve }
    {
        self.curve
    }

    /// The first coordinate.
    pub fn x(&self) -> &Octets
        ensures value { result.now ≡ self.now.x }
        ensures valid { IsEcKey self.now }
    {
        &self.x
    }

    /// The second coordinate.
    pub fn y(&self) -> &Octets
        ensures value { result.now ≡ self.now.y }
        ensures valid { IsEcKey self.now }
    {
        &self.y
    }

    /// The same key, in memory of its own.
    pub fn copy(&self) -> Result<EcKey, Memory>
        ensures { IfOk result (λ copy. copy ≡ self.now) }
    {
        Ok(EcKey {
            curve: self.curve,
            x: self.x.copy()?,
            y: self.y.copy()?,
        })
    }
}

impl PartialEq for EcKey {
    ghost use Rattle.std.specs.Cmp.{partial_equiv_from_equiv, decided};
    ghost use Rattle.spiffe_doc.specs.Equal.{ec_eq};
    ghost use Rattle.spiffe_doc.specs.Private.Equality.{ec_decides};

    ghost eq = { ec_eq };

    ghost laws = { partial_equiv_from_equiv (decided ec_eq ec_decides) };

    fn eq(&self, other: &EcKey) -> bool {
        self.curve.coordinate_len() == other.curve.coordinate_len()
            && self.x == other.x
            && self.y == other.y
    }
}

/// An RSA key: its modulus and exponent, 1 to 1,024 bytes each, as they stood (RFC 7518, section 6.3.1).
#[derive(Drop)]
pub struct RsaKey {
    n: Octets,
    e: Octets,
}

impl Model for RsaKey {
    ghost use Rattle.spiffe_doc.specs.Key.{RsaKeyValue, IsRsaKey};

    ghost Value = { RsaKeyValue };

    ghost view = { λ key. record { n = key.n; e = key.e } };

    ghost invariant = { λ key. IsRsaKey (record { n = key.n; e = key.e }) };
}

impl RsaKey {
    ghost use Rattle.spiffe_doc.specs.Key.{IsRsaKey, IsRsaMember};

    /// The key of this modulus and this exponent.
    pub fn new(n: Octets, e: Octets) -> RsaKey
        requires n_fits { IsRsaMember n }
        requires e_fits { IsRsaMember e }
        ensures { result ≡ record { n = n; e = e } }
    {
        RsaKey { n, e }
    }

    /// The modulus.
    pub fn n(&self) -> &Octets
        ensures value { result.now ≡ self.now.n }
        ensures valid { IsRsaKey self.now }
    {
        &self.n
    }

    /// The exponent.
    pub fn e(&self) -> &Octets
        ensures value { result.now ≡ self.now.e }
        ensures valid { IsRsaKey self.now }
    {
        &self.e
    }

    /// The same key, in memory of its own.
    pub fn copy(&self) -> Result<RsaKey, Memory>
        ensures { IfOk result (λ copy. copy ≡ self.now) }
    {
        Ok(RsaKey {
            n: self.n.copy()?,
            e: self.e.copy()?,
        })
    }
}

impl PartialEq for RsaKey {
    ghost use Rattle.std.specs.Cmp.{partial_equiv_from_equiv, decided};
    ghost use Rattle.spiffe_doc.specs.Equal.{rsa_eq};
    ghost use Rattle.spiffe_doc.specs.Private.Equality.{rsa_decides};

    ghost eq = { rsa_eq };

    ghost laws = { partial_equiv_from_equiv (decided rsa_eq rsa_decides) };

    fn eq(&self, other: &RsaKey) -> bool {
        self.n == other.n && self.e == other.e
    }
}

/// A public key: over a curve, or RSA.
#[derive(Drop)]
pub enum PublicKey {
    Ec(EcKey),
    Rsa(RsaKey),
}

impl PublicKey {
    ghost use Rattle.spiffe_doc.specs.Authority.{IsPublicKey};

    // Only for the prover: recalls that its members have their lengths.
    pub(crate) fn recall_valid(&self)
        ensures { IsPublicKey self.now }
    {
        match self {
            PublicKey::Ec(key) => {
                let _x = key.x();
            }
            PublicKey::Rsa(key) => {
                let _n = key.n();
            }
        }
    }

    /// The same key, in memory of its own.
    pub fn copy(&self) -> Result<PublicKey, Memory>
        ensures { IfOk result (λ copy. copy ≡ self.now) }
    {
        match self {
            PublicKey::Ec(key) => Ok(PublicKey::Ec(key.copy()?)),
            PublicKey::Rsa(key) => Ok(PublicKey::Rsa(key.copy()?)),
        }
    }
}

impl PartialEq for PublicKey {
    ghost use Rattle.std.specs.Cmp.{partial_equiv_from_equiv, decided};
    ghost use Rattle.spiffe_doc.specs.Equal.{key_eq};
    ghost use Rattle.spiffe_doc.specs.Private.Equality.{key_decides};

    ghost eq = { key_eq };

    ghost laws = { partial_equiv_from_equiv (decided key_eq key_decides) };

    fn eq(&self, other: &PublicKey) -> bool {
        match (self, other) {
            (PublicKey::Ec(a), PublicKey::Ec(b)) => a == b,
            (PublicKey::Rsa(a), PublicKey::Rsa(b)) => a == b,
            _ => false,
        }
    }
}
