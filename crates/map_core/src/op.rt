//! What is asked of a map of trust bundles.
ghost use Rattle.std.specs.Prelude.{◌≡◌, IfOk, option_copied};
ghost use Rattle.map_core.specs.Op.{domain_of, known_of, is_read as reads};

use crate::dump::DumpDigest;
use spiffe_doc::{Authority, Bundle, Memory, TrustDomain};
use std::fmt;
use std::fmt::{Display, Formatter, Write};

/// What a caller of `SetIf` expects to find under a name.
#[derive(Clone, Copy, Debug, PartialEq, Eq, Drop)]
pub enum Expect {
    /// No bundle; a mark may stand there.
    Absent,
    /// A bundle of this sequence.
    Sequence(u64),
    /// A bundle without a sequence.
    Unnumbered,
}

impl Display for Expect {
    fn fmt<W: Write>(&self, f: &mut Formatter<W>) -> fmt::Result {
        match self {
            Expect::Absent => write!(f, "no bundle"),
            Expect::Sequence(sequence) => write!(f, "a bundle of sequence {sequence}"),
            Expect::Unnumbered => write!(f, "a bundle without a sequence"),
        }
    }
}

/// An operation. All but the last two are on one name.
#[derive(Drop)]
pub enum Op {
    /// Stores the bundle, unless an equal one stands there or its sequence is lower than the one that stands
    /// there or was removed.
    Set(TrustDomain, Bundle),
    /// As `Set`, if what stands there is what the caller expects.
    SetIf(TrustDomain, Expect, Bundle),
    /// Puts one more authority at the end of the bundle; a present sequence rises by one.
    Append(TrustDomain, Authority),
    /// Takes the bundle away, and keeps a mark of its sequence.
    Remove(TrustDomain),
    /// Asks for the bundle of the name.
    Get(TrustDomain),
    /// Asks for all bundles as they stand together.
    FetchAll,
    /// The same, unless they have this digest: the SHA-256 of their dump.
    FetchUnless(DumpDigest),
}

impl Op {
    /// The same operation. Its bundle is shared.
    pub fn copy(&self) -> Result<Op, Memory>
        ensures { IfOk result (λ copy. copy ≡ self.now) }
    {
        match self {
            Op::Set(domain, bundle) => Ok(Op::Set(domain.copy()?, bundle.copy()?)),
            Op::SetIf(domain, expect, bundle) => {
                Ok(Op::SetIf(domain.copy()?, *expect, bundle.copy()?))
            }
            Op::Append(domain, authority) => Ok(Op::Append(domain.copy()?, authority.copy()?)),
            Op::Remove(domain) => Ok(Op::Remove(domain.copy()?)),
            Op::Get(domain) => Ok(Op::Get(domain.copy()?)),
            Op::FetchAll => Ok(Op::FetchAll),
            Op::FetchUnless(known) => Ok(Op::FetchUnless(*known)),
        }
    }

    /// The name that the operation is on; none for a fetch-all.
    pub fn domain(&self) -> Option<&TrustDomain>
        ensures { option_copied result ≡ domain_of self.now }
    {
        match self {
            Op::Set(domain, _) | Op::SetIf(domain, _, _) | Op::Append(domain, _) => Some(domain),
            Op::Remove(domain) | Op::Get(domain) => Some(domain),
            Op::FetchAll | Op::FetchUnless(_) => None,
        }
    }

    /// The digest of the bundles that whoever fetches has already, if it is told.
    pub fn known(&self) -> Option<DumpDigest>
        ensures { result ≡ known_of self.now }
    {
        match self {
            Op::FetchUnless(known) => Some(*known),
            _ => None,
        }
    }

    /// Whether the operation changes nothing, whatever it is answered.
    pub fn is_read(&self) -> bool
        ensures { result ≡ reads self.now }
    {
        matches!(self, Op::Get(_) | Op::FetchAll | Op::FetchUnless(_))
    }

    /// The name that the operation was on; none for a fetch-all.
    pub(crate) fn into_domain(self) -> Option<TrustDomain>
        ensures { result ≡ domain_of self }
    {
        match self {
            Op::Set(domain, _) => Some(domain),
            Op::SetIf(domain, _, _) => Some(domain),
            Op::Append(domain, authority) => {
                drop(authority);
                Some(domain)
            }
            Op::Remove(domain) => Some(domain),
            Op::Get(domain) => Some(domain),
            Op::FetchAll | Op::FetchUnless(_) => None,
        }
    }
}
