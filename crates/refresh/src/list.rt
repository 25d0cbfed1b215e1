//! Lists of relationships: what the command `refresh` reads.
ghost use Rattle.std.specs.Prelude.{◌≡◌, ◌⊎◌, true, IfOk, IfErr, OnOk};
ghost use Rattle.refresh.specs.List.{has_domain, lines_of, listed_behind, AreListed, IsListFault};
ghost use Rattle.refresh.specs.Private.Listing.{Adds, AreDomainsOf, Follows, IsLineFault};

use crate::error::RelationError;
use crate::list_line::read_line;
use crate::relationship::Relationship;
use spiffe_doc::TrustDomain;
use std::alloc::{AllocError, Global};
use std::collections::BTreeSet;
use thiserror::Error;

/// Why a list is refused.
#[derive(Clone, Copy, Debug, PartialEq, Eq, Drop, Error)]
pub enum ListError {
    /// This line, from 1, is not UTF-8, or has too few or too many words, or the trust domain of a line before it.
    #[error("line {0} has too few or too many words, or the trust domain of a line before it")]
    BadLine(u64),
    /// The words of this line, from 1, are not a relationship.
    #[error("line {1} is not a relationship: {0}")]
    BadRelationship(RelationError, u64),
    #[error("out of memory")]
    Memory,
}

impl From<AllocError> for ListError {
    ghost use Rattle.std.specs.Prelude.{◌≡◌};
    ghost use Rattle.refresh.specs.declared.list.ListError.TheVariants.{Memory};

    ghost from_gives = { λ _ e. e ≡ Memory };

    fn from(_refused: AllocError) -> ListError {
        ListError::Memory
    }
}

/// The relationships of a list, a line each: the trust domain, the URL of its bundle endpoint, the profile of the
/// endpoint and, if the profile needs it, the SPIFFE ID of the endpoint, with blanks between. A word that begins with
/// `#` begins a comment, and a line may hold no relationship. No trust domain stands there twice.
pub fn read_list(alloc: Global, list: &[u8]) -> Result<Vec<Relationship>, ListError>
    ensures ok { IfOk result (λ relationships. AreListed (lines_of list.now) relationships.items) }
    ensures err { IfErr result (λ error. IsListFault error list.now) }
{
    let mut relationships = Vec::new(alloc);
    let mut domains = BTreeSet::new(alloc);
    let mut number = 0u64;
    for line in list.split(|byte| *byte == b'\n') {
        number = number.saturating_add(1);
        if let Err(error) = add_line(alloc, line, number, &mut relationships, &mut domains) {
            return Err(error);
        }
    }
    Ok(relationships)
}

/// Adds the relationship of the line with this number, if it has one, unless its trust domain is there.
fn add_line(
    alloc: Global,
    line: &[u8],
    number: u64,
    relationships: &mut Vec<Relationship>,
    domains: &mut BTreeSet<TrustDomain>,
) -> Result<(), ListError>
    requires { AreDomainsOf relationships.old.items domains.old }
    ensures ok { OnOk result (Follows relationships.old.items line.now relationships.new.items) }
    ensures known { OnOk result (AreDomainsOf relationships.new.items domains.new) }
    ensures err { IfErr result (λ error. IsLineFault number (listed_behind relationships.old.items line.now) error) }
{
    match read_line(alloc, line, number) {
        Ok(None) => Ok(()),
        Ok(Some(relationship)) => add(relationship, number, relationships, domains),
        Err(error) => Err(error),
    }
}

/// Adds a relationship of the line with this number, unless its trust domain is there.
fn add(
    relationship: Relationship,
    number: u64,
    relationships: &mut Vec<Relationship>,
    domains: &mut BTreeSet<TrustDomain>,
) -> Result<(), ListError>
    requires { AreDomainsOf relationships.old.items domains.old }
    ensures ok { OnOk result (Adds relationship relationships.old.items relationships.new.items) }
    ensures known { OnOk result (AreDomainsOf relationships.new.items domains.new) }
    ensures err { IfErr result (λ error. (error ≡ ListError.Memory)
        ⊎ ((has_domain relationships.old.items relationship.domain ≡ true) × (error ≡ ListError.BadLine number))) }
{
    let domain = relationship.domain().copy()?;
    match domains.insert(domain) {
        Ok(true) => {}
        Ok(false) => return Err(ListError::BadLine(number)),
        Err(_) => return Err(ListError::Memory),
    }
    if let Err(_) = relationships.push(relationship) {
        return Err(ListError::Memory);
    }
    Ok(())
}
