//! Some of the domains of a dump.
ghost use Rattle.std.specs.Prelude.{◌≡◌, ◌∷◌, ◌++◌, [], ℕ, List, cond, filter, OnOk, IfOk, IfErr, IfSome, IfNone};
ghost use Rattle.dump_views.specs.Choice.{is_named, names_of, chosen, AreThere, IsFirstMissing, FaultOfChoice};
ghost use Rattle.dump_views.specs.Private.Names.{has};

use crate::name_set::insert_name;
use map_core::Snapshot;
use spiffe_doc::{Bundle, TrustDomain};
use std::alloc::{AllocError, Global};
use std::collections::BTreeSet;
use thiserror::Error;

/// Why domains are not chosen.
#[derive(Clone, Copy, Debug, PartialEq, Eq, Drop, Error)]
pub enum ChoiceError {
    /// The first of the names, by its place from 0, that no domain has.
    #[error("there is no trust domain of name {0}")]
    NoDomain(usize),
    #[error("out of memory")]
    Memory,
}

impl From<AllocError> for ChoiceError {
    ghost use Rattle.std.specs.Prelude.{◌≡◌};
    ghost use Rattle.dump_views.specs.declared.choice.ChoiceError.TheVariants.{Memory};

    ghost from_gives = { λ _ e. e ≡ Memory };

    fn from(_refused: AllocError) -> ChoiceError {
        ChoiceError::Memory
    }
}

/// The domains that have one of these names, in the order in which they stand. A name may come twice.
pub fn choose(
    alloc: Global,
    domains: Snapshot,
    names: &[TrustDomain],
) -> Result<Snapshot, ChoiceError>
    ensures ok { IfOk result (λ some. (some ≡ chosen names.now domains) × AreThere names.now domains) }
    ensures err { IfErr result (λ fault. FaultOfChoice fault names.now domains) }
{
    let wanted = set_of(alloc, names)?;
    let some = keep(alloc, domains.pairs(), &wanted)?;
    match first_missing(alloc, some.pairs(), names)? {
        Some(place) => Err(ChoiceError::NoDomain(place)),
        None => Ok(some),
    }
}

/// The domains whose names are in the set.
fn keep(
    alloc: Global,
    domains: &[(TrustDomain, Bundle)],
    wanted: &BTreeSet<TrustDomain>,
) -> Result<Snapshot, AllocError>
    ensures { IfOk result (λ some. some ≡ filter (λ item. has wanted.now item.0) domains.now) }
{
    let mut some = Vec::new(alloc);
    for item in domains {
        push_wanted(&mut some, wanted, item)?;
    }
    Ok(Snapshot::from_pairs(some))
}

/// Adds a domain whose name is in the set.
fn push_wanted(
    some: &mut Vec<(TrustDomain, Bundle)>,
    wanted: &BTreeSet<TrustDomain>,
    item: &(TrustDomain, Bundle),
) -> Result<(), AllocError>
    ensures { OnOk result (some.new.items ≡ some.old.items ++ cond (has wanted.now item.now.0) (item.now ∷ []) []) }
{
    if wanted.contains(&item.0) {
        some.push((item.0.copy()?, item.1.copy()?))?;
    }
    Ok(())
}

/// The place of the first name that none of these domains has.
fn first_missing(
    alloc: Global,
    domains: &[(TrustDomain, Bundle)],
    names: &[TrustDomain],
) -> Result<Option<usize>, AllocError>
    ensures some { IfOk result (λ missing. IfSome missing (IsFirstMissing names.now domains.now)) }
    ensures none { IfOk result (λ missing. IfNone missing (AreThere names.now domains.now)) }
{
    let there = set_of_domains(alloc, domains)?;
    for (place, name) in names.iter().enumerate() {
        if !there.contains(name) {
            return Ok(Some(place));
        }
    }
    Ok(None)
}

fn set_of(alloc: Global, names: &[TrustDomain]) -> Result<BTreeSet<TrustDomain>, AllocError>
    ensures { IfOk result (λ set. (name : List ℕ) → has set name ≡ is_named names.now name) }
{
    let mut set = BTreeSet::new(alloc);
    for name in names {
        insert_name(&mut set, name.copy()?)?;
    }
    Ok(set)
}

fn set_of_domains(
    alloc: Global,
    domains: &[(TrustDomain, Bundle)],
) -> Result<BTreeSet<TrustDomain>, AllocError>
    ensures { IfOk result (λ set. (name : List ℕ) → has set name ≡ is_named (names_of domains.now) name) }
{
    let mut set = BTreeSet::new(alloc);
    for item in domains {
        insert_name(&mut set, item.0.copy()?)?;
    }
    Ok(set)
}
