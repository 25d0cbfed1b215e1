//! Which domains are chosen.
use super::{frames_of, holds_at};
use dump_views::{ChoiceError, choose};
use frame_front::read_dump;
use map_core::Snapshot;
use spiffe_doc::TrustDomain;
use std::alloc::Global;
use std::test::Fail;

const EMPTY: &str = "{\"keys\":[]}";

const FOUR: &[(&str, &str)] = &[("a", EMPTY), ("ab", EMPTY), ("b", EMPTY), ("c", EMPTY)];

/// Names, and the domains that they choose of the four, or the first name that is missing.
static CHOICES: [(&[&str], Result<&[&str], ChoiceError>); 7] = [
    (&[], Ok(&[])),
    (&["b"], Ok(&["b"])),
    (&["c", "a", "c"], Ok(&["a", "c"])),
    (&["c", "ab", "b", "a"], Ok(&["a", "ab", "b", "c"])),
    (&["d"], Err(ChoiceError::NoDomain(0))),
    (&["a", "abc", "c"], Err(ChoiceError::NoDomain(1))),
    (&["a", "b", "e", "d"], Err(ChoiceError::NoDomain(2))),
];

/// What these names choose of the four domains.
fn chosen(alloc: Global, names: &[&str]) -> Result<Result<Snapshot, ChoiceError>, Fail> {
    let mut parsed = Vec::new(alloc);
    for name in names {
        parsed.push(TrustDomain::parse(alloc, name)?)?;
    }
    let four = read_dump(alloc, &frames_of(alloc, b'i', FOUR)?)?;
    Ok(choose(alloc, four, &parsed))
}

/// Whether those are chosen, or that error has come.
fn is_choice(found: &Result<Snapshot, ChoiceError>, wanted: Result<&[&str], ChoiceError>) -> bool {
    match (found, wanted) {
        (Ok(chosen), Ok(names)) => {
            let mut pairs = chosen.pairs().iter().zip(names);
            chosen.len() == names.len() && pairs.all(|(pair, name)| pair.0.as_str() == *name)
        }
        (Err(error), Err(wanted)) => *error == wanted,
        _ => false,
    }
}

#[test]
fn choices(rt: HostRuntime) -> Result<(), Fail> {
    for &(names, wanted) in &CHOICES {
        let found = chosen(rt.alloc(), names)?;
        holds_at(&rt, is_choice(&found, wanted), &names);
    }
    Ok(())
}
