//! What changed between two dumps, as lines.
ghost use Rattle.std.specs.Prelude.{◌≡◌, ◌++◌, ◌+◌, ◌<◌, List, ℕ, Some, None, length, codes, IfOk, IfErr, OnOk, OnErr};
ghost use Rattle.frame_front.specs.Dump.{Domains, IsDump};
ghost use Rattle.map_core.specs.Laws.{Ascends};
ghost use Rattle.map_core.specs.Name.{Name};
ghost use Rattle.dump_views.specs.Changes.{AreChanges, Change, Added, Removed, Changed};
ghost use Rattle.dump_views.specs.OfDump.{DiffFault};
ghost use Rattle.dump_views.specs.ChangeLines.{added_words, bundle_words, line_of, lines_of, number_word, number_words};
ghost use Rattle.dump_views.specs.Private.Fronts.{IsFront};
ghost use Rattle.dump_views.specs.Private.Merging.{change_of_both, merged};

use crate::authority_changes::put_authority_words;
use frame_front::{DumpError, read_dump};
use itoa::Buffer;
use spiffe_doc::{Bundle, TrustDomain};
use std::alloc::{AllocError, Global};
use std::cmp::Ordering;
use thiserror::Error;

/// Why no changes between two dumps are told. The old one is judged first: if both are bad, it is blamed.
#[derive(Clone, Copy, Debug, PartialEq, Eq, Error)]
pub enum DiffError {
    /// The old one is not a dump: its first frame, from 0, that is wrong, missing or too much.
    #[error("frame {0} of the old dump is wrong, missing or too much")]
    BadOld(u64),
    /// The same of the new one, while the old one is a dump.
    #[error("frame {0} of the new dump is wrong, missing or too much")]
    BadNew(u64),
    #[error("out of memory")]
    Memory,
}

/// A trust domain with its bundle.
type Domain = (TrustDomain, Bundle);

/// Appends a line for each name whose bundle changed from the old domains to the new ones, in order of the names, each
/// list in order of its names:
///
/// ```text
/// + b.example authorities 2 sequence 4
/// - c.example
/// ~ a.example sequence 3 to 4 hint 300 to none x509 +1 -0 jwt +0 -1
/// ```
///
/// A line of a changed bundle says all that changed: `order` if it is only the order of its authorities. If memory runs
/// out, nothing is appended.
pub fn put_diff(old: &[Domain], new: &[Domain], out: &mut Vec<u8>) -> Result<(), AllocError>
    requires old_in_order { Ascends None old.now }
    requires new_in_order { Ascends None new.now }
    ensures ok { OnOk result ((changes : List (Name × Change)) × AreChanges old.now new.now changes
        × (out.new.items ≡ out.old.items ++ lines_of changes)) }
    ensures err { OnErr result (out.new.items ≡ out.old.items) }
{
    let before = out.len();
    let put = put_changes(old, new, out);
    if put.is_err() {
        out.truncate(before);
    }
    put
}

/// Appends what changed from the old dump to the new one, as `put_diff` does. If both are bad, the old one is blamed. After
/// an error nothing is appended.
pub fn put_dump_diff(
    alloc: Global,
    old: &[u8],
    new: &[u8],
    out: &mut Vec<u8>,
) -> Result<(), DiffError>
    ensures ok { OnOk result ((olds : Domains) × (news : Domains) × (changes : List (Name × Change)) × IsDump old.now olds × IsDump new.now news
        × AreChanges olds news changes × (out.new.items ≡ out.old.items ++ lines_of changes)) }
    ensures fault { IfErr result (λ fault. DiffFault fault old.now new.now) }
    ensures unchanged { OnErr result (out.new.items ≡ out.old.items) }
{
    let olds = match read_dump(alloc, old) {
        Ok(domains) => domains,
        Err(DumpError::BadDump(place)) => return Err(DiffError::BadOld(place)),
        Err(DumpError::Memory) => return Err(DiffError::Memory),
    };
    let news = match read_dump(alloc, new) {
        Ok(domains) => domains,
        Err(DumpError::BadDump(place)) => return Err(DiffError::BadNew(place)),
        Err(DumpError::Memory) => return Err(DiffError::Memory),
    };
    match put_diff(olds.pairs(), news.pairs(), out) {
        Ok(()) => Ok(()),
        Err(_) => Err(DiffError::Memory),
    }
}

#[tactic(auto, using(crate::proofs::FrontLemmas::front_same, crate::proofs::FrontLemmas::front_through))]
fn put_changes(old: &[Domain], new: &[Domain], out: &mut Vec<u8>) -> Result<(), AllocError>
    ensures ok { OnOk result (out.new.items ≡ out.old.items ++ lines_of (merged old.now new.now)) }
    ensures err { OnErr result (IsFront out.old.items out.new.items) }
{
    let mut olds = old;
    let mut news = new;
    while !olds.is_empty() || !news.is_empty() {
        (olds, news) = put_first(olds, news, out)?;
    }
    Ok(())
}

/// Appends the line of the first name of both, if its bundle changed, and gives the domains that follow.
fn put_first<'a>(
    old: &'a [Domain],
    new: &'a [Domain],
    out: &mut Vec<u8>,
) -> Result<(&'a [Domain], &'a [Domain]), AllocError>
    requires some { 0 < length old.now + length new.now }
    ensures ok { IfOk result (λ rest.
        out.new.items ++ lines_of (merged rest.0.now rest.1.now) ≡ out.old.items ++ lines_of (merged old.now new.now)) }
    ensures fewer { IfOk result (λ rest. length rest.0.now + length rest.1.now < length old.now + length new.now) }
    ensures begun { IsFront out.old.items out.new.items }
{
    match (old.split_first(), new.split_first()) {
        (None, None) => Ok((old, new)),
        (Some((first, olds)), None) => {
            put_removed(&first.0, out)?;
            Ok((olds, new))
        }
        (None, Some((first, news))) => {
            put_added(&first.0, &first.1, out)?;
            Ok((old, news))
        }
        (Some((first, olds)), Some((other, news))) => match first.0.cmp(&other.0) {
            Ordering::Less => {
                put_removed(&first.0, out)?;
                Ok((olds, new))
            }
            Ordering::Equal => {
                put_both(&first.0, &first.1, &other.1, out)?;
                Ok((olds, news))
            }
            Ordering::Greater => {
                put_added(&other.0, &other.1, out)?;
                Ok((old, news))
            }
        },
    }
}

#[tactic(auto, using(crate::proofs::FrontLemmas::front_same, crate::proofs::FrontLemmas::front_more, crate::proofs::FrontLemmas::front_through), unfolding(crate::specs::ChangeLines::line_of))]
fn put_added(name: &TrustDomain, bundle: &Bundle, out: &mut Vec<u8>) -> Result<(), AllocError>
    ensures ok { OnOk result (out.new.items ≡ out.old.items ++ line_of (name.now, Added bundle.now)) }
    ensures err { OnErr result (IsFront out.old.items out.new.items) }
{
    out.extend_from_slice(b"+ ")?;
    out.extend_from_slice(name.as_str().as_bytes())?;
    put_added_words(bundle, out)?;
    out.extend_from_slice(b"\n")?;
    Ok(())
}

/// Appends what an added bundle is told by.
#[tactic(auto, using(crate::proofs::FrontLemmas::front_same, crate::proofs::FrontLemmas::front_more, crate::proofs::FrontLemmas::front_through), unfolding(crate::specs::ChangeLines::added_words))]
fn put_added_words(bundle: &Bundle, out: &mut Vec<u8>) -> Result<(), AllocError>
    ensures ok { OnOk result (out.new.items ≡ out.old.items ++ added_words bundle.now) }
    ensures err { OnErr result (IsFront out.old.items out.new.items) }
{
    let mut digits = Buffer::new();
    out.extend_from_slice(b" authorities ")?;
    out.extend_from_slice(digits.format(bundle.authorities().len()).as_bytes())?;
    out.extend_from_slice(b" sequence ")?;
    put_number(bundle.sequence(), out)?;
    Ok(())
}

#[tactic(auto, using(crate::proofs::FrontLemmas::front_same, crate::proofs::FrontLemmas::front_more, crate::proofs::FrontLemmas::front_through), unfolding(crate::specs::ChangeLines::line_of))]
fn put_removed(name: &TrustDomain, out: &mut Vec<u8>) -> Result<(), AllocError>
    ensures ok { OnOk result (out.new.items ≡ out.old.items ++ line_of (name.now, Removed)) }
    ensures err { OnErr result (IsFront out.old.items out.new.items) }
{
    out.extend_from_slice(b"- ")?;
    out.extend_from_slice(name.as_str().as_bytes())?;
    out.extend_from_slice(b"\n")?;
    Ok(())
}

/// Appends the line of a name that both have, if its bundle changed.
fn put_both(
    name: &TrustDomain,
    old: &Bundle,
    new: &Bundle,
    out: &mut Vec<u8>,
) -> Result<(), AllocError>
    ensures ok { OnOk result (out.new.items ≡ out.old.items ++ lines_of (change_of_both (name.now, old.now) (name.now, new.now))) }
    ensures err { OnErr result (IsFront out.old.items out.new.items) }
{
    if old == new {
        return Ok(());
    }
    put_changed(name, old, new, out)
}

#[tactic(auto, using(crate::proofs::FrontLemmas::front_same, crate::proofs::FrontLemmas::front_more, crate::proofs::FrontLemmas::front_through), unfolding(crate::specs::ChangeLines::line_of))]
fn put_changed(
    name: &TrustDomain,
    old: &Bundle,
    new: &Bundle,
    out: &mut Vec<u8>,
) -> Result<(), AllocError>
    ensures ok { OnOk result (out.new.items ≡ out.old.items ++ line_of (name.now, Changed old.now new.now)) }
    ensures err { OnErr result (IsFront out.old.items out.new.items) }
{
    out.extend_from_slice(b"~ ")?;
    out.extend_from_slice(name.as_str().as_bytes())?;
    put_bundle_words(old, new, out)?;
    out.extend_from_slice(b"\n")?;
    Ok(())
}

/// Appends what changed of a bundle.
#[tactic(auto, using(crate::proofs::FrontLemmas::front_same, crate::proofs::FrontLemmas::front_more, crate::proofs::FrontLemmas::front_through), unfolding(crate::specs::ChangeLines::bundle_words))]
fn put_bundle_words(old: &Bundle, new: &Bundle, out: &mut Vec<u8>) -> Result<(), AllocError>
    ensures ok { OnOk result (out.new.items ≡ out.old.items ++ bundle_words old.now new.now) }
    ensures err { OnErr result (IsFront out.old.items out.new.items) }
{
    put_number_words(b" sequence ", old.sequence(), new.sequence(), out)?;
    put_number_words(b" hint ", old.refresh_hint(), new.refresh_hint(), out)?;
    put_authority_words(&old.authorities(), &new.authorities(), out)?;
    Ok(())
}

/// Appends the label, and from which number to which, if they differ.
#[tactic(auto, using(crate::proofs::FrontLemmas::front_same, crate::proofs::FrontLemmas::front_more, crate::proofs::FrontLemmas::front_through), unfolding(crate::specs::ChangeLines::number_words))]
fn put_number_words(
    label: &[u8],
    old: Option<u64>,
    new: Option<u64>,
    out: &mut Vec<u8>,
) -> Result<(), AllocError>
    ensures ok { OnOk result (out.new.items ≡ out.old.items ++ number_words label.now old new) }
    ensures err { OnErr result (IsFront out.old.items out.new.items) }
{
    if old == new {
        return Ok(());
    }
    out.extend_from_slice(label)?;
    put_number(old, out)?;
    out.extend_from_slice(b" to ")?;
    put_number(new, out)?;
    Ok(())
}

/// Appends the number, or `none`.
#[tactic(auto, using(crate::proofs::FrontLemmas::front_same))]
fn put_number(number: Option<u64>, out: &mut Vec<u8>) -> Result<(), AllocError>
    ensures ok { OnOk result (out.new.items ≡ out.old.items ++ number_word number) }
    ensures err { OnErr result (IsFront out.old.items out.new.items) }
{
    match number {
        Some(number) => {
            let mut digits = Buffer::new();
            out.extend_from_slice(digits.format(number).as_bytes())
        }
        None => out.extend_from_slice(b"none"),
    }
}
