//! A member of a bundle map, read as a domain with its bundle.
ghost use Rattle.std.specs.Prelude.{◌≡◌, false, Ok, IfOk, IfErr};
ghost use Rattle.json.specs.Tree.{HasNumbers};
ghost use Rattle.json.specs.Value.{value_view};
ghost use Rattle.spiffe_doc.specs.Name.{IsName, trust_domain};
ghost use Rattle.dump_views.specs.Import.{bundle_in, IsMemberOf, IsFaultOf};
ghost use Rattle.dump_views.specs.Private.Names.{has};
ghost use Rattle.dump_views.specs.Private.Reading.{member_of, map_error, NameFault, BundleFault, IsMapFault};

use crate::error::{MapError, MemberFault};
use json::{Value, to_vec};
use spiffe_doc::{Bundle, DocError, DocumentReader, NameError, TrustDomain};
use std::alloc::Global;
use std::collections::BTreeSet;

/// The domain of the member at this place, or why it is not one, if these are the names of those before it.
pub(crate) fn read_member(
    alloc: Global,
    documents: &mut DocumentReader,
    names: &BTreeSet<TrustDomain>,
    place: usize,
    member: &(&str, Value<'_>),
) -> Result<(TrustDomain, Bundle), MapError>
    requires { HasNumbers (value_view member.now.1) }
    ensures ok { IfOk result (λ item. (has names.now member.now.0.now ≡ false) × IsMemberOf item (member_of member.now)) }
    ensures err { IfErr result (IsMapFault place (IsFaultOf (has names.now member.now.0.now) (member_of member.now))) }
{
    let domain = match read_name(alloc, member.0) {
        Ok(domain) => domain,
        Err(fault) => return Err(bad_member(place, fault)),
    };
    if names.contains(&domain) {
        return Err(bad_member(place, Some(MemberFault::Twice)));
    }
    match read_value(alloc, documents, &member.1) {
        Ok(bundle) => Ok((domain, bundle)),
        Err(fault) => Err(bad_member(place, fault)),
    }
}

/// The error of a fault of the member at this place, or of none, if memory ran out.
fn bad_member(place: usize, fault: Option<MemberFault>) -> MapError
    ensures { result ≡ map_error place fault }
{
    match fault {
        Some(fault) => MapError::BadMember { place, fault },
        None => MapError::Memory,
    }
}

/// The domain of a name. No fault is told if memory runs out.
fn read_name(alloc: Global, name: &str) -> Result<TrustDomain, Option<MemberFault>>
    ensures ok { IfOk result (λ domain. (trust_domain name.now ≡ Ok domain) × IsName name.now) }
    ensures err { IfErr result (λ fault. NameFault fault name.now) }
{
    match TrustDomain::parse(alloc, name) {
        Ok(domain) => Ok(domain),
        Err(NameError::Memory) => Err(None),
        Err(fault) => Err(Some(MemberFault::BadName(fault))),
    }
}

/// The bundle that a value is. No fault is told if memory runs out.
fn read_value(
    alloc: Global,
    documents: &mut DocumentReader,
    value: &Value<'_>,
) -> Result<Bundle, Option<MemberFault>>
    requires { HasNumbers (value_view value.now) }
    ensures ok { IfOk result (λ bundle. bundle_in (value_view value.now) ≡ Ok bundle) }
    ensures err { IfErr result (λ fault. BundleFault fault (value_view value.now)) }
{
    let Ok(text) = to_vec(alloc, value) else {
        return Err(None);
    };
    match documents.read(alloc, text.as_slice()) {
        Ok(bundle) => Ok(bundle),
        Err(DocError::Memory) => Err(None),
        Err(fault) => Err(Some(MemberFault::BadBundle(fault))),
    }
}
