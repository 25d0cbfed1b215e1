//! Writing a bundle map.
ghost use Rattle.std.specs.Prelude.{◌≡◌, ◌++◌, ◌∷◌, [], map, not, codes, IfOk, OnOk};
ghost use Rattle.json.specs.Print.{quoted};
ghost use Rattle.serde_json.specs.Written.{comma_if};
ghost use Rattle.spiffe_doc.specs.Text.{text_of};
ghost use Rattle.spiffe_doc.specs.Private.Writing.{number_text};
ghost use Rattle.dump_views.specs.Map.{map_text, shown, shown_bundle, x509_part};

use crate::profile::Profile;
use spiffe_doc::{Bundle, TrustDomain};
use std::alloc::{AllocError, Global};

/// The bundle map of these domains: one line of JSON with no space, in their order. The canonical text of each bundle
/// is copied as it is, unless only a part is shown. Errors only if memory runs out.
pub fn write_map(
    alloc: Global,
    domains: &[(TrustDomain, Bundle)],
    profile: Profile,
) -> Result<Vec<u8>, AllocError>
    ensures { IfOk result (λ text. text.items ≡ map_text (map (shown profile) domains.now)) }
{
    let mut text = b"{\"trust_domains\":{".as_slice().to_vec(alloc)?;
    for (place, item) in domains.iter().enumerate() {
        put_name(&mut text, place == 0, &item.0)?;
        put_bundle(alloc, &mut text, &item.1, profile)?;
    }
    text.extend_from_slice(b"}}")?;
    Ok(text)
}

/// Adds the comma before what is not the first.
fn put_comma(text: &mut Vec<u8>, is_first: bool) -> Result<(), AllocError>
    ensures { OnOk result (text.new.items ≡ text.old.items ++ comma_if (not is_first)) }
{
    if !is_first {
        text.push(b',')?;
    }
    Ok(())
}

/// Adds the name of a member.
fn put_name(text: &mut Vec<u8>, is_first: bool, domain: &TrustDomain) -> Result<(), AllocError>
    ensures { OnOk result (text.new.items ≡ text.old.items ++ (comma_if (not is_first) ++ (quoted domain.now ++ 58 ∷ []))) }
{
    put_comma(text, is_first)?;
    text.push(b'"')?;
    text.extend_from_slice(domain.as_str().as_bytes())?;
    text.extend_from_slice(b"\":")?;
    Ok(())
}

/// Adds what is shown of a bundle.
fn put_bundle(
    alloc: Global,
    text: &mut Vec<u8>,
    bundle: &Bundle,
    profile: Profile,
) -> Result<(), AllocError>
    ensures { OnOk result (text.new.items ≡ text.old.items ++ text_of (shown_bundle profile bundle.now)) }
{
    match profile {
        Profile::Whole => text.extend_from_slice(bundle.text()),
        Profile::X509 => put_x509_part(alloc, text, bundle),
    }
}

/// Adds the X.509 authorities of a bundle, and its sequence.
fn put_x509_part(alloc: Global, text: &mut Vec<u8>, bundle: &Bundle) -> Result<(), AllocError>
    ensures { OnOk result (text.new.items ≡ text.old.items ++ text_of (x509_part bundle.now)) }
{
    text.extend_from_slice(b"{\"keys\":[")?;
    let mut is_first = true;
    for entry in bundle.authorities().iter() {
        if entry.is_x509() {
            put_comma(text, is_first)?;
            text.extend_from_slice(entry.text())?;
            is_first = false;
        }
    }
    text.push(b']')?;
    put_sequence(alloc, text, bundle.sequence())?;
    text.push(b'}')?;
    Ok(())
}

/// Adds the member of the sequence, if there is one.
fn put_sequence(alloc: Global, text: &mut Vec<u8>, sequence: Option<u64>) -> Result<(), AllocError>
    ensures { OnOk result (text.new.items ≡ text.old.items ++ number_text (codes ",\"spiffe_sequence\":") sequence) }
{
    match sequence {
        Some(n) => {
            text.extend_from_slice(b",\"spiffe_sequence\":")?;
            text.extend_from_slice(n.to_string(alloc)?.as_bytes())
        }
        None => Ok(()),
    }
}
