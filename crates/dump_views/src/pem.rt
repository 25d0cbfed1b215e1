//! The X.509 authorities of a bundle as PEM (RFC 7468).
ghost use Rattle.std.specs.Prelude.{◌≡◌, ◌≤◌, ◌++◌, length, Some, None, MatchOption, IfErr, OnOk, OnErr};
ghost use Rattle.std.specs.List.{flat_map};
ghost use Rattle.spiffe_doc.specs.Authority.{BundleValue};
ghost use Rattle.frame_front.specs.Dump.{Domains, IsDump};
ghost use Rattle.dump_views.specs.Changes.{held_under};
ghost use Rattle.dump_views.specs.OfDump.{PemFault};
ghost use Rattle.dump_views.specs.Pem.{base64_of, cut, line, pem_of, pem_of_authority, pem_of_certificate};
ghost use Rattle.dump_views.specs.Private.Fronts.{IsFront};

use base64::engine::general_purpose::STANDARD;
use frame_front::{DumpError, read_dump};
use spiffe_doc::{Authorities, Authority, Bundle, Entry, TrustDomain};
use std::alloc::{AllocError, Global};
use thiserror::Error;

/// How many bytes a whole line has as base64 (RFC 7468, section 2).
const LINE: usize = 64;

/// How many bytes a whole line tells.
const LINE_BYTES: usize = 48;

/// Why no certificates of a dump are told.
#[derive(Clone, Copy, Debug, PartialEq, Eq, Error)]
pub enum PemError {
    /// It is not a dump: its first frame, from 0, that is wrong, missing or too much.
    #[error("frame {0} of the dump is wrong, missing or too much")]
    BadDump(u64),
    #[error("the dump has no bundle of the trust domain")]
    NoDomain,
    #[error("out of memory")]
    Memory,
}

/// Appends the X.509 authorities of a bundle as PEM: for each certificate, in the document's order, its base64 in lines of
/// 64 characters between `-----BEGIN CERTIFICATE-----` and `-----END CERTIFICATE-----` (RFC 7468, sections 2, 3 and
/// 5.1). JWT authorities have none. No DER is read. If memory runs out, nothing is appended.
pub fn put_pem(bundle: &Bundle, out: &mut Vec<u8>) -> Result<(), AllocError>
    ensures ok { OnOk result (out.new.items ≡ out.old.items ++ pem_of bundle.now) }
    ensures err { OnErr result (out.new.items ≡ out.old.items) }
{
    let before = out.len();
    let put = put_authorities(&bundle.authorities(), out);
    if put.is_err() {
        out.truncate(before);
    }
    put
}

/// Appends the X.509 authorities of a domain of a dump as PEM, as `put_pem` does. After an error nothing is appended.
pub fn put_dump_pem(
    alloc: Global,
    dump: &[u8],
    name: &TrustDomain,
    out: &mut Vec<u8>,
) -> Result<(), PemError>
    ensures ok { OnOk result ((items : Domains) × (bundle : BundleValue) × IsDump dump.now items
        × (held_under items name.now ≡ Some bundle) × (out.new.items ≡ out.old.items ++ pem_of bundle)) }
    ensures fault { IfErr result (λ fault. PemFault fault dump.now name.now) }
    ensures unchanged { OnErr result (out.new.items ≡ out.old.items) }
{
    let domains = match read_dump(alloc, dump) {
        Ok(domains) => domains,
        Err(DumpError::BadDump(place)) => return Err(PemError::BadDump(place)),
        Err(DumpError::Memory) => return Err(PemError::Memory),
    };
    let Some(bundle) = bundle_of(domains.pairs(), name) else {
        return Err(PemError::NoDomain);
    };
    match put_pem(bundle, out) {
        Ok(()) => Ok(()),
        Err(_) => Err(PemError::Memory),
    }
}

/// The bundle of a name, if it has one.
fn bundle_of<'a>(domains: &'a [(TrustDomain, Bundle)], name: &TrustDomain) -> Option<&'a Bundle>
    ensures { MatchOption result (held_under domains.now name.now ≡ None) (λ bundle. held_under domains.now name.now ≡ Some bundle.now) }
{
    for domain in domains {
        if domain.0 == *name {
            return Some(&domain.1);
        }
    }
    None
}

#[tactic(auto, using(crate::proofs::FrontLemmas::front_same, crate::proofs::FrontLemmas::front_more, crate::proofs::FrontLemmas::front_through))]
fn put_authorities(authorities: &Authorities<'_>, out: &mut Vec<u8>) -> Result<(), AllocError>
    ensures ok { OnOk result (out.new.items ≡ out.old.items ++ flat_map pem_of_authority authorities.now) }
    ensures err { OnErr result (IsFront out.old.items out.new.items) }
{
    for entry in authorities.iter() {
        put_entry(&entry, out)?;
    }
    Ok(())
}

fn put_entry(entry: &Entry<'_>, out: &mut Vec<u8>) -> Result<(), AllocError>
    ensures ok { OnOk result (out.new.items ≡ out.old.items ++ pem_of_authority entry.now) }
    ensures err { OnErr result (IsFront out.old.items out.new.items) }
{
    match entry.decode(*out.allocator())? {
        Authority::X509 { der, .. } => put_certificate(der.der().as_slice(), out),
        Authority::Jwt { .. } => Ok(()),
    }
}

#[tactic(auto, using(crate::proofs::FrontLemmas::front_same, crate::proofs::FrontLemmas::front_more, crate::proofs::FrontLemmas::front_through), unfolding(crate::specs::Pem::pem_of_certificate))]
fn put_certificate(der: &[u8], out: &mut Vec<u8>) -> Result<(), AllocError>
    ensures ok { OnOk result (out.new.items ≡ out.old.items ++ pem_of_certificate der.now) }
    ensures err { OnErr result (IsFront out.old.items out.new.items) }
{
    out.extend_from_slice(b"-----BEGIN CERTIFICATE-----\n")?;
    put_lines(der, out)?;
    out.extend_from_slice(b"-----END CERTIFICATE-----\n")?;
    Ok(())
}

/// Appends the base64 of the bytes in lines.
#[tactic(auto, using(crate::proofs::FrontLemmas::front_same, crate::proofs::FrontLemmas::front_through))]
fn put_lines(bytes: &[u8], out: &mut Vec<u8>) -> Result<(), AllocError>
    ensures ok { OnOk result (out.new.items ≡ out.old.items ++ flat_map line (cut (base64_of bytes.now))) }
    ensures err { OnErr result (IsFront out.old.items out.new.items) }
{
    let mut rest = bytes;
    while !rest.is_empty() {
        let (some, more) = rest.split_at(rest.len().min(LINE_BYTES));
        put_line(some, out)?;
        rest = more;
    }
    Ok(())
}

/// Appends the base64 of the bytes and a line feed.
fn put_line(bytes: &[u8], out: &mut Vec<u8>) -> Result<(), AllocError>
    requires short { length bytes.now ≤ 48 }
    ensures ok { OnOk result (out.new.items ≡ out.old.items ++ line (base64_of bytes.now)) }
    ensures err { OnErr result (IsFront out.old.items out.new.items) }
{
    let mut text = [0; LINE];
    let Ok(size) = STANDARD.encode_slice(bytes, &mut text) else {
        unreachable!();
    };
    out.extend_from_slice(&text[..size])?;
    out.extend_from_slice(b"\n")
}
