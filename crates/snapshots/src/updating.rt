//! A snapshot that is written and shown if it is new.
ghost use Rattle.std.specs.Prelude.{◌≡◌, ◌∷◌, [], ◌++◌, map, flat_map, true, false, string_bytes, IfOk, IfErr, OnOk, OnErr};
ghost use Rattle.spiffe_doc.specs.Text.{text_of};
ghost use Rattle.snapshots.specs.Names.{map_name};
ghost use Rattle.snapshots.specs.Files.{both_files, domain_files, files_of, map_file};
ghost use Rattle.snapshots.specs.Deeds.{deeds_of, then_done, IsCutShort};
ghost use Rattle.snapshots.specs.Deeds.Deed.{Put};
ghost use Rattle.snapshots.specs.Update.{AreThere, Updates, WhyNot};

use crate::error::FolderError;
use crate::folder::Folder;
use crate::names::{MAP, has_files, json_name, pem_name};
use dump_views::{Profile, put_pem, write_map};
use spiffe_doc::{Bundle, TrustDomain};
use std::alloc::{AllocError, Global};

/// Brings the folder to show these domains, and answers whether they are new there. If each file is as in the current
/// snapshot, nothing is done. If not, a new snapshot is written, file by file, and then shown. After an error it is not shown.
/// A domain without files of its own (`has_files`) is in the map, as the others are.
pub fn update<F: Folder>(
    alloc: Global,
    folder: &mut F,
    domains: &[(TrustDomain, Bundle)],
) -> Result<bool, FolderError>
    ensures ok { IfOk result (λ is_new. Updates F.done F.shows folder.old folder.new domains.now is_new) }
    ensures why { IfErr result (WhyNot F.fails) }
    ensures err { OnErr result (IsCutShort (F.done folder.old) (F.done folder.new) (deeds_of domains.now)) }
{
    let map = map_bytes(alloc, domains)?;
    if is_current(alloc, folder, map.as_slice(), domains)? {
        return Ok(false);
    }
    write_snapshot(alloc, folder, map.as_slice(), domains)?;
    Ok(true)
}

/// The bytes of the map of all domains.
fn map_bytes(alloc: Global, domains: &[(TrustDomain, Bundle)]) -> Result<Vec<u8>, AllocError>
    ensures { IfOk result (λ bytes. (map_name, bytes.items) ≡ map_file domains.now) }
{
    let mut bytes = write_map(alloc, domains, Profile::Whole)?;
    bytes.push(b'\n')?;
    Ok(bytes)
}

/// The names of the two files of a domain, and the bytes of the second: the first has the bundle's text.
#[derive(Drop)]
struct DomainFiles {
    json: String,
    pem: String,
    certificates: Vec<u8>,
}

/// The two files of a domain.
fn files_of_domain(
    alloc: Global,
    domain: &TrustDomain,
    bundle: &Bundle,
) -> Result<DomainFiles, AllocError>
    ensures { IfOk result (λ files. both_files (domain.now, bundle.now)
        ≡ (string_bytes files.json, text_of bundle.now) ∷ (string_bytes files.pem, files.certificates.items) ∷ []) }
{
    let json = json_name(alloc, domain)?;
    let pem = pem_name(alloc, domain)?;
    let mut certificates = Vec::new(alloc);
    put_pem(bundle, &mut certificates)?;
    Ok(DomainFiles {
        json,
        pem,
        certificates,
    })
}

/// Whether the current snapshot has all the files, with their bytes.
fn is_current<F: Folder>(
    alloc: Global,
    folder: &F,
    map: &[u8],
    domains: &[(TrustDomain, Bundle)],
) -> Result<bool, FolderError>
    requires { (map_name, map.now) ≡ map_file domains.now }
    ensures ok { IfOk result (λ same. AreThere (F.shows folder.now) (files_of domains.now) same) }
    ensures err { IfErr result (WhyNot F.fails) }
{
    if !folder.holds(MAP, map)? {
        return Ok(false);
    }
    for item in domains {
        if !has_domain(alloc, folder, &item.0, &item.1)? {
            return Ok(false);
        }
    }
    Ok(true)
}

/// Whether the current snapshot has the files of a domain.
fn has_domain<F: Folder>(
    alloc: Global,
    folder: &F,
    domain: &TrustDomain,
    bundle: &Bundle,
) -> Result<bool, FolderError>
    ensures ok { IfOk result (λ same. AreThere (F.shows folder.now) (domain_files (domain.now, bundle.now)) same) }
    ensures err { IfErr result (WhyNot F.fails) }
{
    if !has_files(domain) {
        return Ok(true);
    }
    has_both(alloc, folder, domain, bundle)
}

/// Whether the current snapshot has the two files of a domain.
fn has_both<F: Folder>(
    alloc: Global,
    folder: &F,
    domain: &TrustDomain,
    bundle: &Bundle,
) -> Result<bool, FolderError>
    ensures ok { IfOk result (λ same. AreThere (F.shows folder.now) (both_files (domain.now, bundle.now)) same) }
    ensures err { IfErr result (WhyNot F.fails) }
{
    let files = files_of_domain(alloc, domain, bundle)?;
    if !folder.holds(files.json.as_str(), bundle.text())? {
        return Ok(false);
    }
    folder.holds(files.pem.as_str(), files.certificates.as_slice())
}

/// Writes a snapshot, and then shows it.
fn write_snapshot<F: Folder>(
    alloc: Global,
    folder: &mut F,
    map: &[u8],
    domains: &[(TrustDomain, Bundle)],
) -> Result<(), FolderError>
    requires { (map_name, map.now) ≡ map_file domains.now }
    ensures ok { OnOk result (F.done folder.new ≡ then_done (F.done folder.old) (deeds_of domains.now)) }
    ensures err { OnErr result (IsCutShort (F.done folder.old) (F.done folder.new) (deeds_of domains.now)) }
    ensures why { IfErr result (WhyNot F.fails) }
{
    folder.begin()?;
    folder.put(MAP, map)?;
    put_domains(alloc, folder, domains)?;
    folder.show()?;
    Ok(())
}

/// Writes the files of the domains.
fn put_domains<F: Folder>(
    alloc: Global,
    folder: &mut F,
    domains: &[(TrustDomain, Bundle)],
) -> Result<(), FolderError>
    ensures ok { OnOk result (F.done folder.new ≡ then_done (F.done folder.old) (map Put (flat_map domain_files domains.now))) }
    ensures err { OnErr result (IsCutShort (F.done folder.old) (F.done folder.new) (map Put (flat_map domain_files domains.now))) }
    ensures why { IfErr result (WhyNot F.fails) }
{
    for item in domains {
        put_domain(alloc, folder, &item.0, &item.1)?;
    }
    Ok(())
}

/// Writes the files of a domain.
fn put_domain<F: Folder>(
    alloc: Global,
    folder: &mut F,
    domain: &TrustDomain,
    bundle: &Bundle,
) -> Result<(), FolderError>
    ensures ok { OnOk result (F.done folder.new ≡ then_done (F.done folder.old) (map Put (domain_files (domain.now, bundle.now)))) }
    ensures err { OnErr result (IsCutShort (F.done folder.old) (F.done folder.new) (map Put (domain_files (domain.now, bundle.now)))) }
    ensures why { IfErr result (WhyNot F.fails) }
{
    if !has_files(domain) {
        return Ok(());
    }
    put_both(alloc, folder, domain, bundle)
}

/// Writes the two files of a domain.
fn put_both<F: Folder>(
    alloc: Global,
    folder: &mut F,
    domain: &TrustDomain,
    bundle: &Bundle,
) -> Result<(), FolderError>
    ensures ok { OnOk result (F.done folder.new ≡ then_done (F.done folder.old) (map Put (both_files (domain.now, bundle.now)))) }
    ensures err { OnErr result (IsCutShort (F.done folder.old) (F.done folder.new) (map Put (both_files (domain.now, bundle.now)))) }
    ensures why { IfErr result (WhyNot F.fails) }
{
    let files = files_of_domain(alloc, domain, bundle)?;
    folder.put(files.json.as_str(), bundle.text())?;
    folder.put(files.pem.as_str(), files.certificates.as_slice())?;
    Ok(())
}
