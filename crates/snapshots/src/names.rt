//! The names of files and folders.
ghost use Rattle.std.specs.Prelude.{◌≡◌, ◌≢◌, ℕ, ◌<◌, ◌^◌, decimal, IfOk, MatchOption, Some, string_bytes};
ghost use Rattle.snapshots.specs.Names.{json_name as json_name_of, pem_name as pem_name_of, folder_name as folder_name_of, is_short};

use spiffe_doc::TrustDomain;
use std::alloc::{AllocError, Global};

/// The name of the file of all domains. No domain's file has it, as those end with `.json` or `.pem`.
pub const MAP: &str = "map";

/// How a folder's name begins.
const FRONT: &str = "snapshot-";

/// The most bytes of a domain's name: with `.json` it has 255, which is what file systems take.
const MAX_NAME: usize = 250;

/// Whether the domain has files of its own in a snapshot. If its name is longer, it has not, and is in the map only.
pub fn has_files(domain: &TrustDomain) -> bool
    ensures { result ≡ is_short domain.now }
{
    domain.as_str().len() <= MAX_NAME
}

/// The name of the file of a domain's document.
pub fn json_name(alloc: Global, domain: &TrustDomain) -> Result<String, AllocError>
    ensures { IfOk result (λ name. string_bytes name ≡ json_name_of domain.now) }
{
    let mut name = String::from_str(alloc, domain.as_str())?;
    name.push_str(".json")?;
    Ok(name)
}

/// The name of the file of a domain's certificates.
pub fn pem_name(alloc: Global, domain: &TrustDomain) -> Result<String, AllocError>
    ensures { IfOk result (λ name. string_bytes name ≡ pem_name_of domain.now) }
{
    let mut name = String::from_str(alloc, domain.as_str())?;
    name.push_str(".pem")?;
    Ok(name)
}

/// The name of the folder of a snapshot.
pub fn folder_name(alloc: Global, number: u64) -> Result<String, AllocError>
    ensures { IfOk result (λ name. string_bytes name ≡ folder_name_of number) }
{
    let mut name = String::from_str(alloc, FRONT)?;
    name.push_str(number.to_string(alloc)?.as_str())?;
    Ok(name)
}

/// The number that the digits write, if they are the decimal digits of one.
fn number_of(digits: &str) -> Option<u64>
    ensures { (number : ℕ) → number < 2 ^ 64 → digits.now ≡ decimal number → result ≡ Some number }
{
    match digits.parse::<u64>() {
        Ok(number) => Some(number),
        Err(_) => None,
    }
}

/// The number of the snapshot whose folder has this name; none if no folder of a snapshot has it.
pub fn folder_number(alloc: Global, name: &str) -> Result<Option<u64>, AllocError>
    ensures { IfOk result (λ found. MatchOption found
        ((number : ℕ) → number < 2 ^ 64 → name.now ≢ folder_name_of number) (λ number. name.now ≡ folder_name_of number)) }
{
    let Some(digits) = name.strip_prefix(FRONT) else {
        return Ok(None);
    };
    let Some(number) = number_of(digits) else {
        return Ok(None);
    };
    let known = folder_name(alloc, number)?;
    if known.as_str() == name {
        Ok(Some(number))
    } else {
        Ok(None)
    }
}
