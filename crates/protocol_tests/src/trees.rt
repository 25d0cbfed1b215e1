//! Maps of dumps, and what maps become.
mod bundles;
mod choices;
mod imports;
mod maps;

use std::alloc::{AllocError, Global};
use std::fmt::Debug;
use std::process::Abort;

/// What was found in this case is what is wanted.
fn is_equal_at<T: PartialEq + Debug, C: Debug>(rt: &impl Abort, found: &T, wanted: &T, case: &C) {
    assert!(rt;
        *found == *wanted,
        "{case:?}: {found:?}, and not {wanted:?}"
    );
}

/// It is so in this case.
fn holds_at<C: Debug>(rt: &impl Abort, is_so: bool, case: &C) {
    assert!(rt; is_so, "{case:?}");
}

/// Domains by name, each with a document.
type Domains<'a> = &'a [(&'a str, &'a str)];

/// The frames of these domains under a letter: the requests that set them, or with `i` and a head a dump of them, if they are
/// in order of their names.
fn frames_of(alloc: Global, letter: u8, domains: Domains<'_>) -> Result<Vec<u8>, AllocError> {
    let mut out = Vec::new(alloc);
    if letter == b'i' {
        out.extend_from_slice(b"\x00\x00\x00\x09a")?;
        out.extend_from_slice(
            &u64::try_from(domains.len())
                .unwrap_or(u64::MAX)
                .to_be_bytes(),
        )?;
    }
    for &(name, text) in domains {
        let size = name.len().saturating_add(text.len()).saturating_add(2);
        out.extend_from_slice(&u32::try_from(size).unwrap_or(u32::MAX).to_be_bytes())?;
        out.push(letter)?;
        out.push(u8::try_from(name.len()).unwrap_or(u8::MAX))?;
        out.extend_from_slice(name.as_bytes())?;
        out.extend_from_slice(text.as_bytes())?;
    }
    Ok(out)
}
