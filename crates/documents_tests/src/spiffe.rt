//! Worked examples and real bundles, whose expected answers are written out. Running out of memory ends a test by an error and
//! never changes an answer, so each may be run with any allocation refused.
//!
//! An authority is dropped by a call of `drop`, before anything may fail: where a scope drops it, the prover follows all its
//! parts on each way out.
mod appends;
mod documents;
mod entries;
mod full;
mod ids;
mod numbers;
mod vectors;

use spiffe_doc::{Authority, Bundle, DocError, read_document, read_entry};
use std::alloc::{AllocError, Global};
use std::fmt::Debug;
use std::process::Abort;

/// What was found in this case is what is wanted.
fn is_equal_at<T: PartialEq + Debug, C: Debug>(rt: &impl Abort, found: &T, wanted: &T, case: &C) {
    assert!(rt;
        *found == *wanted,
        "{case:?}: {found:?}, and not {wanted:?}"
    );
}

/// It is so in this case.
fn holds_at<C: Debug>(rt: &impl Abort, is_so: bool, case: &C) {
    assert!(rt; is_so, "{case:?}");
}

/// The parts of a text, and how often each stands there.
type Parts = &'static [(&'static str, usize)];

/// The text of these parts.
fn text_of(alloc: Global, parts: &[(&str, usize)]) -> Result<String, AllocError> {
    let mut text = String::new(alloc);
    for &(part, count) in parts {
        for _ in 0..count {
            text.push_str(part)?;
        }
    }
    Ok(text)
}

fn bundle(alloc: Global, document: &str) -> Result<Bundle, DocError> {
    read_document(alloc, document.as_bytes())
}

/// The authority that an entry by itself gives; one that is ignored is an error here.
fn authority(alloc: Global, entry: &str) -> Result<Authority, DocError> {
    match read_entry(alloc, entry.as_bytes())? {
        Some(authority) => Ok(authority),
        None => Err(DocError::BadEntry(0)),
    }
}
