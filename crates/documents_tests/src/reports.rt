//! What a person is told of documents.
mod faults;
mod growths;
mod reasons;
mod shown;
mod vectors;

use doc_report::{put_report, report_on};
use std::alloc::{AllocError, Global};
use std::fmt::Debug;
use std::process::Abort;

/// What was found in this case is what is wanted.
fn is_equal_at<T: PartialEq + Debug, C: Debug>(rt: &impl Abort, found: &T, wanted: &T, case: &C) {
    assert!(rt;
        *found == *wanted,
        "{case:?}: {found:?}, and not {wanted:?}"
    );
}

/// Just these lines are told of the document.
fn tells(
    rt: &impl Abort,
    alloc: Global,
    name: &str,
    document: &str,
    wanted: &str,
) -> Result<(), AllocError> {
    let mut lines = Vec::new(alloc);
    put_report(name, &report_on(alloc, document.as_bytes()), &mut lines)?;
    is_equal_at(rt, &lines.as_slice(), &wanted.as_bytes(), &document);
    Ok(())
}

/// What is told of a document with one entry, which is ignored for a reason.
const IGNORED: &str =
    "a: bundle of 0 authorities (0 X.509, 0 JWT), no sequence, no refresh hint\na: no authorities: nothing would be kept of 1 entry\na: keys[0] is ignored: ";
