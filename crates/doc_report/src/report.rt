//! What a person is told of a document.
ghost use Rattle.std.specs.Prelude.{◌≡◌, ◌⊎◌, ◌≤◌, length, map, Ok, Err, Some, codes, option_map, option_and_then, slice_get, IfOk, MatchResult, count_by};
ghost use Rattle.serde_json.specs.Find.{get, as_array};
ghost use Rattle.serde_json.specs.View.{view, items_view};
ghost use Rattle.spiffe_doc.specs.Bundle.{is_x509 as x509};
ghost use Rattle.spiffe_doc.specs.Document.{json_tree};
ghost use Rattle.doc_report.specs.Fault.{no_memory};
ghost use Rattle.doc_report.specs.KeyMember.{faulty_member as member_of};
ghost use Rattle.doc_report.specs.Report.{entries_of, entries_in, ignored_entries, figures as figures_of, report_of, value_of};
ghost use Rattle.doc_report.specs.Private.Counts.{AreEntries};

use crate::fault::DocFault;
use crate::ignored::Ignored;
use crate::key_member::{KeyMember, faulty_member};
use crate::reason::reason;
use serde_json::Value;
use spiffe_doc::{Authorities, Bundle, DocError, read_document};
use std::alloc::{AllocError, Global};

/// The figures of the bundle that a document is, and what of the document is ignored. Each entry of `keys` gives an
/// authority that is kept, or repeats one, or is ignored.
#[derive(Drop)]
pub struct Report {
    /// `spiffe_sequence`, if the document has one.
    pub sequence: Option<u64>,
    /// `spiffe_refresh_hint` in seconds, if the document has one.
    pub refresh_hint: Option<u64>,
    /// How many X.509 authorities are kept.
    pub x509: usize,
    /// How many JWT authorities are kept.
    pub jwt: usize,
    /// How many entries repeat the authority of an earlier one, which is kept once.
    pub repeated: usize,
    /// The entries that are ignored, in order.
    pub ignored: Vec<Ignored>,
}

/// Judges a bundle document as `read_document` does, and reports what of it is kept and what is ignored (SPIFFE Trust
/// Domain and Bundle, section 4; RFC 7517, section 5). Its errors are those of `read_document`, and of a malformed key it
/// finds the member. Memory can run out only for a document of at most 1,048,576 bytes.
#[tactic(auto, unfolding(crate::specs::Report::report_of))]
pub fn report_on(alloc: Global, document: &[u8]) -> Result<Report, DocFault>
    ensures value { MatchResult result
        (λ report. report_of document.now ≡ Ok (value_of report))
        (λ fault. (fault ≡ no_memory) ⊎ (report_of document.now ≡ Err fault)) }
    ensures memory { result ≡ Err no_memory → length document.now ≤ 1048576 }
{
    let bundle = match read_document(alloc, document) {
        Ok(bundle) => bundle,
        Err(DocError::BadKey(place)) => {
            return Err(DocFault {
                error: DocError::BadKey(place),
                member: member_at(alloc, document, place)?,
            });
        }
        Err(error) => {
            return Err(DocFault {
                error,
                member: None,
            });
        }
    };
    let tree = tree_of(alloc, document)?;
    let entries = entries(&tree);
    let ignored = ignored(alloc, entries)?;
    Ok(figures(&bundle, entries, ignored))
}

/// The member that is malformed of the key at this place.
fn member_at(alloc: Global, document: &[u8], place: usize) -> Result<Option<KeyMember>, AllocError>
    ensures { IfOk result (λ member. member ≡ option_map member_of (slice_get (entries_in document.now) place)) }
{
    let tree = tree_of(alloc, document)?;
    match entries(&tree).get(place) {
        Some(entry) => Ok(Some(faulty_member(alloc, entry)?)),
        None => Ok(None),
    }
}

/// The report of a bundle, which these entries give, of which these are ignored.
#[tactic(auto, unfolding(crate::specs::Report::figures))]
fn figures(bundle: &Bundle, entries: &[Value], ignored: Vec<Ignored>) -> Report
    requires entries { AreEntries (map view entries.now) bundle.now.authorities }
    requires ignored { ignored.items ≡ ignored_entries (map view entries.now) }
    ensures { value_of result ≡ figures_of bundle.now (map view entries.now) }
{
    let authorities = bundle.authorities();
    let x509 = count_x509(&authorities);
    Report {
        sequence: bundle.sequence(),
        refresh_hint: bundle.refresh_hint(),
        x509,
        jwt: authorities.len() - x509,
        repeated: entries.len() - ignored.len() - authorities.len(),
        ignored,
    }
}

/// The tree of a JSON text.
fn tree_of(alloc: Global, document: &[u8]) -> Result<Value, AllocError>
    ensures { IfOk result (λ tree. json_tree document.now ≡ Some (view tree)) }
{
    match Value::from_slice(alloc, document) {
        Ok(tree) => Ok(tree),
        // It is a JSON text, since its keys were judged.
        Err(_) => Err(AllocError),
    }
}

/// The elements of `keys`.
fn entries(tree: &Value) -> &[Value]
    ensures { map view result.now ≡ entries_of (view tree.now) }
{
    match keys(tree) {
        Some(keys) => keys.as_slice(),
        None => &[],
    }
}

fn keys(tree: &Value) -> Option<&Vec<Value>>
    ensures { option_map (λ keys. items_view keys.now.items) result ≡ option_and_then as_array (get (codes "keys") (view tree.now)) }
{
    tree.get("keys").and_then(Value::as_array)
}

/// The entries that are ignored.
fn ignored(alloc: Global, entries: &[Value]) -> Result<Vec<Ignored>, AllocError>
    ensures { IfOk result (λ found. found.items ≡ ignored_entries (map view entries.now)) }
{
    let mut found = Vec::new(alloc);
    for (place, entry) in entries.iter().enumerate() {
        if let Some(reason) = reason(alloc, entry)? {
            found.push(Ignored { place, reason })?;
        }
    }
    Ok(found)
}

/// How many of them are X.509 authorities.
fn count_x509(authorities: &Authorities<'_>) -> usize
    ensures { result ≡ count_by x509 authorities.now }
{
    let mut count = 0;
    for authority in authorities.iter() {
        if authority.is_x509() {
            count += 1;
        }
    }
    count
}
