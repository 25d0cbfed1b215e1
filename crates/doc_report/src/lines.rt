//! What a person is told of a document.
ghost use Rattle.std.specs.Prelude.{◌≡◌, ◌++◌, codes, decimal, IfOk, OnOk, OnErr};
ghost use Rattle.doc_report.specs.Report.{value_of};
ghost use Rattle.doc_report.specs.Lines.{line, name_words, kind_words, kinds_words, kept_words, named_words, numbers_words, bundle_words, nothing_words, empty_lines, repeated_lines, its_words, not_words, other_words, held_words, reason_words, ignored_words, ignored_lines, count_lines, told_lines, fault_line, outcome_lines};

use crate::fault::{DocFault, put_fault};
use crate::ignored::{Held, Ignored, Reason};
use crate::member_text::MemberText;
use crate::quoted::put_quoted;
use crate::report::Report;
use crate::words::{put, put_counted, put_entry, put_number};
use std::alloc::{AllocError, Global};

/// Appends what a person is told of the document of this name, in lines: the figures of the bundle, and each entry that is
/// ignored; or why it is not a bundle. Texts of the document are escaped, and the name stands as it is. If memory runs out,
/// nothing is appended.
pub fn put_report(
    name: &str,
    outcome: &Result<Report, DocFault>,
    out: &mut Vec<u8>,
) -> Result<(), AllocError>
    ensures ok { OnOk result (out.new.items ≡ out.old.items ++ outcome_lines name.now outcome.now) }
    ensures err { OnErr result (out.new.items ≡ out.old.items) }
{
    let lines = lines_of(*out.allocator(), name, outcome)?;
    out.extend_from_slice(lines.as_slice())
}

fn lines_of(
    alloc: Global,
    name: &str,
    outcome: &Result<Report, DocFault>,
) -> Result<Vec<u8>, AllocError>
    ensures { IfOk result (λ lines. lines.items ≡ outcome_lines name.now outcome.now) }
{
    let mut lines = Vec::new(alloc);
    match outcome {
        Ok(report) => put_told(&mut lines, name, report)?,
        Err(fault) => put_fault_line(&mut lines, name, fault)?,
    }
    Ok(lines)
}

#[tactic(auto, unfolding(crate::specs::Lines::fault_line))]
fn put_fault_line(out: &mut Vec<u8>, name: &str, fault: &DocFault) -> Result<(), AllocError>
    ensures { OnOk result (out.new.items ≡ out.old.items ++ fault_line name.now fault.now) }
{
    put_name(out, name)?;
    put_fault(out, fault)?;
    put(out, "\n")
}

#[tactic(auto, unfolding(crate::specs::Lines::told_lines))]
fn put_told(out: &mut Vec<u8>, name: &str, report: &Report) -> Result<(), AllocError>
    ensures { OnOk result (out.new.items ≡ out.old.items ++ told_lines name.now (value_of report.now)) }
{
    put_bundle_line(out, name, report)?;
    put_count_lines(out, name, report)?;
    put_ignored_lines(out, name, &report.ignored)
}

fn put_bundle_line(out: &mut Vec<u8>, name: &str, report: &Report) -> Result<(), AllocError>
    ensures { OnOk result (out.new.items ≡ out.old.items ++ line name.now (bundle_words (value_of report.now))) }
{
    put_name(out, name)?;
    put_bundle(out, report)?;
    put(out, "\n")
}

fn put_count_lines(out: &mut Vec<u8>, name: &str, report: &Report) -> Result<(), AllocError>
    ensures { OnOk result (out.new.items ≡ out.old.items ++ count_lines name.now (value_of report.now)) }
{
    put_empty(out, name, report)?;
    put_repeated(out, name, report)
}

fn put_ignored_lines(
    out: &mut Vec<u8>,
    name: &str,
    ignored: &Vec<Ignored>,
) -> Result<(), AllocError>
    ensures { OnOk result (out.new.items ≡ out.old.items ++ ignored_lines name.now ignored.now.items) }
{
    for entry in ignored {
        put_ignored(out, name, entry)?;
    }
    Ok(())
}

/// Puts what each line begins with.
fn put_name(out: &mut Vec<u8>, name: &str) -> Result<(), AllocError>
    ensures { OnOk result (out.new.items ≡ out.old.items ++ name_words name.now) }
{
    put(out, name)?;
    put(out, ": ")
}

#[tactic(auto, unfolding(crate::specs::Lines::bundle_words))]
fn put_bundle(out: &mut Vec<u8>, report: &Report) -> Result<(), AllocError>
    ensures { OnOk result (out.new.items ≡ out.old.items ++ bundle_words (value_of report.now)) }
{
    put(out, "bundle of ")?;
    put_kept(out, report)?;
    put_numbers(out, report)
}

/// Puts how many authorities are kept, and of which kind.
fn put_kept(out: &mut Vec<u8>, report: &Report) -> Result<(), AllocError>
    ensures { OnOk result (out.new.items ≡ out.old.items ++ kept_words (value_of report.now)) }
{
    let kept = report.x509 as u128 + report.jwt as u128;
    put_counted(out, kept, " authority (", " authorities (")?;
    put_kinds(out, report)
}

fn put_kinds(out: &mut Vec<u8>, report: &Report) -> Result<(), AllocError>
    ensures { OnOk result (out.new.items ≡ out.old.items ++ kinds_words (value_of report.now)) }
{
    put_kind(out, report.x509, " X.509, ")?;
    put_kind(out, report.jwt, " JWT)")
}

fn put_kind(out: &mut Vec<u8>, number: usize, name: &str) -> Result<(), AllocError>
    ensures { OnOk result (out.new.items ≡ out.old.items ++ kind_words number name.now) }
{
    put_number(out, number)?;
    put(out, name)
}

/// Puts the sequence and the refresh hint.
fn put_numbers(out: &mut Vec<u8>, report: &Report) -> Result<(), AllocError>
    ensures { OnOk result (out.new.items ≡ out.old.items ++ numbers_words (value_of report.now)) }
{
    put_named(out, "sequence", report.sequence)?;
    put_named(out, "refresh hint", report.refresh_hint)
}

/// Puts a number of this name, or that it is missing.
fn put_named(out: &mut Vec<u8>, name: &str, number: Option<u64>) -> Result<(), AllocError>
    ensures { OnOk result (out.new.items ≡ out.old.items ++ named_words name.now number) }
{
    match number {
        Some(number) => {
            put(out, ", ")?;
            put(out, name)?;
            put_value(out, number)
        }
        None => {
            put(out, ", no ")?;
            put(out, name)
        }
    }
}

fn put_value(out: &mut Vec<u8>, number: u64) -> Result<(), AllocError>
    ensures { OnOk result (out.new.items ≡ out.old.items ++ (codes " " ++ decimal number)) }
{
    put(out, " ")?;
    put_number(out, number)
}

/// Puts that nothing would be kept, if there are no authorities.
#[tactic(auto, unfolding(crate::specs::Lines::empty_lines))]
fn put_empty(out: &mut Vec<u8>, name: &str, report: &Report) -> Result<(), AllocError>
    ensures { OnOk result (out.new.items ≡ out.old.items ++ empty_lines name.now (value_of report.now)) }
{
    if report.x509 == 0 && report.jwt == 0 {
        put_name(out, name)?;
        put_nothing(out, report.ignored.len())?;
        return put(out, "\n");
    }
    Ok(())
}

fn put_nothing(out: &mut Vec<u8>, entries: usize) -> Result<(), AllocError>
    ensures { OnOk result (out.new.items ≡ out.old.items ++ nothing_words entries) }
{
    put(out, "no authorities: nothing would be kept of ")?;
    put_counted(out, entries as u128, " entry", " entries")
}

/// Puts how many entries repeat an authority, if any does.
#[tactic(auto, unfolding(crate::specs::Lines::repeated_lines))]
fn put_repeated(out: &mut Vec<u8>, name: &str, report: &Report) -> Result<(), AllocError>
    ensures { OnOk result (out.new.items ≡ out.old.items ++ repeated_lines name.now (value_of report.now)) }
{
    if report.repeated == 0 {
        return Ok(());
    }
    put_name(out, name)?;
    put_counted(
        out,
        report.repeated as u128,
        " entry repeats an earlier one",
        " entries repeat earlier ones",
    )?;
    put(out, ", kept once\n")
}

fn put_ignored(out: &mut Vec<u8>, name: &str, ignored: &Ignored) -> Result<(), AllocError>
    ensures { OnOk result (out.new.items ≡ out.old.items ++ line name.now (ignored_words ignored.now)) }
{
    put_name(out, name)?;
    put_why(out, ignored)?;
    put(out, "\n")
}

/// Puts that an entry is ignored, and why.
fn put_why(out: &mut Vec<u8>, ignored: &Ignored) -> Result<(), AllocError>
    ensures { OnOk result (out.new.items ≡ out.old.items ++ ignored_words ignored.now) }
{
    put_entry(out, ignored.place)?;
    put(out, "is ignored: ")?;
    put_reason(out, &ignored.reason)
}

#[tactic(auto, unfolding(crate::specs::Lines::reason_words))]
fn put_reason(out: &mut Vec<u8>, reason: &Reason) -> Result<(), AllocError>
    ensures { OnOk result (out.new.items ≡ out.old.items ++ reason_words reason.now) }
{
    match reason {
        Reason::OtherType(held) => put_held(out, "kty", "EC or RSA", held),
        Reason::OtherUse(held) => put_held(out, "use", "x509-svid or jwt-svid", held),
        Reason::OtherCurve(curve) => put_other(out, "crv", "P-256, P-384 or P-521", curve),
    }
}

/// Puts what an entry has under this name, where these texts are known.
fn put_held(out: &mut Vec<u8>, name: &str, known: &str, held: &Held) -> Result<(), AllocError>
    ensures { OnOk result (out.new.items ≡ out.old.items ++ held_words name.now known.now held.now) }
{
    match held {
        Held::Missing => {
            put(out, "it has no ")?;
            put(out, name)
        }
        Held::Other => put_its(out, name, " is not a text"),
        Held::Text(text) => put_other(out, name, known, text),
    }
}

/// Puts a text under this name that is not a known one.
fn put_other(
    out: &mut Vec<u8>,
    name: &str,
    known: &str,
    text: &MemberText,
) -> Result<(), AllocError>
    ensures { OnOk result (out.new.items ≡ out.old.items ++ other_words name.now known.now text.now) }
{
    put_its(out, name, " is ")?;
    put_not(out, known, text)
}

fn put_its(out: &mut Vec<u8>, name: &str, verb: &str) -> Result<(), AllocError>
    ensures { OnOk result (out.new.items ≡ out.old.items ++ its_words name.now verb.now) }
{
    put(out, "its ")?;
    put(out, name)?;
    put(out, verb)
}

fn put_not(out: &mut Vec<u8>, known: &str, text: &MemberText) -> Result<(), AllocError>
    ensures { OnOk result (out.new.items ≡ out.old.items ++ not_words known.now text.now) }
{
    put_quoted(out, text.as_str())?;
    put(out, ", not ")?;
    put(out, known)
}
