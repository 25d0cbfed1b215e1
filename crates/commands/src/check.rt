//! The command `check`: what documents would give as bundles.
ghost use Rattle.std.specs.Prelude.{◌≡◌, ◌≢◌, map, Err, OnOk};
ghost use Rattle.commands.specs.declared.input.Extent.TheVariants.{Limited};
ghost use Rattle.commands.specs.Input.{ReadsInput};
ghost use Rattle.commands.specs.Streams.{streams};
ghost use Rattle.commands.specs.declared.fault.Fault.TheVariants.{Front};
ghost use Rattle.commands.specs.Check.{Checks};
ghost use Rattle.commands.specs.Private.Checking.{ChecksFiles, ChecksInput, ChecksOne, given_by, joined};
ghost use Rattle.wire.specs.Counted.{end_in, faults_in, next_count, reads_of};
ghost use Rattle.wire.specs.declared.error.FrontError.TheVariants.{ReadFault, WriteFault};

use crate::{Extent, Fault, Outcome, ended, read_input, write_flushed};
use doc_report::{DocFault, Report, put_report, report_on};
use spiffe_doc::DocError;
use std::alloc::Global;
use std::io::{Read, Write};
use wire::{Counted, FrontError, TextError, TextSource};

/// The name of a document that is the input.
const INPUT: &str = "-";

/// What was found of documents.
#[derive(Clone, Copy)]
struct Findings {
    /// Some document is not a bundle.
    no_bundle: bool,
    /// Something is ignored of a document that is a bundle.
    ignored: bool,
}

impl Findings {
    /// The findings of these documents and of those.
    fn and(self, others: Findings) -> Findings
        ensures { result ≡ joined self others }
    {
        Findings {
            no_bundle: self.no_bundle || others.no_bundle,
            ignored: self.ignored || others.ignored,
        }
    }
}

impl Outcome for Findings {
    ghost use Rattle.commands.specs.Private.Checking.{status_by};

    ghost status_of = { status_by };

    fn status(&self) -> u8 {
        if self.no_bundle {
            1
        } else if self.ignored {
            3
        } else {
            0
        }
    }
}

/// Judges documents, which are the texts of these files, or the input if there are no files, and writes what a person is told
/// of each, before the next is read; answers the exit status: 0 if each is a bundle of which nothing is ignored, 3 if something is
/// ignored, 1 if some document is not a bundle, or after a fault.
pub fn check_over<T: TextSource, R: Read, W: Write, E: Write>(
    alloc: Global,
    texts: &T,
    files: &[&str],
    reader: &mut Counted<R>,
    out: &mut Counted<W>,
    err: &mut Counted<E>,
) -> u8
    ensures checks { Checks (T.gives texts.now) (map (λ file. file.now) files.now) result
        (streams R.remaining W.contents E.contents reader.old out.old err.old)
        (streams R.remaining W.contents E.contents reader.new out.new err.new) }
    ensures silent { result ≢ 1 → err.new ≡ err.old }
{
    if files.is_empty() {
        return ended(check_input(alloc, reader, out), err);
    }
    ended(check_files(alloc, texts, files, out), err)
}

/// Judges the input.
fn check_input<R: Read, W: Write>(
    alloc: Global,
    reader: &mut Counted<R>,
    out: &mut Counted<W>,
) -> Result<Findings, Fault>
    ensures checks { ChecksInput result
        (R.remaining (end_in reader.old)) (R.remaining (end_in reader.new)) (W.contents (end_in out.old)) (W.contents (end_in out.new)) }
    ensures reads { ReadsInput Limited result (reads_of reader.old) (reads_of reader.new) }
    ensures read_fault { result ≡ Err (Front ReadFault) → faults_in reader.new ≡ next_count (faults_in reader.old) }
    ensures write_fault { result ≡ Err (Front WriteFault) → faults_in out.new ≡ next_count (faults_in out.old) }
{
    let input = match read_input(alloc, Extent::Limited, reader) {
        Ok(input) => input,
        Err(fault) => return Err(fault),
    };
    check_document(alloc, INPUT, input.as_slice(), out)
}

/// Judges the text of each file.
fn check_files<T: TextSource, W: Write>(
    alloc: Global,
    texts: &T,
    files: &[&str],
    out: &mut Counted<W>,
) -> Result<Findings, Fault>
    ensures checks { ChecksFiles (T.gives texts.now) (map (λ file. file.now) files.now) result
        (W.contents (end_in out.old)) (W.contents (end_in out.new)) }
    ensures write_fault { result ≡ Err (Front WriteFault) → faults_in out.new ≡ next_count (faults_in out.old) }
    ensures no_read_fault { result ≡ Err (Front ReadFault) → ⊥ }
{
    let mut findings = Findings {
        no_bundle: false,
        ignored: false,
    };
    for (place, file) in files.iter().enumerate() {
        let text = match texts.text(alloc, file.as_bytes()) {
            Ok(text) => text,
            Err(TextError::Unreadable) => return Err(Fault::UnreadText(place as u64 + 1)),
            Err(TextError::Memory) => return Err(Fault::Front(FrontError::Memory)),
        };
        match check_document(alloc, file, text.as_slice(), out) {
            Ok(found) => findings = findings.and(found),
            Err(fault) => return Err(fault),
        }
    }
    Ok(findings)
}

/// Judges a document, and writes what a person is told of it.
fn check_document<W: Write>(
    alloc: Global,
    name: &str,
    document: &[u8],
    out: &mut Counted<W>,
) -> Result<Findings, Fault>
    ensures checks { ChecksOne result (record { name = name.now; text = document.now }) (W.contents (end_in out.old)) (W.contents (end_in out.new)) }
    ensures quiet { OnOk result (faults_in out.new ≡ faults_in out.old) }
    ensures write_fault { result ≡ Err (Front WriteFault) → faults_in out.new ≡ next_count (faults_in out.old) }
{
    let outcome = report_on(alloc, document);
    if let Err(
        DocFault {
            error: DocError::Memory,
            ..
        },
    ) = outcome
    {
        return Err(Fault::Front(FrontError::Memory));
    }
    let mut lines = Vec::new(alloc);
    put_report(name, &outcome, &mut lines)?;
    write_flushed(out, lines.as_slice())?;
    Ok(findings_of(&outcome))
}

/// What was found of a document by its report.
fn findings_of(outcome: &Result<Report, DocFault>) -> Findings
    ensures { result ≡ given_by outcome.now }
{
    match outcome {
        Ok(report) => Findings {
            no_bundle: false,
            ignored: !report.ignored.is_empty(),
        },
        Err(_) => Findings {
            no_bundle: true,
            ignored: false,
        },
    }
}
