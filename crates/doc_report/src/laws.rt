//! Laws of the reports. Each is the contract of a function that does nothing.
ghost use Rattle.doc_report.specs.Laws.{IgnoredForReason, ReasonIsIgnored, FaultsStay, FirstFaultyMember, TellsEachEntry, ShownIsPrintable};

/// An entry is judged to give nothing if and only if there is a reason why it is ignored, and there is one if and only if
/// the entry is ignored.
pub fn entries_are_ignored_for_a_reason()
    ensures judged { IgnoredForReason }
    ensures ignored { ReasonIsIgnored }
{}

/// A document has no report if and only if it is not a bundle, with the same error, to which the member of a key is added.
pub fn faults_stay()
    ensures { FaultsStay }
{}

/// The member that is told of an entry with a malformed key is the first that is missing or malformed.
pub fn first_faulty_members_are_told()
    ensures { FirstFaultyMember }
{}

/// Each entry of a bundle is told once: it gives an authority that is kept, or repeats one, or is ignored.
pub fn reports_tell_each_entry()
    ensures { TellsEachEntry }
{}

/// What is shown of a text of a document is printable ASCII, whatever text it is.
pub fn shown_texts_are_printable()
    ensures { ShownIsPrintable }
{}
