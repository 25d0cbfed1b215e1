//! Outcomes of refreshes as lines: what the command `refresh` prints.
ghost use Rattle.std.specs.Prelude.{◌≡◌, ◌+◌, ◌≤◌, ◌++◌, [], codes, decimal, length};
ghost use Rattle.arrayvec.specs.ArrayVec.{array_vec_len};
ghost use Rattle.wire.specs.ReplyForm.{reply, line_of, text_of, IsLined};
ghost use Rattle.refresh.specs.OutcomeLine.{bad_document_words, details_of, error_words, outcome_line as line_of_outcome, place_words, reason_words, remark_text, remark_words, stored_words, taken_words, what_words};

use crate::outcome::What;
use arrayvec::ArrayVec;
use itoa::Buffer;
use map_core::{AskError, Reply};
use spiffe_doc::{DocError, TrustDomain};
use wire::{Refusal, ReplyForm};

/// The most bytes of a line; none comes near it. The longest parts are a name of 255 bytes and the line of a reply.
pub const LINE_BYTES: usize = 1024;

/// A line, in place.
pub type Line = ArrayVec<u8, LINE_BYTES>;

/// Why nothing was fetched, if it is worth a word.
#[derive(Clone, Copy, Debug, PartialEq, Eq, Drop)]
pub enum Remark {
    /// The domain's name is too long for a file.
    LongName,
    /// The file may not be read.
    Denied,
    /// Memory ran out.
    Memory,
    /// Any other fault.
    Unreadable,
}

impl Remark {
    /// What the line says.
    pub fn text(self) -> &'static str
        ensures is { result.now ≡ remark_text self }
        ensures short { length result.now ≤ 40 }
    {
        match self {
            Remark::LongName => "the name is too long for a file",
            Remark::Denied => "permission denied",
            Remark::Memory => "out of memory",
            Remark::Unreadable => "the file cannot be read",
        }
    }
}

/// What a line tells besides what the refresh came to.
#[derive(Drop)]
pub struct LineDetails<'a> {
    /// When the refresh was made, and when the next is due, in seconds.
    pub time: u64,
    pub due: u64,
    pub domain: &'a TrustDomain,
    /// Whether a bundle that was set is only sent, and nobody answers.
    pub is_sent: bool,
    /// Whether the bundle has no authorities, though the domain had some.
    pub has_emptied: bool,
    /// Why nothing was fetched, if it is worth a word.
    pub remark: Option<Remark>,
}

/// Adds a text.
fn put(line: &mut Line, text: &[u8])
    requires { array_vec_len line.old + length text.now ≤ 1024 }
    ensures items { line.new.items ≡ line.old.items ++ text.now }
    ensures more { array_vec_len line.new ≡ array_vec_len line.old + length text.now }
{
    let _fits = line.try_extend_from_slice(text);
}

/// Adds a number, in decimal.
fn put_number(line: &mut Line, number: u64)
    requires { array_vec_len line.old + 20 ≤ 1024 }
    ensures items { line.new.items ≡ line.old.items ++ decimal number }
    ensures few { array_vec_len line.new ≤ array_vec_len line.old + 20 }
{
    put(line, Buffer::new().format(number).as_bytes());
}

/// The line of an outcome: the time, the domain, what it came to and when the next refresh is due.
pub fn outcome_line(what: &What, details: &LineDetails<'_>) -> Line
    ensures { result.items ≡ line_of_outcome (details_of details.now) what.now }
{
    let mut line = ArrayVec::new();
    put_number(&mut line, details.time);
    put(&mut line, b" ");
    put(&mut line, details.domain.as_str().as_bytes());
    put(&mut line, b" ");
    put_what(&mut line, what, details);
    put(&mut line, b" due ");
    put_number(&mut line, details.due);
    put_remark(&mut line, what, details.remark);
    put(&mut line, b"\n");
    line
}

/// Adds what the refresh came to.
fn put_what(line: &mut Line, what: &What, details: &LineDetails<'_>)
    requires { array_vec_len line.old ≤ 300 }
    ensures items { line.new.items ≡ line.old.items ++ what_words (details_of details.now) what.now }
    ensures few { array_vec_len line.new ≤ array_vec_len line.old + 300 }
{
    match what {
        What::Taken(reply) => put_taken(line, reply, details),
        What::BadDocument(error) => put_bad_document(line, error),
        What::NoAnswer => put(line, b"no answer"),
        What::Asked(error) => put_error(line, error),
    }
}

fn put_taken(line: &mut Line, reply: &Reply, details: &LineDetails<'_>)
    requires { array_vec_len line.old ≤ 300 }
    ensures items { line.new.items ≡ line.old.items ++ taken_words (details_of details.now) reply.now }
    ensures few { array_vec_len line.new ≤ array_vec_len line.old + 300 }
{
    match reply {
        Reply::Stored => put_stored(line, details.is_sent, details.has_emptied),
        Reply::Unchanged => put(line, b"unchanged"),
        Reply::Refused(refusal) => put_form(line, &ReplyForm::of_refusal(refusal)),
        // No other reply comes to a Set.
        _ => put(line, b"answered"),
    }
}

fn put_stored(line: &mut Line, is_sent: bool, has_emptied: bool)
    requires { array_vec_len line.old ≤ 300 }
    ensures items { line.new.items ≡ line.old.items ++ stored_words is_sent has_emptied }
    ensures few { array_vec_len line.new ≤ array_vec_len line.old + 300 }
{
    match (is_sent, has_emptied) {
        (true, true) => put(line, b"sent empty"),
        (true, false) => put(line, b"sent"),
        (false, true) => put(line, b"stored empty"),
        (false, false) => put(line, b"stored"),
    }
}

fn put_bad_document(line: &mut Line, error: &DocError)
    requires { array_vec_len line.old ≤ 300 }
    ensures items { line.new.items ≡ line.old.items ++ bad_document_words error.now }
    ensures few { array_vec_len line.new ≤ array_vec_len line.old + 300 }
{
    put(line, b"bad document ");
    put_number(line, u64::from(error.number()));
    put_place(line, Refusal::BadDocument(*error).place());
}

fn put_place(line: &mut Line, place: Option<usize>)
    requires { array_vec_len line.old ≤ 400 }
    ensures items { line.new.items ≡ line.old.items ++ place_words place }
    ensures few { array_vec_len line.new ≤ array_vec_len line.old + 24 }
{
    if let Some(place) = place {
        put(line, b" at ");
        put_number(line, place as u64);
    }
}

fn put_error(line: &mut Line, error: &AskError)
    requires { array_vec_len line.old ≤ 300 }
    ensures items { line.new.items ≡ line.old.items ++ error_words error.now }
    ensures few { array_vec_len line.new ≤ array_vec_len line.old + 300 }
{
    put(line, b"given up ");
    match error {
        // Told by its number, as refusals are.
        AskError::GateShut => put(line, b"refused 56"),
        _ => put_form(line, &ReplyForm::of_error(error)),
    }
}

/// Adds the line of a reply that has no text.
fn put_form(line: &mut Line, form: &ReplyForm<'_>)
    requires lined { IsLined (reply form.now) }
    requires bare { text_of (reply form.now) ≡ [] }
    requires room { array_vec_len line.old ≤ 320 }
    ensures items { line.new.items ≡ line.old.items ++ line_of (reply form.now) }
    ensures few { array_vec_len line.new ≤ array_vec_len line.old + 283 }
{
    match form.line_head() {
        Some(head) => put(line, head.as_slice()),
        None => unreachable!(),
    }
}

/// Adds why nothing was fetched, if nothing was and it is worth a word.
fn put_remark(line: &mut Line, what: &What, remark: Option<Remark>)
    requires { array_vec_len line.old ≤ 700 }
    ensures items { line.new.items ≡ line.old.items ++ remark_words what.now remark }
    ensures few { array_vec_len line.new ≤ array_vec_len line.old + 50 }
{
    match what {
        What::NoAnswer => put_reason(line, remark),
        _ => {}
    }
}

/// Adds a remark in brackets, if there is one.
fn put_reason(line: &mut Line, remark: Option<Remark>)
    requires { array_vec_len line.old ≤ 700 }
    ensures items { line.new.items ≡ line.old.items ++ reason_words remark }
    ensures few { array_vec_len line.new ≤ array_vec_len line.old + 50 }
{
    if let Some(remark) = remark {
        put_in_brackets(line, remark.text());
    }
}

fn put_in_brackets(line: &mut Line, text: &str)
    requires room { array_vec_len line.old ≤ 700 }
    requires short { length text.now ≤ 40 }
    ensures items { line.new.items ≡ line.old.items ++ (codes " (" ++ text.now ++ codes ")") }
    ensures few { array_vec_len line.new ≤ array_vec_len line.old + 50 }
{
    put(line, b" (");
    put(line, text.as_bytes());
    put(line, b")");
}
