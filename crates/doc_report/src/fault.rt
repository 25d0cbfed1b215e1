//! What is wrong with a document, in words.
ghost use Rattle.std.specs.Prelude.{◌≡◌, ◌++◌, OnOk};
ghost use Rattle.spiffe_doc.specs.Document.{place_of as place_in};
ghost use Rattle.doc_report.specs.Fault.{member_words, error_words, said_of, verdict_of, place_words, said_words, refusal_words, fault_words};

use crate::key_member::KeyMember;
use crate::words::{put, put_entry, put_number};
use spiffe_doc::{Curve, DocError};
use std::alloc::AllocError;

/// Why a document has no report.
#[derive(Clone, Copy, Debug, PartialEq, Eq, Drop)]
pub struct DocFault {
    /// What `read_document` answers of it.
    pub error: DocError,
    /// If the key of an entry is malformed, the first of its members that is.
    pub member: Option<KeyMember>,
}

impl From<AllocError> for DocFault {
    ghost use Rattle.std.specs.Prelude.{◌≡◌};
    ghost use Rattle.doc_report.specs.Fault.{no_memory};

    ghost from_gives = { λ _ fault. fault ≡ no_memory };

    fn from(_refused: AllocError) -> DocFault {
        DocFault {
            error: DocError::Memory,
            member: None,
        }
    }
}

/// Puts the words of a fault, and its number.
#[tactic(auto, unfolding(crate::specs::Fault::fault_words))]
pub(crate) fn put_fault(out: &mut Vec<u8>, fault: &DocFault) -> Result<(), AllocError>
    ensures { OnOk result (out.new.items ≡ out.old.items ++ fault_words fault.now) }
{
    put(out, verdict(&fault.error))?;
    put_said(out, fault)?;
    put_refusal(out, &fault.error)
}

/// Puts what a fault says of the document, or of the entry that it is about.
fn put_said(out: &mut Vec<u8>, fault: &DocFault) -> Result<(), AllocError>
    ensures { OnOk result (out.new.items ≡ out.old.items ++ said_words fault.now) }
{
    put_place(out, place_of(&fault.error))?;
    put(out, said(fault))
}

/// Puts the number of an error.
fn put_refusal(out: &mut Vec<u8>, error: &DocError) -> Result<(), AllocError>
    ensures { OnOk result (out.new.items ≡ out.old.items ++ refusal_words error.now) }
{
    put(out, " (")?;
    put_number(out, error.number())?;
    put(out, ")")
}

/// What the words of a fault begin with. A document for which memory ran out has no verdict.
fn verdict(error: &DocError) -> &'static str
    ensures { result.now ≡ verdict_of error.now }
{
    match error {
        DocError::Memory => "not judged: ",
        _ => "not a bundle: ",
    }
}

/// The place in `keys` that an error names.
fn place_of(error: &DocError) -> Option<usize>
    ensures { result ≡ place_in error.now }
{
    match error {
        DocError::BadEntry(place)
        | DocError::BadKey(place)
        | DocError::BadX5c(place)
        | DocError::BadKid(place)
        | DocError::KidTwice(place) => Some(*place),
        _ => None,
    }
}

/// Puts the entry that a fault is about, if it is about one.
fn put_place(out: &mut Vec<u8>, place: Option<usize>) -> Result<(), AllocError>
    ensures { OnOk result (out.new.items ≡ out.old.items ++ place_words place) }
{
    match place {
        Some(place) => put_entry(out, place),
        None => Ok(()),
    }
}

/// What a fault says of the document, or of one of its entries.
fn said(fault: &DocFault) -> &'static str
    ensures { result.now ≡ said_of fault.now }
{
    match &fault.member {
        Some(member) => said_of_member(member),
        None => said_of_error(&fault.error),
    }
}

/// What is said of an error by itself.
fn said_of_error(error: &DocError) -> &'static str
    ensures { result.now ≡ error_words error.now }
{
    match error {
        DocError::TooLong => "the document, or its canonical text, has over 1048576 bytes",
        DocError::NotJson => "it is not a JSON text of UTF-8, nested at most 127 deep",
        DocError::NotObject => "it is not a JSON object",
        DocError::NoKeys => "it has no member keys that is an array",
        DocError::BadSequence => {
            "spiffe_sequence is not a whole number from 0 to 18446744073709551615"
        }
        DocError::BadHint => {
            "spiffe_refresh_hint is not a whole number from 0 to 18446744073709551615"
        }
        DocError::BadEntry(_) => "is not a JSON object",
        DocError::BadKey(_) => "has a malformed key",
        DocError::BadX5c(_) =>
            "has a malformed x5c: it has to be a list of one text of padded base64",
        DocError::BadKid(_) => "has a malformed kid: it has to be a text of 1 to 255 bytes",
        DocError::KidTwice(_) => "has the kid of an earlier entry, with another key",
        DocError::TooMany => "it has over 1024 different authorities",
        DocError::Memory => "out of memory",
    }
}

/// What is said of a member of a key that is missing or malformed.
fn said_of_member(member: &KeyMember) -> &'static str
    ensures { result.now ≡ member_words member.now }
{
    match member {
        KeyMember::Crv => "has a malformed crv: it has to be a text",
        KeyMember::X(Curve::P256) => {
            "has a malformed x: it has to be 32 bytes of unpadded base64url"
        }
        KeyMember::X(Curve::P384) => {
            "has a malformed x: it has to be 48 bytes of unpadded base64url"
        }
        KeyMember::X(Curve::P521) => {
            "has a malformed x: it has to be 66 bytes of unpadded base64url"
        }
        KeyMember::Y(Curve::P256) => {
            "has a malformed y: it has to be 32 bytes of unpadded base64url"
        }
        KeyMember::Y(Curve::P384) => {
            "has a malformed y: it has to be 48 bytes of unpadded base64url"
        }
        KeyMember::Y(Curve::P521) => {
            "has a malformed y: it has to be 66 bytes of unpadded base64url"
        }
        KeyMember::N => "has a malformed n: it has to be 1 to 1024 bytes of unpadded base64url",
        KeyMember::E => "has a malformed e: it has to be 1 to 1024 bytes of unpadded base64url",
    }
}
