//! Why arguments are refused that `clap` takes.
use crate::building::command_of;
use crate::commands::Verb;
use clap::Error;
use clap::error::ErrorKind;
use spiffe_doc::NameError;
use std::alloc::{AllocError, Global};

/// The arguments of a command are refused, for this reason; or there is no memory to say so.
pub fn refusal(alloc: Global, verb: Verb, reason: &str) -> Error {
    match error_of(alloc, verb, reason) {
        Ok(error) => error,
        Err(error) => Error::from(error),
    }
}

fn error_of(alloc: Global, verb: Verb, reason: &str) -> Result<Error, AllocError> {
    command_of(alloc, verb.row())?.error(ErrorKind::ValueValidation, reason)
}

/// A name is not that of a trust domain, or there is no memory for it.
pub fn name_refusal(alloc: Global, verb: Verb, error: NameError) -> Error {
    if error == NameError::Memory {
        return Error::from(AllocError);
    }
    refusal(
        alloc,
        verb,
        "a NAME is not that of a trust domain: it has 1 to 255 lower-case letters, digits, `.`, `-` and `_`",
    )
}
