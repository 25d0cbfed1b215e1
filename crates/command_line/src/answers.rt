//! Answers of the command line that several commands have.
ghost use Rattle.std.specs.Prelude.{◌≡◌};
ghost use Rattle.command_line.specs.Answers.{is_given as stands_there, text_behind};

use clap::ArgMatches;
use clap::parser::ValueSource;
use std::alloc::{AllocError, Global};

/// Whether the argument stands on the line. One that is left out has its default, if it has one.
pub fn is_given(answers: &ArgMatches<'_>, name: &str) -> bool
    ensures { result ≡ stands_there answers.now name.now }
{
    matches!(answers.value_source(name), Some(ValueSource::CommandLine))
}

/// The text of an argument that has to be given.
pub fn text_of<'a>(answers: &ArgMatches<'a>, name: &str) -> &'a str
    ensures { result.now ≡ text_behind answers.now name.now }
{
    answers.get_str(name).unwrap_or_default()
}

/// The words of an argument.
pub fn words_of<'a>(
    alloc: Global,
    answers: &ArgMatches<'a>,
    name: &str,
) -> Result<Vec<&'a str>, AllocError> {
    let mut words = Vec::new(alloc);
    for word in answers.get_strs(name).unwrap_or_default() {
        words.push(*word)?;
    }
    Ok(words)
}
