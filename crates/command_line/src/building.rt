//! The commands and their arguments, as `clap` knows them.
use crate::argument::{Argument, Kind};
use crate::commands::{Row, VERBS};
use crate::texts::STATUSES;
use clap::builder::ValueParser;
use clap::{Arg, ArgAction, Command};
use std::alloc::{AllocError, Global};

/// The program, with all its commands.
pub fn program<'a>(alloc: Global) -> Result<Command<'a>, AllocError> {
    let mut program = Command::new(alloc, "bundled")
        .version("1.2.0-dev")
        .about("A store of the trust bundles of SPIFFE trust domains")
        .after_help(STATUSES)
        .subcommand_required(true);
    for &verb in &VERBS {
        program = program.subcommand(command_of(alloc, verb.row())?)?;
    }
    Ok(program)
}

/// The command of a row, with its arguments.
pub fn command_of<'a>(alloc: Global, row: &Row) -> Result<Command<'a>, AllocError> {
    let mut command = Command::new(alloc, row.name)
        .about(row.about)
        .after_help(row.notes);
    for argument in row.arguments {
        command = command.arg(arg_of(alloc, argument))?;
    }
    Ok(command)
}

/// The argument of a row.
fn arg_of<'a>(alloc: Global, argument: &Argument) -> Arg<'a> {
    let name = argument.name;
    let arg = Arg::new(alloc, name).help(argument.help);
    match argument.kind {
        Kind::Switch => arg.long(name).action(ArgAction::SetTrue),
        Kind::Number(value, number) => option(arg, name, value)
            .value_parser(ValueParser::Unsigned(number.least, number.most))
            .default_value(number.text),
        Kind::OptionalNumber(value, number) => option(arg, name, value).value_parser(
            ValueParser::Unsigned(number.least, number.most),
        ),
        Kind::NumberOrWord(value, number) => option(arg, name, value).default_value(number.text),
        Kind::Choice(value, words) => option(arg, name, value)
            .value_parser(ValueParser::Names(words))
            .num_args(0..=1)
            .default_missing_value(first_of(words)),
        Kind::Optional(value, parser) => option(arg, name, value).value_parser(parser),
        Kind::Required(value, parser) => option(arg, name, value)
            .value_parser(parser)
            .required(true),
        Kind::Word(value, parser) => arg.value_name(value).value_parser(parser).required(true),
        Kind::Words(value) => arg
            .value_name(value)
            .num_args(1..)
            .action(ArgAction::Append),
    }
}

/// The first of the words; there is one.
fn first_of(words: &[&'static str]) -> &'static str {
    words.first().copied().unwrap_or_default()
}

fn option<'a>(arg: Arg<'a>, name: &'static str, value: &'static str) -> Arg<'a> {
    arg.long(name).value_name(value)
}
