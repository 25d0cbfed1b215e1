//! An argument of a command, as data.
use crate::ranges::Number;
use clap::builder::ValueParser;

/// An argument: its name, by which it is read, its kind, and what help says of it.
#[derive(Clone, Copy)]
pub struct Argument {
    pub name: &'static str,
    pub kind: Kind,
    pub help: &'static str,
}

/// What an argument takes, with what help calls its value.
#[derive(Clone, Copy)]
pub enum Kind {
    /// `--name`, which is there or not.
    Switch,
    /// `--name VALUE`: a number within a range, with a default.
    Number(&'static str, Number),
    /// `--name VALUE`: such a number, which may be left out; its default is then up to other answers.
    OptionalNumber(&'static str, Number),
    /// `--name VALUE`: such a number, or a word in its place. So any text is taken, and judged as it is read.
    NumberOrWord(&'static str, Number),
    /// `--name` or `--name VALUE`, which may be left out: one of these words, of which the first is meant if none stands there.
    Choice(&'static str, &'static [&'static str]),
    /// `--name VALUE`, which may be left out.
    Optional(&'static str, ValueParser<'static>),
    /// `--name VALUE`, which has to be given.
    Required(&'static str, ValueParser<'static>),
    /// A word by its place, which has to be given.
    Word(&'static str, ValueParser<'static>),
    /// Words, of which none need be given.
    Words(&'static str),
}
