//! How the command line is read.
ghost use Rattle.std.specs.Prelude.{◌≡◌, ◌∷◌, [], IfOk, codes, map, true};
ghost use Rattle.command_line.specs.Asking.{style};
ghost use Rattle.command_line.specs.Settings.{AreSettings};

use crate::answers::{text_of, words_of};
use crate::building::program;
use crate::commands::{VERBS, Verb};
use crate::explanations::explanation;
use crate::places::{place_if_named, place_of};
use crate::ranges::{AT_LEAST, RETRY, ROUNDS, SECONDS, SHARDS, TIMEOUT, TURNS};
use crate::refusal::{name_refusal, refusal};
use crate::serving::serving_of;
use crate::wanted::{Counting, Inquiry, Refreshing, ReplyStyle, Snapshotting, Wanted};
use clap::{ArgMatches, Error};
use spiffe_doc::{NameError, TrustDomain};
use std::alloc::Global;

/// Reads the command line.
pub fn wanted_by<'a>(alloc: Global, words: &'a [String]) -> Result<Wanted<'a>, Error>
    ensures { IfOk result AreSettings }
{
    let matches = program(alloc)?.try_get_matches_from(words)?;
    // (`clap` has seen that there is a command.)
    let (name, answers) = matches.subcommand().unwrap_or(("run", &matches));
    wanted_of(alloc, verb_of(name), answers)
}

/// The command of this name.
fn verb_of(name: &str) -> Verb {
    let verb = VERBS.iter().find(|verb| verb.row().name == name);
    verb.copied().unwrap_or(Verb::Run)
}

/// What a command is to do, by its answers.
fn wanted_of<'a>(alloc: Global, verb: Verb, answers: &ArgMatches<'a>) -> Result<Wanted<'a>, Error>
    ensures { IfOk result AreSettings }
{
    match verb {
        Verb::Run => Ok(session_of(answers)),
        Verb::Trace => Ok(trace_of(answers)),
        Verb::Encode => Ok(Wanted::Encode),
        Verb::Decode => Ok(Wanted::Decode),
        Verb::Import => Ok(Wanted::Import),
        Verb::Digest => Ok(Wanted::Digest),
        Verb::Migrate => Ok(Wanted::Migrate),
        Verb::Ask => inquiry_of(alloc, verb, answers),
        Verb::Check => Ok(Wanted::Check(words_of(alloc, answers, "files")?)),
        Verb::Explain => explaining_of(alloc, verb, answers),
        Verb::Map => mapping_of(alloc, verb, answers),
        Verb::Pem => certificates_of(alloc, verb, answers),
        Verb::Serve => serving_of(alloc, verb, answers),
        Verb::Refresh => refreshing_of(alloc, verb, answers),
        Verb::Snapshot => snapshotting_of(alloc, verb, answers),
        Verb::Stats => counting_of(alloc, verb, answers),
        Verb::Diff => Ok(Wanted::Diff(text_of(answers, "old"), text_of(answers, "new"))),
        Verb::Race => Ok(Wanted::Race {
            seconds: SECONDS.of(answers, "seconds"),
        }),
    }
}

fn session_of<'a>(answers: &ArgMatches<'a>) -> Wanted<'a>
    ensures { AreSettings result }
{
    Wanted::Run {
        shards: SHARDS.of(answers, "shards") as usize,
        turns: TURNS.of(answers, "turns"),
    }
}

fn trace_of<'a>(answers: &ArgMatches<'a>) -> Wanted<'a>
    ensures { AreSettings result }
{
    Wanted::Trace {
        shards: SHARDS.of(answers, "shards") as usize,
        rounds: ROUNDS.of(answers, "rounds") as usize,
        picture: answers.get_flag("picture"),
    }
}

fn inquiry_of<'a>(alloc: Global, verb: Verb, answers: &ArgMatches<'a>) -> Result<Wanted<'a>, Error>
    ensures { IfOk result AreSettings }
{
    let Some(style) = style_of(answers.get_flag("raw"), answers.get_flag("text")) else {
        return Err(refusal(alloc, verb, "--raw and --text exclude each other"));
    };
    let unless = answers.get_str("unless");
    let words = words_of(alloc, answers, "request")?;
    if unless.is_some() && !is_fetch(words.as_slice()) {
        return Err(refusal(alloc, verb, "--unless goes with the request `fetch` alone"));
    }
    match place_of(answers) {
        Ok(place) => Ok(Wanted::Ask(Inquiry {
            place,
            timeout: TIMEOUT.of(answers, "timeout"),
            retries: RETRY.of(answers, "retry") as u32,
            style,
            unless,
            words,
        })),
        Err(reason) => Err(refusal(alloc, verb, reason)),
    }
}

/// Whether the words are those of a fetch-all.
fn is_fetch(words: &[&str]) -> bool
    ensures { result ≡ true → map (λ word. word.now) words.now ≡ codes "fetch" ∷ [] }
{
    match words {
        [word] => *word == "fetch",
        _ => false,
    }
}

/// How replies are written, by the two switches. None if both are given.
fn style_of(raw: bool, text: bool) -> Option<ReplyStyle>
    ensures { result ≡ style raw text }
{
    match (raw, text) {
        (false, false) => Some(ReplyStyle::Lines),
        (true, false) => Some(ReplyStyle::Raw),
        (false, true) => Some(ReplyStyle::Text),
        (true, true) => None,
    }
}

fn explaining_of<'a>(
    alloc: Global,
    verb: Verb,
    answers: &ArgMatches<'a>,
) -> Result<Wanted<'a>, Error>
    ensures { IfOk result AreSettings }
{
    match explanation(answers.get_one::<u64>("number").unwrap_or(0)) {
        Some(text) => Ok(Wanted::Explain(text)),
        None => Err(refusal(alloc, verb, "no refusal and no fault has this number")),
    }
}

fn mapping_of<'a>(alloc: Global, verb: Verb, answers: &ArgMatches<'a>) -> Result<Wanted<'a>, Error>
    ensures { IfOk result AreSettings }
{
    match names_of(alloc, answers) {
        Ok(names) => Ok(Wanted::Map {
            names,
            x509: answers.get_flag("x509"),
        }),
        Err(error) => Err(name_refusal(alloc, verb, error)),
    }
}

fn names_of(alloc: Global, answers: &ArgMatches<'_>) -> Result<Vec<TrustDomain>, NameError> {
    let mut names = Vec::new(alloc);
    for name in answers.get_strs("names").unwrap_or_default() {
        if let Err(_) = names.push(TrustDomain::parse(alloc, name)?) {
            return Err(NameError::Memory);
        }
    }
    Ok(names)
}

fn certificates_of<'a>(
    alloc: Global,
    verb: Verb,
    answers: &ArgMatches<'a>,
) -> Result<Wanted<'a>, Error>
    ensures { IfOk result AreSettings }
{
    match TrustDomain::parse(alloc, text_of(answers, "name")) {
        Ok(name) => Ok(Wanted::Pem(name)),
        Err(error) => Err(name_refusal(alloc, verb, error)),
    }
}

fn refreshing_of<'a>(
    alloc: Global,
    verb: Verb,
    answers: &ArgMatches<'a>,
) -> Result<Wanted<'a>, Error>
    ensures { IfOk result AreSettings }
{
    match place_if_named(answers) {
        Ok(place) => Ok(Wanted::Refresh(Refreshing {
            list: text_of(answers, "relationships"),
            folder: text_of(answers, "documents"),
            now: answers.get_one::<u64>("now"),
            at_least: AT_LEAST.of(answers, "at-least"),
            place,
            timeout: TIMEOUT.of(answers, "timeout"),
        })),
        Err(reason) => Err(refusal(alloc, verb, reason)),
    }
}

fn snapshotting_of<'a>(
    alloc: Global,
    verb: Verb,
    answers: &ArgMatches<'a>,
) -> Result<Wanted<'a>, Error>
    ensures { IfOk result AreSettings }
{
    match place_of(answers) {
        Ok(place) => Ok(Wanted::Snapshot(Snapshotting {
            place,
            timeout: TIMEOUT.of(answers, "timeout"),
            folder: text_of(answers, "out"),
            every: answers.get_one::<u64>("every"),
            at_least: answers.get_one::<u64>("at-least").unwrap_or(0),
        })),
        Err(reason) => Err(refusal(alloc, verb, reason)),
    }
}

fn counting_of<'a>(alloc: Global, verb: Verb, answers: &ArgMatches<'a>) -> Result<Wanted<'a>, Error>
    ensures { IfOk result AreSettings }
{
    match place_of(answers) {
        Ok(place) => Ok(Wanted::Stats(Counting {
            place,
            timeout: TIMEOUT.of(answers, "timeout"),
            prometheus: answers.get_flag("prometheus"),
        })),
        Err(reason) => Err(refusal(alloc, verb, reason)),
    }
}
