//! How the settings of a server are read.
ghost use Rattle.std.specs.Prelude.{◌≡◌, ◌<◌, ◌≤◌, IfOk, IfSome};
ghost use Rattle.std.specs.List.{list_any};
ghost use Rattle.command_line.specs.Answers.{is_given as stands_there};
ghost use Rattle.command_line.specs.Serving.{AreConnections, FitsForm, IsLimit, lasting_options};
ghost use Rattle.command_line.specs.Settings.{AreSettings};

use crate::answers::is_given;
use crate::commands::Verb;
use crate::places::places_of;
use crate::ranges;
use crate::refusal::refusal;
use crate::settings::{Connections, Lasting, Settings};
use crate::wanted::{LogScope, Wanted};
use clap::{ArgMatches, Error};
use std::alloc::Global;

const NO_COUNT: &str = "--connections takes a number in 1..=1000, or `unlimited`";

const OTHER_FORM: &str =
    "--max-open, --read-port, --read-socket, --until-eof, --idle, --reply-seconds and --moments belong \
to --connections unlimited: with a number of connections each worker serves one client after the other";

/// A server, by the answers of `serve`.
pub fn serving_of<'a>(
    alloc: Global,
    verb: Verb,
    answers: &ArgMatches<'a>,
) -> Result<Wanted<'a>, Error>
    ensures { IfOk result AreSettings }
{
    match server_of(answers) {
        Ok(server) => Ok(server),
        Err(reason) => Err(refusal(alloc, verb, reason)),
    }
}

/// The same; or why the answers are refused.
fn server_of<'a>(answers: &ArgMatches<'a>) -> Result<Wanted<'a>, &'static str>
    ensures { IfOk result AreSettings }
{
    let connections = connections_of(answers)?;
    let places = places_of(answers)?;
    Ok(Wanted::Serve {
        places,
        load: answers.get_str("load"),
        save: answers.get_str("save"),
        log: scope_of(answers.get_str("log")),
        says_connections: is_given(answers, "connections"),
        settings: settings_of(answers, connections),
    })
}

/// What the log tells, by the word of its option, if that stands on the line.
fn scope_of(word: Option<&str>) -> LogScope {
    match word {
        None => LogScope::Nothing,
        Some("changes") => LogScope::Changes,
        Some(_) => LogScope::All,
    }
}

/// Which connections each worker takes; or why the answers are refused.
fn connections_of(answers: &ArgMatches<'_>) -> Result<Connections, &'static str>
    ensures range { IfOk result AreConnections }
    ensures fits { IfOk result (FitsForm answers.now) }
{
    let text = answers.get_str("connections").unwrap_or_default();
    if text == "unlimited" {
        return Ok(Connections::Unlimited(lasting_of(answers)));
    }
    let Some(count) = count_of(text) else {
        return Err(NO_COUNT);
    };
    if asks_to_last(answers) {
        return Err(OTHER_FORM);
    }
    Ok(Connections::Each(count))
}

/// The number of connections that the text is, if it is one.
fn count_of(text: &str) -> Option<u64>
    ensures { IfSome result (λ count. (0 < count) × (count ≤ 1000)) }
{
    match text.parse::<u64>() {
        Ok(count) if ranges::CONNECTIONS.has(count) => Some(count),
        _ => None,
    }
}

/// Whether an option of a server that lasts stands on the line.
fn asks_to_last(answers: &ArgMatches<'_>) -> bool
    ensures { result ≡ list_any (stands_there answers.now) lasting_options }
{
    is_given(answers, "max-open")
        || is_given(answers, "read-port")
        || is_given(answers, "read-socket")
        || is_given(answers, "until-eof")
        || is_given(answers, "idle")
        || is_given(answers, "reply-seconds")
        || is_given(answers, "moments")
}

fn lasting_of(answers: &ArgMatches<'_>) -> Lasting
    ensures { (result.most_open ≤ 1000000) × (result.idle ≤ 86400) × (result.reply_seconds ≤ 86400) × (result.moments ≤ 1000) }
{
    Lasting {
        most_open: ranges::MAX_OPEN.of(answers, "max-open"),
        until_eof: answers.get_flag("until-eof"),
        idle: ranges::IDLE.of(answers, "idle"),
        reply_seconds: ranges::REPLY_SECONDS.of(answers, "reply-seconds"),
        moments: ranges::MOMENTS.of(answers, "moments"),
    }
}

/// How many reads a session may make. A server that lasts sets no limit if none is given.
fn turns_of(answers: &ArgMatches<'_>, connections: Connections) -> u64
    ensures limit { IsLimit connections result }
    ensures some { 0 < result }
{
    match connections {
        Connections::Each(_) => ranges::TURNS.of(answers, "turns"),
        Connections::Unlimited(_) => {
            if is_given(answers, "turns") {
                ranges::TURNS.of(answers, "turns")
            } else {
                u64::MAX
            }
        }
    }
}

fn settings_of(answers: &ArgMatches<'_>, connections: Connections) -> Settings
    ensures connections { result.connections ≡ connections }
    ensures turns { IsLimit connections result.turns }
    ensures limits { (result.rounds ≤ 16) × (result.tries ≤ 1000000) × (result.retries ≤ 1000000) }
{
    Settings {
        workers: ranges::WORKERS.of(answers, "workers"),
        connections,
        turns: turns_of(answers, connections),
        shards: ranges::SHARDS.of(answers, "shards") as usize,
        rounds: ranges::ROUNDS.of(answers, "rounds"),
        tries: ranges::TRIES.of(answers, "tries"),
        retries: ranges::RETRIES.of(answers, "retries"),
    }
}
