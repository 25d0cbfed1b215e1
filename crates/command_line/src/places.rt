//! Where a server listens, as the command line says it.
ghost use Rattle.std.specs.Prelude.{◌≡◌, IfOk, IfErr, Some, true};
ghost use Rattle.command_line.specs.Answers.{is_given as stands_there};
ghost use Rattle.command_line.specs.Places.{Names, NamesPlace, NamesPlaces};

use crate::answers::{is_given, text_of};
use crate::wanted::{Place, Places};
use clap::ArgMatches;

const BOTH: &str = "--port and --socket exclude each other";

const NEITHER: &str = "--port PORT or --socket PATH has to be given";

const BOTH_FOR_READS: &str = "--read-port and --read-socket exclude each other";

/// Two options stand on the line that exclude each other.
#[derive(Clone, Copy)]
struct BothGiven;

/// The place that one of two options names, if one of them stands on the line.
fn named<'a>(
    answers: &ArgMatches<'a>,
    port: &str,
    socket: &str,
) -> Result<Option<Place<'a>>, BothGiven>
    ensures names { IfOk result (Names answers.now port.now socket.now) }
    ensures both { IfErr result (λ _. (stands_there answers.now port.now ≡ true) × (stands_there answers.now socket.now ≡ true)) }
{
    match (is_given(answers, port), is_given(answers, socket)) {
        (true, true) => Err(BothGiven),
        (true, false) => Ok(Some(Place::Port(answers.get_one::<u16>(port).unwrap_or(0)))),
        (false, true) => Ok(Some(Place::Socket(text_of(answers, socket)))),
        (false, false) => Ok(None),
    }
}

/// Where the server listens that a command asks, if the line says so; or why the answers are refused.
pub fn place_if_named<'a>(answers: &ArgMatches<'a>) -> Result<Option<Place<'a>>, &'static str>
    ensures { IfOk result (NamesPlace answers.now) }
{
    match named(answers, "port", "socket") {
        Ok(place) => Ok(place),
        Err(BothGiven) => Err(BOTH),
    }
}

/// Where the server listens; or why the answers are refused.
pub fn place_of<'a>(answers: &ArgMatches<'a>) -> Result<Place<'a>, &'static str>
    ensures { IfOk result (λ place. NamesPlace answers.now (Some place)) }
{
    match place_if_named(answers)? {
        Some(place) => Ok(place),
        None => Err(NEITHER),
    }
}

/// Where a server is to listen; or why the answers are refused.
pub fn places_of<'a>(answers: &ArgMatches<'a>) -> Result<Places<'a>, &'static str>
    ensures { IfOk result (NamesPlaces answers.now) }
{
    let all = place_of(answers)?;
    match named(answers, "read-port", "read-socket") {
        Ok(reads) => Ok(Places { all, reads }),
        Err(BothGiven) => Err(BOTH_FOR_READS),
    }
}
