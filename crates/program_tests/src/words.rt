//! Command lines: which command they want, with which settings.
use command_line::{Connections, LogScope, Place, Places, ReplyStyle, Settings, Wanted, wanted_by};
use spiffe_doc::TrustDomain;
use std::alloc::{AllocError, Global};
use std::process::Abort;

/// The words of a command line after the name of the program, and what they want: the name of the command, its texts and its
/// numbers, with `|` between. A switch is 0 or 1, and `-` stands for what is left out.
type Line = (&'static str, &'static str);

/// What is wanted, as a row has it.
fn told(
    alloc: Global,
    name: &str,
    texts: &[&str],
    numbers: &[Option<u64>],
) -> Result<String, AllocError> {
    let mut told = String::from_str(alloc, name)?;
    for text in texts {
        told.push_str("|")?;
        told.push_str(text)?;
    }
    for number in numbers {
        match number {
            Some(number) => write!(told, "|{number}")?,
            None => told.push_str("|-")?,
        }
    }
    Ok(told)
}

/// A place as a row has it: the number of a port, or a path.
fn told_place(alloc: Global, place: Option<Place<'_>>) -> Result<String, AllocError> {
    match place {
        Some(Place::Port(number)) => format!(in alloc; "{number}"),
        Some(Place::Socket(path)) => String::from_str(alloc, path),
        None => String::from_str(alloc, "-"),
    }
}

/// What is asked at a place: words, the place, and numbers.
fn told_at(
    alloc: Global,
    name: &str,
    words: &[&str],
    place: Place<'_>,
    numbers: &[Option<u64>],
) -> Result<String, AllocError> {
    let place = told_place(alloc, Some(place))?;
    let mut texts = Vec::new(alloc);
    texts.extend_from_slice(words)?;
    texts.push(place.as_str())?;
    told(alloc, name, texts.as_slice(), numbers)
}

fn told_map(alloc: Global, names: &[TrustDomain], x509: bool) -> Result<String, AllocError> {
    let mut texts = Vec::new(alloc);
    for name in names {
        texts.push(name.as_str())?;
    }
    told(alloc, "map", texts.as_slice(), &[Some(u64::from(x509))])
}

/// Those of a server begin with what its log tells and whether the line says which connections are served, and end with its form: how many connections each worker takes, or the numbers of one that lasts.
fn told_server(
    alloc: Global,
    places: &Places<'_>,
    files: [Option<&str>; 2],
    first: [u64; 2],
    settings: &Settings,
) -> Result<String, AllocError> {
    let [log, says_connections] = first;
    let numbers = [
        log,
        says_connections,
        settings.workers,
        settings.turns,
        settings.shards as u64,
        settings.rounds,
        settings.tries,
        settings.retries,
    ];
    let mut all = Vec::new(alloc);
    for number in numbers {
        all.push(Some(number))?;
    }
    push_form(&mut all, settings.connections)?;
    let form = form_of(settings.connections);
    let (place, reads) = (
        told_place(alloc, Some(places.all))?,
        told_place(alloc, places.reads)?,
    );
    let [load, save] = files.map(|file| file.unwrap_or("-"));
    let texts = [load, save, place.as_str(), reads.as_str()];
    told(alloc, form, &texts, all.as_slice())
}

fn form_of(connections: Connections) -> &'static str {
    match connections {
        Connections::Each(_) => "serve each",
        Connections::Unlimited(_) => "serve unlimited",
    }
}

fn push_form(numbers: &mut Vec<Option<u64>>, connections: Connections) -> Result<(), AllocError> {
    match connections {
        Connections::Each(count) => numbers.push(Some(count))?,
        Connections::Unlimited(lasting) => {
            numbers.push(Some(lasting.most_open))?;
            numbers.push(Some(u64::from(lasting.until_eof)))?;
            numbers.push(Some(lasting.idle))?;
            numbers.push(Some(lasting.reply_seconds))?;
            numbers.push(Some(lasting.moments))?;
        }
    }
    Ok(())
}

fn number_of_scope(scope: LogScope) -> u64 {
    match scope {
        LogScope::Nothing => 0,
        LogScope::Changes => 1,
        LogScope::All => 2,
    }
}

fn number_of_style(style: ReplyStyle) -> u64 {
    match style {
        ReplyStyle::Lines => 0,
        ReplyStyle::Raw => 1,
        ReplyStyle::Text => 2,
    }
}

fn told_wanted(alloc: Global, wanted: &Wanted<'_>) -> Result<String, AllocError> {
    match wanted {
        Wanted::Encode => told(alloc, "encode", &[], &[]),
        Wanted::Decode => told(alloc, "decode", &[], &[]),
        Wanted::Import => told(alloc, "import", &[], &[]),
        Wanted::Digest => told(alloc, "digest", &[], &[]),
        Wanted::Migrate => told(alloc, "migrate", &[], &[]),
        Wanted::Explain(text) => told(alloc, "explain", &[text], &[]),
        Wanted::Check(files) => told(alloc, "check", files.as_slice(), &[]),
        Wanted::Pem(name) => told(alloc, "pem", &[name.as_str()], &[]),
        Wanted::Diff(old, new) => told(alloc, "diff", &[old, new], &[]),
        Wanted::Map { names, x509 } => told_map(alloc, names.as_slice(), *x509),
        Wanted::Race { seconds } => told(alloc, "race", &[], &[Some(*seconds)]),
        Wanted::Run { shards, turns } => {
            told(alloc, "run", &[], &[Some(*shards as u64), Some(*turns)])
        }
        Wanted::Trace {
            shards,
            rounds,
            picture,
        } => {
            let (shards, rounds, picture) = (*shards as u64, *rounds as u64, u64::from(*picture));
            told(
                alloc,
                "trace",
                &[],
                &[Some(shards), Some(rounds), Some(picture)],
            )
        }
        Wanted::Ask(it) => {
            let (retries, style) = (u64::from(it.retries), number_of_style(it.style));
            let numbers = [Some(retries), Some(style), Some(it.timeout)];
            match it.unless {
                Some(dump) => told_at(alloc, "ask unless", &[dump], it.place, &numbers),
                None => told_at(alloc, "ask", it.words.as_slice(), it.place, &numbers),
            }
        }
        Wanted::Refresh(it) => {
            let place = told_place(alloc, it.place)?;
            let texts = [it.list, it.folder, place.as_str()];
            told(
                alloc,
                "refresh",
                &texts,
                &[it.now, Some(it.at_least), Some(it.timeout)],
            )
        }
        Wanted::Snapshot(it) => {
            let numbers = [it.every, Some(it.at_least), Some(it.timeout)];
            told_at(alloc, "snapshot", &[it.folder], it.place, &numbers)
        }
        Wanted::Stats(it) => {
            told_at(
                alloc,
                "stats",
                &[],
                it.place,
                &[Some(u64::from(it.prometheus)), Some(it.timeout)],
            )
        }
        Wanted::Serve {
            places,
            load,
            save,
            log,
            says_connections,
            settings,
        } => {
            let first = [number_of_scope(*log), u64::from(*says_connections)];
            told_server(alloc, places, [*load, *save], first, settings)
        }
    }
}

/// What these words want, or the text that is shown in its place.
fn told_by(alloc: Global, words: &[String]) -> Result<String, AllocError> {
    match wanted_by(alloc, words) {
        Ok(wanted) => told_wanted(alloc, &wanted),
        Err(error) => format!(in alloc; "{error}"),
    }
}

/// The words of a line.
fn words_of(alloc: Global, line: &str, between: char) -> Result<Vec<String>, AllocError> {
    let mut words = Vec::new(alloc);
    words.push(String::from_str(alloc, "bundled")?)?;
    for word in line.split(between) {
        words.push(String::from_str(alloc, word)?)?;
    }
    Ok(words)
}

/// Each line, its words with this character between, wants what its text says.
fn are_wanted(
    rt: &impl Abort,
    alloc: Global,
    lines: &[Line],
    between: char,
) -> Result<(), AllocError> {
    for &(line, text) in lines {
        let words = words_of(alloc, line, between)?;
        let found = told_by(alloc, words.as_slice())?;
        assert!(rt; found.as_str() == text, "{line}: {found}");
    }
    Ok(())
}

/// Commands over lines and dumps.
static OVER_LINES_AND_DUMPS: [Line; 14] = [
    ("encode", "encode"),
    ("decode", "decode"),
    (
        "explain 72",
        "explain|72 NoClock\nThe clock of the machine cannot be read.\nWhat to do: Give the time with --now.\n",
    ),
    ("check", "check"),
    ("check a.json b.json", "check|a.json|b.json"),
    ("map", "map|0"),
    ("map b a b", "map|b|a|b|0"),
    ("map a --x509", "map|a|1"),
    ("map --x509 -- -x", "map|-x|1"),
    ("import", "import"),
    ("pem a.example", "pem|a.example"),
    ("diff old -", "diff|old|-"),
    ("digest", "digest"),
    (
        "explain 6",
        "error: no refusal and no fault has this number\n\nUsage: explain <NUMBER>\n\nFor more information, try '--help'.\n",
    ),
];

#[test]
fn reads_the_commands_over_lines_and_dumps(rt: HostRuntime) -> Result<(), AllocError> {
    are_wanted(&rt, rt.alloc(), &OVER_LINES_AND_DUMPS, ' ')
}

/// The numbers that a line gives or leaves to their defaults, of which no reply tells.
static NUMBERS: [Line; 14] = [
    ("run", "run|4|1000000"),
    ("run --turns 7", "run|4|7"),
    ("run --turns=1000000000", "run|4|1000000000"),
    ("run --shards 256", "run|256|1000000"),
    (
        "refresh --relationships l --documents f",
        "refresh|l|f|-|-|60|30",
    ),
    (
        "refresh --documents=f/g --relationships=-l --now=18446744073709551615 --at-least=0 --port=65535",
        "refresh|-l|f/g|65535|18446744073709551615|0|30",
    ),
    ("trace", "trace|4|3|0"),
    ("trace --shards=1 --rounds=16", "trace|1|16|0"),
    ("trace --picture", "trace|4|3|1"),
    ("race", "race|5"),
    ("race --seconds=60", "race|60"),
    ("migrate", "migrate"),
    ("--version", "bundled 1.2.0-dev\n"),
    (
        "run --turns 0",
        "error: invalid value '0' for '--turns <READS>': 0 is not in 1..=1000000000\n\nFor more information, try '--help'.\n",
    ),
];

#[test]
fn reads_the_command_line(rt: HostRuntime) -> Result<(), AllocError> {
    are_wanted(&rt, rt.alloc(), &NUMBERS, ' ')
}

const NO_COUNT: &str =
    "error: --connections takes a number in 1..=1000, or `unlimited`\n\nUsage: serve [OPTIONS]\n\nFor more information, try '--help'.\n";

const OTHER_FORM: &str =
    "error: --max-open, --read-port, --read-socket, --until-eof, --idle, --reply-seconds and --moments belong to --connections unlimited: with a number of connections each worker serves one client after the other\n\nUsage: serve [OPTIONS]\n\nFor more information, try '--help'.\n";

/// Where a server listens: at a port or at a Unix socket, and the same for reads.
static PLACES: [Line; 15] = [
    (
        "serve --socket run/a",
        "serve each|-|-|run/a|-|0|0|2|1000000|4|3|1000|1000|1",
    ),
    (
        "serve --socket=run/a --read-socket=-b --connections unlimited",
        "serve unlimited|-|-|run/a|-b|0|1|2|18446744073709551615|4|3|1000|1000|1000|0|60|60|64",
    ),
    (
        "serve --port=0 --read-socket b --connections unlimited",
        "serve unlimited|-|-|0|b|0|1|2|18446744073709551615|4|3|1000|1000|1000|0|60|60|64",
    ),
    (
        "serve --socket a --read-port 0 --connections unlimited",
        "serve unlimited|-|-|a|0|0|1|2|18446744073709551615|4|3|1000|1000|1000|0|60|60|64",
    ),
    ("ask --socket a fetch", "ask|fetch|a|100|0|30"),
    ("snapshot --socket a --out b", "snapshot|b|a|-|0|30"),
    (
        "refresh --relationships=l --documents=f --socket=a",
        "refresh|l|f|a|-|60|30",
    ),
    (
        "serve",
        "error: --port PORT or --socket PATH has to be given\n\nUsage: serve [OPTIONS]\n\nFor more information, try '--help'.\n",
    ),
    (
        "serve --port 1 --socket a",
        "error: --port and --socket exclude each other\n\nUsage: serve [OPTIONS]\n\nFor more information, try '--help'.\n",
    ),
    (
        "serve --port 1 --read-port 1 --read-socket a --connections unlimited",
        "error: --read-port and --read-socket exclude each other\n\nUsage: serve [OPTIONS]\n\nFor more information, try '--help'.\n",
    ),
    ("serve --port 1 --read-socket a", OTHER_FORM),
    (
        "ask fetch",
        "error: --port PORT or --socket PATH has to be given\n\nUsage: ask [OPTIONS] [REQUEST]...\n\nFor more information, try '--help'.\n",
    ),
    (
        "snapshot --port 1 --socket a --out b",
        "error: --port and --socket exclude each other\n\nUsage: snapshot [OPTIONS] --out <FOLDER>\n\nFor more information, try '--help'.\n",
    ),
    (
        "refresh --relationships l --documents f --port 1 --socket a",
        "error: --port and --socket exclude each other\n\nUsage: refresh [OPTIONS] --relationships <FILE> --documents <FOLDER>\n\nFor more information, try '--help'.\n",
    ),
    (
        "serve --socket=",
        "error: a value is required for '--socket <PATH>' but none was supplied\n\nFor more information, try '--help'.\n",
    ),
];

#[test]
fn reads_where_a_server_listens(rt: HostRuntime) -> Result<(), AllocError> {
    are_wanted(&rt, rt.alloc(), &PLACES, ' ')
}

/// The two forms of a server. What belongs to the one that lasts is refused in the other, also if it is the default.
static SERVERS: [Line; 20] = [
    (
        "serve --port 0",
        "serve each|-|-|0|-|0|0|2|1000000|4|3|1000|1000|1",
    ),
    (
        "serve --port=65535 --workers=64 --connections=1000 --turns=1000000000 --shards=256 --rounds=16 --tries=1000000 --retries=1000000 --load=dumps/a --log",
        "serve each|dumps/a|-|65535|-|2|1|64|1000000000|256|16|1000000|1000000|1000",
    ),
    (
        "serve --port 1 --turns 1",
        "serve each|-|-|1|-|0|0|2|1|4|3|1000|1000|1",
    ),
    (
        "serve --port=1 --connections=unlimited",
        "serve unlimited|-|-|1|-|0|1|2|18446744073709551615|4|3|1000|1000|1000|0|60|60|64",
    ),
    (
        "serve --port=1 --connections unlimited --max-open=1000000 --read-port=8444 --until-eof --idle=86400 --reply-seconds=1 --moments=1000 --turns=1000000 --log --load=a",
        "serve unlimited|a|-|1|8444|2|1|2|1000000|4|3|1000|1000|1000000|1|86400|1|1000",
    ),
    (
        "serve --port=1 --connections unlimited --max-open=1 --read-port=0 --idle=1 --save=dumps/b",
        "serve unlimited|-|dumps/b|1|0|0|1|2|18446744073709551615|4|3|1000|1000|1|0|1|60|64",
    ),
    (
        "serve --port 1 --log changes --workers 1",
        "serve each|-|-|1|-|1|0|1|1000000|4|3|1000|1000|1",
    ),
    (
        "serve --port 1 --log=all --connections 1",
        "serve each|-|-|1|-|2|1|2|1000000|4|3|1000|1000|1",
    ),
    (
        "serve --port 1 --log some",
        "error: invalid value 'some' for '--log [<WHAT>]'\n  [possible values: all, changes]\n\nFor more information, try '--help'.\n",
    ),
    ("serve --port 1 --connections 0", NO_COUNT),
    ("serve --port 1 --connections 1001", NO_COUNT),
    ("serve --port 1 --connections many", NO_COUNT),
    ("serve --port 1 --connections 0 --idle 1", NO_COUNT),
    ("serve --port 1 --max-open 1000", OTHER_FORM),
    ("serve --port 1 --read-port 0", OTHER_FORM),
    ("serve --port 1 --until-eof", OTHER_FORM),
    ("serve --port 1 --connections 1000 --idle 60", OTHER_FORM),
    (
        "serve --port 1 --workers 65",
        "error: invalid value '65' for '--workers <COUNT>': 65 is not in 1..=64\n\nFor more information, try '--help'.\n",
    ),
    (
        "serve --port 1 --turns 0",
        "error: invalid value '0' for '--turns <READS>': 0 is not in 1..=1000000000\n\nFor more information, try '--help'.\n",
    ),
    (
        "serve --port 1 --connections unlimited --turns 1000000001",
        "error: invalid value '1000000001' for '--turns <READS>': 1000000001 is not in 1..=1000000000\n\nFor more information, try '--help'.\n",
    ),
];

#[test]
fn reads_both_forms_of_a_server(rt: HostRuntime) -> Result<(), AllocError> {
    are_wanted(&rt, rt.alloc(), &SERVERS, ' ')
}

/// Which counts are wanted.
static COUNTS: [Line; 4] = [
    ("stats --port 1", "stats|1|0|30"),
    ("stats --prometheus --port=65535", "stats|65535|1|30"),
    ("stats --socket a/b", "stats|a/b|0|30"),
    (
        "stats --port 1 --prometheus=1",
        "error: unexpected value '1' for '--prometheus' found; no more were expected\n\nUsage: bundled stats --prometheus\n\nFor more information, try '--help'.\n",
    ),
];

#[test]
fn reads_which_counts_are_wanted(rt: HostRuntime) -> Result<(), AllocError> {
    are_wanted(&rt, rt.alloc(), &COUNTS, ' ')
}

/// Which snapshots are wanted.
static SNAPSHOTS: [Line; 7] = [
    ("snapshot --port 1 --out a/b", "snapshot|a/b|1|-|0|30"),
    (
        "snapshot --port=65535 --every=86400 --timeout=1 --out=-",
        "snapshot|-|65535|86400|0|1",
    ),
    (
        "snapshot --port=1 --out=a --at-least=18446744073709551615",
        "snapshot|a|1|-|18446744073709551615|30",
    ),
    (
        "snapshot --port=1 --out=a --at-least=0",
        "error: invalid value '0' for '--at-least <DOMAINS>': 0 is not in 1..18446744073709551615\n\nFor more information, try '--help'.\n",
    ),
    (
        "snapshot --port=0 --out=a",
        "error: invalid value '0' for '--port <PORT>': 0 is not in 1..=65535\n\nFor more information, try '--help'.\n",
    ),
    (
        "snapshot --port=-1 --out=a",
        "error: invalid value '-1' for '--port <PORT>': -1 is not in 1..=65535\n\nFor more information, try '--help'.\n",
    ),
    (
        "snapshot --port=1 --out=a --every=0",
        "error: invalid value '0' for '--every <SECONDS>': 0 is not in 1..=86400\n\nFor more information, try '--help'.\n",
    ),
];

#[test]
fn reads_which_snapshots_are_wanted(rt: HostRuntime) -> Result<(), AllocError> {
    are_wanted(&rt, rt.alloc(), &SNAPSHOTS, ' ')
}

/// What is asked of a server. The words have `|` between, since a document may have spaces.
static INQUIRIES: [Line; 12] = [
    ("ask|--port|1", "ask|1|100|0|30"),
    ("ask|--port=65535|--retry=0|get|a", "ask|get|a|65535|0|0|30"),
    ("ask|--port=1|--raw|fetch", "ask|fetch|1|100|1|30"),
    ("ask|--text|--port=1|get|a", "ask|get|a|1|100|2|30"),
    (
        "ask|--port=1|--text|--raw|get|a",
        "error: --raw and --text exclude each other\n\nUsage: ask [OPTIONS] [REQUEST]...\n\nFor more information, try '--help'.\n",
    ),
    (
        "ask|--port=1|--unless=all.dump|fetch",
        "ask unless|all.dump|1|100|0|30",
    ),
    (
        "ask|--port=1|--unless=all.dump|get|a",
        "error: --unless goes with the request `fetch` alone\n\nUsage: ask [OPTIONS] [REQUEST]...\n\nFor more information, try '--help'.\n",
    ),
    (
        "ask|--port=1|--unless=all.dump",
        "error: --unless goes with the request `fetch` alone\n\nUsage: ask [OPTIONS] [REQUEST]...\n\nFor more information, try '--help'.\n",
    ),
    (
        "ask|--port=1|set|a|{\"keys\": []}",
        "ask|set|a|{\"keys\": []}|1|100|0|30",
    ),
    (
        "ask|--port=0|fetch",
        "error: invalid value '0' for '--port <PORT>': 0 is not in 1..=65535\n\nFor more information, try '--help'.\n",
    ),
    (
        "ask|--port=1|--timeout=86401",
        "error: invalid value '86401' for '--timeout <SECONDS>': 86401 is not in 1..=86400\n\nFor more information, try '--help'.\n",
    ),
    (
        "ask|--port=1|--retry=1000001",
        "error: invalid value '1000001' for '--retry <COUNT>': 1000001 is not in 0..=1000000\n\nFor more information, try '--help'.\n",
    ),
];

#[test]
fn reads_what_is_asked(rt: HostRuntime) -> Result<(), AllocError> {
    are_wanted(&rt, rt.alloc(), &INQUIRIES, '|')
}
