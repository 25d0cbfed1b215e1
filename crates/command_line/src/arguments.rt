//! The arguments of the commands.
use crate::argument::{Argument, Kind};
use crate::ranges;
use clap::builder::ValueParser;

const PORT: ValueParser<'static> = ValueParser::Signed(1, 65535);

const FREE_PORT: ValueParser<'static> = ValueParser::Signed(0, 65535);

pub const SHARDS: Argument = Argument {
    name: "shards",
    kind: Kind::Number("COUNT", ranges::SHARDS),
    help: "How many shards the store has",
};

pub const ROUNDS: Argument = Argument {
    name: "rounds",
    kind: Kind::Number("COUNT", ranges::ROUNDS),
    help: "How often a fetch-all reads all shards before it gives up",
};

pub const TURNS: Argument = Argument {
    name: "turns",
    kind: Kind::Number("READS", ranges::TURNS),
    help: "How many reads a session may make",
};

/// The same of `serve`, whose two forms have each a default of its own.
pub const SERVED_TURNS: Argument = Argument {
    name: "turns",
    kind: Kind::OptionalNumber("READS", ranges::TURNS),
    help: "How many reads a session may make; by default 1000000, and without limit if connections are unlimited",
};

pub const PICTURE: Argument = Argument {
    name: "picture",
    kind: Kind::Switch,
    help: "Draw the run first: a row for each caller, a column for each event",
};

pub const SECONDS: Argument = Argument {
    name: "seconds",
    kind: Kind::Number("SECONDS", ranges::SECONDS),
    help: "How long the race takes",
};

pub const NUMBER: Argument = Argument {
    name: "number",
    kind: Kind::Word("NUMBER", ValueParser::Unsigned(1, 255)),
    help: "The number of a refusal or a fault, as 31",
};

pub const ASKED_PORT: Argument = Argument {
    name: "port",
    kind: Kind::Optional("PORT", PORT),
    help: "The port of 127.0.0.1 where the server listens",
};

pub const ASKED_SOCKET: Argument = Argument {
    name: "socket",
    kind: Kind::Optional("PATH", ValueParser::NonEmptyString),
    help: "The Unix socket where the server listens, in place of a port",
};

pub const RETRY: Argument = Argument {
    name: "retry",
    kind: Kind::Number("COUNT", ranges::RETRY),
    help: "How often a request is asked again that others were in the way of",
};

pub const TIMEOUT: Argument = Argument {
    name: "timeout",
    kind: Kind::Number("SECONDS", ranges::TIMEOUT),
    help: "How long to wait for the server: to connect, and for each request with its whole reply",
};

pub const RAW: Argument = Argument {
    name: "raw",
    kind: Kind::Switch,
    help: "Write the replies as frames, so that those to a fetch are a dump",
};

pub const TEXT: Argument = Argument {
    name: "text",
    kind: Kind::Switch,
    help: "Write only the bundle of a reply to a get, and other replies as lines",
};

pub const UNLESS: Argument = Argument {
    name: "unless",
    kind: Kind::Optional("FILE", ValueParser::String),
    help: "With the request `fetch`: fetch all unless they are those of this dump; the reply is `same` if they are",
};

pub const REQUEST: Argument = Argument {
    name: "request",
    kind: Kind::Words("REQUEST"),
    help: "The words of one request; by default each line of standard input is a request",
};

pub const PROMETHEUS: Argument = Argument {
    name: "prometheus",
    kind: Kind::Switch,
    help: "Write the counts in the text format that Prometheus reads",
};

pub const RELATIONSHIPS: Argument = Argument {
    name: "relationships",
    kind: Kind::Required("FILE", ValueParser::String),
    help: "The list of relationships",
};

pub const DOCUMENTS: Argument = Argument {
    name: "documents",
    kind: Kind::Required("FOLDER", ValueParser::String),
    help: "The folder in which the document of DOMAIN is the file DOMAIN.json",
};

pub const NOW: Argument = Argument {
    name: "now",
    kind: Kind::Optional("SECONDS", ValueParser::Unsigned(0, u64::MAX)),
    help: "The time, in seconds; by default that of the clock, since 1970",
};

pub const AT_LEAST: Argument = Argument {
    name: "at-least",
    kind: Kind::Number("SECONDS", ranges::AT_LEAST),
    help: "In how many seconds, at the least, a relationship is due again",
};

pub const REFRESHED_PORT: Argument = Argument {
    name: "port",
    kind: Kind::Optional("PORT", PORT),
    help: "The port of 127.0.0.1 where the server listens; by default requests go to standard output",
};

pub const OUT: Argument = Argument {
    name: "out",
    kind: Kind::Required("FOLDER", ValueParser::String),
    help: "The folder of the snapshots, which has to be there",
};

pub const EVERY: Argument = Argument {
    name: "every",
    kind: Kind::Optional("SECONDS", ValueParser::Unsigned(1, 86400)),
    help: "Repeat, with a pause of so many seconds",
};

pub const AT_LEAST_DOMAINS: Argument = Argument {
    name: "at-least",
    kind: Kind::Optional("DOMAINS", ValueParser::Unsigned(1, u64::MAX)),
    help: "Show nothing if the server has fewer domains, as one that was started again empty",
};

pub const UNTIL_EOF: Argument = Argument {
    name: "until-eof",
    kind: Kind::Switch,
    help: "If connections are unlimited: stop at the end of standard input",
};

pub const LOG: Argument = Argument {
    name: "log",
    kind: Kind::Choice("WHAT", &["all", "changes"]),
    help: "Tell of each change, of each that 31, 36 or 56 refuses, and unless only changes are wanted, of each end of a connection on standard error",
};

pub const LISTENED_PORT: Argument = Argument {
    name: "port",
    kind: Kind::Optional("PORT", FREE_PORT),
    help: "The port of 127.0.0.1 to listen at; 0 takes one that is free",
};

pub const LISTENED_SOCKET: Argument = Argument {
    name: "socket",
    kind: Kind::Optional("PATH", ValueParser::NonEmptyString),
    help: "The Unix socket to listen at, in place of a port",
};

pub const WORKERS: Argument = Argument {
    name: "workers",
    kind: Kind::Number("COUNT", ranges::WORKERS),
    help: "How many workers serve connections, each in a thread of its own",
};

pub const READ_PORT: Argument = Argument {
    name: "read-port",
    kind: Kind::Optional("PORT", FREE_PORT),
    help: "If connections are unlimited: a second port, where clients may only read; 0 takes one that is free",
};

pub const READ_SOCKET: Argument = Argument {
    name: "read-socket",
    kind: Kind::Optional("PATH", ValueParser::NonEmptyString),
    help: "If connections are unlimited: a Unix socket where clients may only read, in place of such a port",
};

pub const CONNECTIONS: Argument = Argument {
    name: "connections",
    kind: Kind::NumberOrWord("COUNT", ranges::CONNECTIONS),
    help: "How many clients each worker serves one after the other, 1..=1000; or unlimited: many beside each other",
};

pub const MAX_OPEN: Argument = Argument {
    name: "max-open",
    kind: Kind::Number("COUNT", ranges::MAX_OPEN),
    help: "If connections are unlimited: how many may be open at once; others wait to be taken",
};

pub const IDLE: Argument = Argument {
    name: "idle",
    kind: Kind::Number("SECONDS", ranges::IDLE),
    help: "If connections are unlimited: how long a client may take to send a request, or take nothing of a reply",
};

pub const REPLY_SECONDS: Argument = Argument {
    name: "reply-seconds",
    kind: Kind::Number("SECONDS", ranges::REPLY_SECONDS),
    help: "If connections are unlimited: how long a client may take to read a long reply",
};

pub const MOMENTS: Argument = Argument {
    name: "moments",
    kind: Kind::Number("COUNT", ranges::MOMENTS),
    help: "If connections are unlimited: of how many moments each worker keeps the bundles for clients that read them",
};

pub const LOAD: Argument = Argument {
    name: "load",
    kind: Kind::Optional("FILE", ValueParser::String),
    help: "A dump with which the store is filled: the reply to a fetch-all, as migrate takes it",
};

pub const SAVE: Argument = Argument {
    name: "save",
    kind: Kind::Optional("FILE", ValueParser::String),
    help: "Keep the last map at the end: its dump is written to FILE.new, which is renamed to FILE",
};

pub const TRIES: Argument = Argument {
    name: "tries",
    kind: Kind::Number("COUNT", ranges::TRIES),
    help: "How often a call tries a shard that others hold before it gives up",
};

pub const RETRIES: Argument = Argument {
    name: "retries",
    kind: Kind::Number("COUNT", ranges::RETRIES),
    help: "How often a request is asked again before it is answered that others are in the way",
};

pub const FILES: Argument = Argument {
    name: "files",
    kind: Kind::Words("FILE"),
    help: "The files of the documents; by default the document is standard input",
};

pub const X509: Argument = Argument {
    name: "x509",
    kind: Kind::Switch,
    help: "Leave out JWT authorities and refresh hints",
};

pub const NAMES: Argument = Argument {
    name: "names",
    kind: Kind::Words("NAME"),
    help: "The trust domains that are wanted; by default all",
};

pub const NAME: Argument = Argument {
    name: "name",
    kind: Kind::Word("NAME", ValueParser::String),
    help: "The trust domain",
};

pub const OLD: Argument = Argument {
    name: "old",
    kind: Kind::Word("OLD", ValueParser::String),
    help: "The file of the old dump",
};

pub const NEW: Argument = Argument {
    name: "new",
    kind: Kind::Word("NEW", ValueParser::String),
    help: "The file of the new dump",
};
