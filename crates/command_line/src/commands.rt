//! The commands.
use crate::argument::Argument;
use crate::arguments::{
    ASKED_PORT, ASKED_SOCKET, AT_LEAST, AT_LEAST_DOMAINS, CONNECTIONS, DOCUMENTS, EVERY, FILES,
    IDLE, LISTENED_PORT, LISTENED_SOCKET, LOAD, LOG, MAX_OPEN, MOMENTS, NAME, NAMES, NEW, NOW,
    NUMBER, OLD, OUT, PICTURE, PROMETHEUS, RAW, READ_PORT, READ_SOCKET, REFRESHED_PORT,
    RELATIONSHIPS, REPLY_SECONDS, REQUEST, RETRIES, RETRY, ROUNDS, SAVE, SECONDS, SERVED_TURNS,
    SHARDS, TEXT, TIMEOUT, TRIES, TURNS, UNLESS, UNTIL_EOF, WORKERS, X509,
};
use crate::texts;

/// A command: what it is called, what its help says of it, at its beginning and at its end, and its arguments.
#[derive(Clone, Copy)]
pub struct Row {
    pub name: &'static str,
    pub about: &'static str,
    pub notes: &'static str,
    pub arguments: &'static [Argument],
}

/// What a command does, without its settings.
#[derive(Clone, Copy)]
pub enum Verb {
    Run,
    Ask,
    Encode,
    Decode,
    Explain,
    Refresh,
    Serve,
    Snapshot,
    Stats,
    Check,
    Map,
    Import,
    Pem,
    Diff,
    Digest,
    Migrate,
    Trace,
    Race,
}

/// All commands, in the order of the help.
pub const VERBS: [Verb; 18] = [
    Verb::Run,
    Verb::Ask,
    Verb::Encode,
    Verb::Decode,
    Verb::Explain,
    Verb::Refresh,
    Verb::Serve,
    Verb::Snapshot,
    Verb::Stats,
    Verb::Check,
    Verb::Map,
    Verb::Import,
    Verb::Pem,
    Verb::Diff,
    Verb::Digest,
    Verb::Migrate,
    Verb::Trace,
    Verb::Race,
];

impl Verb {
    /// The row of the command.
    pub fn row(self) -> &'static Row {
        match self {
            Verb::Run => &RUN,
            Verb::Ask => &ASK,
            Verb::Encode => &ENCODE,
            Verb::Decode => &DECODE,
            Verb::Explain => &EXPLAIN,
            Verb::Refresh => &REFRESH,
            Verb::Serve => &SERVE,
            Verb::Snapshot => &SNAPSHOT,
            Verb::Stats => &STATS,
            Verb::Check => &CHECK,
            Verb::Map => &MAP,
            Verb::Import => &IMPORT,
            Verb::Pem => &PEM,
            Verb::Diff => &DIFF,
            Verb::Digest => &DIGEST,
            Verb::Migrate => &MIGRATE,
            Verb::Trace => &TRACE,
            Verb::Race => &RACE,
        }
    }
}

static RUN: Row = Row {
    name: "run",
    about: "Answers requests on standard input, over an empty store, on standard output",
    notes: texts::FRAMES,
    arguments: &[SHARDS, TURNS],
};

static ASK: Row = Row {
    name: "ask",
    about: "Asks a server, and writes its replies",
    notes: texts::ASKING,
    arguments: &[
        ASKED_PORT,
        ASKED_SOCKET,
        TIMEOUT,
        RETRY,
        RAW,
        TEXT,
        UNLESS,
        REQUEST,
    ],
};

static ENCODE: Row = Row {
    name: "encode",
    about: "Turns lines into frames of requests",
    notes: texts::LINES,
    arguments: &[],
};

static DECODE: Row = Row {
    name: "decode",
    about: "Turns frames of requests and replies into lines",
    notes: texts::REPLIES,
    arguments: &[],
};

static EXPLAIN: Row = Row {
    name: "explain",
    about: "Tells what the number of a refusal or a fault means, and what to do about it",
    notes: "",
    arguments: &[NUMBER],
};

static REFRESH: Row = Row {
    name: "refresh",
    about: "Sets the bundles of a list of trust domains, out of a folder of documents",
    notes: texts::RELATIONSHIPS,
    arguments: &[
        RELATIONSHIPS,
        DOCUMENTS,
        NOW,
        AT_LEAST,
        REFRESHED_PORT,
        ASKED_SOCKET,
        TIMEOUT,
    ],
};

static SERVE: Row = Row {
    name: "serve",
    about: "Answers requests at a port of this machine, over a store that its workers share",
    notes: texts::SERVING,
    arguments: &[
        LISTENED_PORT,
        LISTENED_SOCKET,
        CONNECTIONS,
        SERVED_TURNS,
        WORKERS,
        LOAD,
        SAVE,
        LOG,
        SHARDS,
        ROUNDS,
        TRIES,
        RETRIES,
        MAX_OPEN,
        READ_PORT,
        READ_SOCKET,
        UNTIL_EOF,
        IDLE,
        REPLY_SECONDS,
        MOMENTS,
    ],
};

static SNAPSHOT: Row = Row {
    name: "snapshot",
    about: "Writes the bundles of a server as files, all as they stood at one moment",
    notes: texts::SNAPSHOTS,
    arguments: &[
        ASKED_PORT,
        ASKED_SOCKET,
        TIMEOUT,
        OUT,
        EVERY,
        AT_LEAST_DOMAINS,
    ],
};

static STATS: Row = Row {
    name: "stats",
    about: "Tells what a server has counted: requests, refusals, changes, connections and bytes",
    notes: texts::COUNTS,
    arguments: &[ASKED_PORT, ASKED_SOCKET, TIMEOUT, PROMETHEUS],
};

static CHECK: Row = Row {
    name: "check",
    about: "Tells what is kept of bundle documents, what is ignored and why, and what is wrong",
    notes: texts::REPORTS,
    arguments: &[FILES],
};

static MAP: Row = Row {
    name: "map",
    about: "Turns a dump into one SPIFFE bundle map, the file that gRPC and Envoy read",
    notes: texts::MAPS,
    arguments: &[X509, NAMES],
};

static IMPORT: Row = Row {
    name: "import",
    about: "Turns a SPIFFE bundle map into requests that set each bundle",
    notes: texts::IMPORTS,
    arguments: &[],
};

static PEM: Row = Row {
    name: "pem",
    about: "Writes the X.509 authorities of a trust domain of a dump as PEM",
    notes: texts::CERTIFICATES,
    arguments: &[NAME],
};

static DIFF: Row = Row {
    name: "diff",
    about: "Tells what changed from one dump to another",
    notes: texts::CHANGES,
    arguments: &[OLD, NEW],
};

static DIGEST: Row = Row {
    name: "digest",
    about: "Writes the SHA-256 of a dump: it is equal for equal maps",
    notes: texts::DIGESTS,
    arguments: &[],
};

static MIGRATE: Row = Row {
    name: "migrate",
    about: "Turns a dump, the frames of a reply to F, into requests that store it again",
    notes: texts::MIGRATIONS,
    arguments: &[],
};

static TRACE: Row = Row {
    name: "trace",
    about: "Runs events on standard input over an empty store, and explains every reply by one order",
    notes: texts::EVENTS,
    arguments: &[SHARDS, ROUNDS, PICTURE],
};

static RACE: Row = Row {
    name: "race",
    about: "Shows why a fetch-all matters: counts inconsistent readings, of a reader that gets domains one by one and of a fetch-all (always 0)",
    notes: texts::RACE,
    arguments: &[SECONDS],
};
