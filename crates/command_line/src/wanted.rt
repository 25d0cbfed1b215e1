//! What the program may be asked to do.
use crate::settings::Settings;
use spiffe_doc::TrustDomain;

/// What the command line asks for.
#[derive(Drop)]
pub enum Wanted<'a> {
    /// A session over an empty store of so many shards, of at most so many reads.
    Run {
        shards: usize,
        turns: u64,
    },
    /// A run of events over so many shards, a fetch-all in so many rounds; as a picture too, or not.
    Trace {
        shards: usize,
        rounds: usize,
        picture: bool,
    },
    /// Frames of requests, out of lines.
    Encode,
    /// Lines, out of frames of requests and replies.
    Decode,
    /// Requests of a server, and its replies.
    Ask(Inquiry<'a>),
    /// What the number of a refusal or a fault means: a text of some lines.
    Explain(&'static str),
    /// What is kept of the documents of these files, or of the input if no file is named.
    Check(Vec<&'a str>),
    /// The bundle map of a dump: of the domains of these names, or of all; with only their X.509 authorities, or whole.
    Map {
        names: Vec<TrustDomain>,
        x509: bool,
    },
    /// The requests that set each bundle of a bundle map.
    Import,
    /// The X.509 authorities of a domain of a dump.
    Pem(TrustDomain),
    /// What changed from the dump of the first file to that of the second.
    Diff(&'a str, &'a str),
    /// The SHA-256 of a dump.
    Digest,
    /// The requests that store a dump again.
    Migrate,
    /// A race of so many seconds: readers beside writers that do not rest.
    Race {
        seconds: u64,
    },
    /// A refresh of each relationship of a list.
    Refresh(Refreshing<'a>),
    /// A snapshot of a server's bundles in a folder.
    Snapshot(Snapshotting<'a>),
    /// What a server has counted.
    Stats(Counting<'a>),
    /// A server that listens at these places. Its store is filled with the dump in a file, if one is named, and at the end
    /// its map is kept as a dump in a file, if one is named. `says_connections` is whether the line says which connections are
    /// served, in place of the default.
    Serve {
        places: Places<'a>,
        load: Option<&'a str>,
        save: Option<&'a str>,
        log: LogScope,
        says_connections: bool,
        settings: Settings,
    },
}

/// What the log of a server tells.
#[derive(Clone, Copy, Debug, PartialEq, Eq)]
pub enum LogScope {
    /// Nothing: there is no log.
    Nothing,
    /// The changes, and those that were refused.
    Changes,
    /// These, and the ends of connections.
    All,
}

impl LogScope {
    ghost use Rattle.std.specs.Prelude.{◌≡◌};
    ghost use Rattle.command_line.specs.Serving.{has_changes};

    /// Whether changes are told.
    pub fn has_changes(self) -> bool
        ensures { result ≡ has_changes self }
    {
        self != LogScope::Nothing
    }
}

/// A place on this machine where a server listens.
#[derive(Clone, Copy, Debug)]
pub enum Place<'a> {
    /// A port of 127.0.0.1. A server that is to listen at 0 takes one that is free.
    Port(u16),
    /// The Unix socket at this path: the rights of the file say who may connect.
    Socket(&'a str),
}

/// The places where a server listens.
#[derive(Clone, Copy, Debug)]
pub struct Places<'a> {
    /// Where clients may ask all.
    pub all: Place<'a>,
    /// Where they may only read, if there is such a place.
    pub reads: Option<Place<'a>>,
}

/// What snapshots are to be made.
#[derive(Clone, Copy, Debug)]
pub struct Snapshotting<'a> {
    /// Where the server listens.
    pub place: Place<'a>,
    /// How many seconds the server is waited for: to connect, and for each request with its whole reply.
    pub timeout: u64,
    /// The folder of the snapshots.
    pub folder: &'a str,
    /// In how many seconds another one is made; without it, there is one.
    pub every: Option<u64>,
    /// If the server has fewer domains, none is shown.
    pub at_least: u64,
}

/// Which counts are to be told.
#[derive(Clone, Copy, Debug)]
pub struct Counting<'a> {
    /// Where the server listens.
    pub place: Place<'a>,
    /// How many seconds the server is waited for: to connect, and for each request with its whole reply.
    pub timeout: u64,
    /// Whether they are written as Prometheus reads them.
    pub prometheus: bool,
}

/// What is asked of a server.
#[derive(Drop)]
pub struct Inquiry<'a> {
    /// Where the server listens.
    pub place: Place<'a>,
    /// How many seconds the server is waited for: to connect, and for each request with its whole reply.
    pub timeout: u64,
    /// How often a request is asked again that others were in the way of.
    pub retries: u32,
    /// How the replies are written.
    pub style: ReplyStyle,
    /// A dump that is known: all domains are fetched unless they are those of this file. Then the request is `fetch`.
    pub unless: Option<&'a str>,
    /// The words of one request. Without any, requests are lines of the input.
    pub words: Vec<&'a str>,
}

/// How replies are written.
#[derive(Clone, Copy, Debug, PartialEq, Eq)]
pub enum ReplyStyle {
    /// A line for each.
    Lines,
    /// Frames, as they came.
    Raw,
    /// A line for each, but of the reply to a get only its bundle.
    Text,
}

/// What a refresh is to do.
#[derive(Clone, Copy, Debug)]
pub struct Refreshing<'a> {
    /// The file of the list of relationships.
    pub list: &'a str,
    /// The folder of the documents.
    pub folder: &'a str,
    /// The time in seconds; that of the clock if it is left out.
    pub now: Option<u64>,
    /// In how many seconds, at the least, a relationship is due again.
    pub at_least: u64,
    /// Where the server listens. Without it, requests go to standard output.
    pub place: Option<Place<'a>>,
    /// How many seconds the server is waited for: to connect, and for each request with its whole reply.
    pub timeout: u64,
}
