//! How a server is set up.
ghost use Rattle.std.specs.Prelude.{◌<◌, ◌≤◌};

/// How many workers serve which connections, over what store.
#[derive(Clone, Copy, Debug)]
pub struct Settings {
    /// How many workers there are: 1 to 64.
    pub workers: u64,
    /// Which connections each worker takes, and how it serves them.
    pub connections: Connections,
    /// How many reads a session may make: at least one. 2^64 - 1, which no session makes, stands for no limit.
    pub turns: u64,
    /// How many shards the store has: 1 to 256.
    pub shards: usize,
    /// How often a fetch-all reads all shards before it gives up: at least once.
    pub rounds: u64,
    /// How often a call tries a shard that others hold before it gives up: at least once.
    pub tries: u64,
    /// How often an operation is asked again while others are in the way.
    pub retries: u64,
    pub ghost some: { (0 < workers) × (0 < turns) × (0 < shards) × (0 < rounds) × (0 < tries) },
    pub ghost few: { (workers ≤ 64) × (shards ≤ 256) },
}

/// The form of a server: which connections each worker takes.
#[derive(Clone, Copy, Debug)]
pub enum Connections {
    /// So many, 1 to 1,000, one after the other: the worker waits in each until that has ended, and then it ends itself.
    Each(u64),
    /// Without end, and many beside each other: the worker turns to those that are ready. The server lasts.
    Unlimited(Lasting),
}

/// What belongs to a server that lasts.
#[derive(Clone, Copy, Debug)]
pub struct Lasting {
    /// How many connections may be open at once, those of all workers together: at least one.
    pub most_open: u64,
    /// Whether the server stops at the end of its input.
    pub until_eof: bool,
    /// For how many seconds a client may send one frame, and take nothing of the replies that wait: at least one.
    pub idle: u64,
    /// For how many seconds a client may take a reply of which a part is not stored yet: at least one.
    pub reply_seconds: u64,
    /// Of how many ages each worker keeps such replies: at least one.
    pub moments: u64,
    pub ghost some: { (0 < most_open) × (0 < idle) × (0 < reply_seconds) × (0 < moments) },
}
