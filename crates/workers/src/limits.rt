//! How far a worker goes with its clients.

/// How far a worker goes with its clients.
#[derive(Clone, Copy, Debug)]
pub struct Limits {
    /// How often at most it is asked again what the store answers while others are in the way.
    pub retries: u64,
    /// How long it waits for them.
    pub patience: Patience,
    /// How many reads a session may make; `u64::MAX` is as good as no limit.
    pub turns: u64,
}

/// How long a worker waits for its clients.
#[derive(Clone, Copy, Debug)]
pub struct Patience {
    /// After how many ticks a client is given up that owes the rest of a frame, or that it takes replies, and does not get on.
    pub most_silent: u64,
    /// After how many ticks a client is given up a part of whose last reply is not stored yet: so long it may hold what the
    /// reply is made of.
    pub reply_ticks: u64,
    /// Of how many ages replies may be held that are not stored whole. Those that were begun between two ticks have one age.
    pub moments: u64,
}
