//! What a session without ends did, and what it wants then.
use wire::FrontError;

/// What a session wants before it answers on.
#[derive(Clone, Copy, Debug, PartialEq, Eq)]
pub enum Wants {
    /// More input: no whole frame is left.
    Read,
    /// That replies are sent: as many wait as may wait.
    Write,
}

/// What one call of `LiveSession::answer` did.
#[derive(Clone, Copy, Debug)]
pub struct Answered {
    /// How many frames it answered.
    pub frames: u64,
    /// How many bytes of the input these had, with their lengths.
    pub bytes: usize,
    /// Of how many the payload was turned away: the session may only read, and they began with the letter of a change. It is a
    /// figure for a log, and no contract speaks of it.
    pub turned_away: u64,
    /// What the session wants then, or why it ends.
    pub next: Result<Wants, FrontError>,
}
