//! What becomes of a connection after its turn.
use wire::FrontError;

/// What becomes of a connection after its turn.
#[derive(Clone, Copy, Debug, PartialEq, Eq)]
pub enum TurnEnd {
    /// It waits for its stream: for more input, or for room for its replies.
    Waits,
    /// It has had its share, and more may be there: it is to have another turn after those of others.
    Again,
    /// It is over: so many frames were answered at the end of the input, or it ended with an error.
    Over(Result<u64, FrontError>),
}
