//! What a server tells people of itself while it serves, with a log and without one.
use workers::Log;

/// A log that a server tells of itself, too. That is told whether the log is on or not.
pub trait ServerLog: Log {
    /// The server ends once it has served so many clients, though nobody has asked for that.
    fn ends_after(&self, clients: u64);

    /// A client waits, and is not taken: the program has as many files open as it may. So many clients are connected.
    fn takes_no_more(&self, open: u64);
}
