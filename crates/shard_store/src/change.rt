//! What a pass knows. No value of these types is made: they are what contracts and the rule speak of.
use map_core::Holding;
use spiffe_doc::TrustDomain;
use std::collections::LinkedList;

/// A name, what it holds from now on, and the number of the pass that wrote it.
pub struct Change {
    pub name: TrustDomain,
    pub now: Option<Holding>,
    pub number: u64,
}

/// The changes that were seen so far, and for which numbers: what is new later bears none of them.
pub struct Seen {
    pub log: LinkedList<Change>,
    /// Each a first number, and how many.
    pub ranges: LinkedList<(u64, u64)>,
}

/// What a seat knows.
pub struct View {
    pub seen: Seen,
    /// What other passes had seen that were joined, until the next step.
    pub joined: LinkedList<Seen>,
    pub held: Option<u64>,
}
