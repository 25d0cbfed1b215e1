//! What a map shows of a bundle.

/// What a map shows of each bundle.
#[derive(Clone, Copy, Debug, PartialEq, Eq)]
pub enum Profile {
    /// All of it: the canonical text.
    Whole,
    /// The X.509 authorities and the sequence, for readers that refuse other uses or a refresh hint.
    X509,
}
