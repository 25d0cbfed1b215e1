//! Where an entry stands in a canonical text.

/// The bytes of a canonical text that are an entry, and of which kind it is.
#[derive(Clone, Copy, Drop)]
pub(crate) struct Place {
    pub(crate) start: usize,
    pub(crate) end: usize,
    pub(crate) is_x509: bool,
}
