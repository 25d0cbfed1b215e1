//! What a server runs over.
use crate::counts::Counts;
use std::alloc::Global;

/// The system and its memory, the log of the server and its counts.
#[derive(Drop)]
pub struct Host<'h, H, L> {
    pub rt: &'h H,
    pub alloc: Global,
    pub log: &'h L,
    pub counts: &'h Counts,
}
