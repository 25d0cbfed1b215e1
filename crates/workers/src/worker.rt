//! What workers have in common, and one of them.
use crate::limits::Limits;
use std::alloc::Global;

/// What the workers of a server have in common: the system that gives them threads and the time, its memory, the log that
/// they tell, and how far they go with their clients.
#[derive(Drop)]
pub struct SharedByWorkers<'c, H, L> {
    pub rt: &'c H,
    pub alloc: Global,
    pub log: &'c L,
    pub limits: Limits,
}

/// A worker: its number, where it takes memory, the log that it tells, and how far it goes with its clients.
#[derive(Drop)]
pub struct Worker<'l, L> {
    pub number: u64,
    pub alloc: Global,
    pub log: &'l L,
    pub limits: Limits,
}
