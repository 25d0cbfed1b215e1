//! The shard that a name belongs to, which stands beside the plain map: a store of shards needs no machine.
pub use map_core::home::{home, shard_of};
