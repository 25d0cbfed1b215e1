//! An ordered map from trust domain names to values, in up to four levels of shared nodes: a small map has one or two.
//!
//! `SharedMap` is seen as a finite map. A copy is one count, and a change after a copy copies a small node in each level:
//! the older copy stays as it was. A change of a map that shares nothing is made in place.
#![tactic(auto)]

mod entries;
mod hints;
mod level;
mod map;
mod page;
mod part;
mod run;
mod search;
mod shared;
mod top;

pub use entries::Entries;
pub use map::SharedMap;
pub use shared::Shared;
