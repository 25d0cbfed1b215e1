//! Why a fetch-all matters: writers that do not rest, a reader that reads domain by domain, and one that fetches all at
//! once. How many of their readings are maps that never were is counted.
#![tactic(auto)]

mod judge;
pub mod laws;
mod race;
mod report;
mod seats;

pub use judge::{Reading, Tally, is_map, is_moment};
pub use race::{RaceError, run_race};
pub use report::{Findings, report_text};
