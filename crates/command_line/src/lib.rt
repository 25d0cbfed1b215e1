//! The command line of the program: what it may be asked to do, how that is read, and what its help says.
//!
//! `wanted_by` reads the arguments into a `Wanted`, with numbers within their ranges, or answers what is shown in its
//! place: help, the version, or why the arguments are refused.
#![tactic(auto)]

mod answers;
mod argument;
mod arguments;
mod building;
mod commands;
mod explanations;
mod places;
mod ranges;
mod reading;
mod refusal;
mod serving;
mod settings;
mod texts;
mod wanted;

pub use reading::wanted_by;
pub use settings::{Connections, Lasting, Settings};
pub use wanted::{
    Counting, Inquiry, LogScope, Place, Places, Refreshing, ReplyStyle, Snapshotting, Wanted,
};
