//! Federation relationships: whose bundles are fetched, when, and what becomes of them.
//!
//! `Relationship::read` judges a relationship as an operator writes it, and `read_list` a list of them. `refresh_once`
//! fetches the document of one relationship, reads it and sets the bundle of its trust domain, or says why not. A
//! `Schedule` keeps when each of many relationships is due, and `refresh_each` refreshes each of them once: its document
//! comes from a `Folder`, its bundle is set at a `Target`, which is a server behind a stream or a writer of requests, and
//! a line tells what that came to.
#![tactic(auto)]

mod due;
mod each;
mod error;
mod folder;
pub mod laws;
mod list;
mod list_line;
mod outcome;
mod outcome_lines;
mod relationship;
mod report;
mod schedule;
mod source;
mod target;

pub use due::next_due;
pub use each::{Times, refresh_each};
pub use error::{RefreshError, RelationError};
pub use folder::Folder;
pub use list::{ListError, read_list};
pub use outcome::{Outcome, What, refresh_once};
pub use outcome_lines::{LINE_BYTES, Line, LineDetails, Remark, outcome_line};
pub use relationship::{Profile, Relationship};
pub use schedule::{Schedule, refresh_at};
pub use source::{Source, SourceFault};
pub use target::{Sender, Server, Target};
