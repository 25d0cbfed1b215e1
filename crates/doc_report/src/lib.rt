//! What a document would give as a bundle, for a person: its figures, each entry that is ignored and why, or what is wrong.
#![tactic(auto)]

mod fault;
mod ignored;
mod key_member;
pub mod laws;
mod lines;
mod member_text;
mod quoted;
mod reason;
mod report;
mod words;

pub use fault::DocFault;
pub use ignored::{Held, Ignored, Reason};
pub use key_member::KeyMember;
pub use lines::put_report;
pub use member_text::MemberText;
pub use report::{Report, report_on};
