//! What the test crates share: comparisons that tell what was found, and a language of words for operations and replies.
//!
//! It is for tests: no program uses it. Its functions are proved to be safe, and only `holds` and `holds_at` promise more.
#![tactic(auto)]

mod compare;
pub mod ends;
pub mod protocol;
mod rows;
mod texts;
mod words;

pub use compare::{holds, holds_at, is_equal, is_equal_at};
pub use rows::{is_answer, play, play_line};
pub use texts::{Shown, answer_text, contents_text, reply_text, snapshot_text};
pub use words::{bundle, entry_text, operation};
