//! The text form of the machine's runs: a line for each event that happens, and a line for each operation that began.
#![tactic(auto)]

mod event_line;
mod events;
pub mod laws;
mod operation;
mod picture;
mod picture_row;
mod record_head;
mod trace_text;
mod write_buffer;

pub use events::{LinesError, read_events};
pub use picture::put_picture;
pub use trace_text::put_trace;
