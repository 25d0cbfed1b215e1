//! What a server does with listeners that it is given: its store is set up and perhaps filled with a dump, its workers serve
//! the clients that come, its lines and its log are written, what it does is counted, and at the end its workers are reported.
#![tactic(auto)]

mod address;
mod counts;
mod ending;
mod file_id;
mod limit;
mod lines;
mod load;
mod log;
mod numbering;
mod saved_file;
mod saving;
mod server_log;
mod serving;
mod set_up;
mod stamped;
mod start;
mod told;

pub use address::Address;
pub use counts::{Count, Counts};
pub use ending::{Done, report};
pub use file_id::FileId;
pub use lines::{ServerLine, say};
pub use load::set_up_of;
pub use log::LineLog;
pub use saved_file::{SavedFile, save_fault};
pub use saving::Keeper;
pub use server_log::ServerLog;
pub use serving::{
    Host, InTurn, Listener, NOBODY, Ports, Task, WorkerPolls, serve_at, serve_on, tell_early,
};
pub use set_up::SetUp;
pub use stamped::Stamped;
pub use start::tell_start;
pub use told::{tell_in_words, tell_words};
