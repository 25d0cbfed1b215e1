//! Snapshots of a store as files: a folder for each, and a link that shows the current one.
//!
//! `fetch` asks a server for all domains, and `update` brings a folder to show them. A program that reads the files behind the
//! link sees one moment: a snapshot is written into a folder of its own, and only then shown.
#![tactic(auto)]

mod error;
mod fetching;
mod folder;
mod host_folder;
pub mod laws;
mod listing;
mod names;
mod updating;

pub use error::FolderError;
pub use fetching::{FetchError, fetch};
pub use folder::Folder;
pub use host_folder::{HostFolder, Look};
pub use names::has_files;
pub use updating::update;
