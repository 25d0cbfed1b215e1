//! Operations on a map of trust bundles, what they answer, and the map of one caller.
//!
//! `Contents` answers each operation as the plain map does, by a short row of a table for each; or memory ran out, and
//! nothing has changed. Whatever implements `Ask` and shows a map answers so too.
#![tactic(auto)]

mod ask;
mod contents;
mod dump;
mod held;
pub mod home;
pub mod laws;
mod op;
mod reply;
mod table;
mod union;

pub use ask::{Ask, Viewer};
pub use contents::Contents;
pub use dump::{DIGEST_BYTES, DumpDigest, canonical_text, item_front};
pub use held::{Holding, Standing};
pub use op::{Expect, Op};
pub use reply::{AskError, MapRefusal, Reply, Snapshot};
pub use union::Union;
