//! What a dump becomes: the certificates of a domain as PEM, what changed since another dump, its digest, and a SPIFFE bundle map,
//! one JSON file of the bundles of several trust domains, as gRPC and Envoy read it.
//!
//! `put_pem`, `put_diff` and `digest_line` take what was read; `put_dump_pem`, `put_dump_diff` and `dump_digest_line` take
//! the bytes of dumps, and judge them first. `write_map` gives the map of the domains of a dump, of which `choose` takes some by
//! their names. `requests_of_map` turns such a file into requests that set each bundle.
#![tactic(auto)]

mod authority_changes;
mod choice;
mod diff;
mod digest;
mod error;
mod import;
pub mod laws;
mod map;
pub mod map_laws;
mod member;
mod name_set;
mod pem;
mod profile;
mod tree;

pub use choice::{ChoiceError, choose};
pub use diff::{DiffError, put_diff, put_dump_diff};
pub use digest::{PieceDigest, digest_line, dump_digest_line};
pub use error::{MapError, MemberFault};
pub use import::requests_of_map;
pub use map::write_map;
pub use pem::{PemError, put_dump_pem, put_pem};
pub use profile::Profile;
