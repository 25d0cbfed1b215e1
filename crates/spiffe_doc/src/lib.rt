//! Trust domain names, SPIFFE IDs and SPIFFE bundle documents: what a document is, decided exactly.
//!
//! `TrustDomain` and `SpiffeId` are the names of the SPIFFE-ID standard. `read_document` gives the `Bundle` that a
//! document is, or its first fault; `write_document` gives a bundle's canonical text, which reads back
//! as that bundle. `read_entry` and `write_entry` do this for one authority.
#![tactic(auto)]

mod append;
mod authority;
mod bundle;
mod document;
mod encoded;
mod entries;
mod entry;
mod entry_set;
mod error;
mod front;
mod given;
mod id;
mod key;
pub mod laws;
mod matching;
mod name;
mod number;
mod numbers;
mod octets;
mod place;
mod rest;
mod short_text;
mod symbols;
mod text;
mod text_key;
mod tree;

pub use authority::{Authority, Certificate, KeyId};
pub use bundle::Bundle;
pub use document::{DocumentReader, read_document, read_entry};
pub use entries::{Authorities, Entries, Entry};
pub use error::{AppendError, DocError};
pub use id::{IdError, SpiffeId};
pub use key::{Curve, EcKey, PublicKey, RsaKey};
pub use name::{NameError, TrustDomain};
pub use octets::Octets;
pub use text::{write_document, write_entry};

/// The answer of a call that can only run out of memory: std's own answer to a growth that was refused, so `?` hands it on.
/// It is told by the number 22, as the variant `Memory` of other errors is.
pub type Memory = std::alloc::AllocError;
