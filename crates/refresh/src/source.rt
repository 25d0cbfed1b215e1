//! Where documents come from.
use crate::relationship::Relationship;
use thiserror::Error;

/// No document was got from an endpoint.
#[derive(Clone, Copy, Debug, PartialEq, Eq, Drop, Error)]
#[error("the endpoint gave no document")]
pub struct SourceFault;

/// Fetches documents: over the network, out of a folder, or as a test wants.
pub trait Source {
    ghost use Rattle.std.specs.Prelude.{ℕ, List, Option};
    ghost use Rattle.refresh.specs.Relationship.{RelationshipValue};
    ghost use Rattle.refresh.specs.Fetch.{fetch_result};

    // In the state before, a fetch for the relationship may give this document, or none, and leave the state after.
    ghost fetches: { Self → RelationshipValue → Option (List ℕ) → Self → Type 0 };

    /// Fetches the document of the relationship's bundle endpoint, once. The bytes are not judged.
    fn fetch(&mut self, relationship: &Relationship) -> Result<Vec<u8>, SourceFault>
        ensures { fetches self.old relationship.now (fetch_result result) self.new };
}
