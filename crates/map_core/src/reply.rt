//! What a map of trust bundles answers.
ghost use Rattle.std.specs.Prelude.{◌≡◌, length, IfOk, MatchResult};
ghost use Rattle.map_core.specs.Reply.{is_change, refusal_number, error_number};
ghost use Rattle.map_core.specs.Snapshot.{pairs_of};
ghost use Rattle.map_core.specs.Dump.{digest};
ghost use Rattle.map_core.specs.Table.{fetched};

use crate::dump::{DumpDigest, digest_of};
use crate::op::Expect;
use spiffe_doc::{Bundle, Memory, TrustDomain};
use std::alloc::{AllocError, Global};
use std::marker::Model;
use std::mem;
use std::sync::Arc;
use thiserror::Error;

/// Trust domains with their bundles. In a reply they stand in byte order of the names, as they were held
/// together at one moment. It owns its pairs until it is shared.
pub struct Snapshot {
    pairs: Pairs,
}

/// Pairs of one snapshot, or of all that share them.
#[derive(Drop)]
enum Pairs {
    Owned(Vec<(TrustDomain, Bundle)>),
    Shared(Arc<Vec<(TrustDomain, Bundle)>>),
}

impl Model for Snapshot {
    ghost use Rattle.std.specs.Prelude.{List};
    ghost use Rattle.map_core.specs.Name.{Name};
    ghost use Rattle.map_core.specs.Snapshot.{pairs_of};
    ghost use Rattle.spiffe_doc.specs.Authority.{BundleValue};

    ghost Value = { List (Name × BundleValue) };

    ghost view = { λ snapshot. pairs_of snapshot.pairs };
}

// By hand, so that whoever lets a snapshot go makes one call: the prover does not follow it into both cases there.
impl Drop for Snapshot {
    fn drop(self) {
        let Snapshot { pairs } = self;
        drop(pairs);
    }
}

impl Snapshot {
    /// Takes the pairs as they are.
    pub fn from_pairs(pairs: Vec<(TrustDomain, Bundle)>) -> Snapshot
        ensures { result ≡ pairs.items }
    {
        Snapshot {
            pairs: Pairs::Owned(pairs),
        }
    }

    /// Gives the pairs back, and takes no memory. If another snapshot shares them, it stays as it is.
    pub fn into_pairs(self) -> Result<Vec<(TrustDomain, Bundle)>, Snapshot>
        ensures { MatchResult result (λ pairs. pairs.items ≡ self) (λ shared. shared ≡ self) }
    {
        let Snapshot { pairs } = self;
        match pairs {
            Pairs::Owned(pairs) => Ok(pairs),
            Pairs::Shared(pairs) => match Arc::try_unwrap(pairs) {
                Ok(pairs) => Ok(pairs),
                Err(pairs) => Err(Snapshot {
                    pairs: Pairs::Shared(pairs),
                }),
            },
        }
    }

    /// Another snapshot of the same pairs, which both share. It takes memory if they are not shared yet, and errors also if
    /// as many share them as can be counted.
    pub fn share(&mut self, alloc: Global) -> Result<Snapshot, Memory>
        ensures same { IfOk result (λ all. all ≡ self.old) }
        ensures left { self.new ≡ self.old }
    {
        let pairs = match mem::replace(&mut self.pairs, Pairs::Owned(Vec::new(alloc))) {
            Pairs::Owned(pairs) => match Arc::new(alloc, pairs) {
                Ok(pairs) => pairs,
                Err(refused) => {
                    self.pairs = Pairs::Owned(refused.value);
                    return Err(AllocError);
                }
            },
            Pairs::Shared(pairs) => pairs,
        };
        let other = Arc::try_clone(&pairs);
        self.pairs = Pairs::Shared(pairs);
        Ok(Snapshot {
            pairs: Pairs::Shared(other?),
        })
    }

    /// Lends the pairs.
    pub fn pairs(&self) -> &[(TrustDomain, Bundle)]
        ensures { result.now ≡ self.now }
    {
        self.pairs.get().as_slice()
    }

    /// How many trust domains there are.
    pub fn len(&self) -> usize
        ensures { result ≡ length self.now }
    {
        self.pairs.get().len()
    }

    /// The digest of the bundles: the SHA-256 of their dump. It goes through all of their texts.
    pub fn digest(&self) -> DumpDigest
        ensures { result ≡ digest self.now }
    {
        digest_of(self.pairs())
    }

    /// The reply of a fetch-all: these bundles, unless their digest is the one that is known.
    pub fn into_reply(self, known: Option<DumpDigest>) -> Reply
        ensures { result ≡ fetched known self }
    {
        match known {
            Some(known) if known == self.digest() => Reply::Same,
            _ => Reply::All(self),
        }
    }
}

impl Pairs {
    fn get(&self) -> &Vec<(TrustDomain, Bundle)>
        ensures { result.now.items ≡ pairs_of self.now }
    {
        match self {
            Pairs::Owned(pairs) => pairs,
            Pairs::Shared(pairs) => pairs,
        }
    }
}

/// The reply to an operation.
#[derive(Drop)]
pub enum Reply {
    /// The bundle stands under the name now.
    Stored,
    /// An equal bundle or authority stood there before.
    Unchanged,
    /// The authority stands last, and the bundle has this sequence now.
    Appended(Option<u64>),
    /// The bundle is gone. If it had a sequence, a mark of it is left.
    Removed,
    /// The bundle under the name.
    Found(Bundle),
    /// All bundles.
    All(Snapshot),
    /// All bundles have the digest that was known.
    Same,
    /// Nothing has changed, for this reason.
    Refused(MapRefusal),
}

impl Reply {
    /// Whether the reply says that the map was changed.
    pub fn is_change(&self) -> bool
        ensures { result ≡ is_change self.now }
    {
        matches!(self, Reply::Stored | Reply::Appended(_) | Reply::Removed)
    }
}

/// Why a map refuses an operation.
#[derive(Clone, Copy, Debug, PartialEq, Eq, Drop, Error)]
pub enum MapRefusal {
    #[error("no bundle stands under the name")]
    NoDomain,
    #[error("the sequence is lower than {0}, which the name had")]
    Stale(u64),
    #[error("the key ID stands there with another key")]
    KidTaken,
    #[error("the bundle has as many authorities as it may have")]
    TooMany,
    #[error("the document would be too long")]
    TooLong,
    #[error("the sequence is the greatest that there is")]
    SequenceFull,
    #[error("what stands there is not what was expected: it is {0}")]
    NotExpected(Expect),
}

impl MapRefusal {
    /// The number under which replies and texts show the refusal.
    pub fn number(&self) -> u8
        ensures { result ≡ refusal_number self.now }
    {
        match self {
            MapRefusal::NoDomain => 30,
            MapRefusal::Stale(_) => 31,
            MapRefusal::KidTaken => 32,
            MapRefusal::TooMany => 33,
            MapRefusal::TooLong => 34,
            MapRefusal::SequenceFull => 35,
            MapRefusal::NotExpected(_) => 36,
        }
    }
}

/// Why an operation was given up. It has changed nothing.
#[derive(Clone, Copy, Debug, PartialEq, Eq, Drop, Error)]
pub enum AskError {
    #[error("out of memory")]
    Memory,
    /// The shard takes no change any more.
    #[error("shard {shard} has used up its revisions")]
    Worn {
        shard: usize,
    },
    /// In each round some shard was changed before the round was confirmed. These are the last such one, the
    /// revision at which it was read and the one at which it was met again.
    #[error("shard {shard} moved from revision {first} to {second} before all shards were read")]
    Moved {
        shard: usize,
        first: u64,
        second: u64,
    },
    /// Another pass held the shard, at each try.
    #[error("shard {shard} is held at revision {revision}")]
    Held {
        shard: usize,
        revision: u64,
    },
    /// The front does not let the operation through.
    #[error("the gate is shut")]
    GateShut,
}

impl AskError {
    /// The number under which replies and texts show the error.
    pub fn number(&self) -> u8
        ensures { result ≡ error_number self.now }
    {
        match self {
            AskError::Memory => 22,
            AskError::Worn { .. } => 40,
            AskError::Moved { .. } => 41,
            AskError::Held { .. } => 42,
            AskError::GateShut => 56,
        }
    }
}

impl From<AllocError> for AskError {
    ghost use Rattle.std.specs.Prelude.{◌≡◌};
    ghost use Rattle.map_core.specs.declared.reply.AskError.TheVariants.{Memory};

    ghost from_gives = { λ _ e. e ≡ Memory };

    fn from(_refused: AllocError) -> AskError {
        AskError::Memory
    }
}
