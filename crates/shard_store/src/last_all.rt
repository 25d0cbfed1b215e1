//! What a pass remembers of its last fetch-all: if no shard has changed since, that is still the answer.
ghost use Rattle.std.specs.Prelude.{◌≡◌, IfOk, IfSome, if◌then◌else◌};
ghost use Rattle.map_core.specs.declared.reply.Reply.TheVariants.{All, Same};
ghost use Rattle.map_core.specs.Dump.{digest};
ghost use Rattle.map_core.specs.PlainMap.{bundles};
ghost use Rattle.map_core.specs.Table.{fetched};
ghost use Rattle.shard_store.specs.Changes.{after};
ghost use Rattle.shard_store.specs.Private.Seat.{IsFree, HasLooked};
ghost use Rattle.shard_store.specs.Private.LastAll.{IsDigestOf, IsLastAll};

use crate::rule::StoreSeat;
use crate::store::Store;
use map_core::{DumpDigest, Reply, Snapshot};
use std::alloc::{AllocError, Global};

/// All bundles as they stood together at one moment, and which revisions the shards had then; and the digest of the
/// bundles, once it was asked for.
#[derive(Drop)]
pub(crate) struct LastAll {
    pub revisions: Vec<u64>,
    pub all: Snapshot,
    pub digest: Option<DumpDigest>,
}

impl LastAll {
    /// The reply of a fetch-all: the bundles, unless their digest is the one that is known.
    pub(crate) fn reply(
        &mut self,
        alloc: Global,
        known: Option<DumpDigest>,
    ) -> Result<Reply, AllocError>
        requires { IsDigestOf self.old.all self.old.digest }
        ensures reply { IfOk result (λ reply. reply ≡ fetched known self.old.all) }
        ensures revisions { self.new.revisions.items ≡ self.old.revisions.items }
        ensures all { self.new.all ≡ self.old.all }
        ensures digest { IsDigestOf self.old.all self.new.digest }
    {
        if self.is_known(known) {
            return Ok(Reply::Same);
        }
        let all = self.all.share(alloc)?;
        Ok(Reply::All(all))
    }

    // Whether the digest of the bundles is the one that is known, if one is.
    fn is_known(&mut self, known: Option<DumpDigest>) -> bool
        requires { IsDigestOf self.old.all self.old.digest }
        ensures known { fetched known self.old.all ≡ (if result then Same else All self.old.all) }
        ensures revisions { self.new.revisions.items ≡ self.old.revisions.items }
        ensures all { self.new.all ≡ self.old.all }
        ensures digest { IsDigestOf self.old.all self.new.digest }
    {
        match known {
            Some(known) => known == self.digest(),
            None => false,
        }
    }

    // The digest of the bundles. It is computed once.
    fn digest(&mut self) -> DumpDigest
        requires { IsDigestOf self.old.all self.old.digest }
        ensures computed { result ≡ digest self.old.all }
        ensures revisions { self.new.revisions.items ≡ self.old.revisions.items }
        ensures all { self.new.all ≡ self.old.all }
        ensures digest { IsDigestOf self.old.all self.new.digest }
    {
        if let Some(digest) = self.digest {
            return digest;
        }
        let digest = self.all.digest();
        self.digest = Some(digest);
        digest
    }
}

impl Store {
    /// What a fetch-all is answered that knows this digest, if any, by what is remembered, if no shard has changed since.
    /// Each word is loaded once: as no revision has grown by its load, none had grown when the first was loaded, and all
    /// stood together at that moment.
    pub(crate) fn recall_all(
        &self,
        seat: &mut StoreSeat,
        remembered: &mut Option<LastAll>,
        known: Option<DumpDigest>,
    ) -> Result<Option<Reply>, AllocError>
        requires free { IsFree self.now.id seat.old }
        requires told { IsLastAll self.now.id.slots seat.old.me.0.seen.log remembered.old }
        ensures looked { HasLooked self.now.id seat.old seat.new }
        ensures kept { IsLastAll self.now.id.slots seat.old.me.0.seen.log remembered.new }
        ensures reply { IfOk result (λ found. IfSome found (λ reply. reply ≡ fetched known (bundles (after seat.old.me.0.seen.log)))) }
    {
        let Some(last) = remembered else {
            return Ok(None);
        };
        match self.confirm_all(seat, last.revisions.as_slice()) {
            None => {
                let reply = last.reply(self.alloc, known)?;
                Ok(Some(reply))
            }
            Some(_) => Ok(None),
        }
    }
}
