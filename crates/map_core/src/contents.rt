//! The map of one caller: its bundles and its marks, each in a map whose copies share their nodes.
ghost use Rattle.std.specs.Prelude.{◌≡◌, IfOk, OnOk, IfErr, OnErr, MatchOption, Ok, ◌++◌, length, true, false, not, is_some, filter, option_copied};
ghost use Rattle.std.specs.FinMap as finite;
ghost use Rattle.map_core.specs.Op.{domain_of, carries_nothing};
ghost use Rattle.map_core.specs.declared.held.Holding.{Holding};
ghost use Rattle.map_core.specs.declared.op.Op.TheVariants.{Get};
ghost use Rattle.map_core.specs.Private.Outcome.{reply_of, left_by};
ghost use Rattle.map_core.specs.PlainMap.{ask, union, bundles, standing_for};
ghost use Rattle.map_core.specs.Ask.{ShowsGet};
ghost use Rattle.map_core.specs.Reply.{is_change};
ghost use Rattle.map_core.specs.Private.Held.{HaveSameBundles};
ghost use Rattle.map_core.specs.Private.Turns.{put_in_turn};

use crate::ask::Viewer;
use crate::held::{Holding, Standing};
use crate::op::Op;
use crate::reply::{AskError, Reply, Snapshot};
use crate::table;
use crate::table::RowEffect;
use shared_map::{Shared, SharedMap};
use spiffe_doc::{Bundle, Memory, TrustDomain};
use std::alloc::{AllocError, Global};
use std::marker::Model;

/// Bundles, and marks of removed ones, under the names of trust domains. Clauses see it as a plain map. A copy shares
/// all nodes, and a fetch-all never comes to a mark.
#[derive(Drop)]
pub struct Contents {
    alloc: Global,
    bundles: SharedMap<Holding>,
    /// A mark under the name of a bundle is not seen: a bundle is stored beside it, and it goes as the bundle goes.
    marks: SharedMap<Holding>,
}

impl Model for Contents {
    ghost use Rattle.map_core.specs.Private.Codes.{plain_map_code};
    ghost use Rattle.map_core.specs.Private.Held.{HasNoBundle, HasNoMark};
    ghost use Rattle.map_core.specs.PlainMap.{PlainMap, union};

    ghost Value = { PlainMap };

    ghost coded = { plain_map_code };

    ghost view = { λ contents. union contents.marks contents.bundles };

    ghost invariant = { λ contents. HasNoBundle contents.marks × HasNoMark contents.bundles };
}

impl Contents {
    /// The empty map.
    pub fn new(alloc: Global) -> Contents
        ensures { result ≡ finite.empty }
    {
        Contents {
            alloc,
            bundles: SharedMap::new(alloc),
            marks: SharedMap::new(alloc),
        }
    }

    /// Answers an operation as the plain map does. If memory runs out, nothing has changed.
    pub fn ask(&mut self, op: Op) -> Result<Reply, AskError>
        ensures reply { IfOk result (λ reply. reply ≡ (ask self.old op).reply) }
        ensures left { OnOk result (self.new ≡ (ask self.old op).map) }
        ensures refused { IfErr result (λ e. e ≡ AskError.Memory) }
        ensures err { OnErr result (self.new ≡ self.old) }
    {
        match op {
            // Nothing of a `Set` is copied.
            Op::Set(domain, bundle) => {
                let outcome = table::set(self.at(&domain), bundle);
                Ok(self.settle(Some(domain), outcome)?)
            }
            op => match self.outcome(&op) {
                Ok(outcome) => Ok(self.settle(op.into_domain(), outcome)?),
                Err(AllocError) => {
                    drop(op);
                    Err(AskError::Memory)
                }
            },
        }
    }

    /// The reply to the operation and, if it reports a change, the map after it. This map stays as it is.
    pub fn asked(&self, op: &Op) -> Result<(Reply, Option<Contents>), Memory>
        ensures reply { IfOk result (λ asked. asked.0 ≡ (ask self.now op.now).reply) }
        ensures left { IfOk result (λ asked. MatchOption asked.1
            (is_change asked.0 ≡ false)
            (λ after. (is_change asked.0 ≡ true) × (after ≡ (ask self.now op.now).map))) }
    {
        let outcome = self.outcome(op)?;
        if !outcome.is_change() {
            return Ok((outcome.into_reply(), None));
        }
        let Ok((mut after, domain)) = self.copy_for(op) else {
            drop(outcome);
            return Err(AllocError);
        };
        let reply = after.settle(domain, outcome)?;
        Ok((reply, Some(after)))
    }

    /// The same map, and the name that the operation is on.
    fn copy_for(&self, op: &Op) -> Result<(Contents, Option<TrustDomain>), AllocError>
        ensures copy { IfOk result (λ made. made.0 ≡ self.now) }
        ensures domain { IfOk result (λ made. made.1 ≡ domain_of op.now) }
    {
        let domain = match op.domain() {
            Some(domain) => Some(domain.copy()?),
            None => None,
        };
        Ok((self.copy()?, domain))
    }

    /// Whether the operation would change the map. A bundle is compared and an authority is appended to a copy, which
    /// may be out of memory; an operation that carries neither is told without any.
    pub fn would_change(&self, op: &Op) -> Result<bool, Memory>
        ensures told { IfOk result (λ changes. changes ≡ is_change (ask self.now op.now).reply) }
        ensures always { carries_nothing op.now ≡ true → result ≡ Ok (is_change (ask self.now op.now).reply) }
    {
        match op {
            Op::Remove(domain) => Ok(table::remove(self.at(domain)).into_is_change()),
            Op::Get(_) => Ok(false),
            Op::FetchAll => Ok(false),
            Op::FetchUnless(_) => Ok(false),
            _ => Ok(self.outcome(op)?.into_is_change()),
        }
    }

    /// The reply to a `Get` of the name, which leaves the map as it is. The bundle is shared.
    pub fn get(&self, domain: &TrustDomain) -> Result<Reply, Memory>
        ensures { IfOk result (λ reply. reply ≡ (ask self.now (Get domain.now)).reply) }
    {
        table::get(self.at(domain))
    }

    /// The same, but the bundle that was found is shown to the viewer where it is kept, and there is no reply. If the viewer
    /// has no room for what it sees, the reply has the bundle, shared.
    pub fn show<V: Viewer>(
        &self,
        domain: &TrustDomain,
        viewer: &mut V,
    ) -> Result<Option<Reply>, Memory>
        ensures { ShowsGet V.notes (λ answer. IfOk answer (λ reply. reply ≡ (ask self.now (Get domain.now)).reply)) (V.noted viewer.old) result (V.noted viewer.new) }
    {
        if let Some(Holding::Published(bundle)) = self.at(domain) {
            if let Ok(()) = viewer.see(bundle) {
                return Ok(None);
            }
        }
        Ok(Some(self.get(domain)?))
    }

    /// What stands under the name that the operation is on; nothing for a fetch-all.
    pub fn standing(&self, op: &Op) -> Standing
        ensures { result ≡ standing_for self.now op.now }
    {
        match op.domain() {
            Some(domain) => Standing::of(self.at(domain)),
            None => Standing::Nothing,
        }
    }

    /// How many bundles there are. Marks don't count.
    pub fn len(&self) -> usize
        ensures { result ≡ length (bundles self.now) }
    {
        self.bundles.len()
    }

    /// The same map. Its nodes are shared.
    pub fn copy(&self) -> Result<Contents, Memory>
        ensures { IfOk result (λ copy. copy ≡ self.now) }
    {
        Ok(Contents {
            alloc: self.alloc,
            bundles: self.bundles.copy()?,
            marks: self.marks.copy()?,
        })
    }

    /// All bundles with their names, in order, taken out of the map.
    pub fn into_snapshot(self) -> Result<Snapshot, Memory>
        ensures { IfOk result (λ all. all ≡ bundles self) }
    {
        self.snapshot()
    }

    /// Pushes all names with what they hold, in order. The bundles are shared.
    pub(crate) fn push_entries(
        &self,
        out: &mut Vec<(TrustDomain, Holding)>,
    ) -> Result<(), AllocError>
        ensures { OnOk result (put_in_turn out.new.items ≡ union (put_in_turn out.old.items) self.now) }
    {
        push_all(&self.marks, out)?;
        push_all(&self.bundles, out)
    }

    /// Puts these bundles over the entries, of which none under the name of a mark stays seen. Each of the fewer is
    /// gone through: of entries and marks.
    pub(crate) fn cover(&self, out: &mut Vec<(TrustDomain, Holding)>) -> Result<(), AllocError>
        ensures { OnOk result (HaveSameBundles (put_in_turn out.new.items) (union (put_in_turn out.old.items) self.now)) }
    {
        if out.len() <= self.marks.len() {
            take_out_marked(&self.marks, out);
        } else {
            push_all(&self.marks, out)?;
        }
        push_all(&self.bundles, out)
    }

    /// The map of these entries: of those under one name, the last one counts.
    pub(crate) fn from_entries(
        alloc: Global,
        entries: Vec<(TrustDomain, Holding)>,
    ) -> Result<Contents, AllocError>
        ensures { IfOk result (λ all. all ≡ put_in_turn entries.items) }
    {
        let mut all = Contents::new(alloc);
        for (domain, held) in entries {
            match held {
                Holding::Published(_) => all.bundles.insert(domain, held)?,
                Holding::Mark(sequence) => all.mark(domain, sequence)?,
            }
        }
        Ok(all)
    }

    /// What the operation gives.
    fn outcome(&self, op: &Op) -> Result<RowEffect, AllocError>
        ensures reply { IfOk result (λ outcome. reply_of outcome ≡ (ask self.now op.now).reply) }
        ensures left { IfOk result (λ outcome. left_by self.now (domain_of op.now) outcome ≡ (ask self.now op.now).map) }
    {
        match op {
            Op::Set(domain, bundle) => Ok(table::set(self.at(domain), bundle.copy()?)),
            Op::SetIf(domain, expect, bundle) => {
                Ok(table::set_if(self.at(domain), *expect, bundle.copy()?))
            }
            Op::Append(domain, authority) => table::append(self.alloc, self.at(domain), authority),
            Op::Remove(domain) => Ok(table::remove(self.at(domain))),
            Op::Get(domain) => Ok(RowEffect::Kept(self.get(domain)?)),
            Op::FetchAll | Op::FetchUnless(_) => {
                Ok(RowEffect::Kept(self.snapshot()?.into_reply(op.known())))
            }
        }
    }

    /// Leaves what an operation leaves, under the name that it was on.
    fn settle(
        &mut self,
        domain: Option<TrustDomain>,
        outcome: RowEffect,
    ) -> Result<Reply, AllocError>
        ensures reply { IfOk result (λ reply. reply ≡ reply_of outcome) }
        ensures left { OnOk result (self.new ≡ left_by self.old domain outcome) }
        ensures err { OnErr result (self.new ≡ self.old) }
    {
        let Some(domain) = domain else {
            return Ok(outcome.into_reply());
        };
        match outcome {
            RowEffect::Kept(reply) => Ok(reply),
            RowEffect::Put(reply, held) => {
                match held {
                    Holding::Published(_) => self.bundles.insert(domain, held)?,
                    Holding::Mark(sequence) => self.mark(domain, sequence)?,
                }
                Ok(reply)
            }
            RowEffect::Cleared(reply) => {
                self.clear(&domain)?;
                Ok(reply)
            }
        }
    }

    /// All bundles with their names, in order.
    pub(crate) fn snapshot(&self) -> Result<Snapshot, AllocError>
        ensures { IfOk result (λ all. all ≡ bundles self.now) }
    {
        let mut pairs = Vec::with_capacity(self.alloc, self.len())?;
        for (domain, held) in self.bundles.iter() {
            if let Holding::Published(bundle) = held {
                pairs.push((domain.copy()?, bundle.copy()?))?;
            }
        }
        Ok(Snapshot::from_pairs(pairs))
    }

    /// What is held under the name.
    fn at(&self, domain: &TrustDomain) -> Option<&Holding>
        ensures { option_copied result ≡ finite.get self.now domain.now }
    {
        match self.bundles.get(domain) {
            Some(bundle) => Some(bundle),
            None => self.marks.get(domain),
        }
    }

    /// Holds the mark under the name.
    fn mark(&mut self, domain: TrustDomain, sequence: u64) -> Result<(), AllocError>
        ensures ok { OnOk result (self.new ≡ finite.insert self.old domain (Holding.Mark sequence)) }
        ensures err { OnErr result (self.new ≡ self.old) }
    {
        if self.bundles.get(&domain).is_none() {
            return self.marks.insert(domain, Holding::Mark(sequence));
        }
        self.marks.insert(domain.copy()?, Holding::Mark(sequence))?;
        self.bundles.remove(&domain)
    }

    /// Holds nothing under the name.
    fn clear(&mut self, domain: &TrustDomain) -> Result<(), AllocError>
        ensures ok { OnOk result (self.new ≡ finite.remove self.old domain.now) }
        ensures err { OnErr result (self.new ≡ self.old) }
    {
        if self.bundles.get(domain).is_none() {
            return self.marks.remove(domain);
        }
        self.marks.remove(domain)?;
        self.bundles.remove(domain)
    }
}

/// Takes out the entries under the names of the marks.
fn take_out_marked(marks: &SharedMap<Holding>, out: &mut Vec<(TrustDomain, Holding)>)
    ensures { out.new.items ≡ filter (λ e. not (is_some (finite.get marks.now e.0))) out.old.items }
{
    out.retain(|entry| marks.get(&entry.0).is_none());
}

/// Pushes all names with what they hold, in order. The bundles are shared.
fn push_all(
    map: &SharedMap<Holding>,
    out: &mut Vec<(TrustDomain, Holding)>,
) -> Result<(), AllocError>
    ensures { OnOk result (out.new.items ≡ out.old.items ++ finite.entries map.now) }
{
    out.reserve(map.len())?;
    for (domain, held) in map.iter() {
        out.push((domain.copy()?, held.copy()?))?;
    }
    Ok(())
}
