//! The map.
ghost use Rattle.std.specs.Prelude.{◌≡◌, IfOk, OnOk, OnErr, option_copied};
ghost use Rattle.std.specs.FinMap as finite;

use crate::Shared;
use crate::entries::Entries;
use crate::top::Top;
use spiffe_doc::TrustDomain;
use std::alloc::{AllocError, Global};
use std::marker::Model;

/// An ordered map from trust domain names to values, whose copies share their nodes. Clauses see it as a finite map.
#[derive(Drop)]
pub struct SharedMap<V> {
    alloc: Global,
    top: Option<Top<V>>,
    len: usize,
}

impl<V> Model for SharedMap<V> {
    ghost use Rattle.std.specs.Prelude.{◌≡◌, length};
    ghost use Rattle.std.specs.Coded.{coded_ℕ, coded_list};
    ghost use Rattle.std.specs.FinMap as finite;
    ghost use Rattle.shared_map.specs.Name.{name_cmp};
    ghost use Rattle.shared_map.specs.Marks.{IsSorted, plain};

    ghost Value = { finite.FinMap name_cmp V };

    ghost coded = { finite.code (coded_list coded_ℕ) V.code };

    ghost use Rattle.shared_map.specs.Top.{top_marks};

    ghost view = { λ map. finite.from_sorted (plain (top_marks map.top)) };

    ghost invariant = { λ map. IsSorted (top_marks map.top) × (map.len ≡ length (plain (top_marks map.top))) };
}

impl<V: Shared> SharedMap<V> {
    /// The empty map. It takes no memory.
    pub fn new(alloc: Global) -> SharedMap<V>
        ensures { result ≡ finite.empty }
    {
        SharedMap {
            alloc,
            top: None,
            len: 0,
        }
    }

    /// How many names have a value.
    pub fn len(&self) -> usize
        ensures { result ≡ finite.len self.now }
    {
        self.len
    }

    /// The same map, with its nodes shared. Errors only if as many maps share them as can be counted.
    pub fn copy(&self) -> Result<SharedMap<V>, AllocError>
        ensures { IfOk result (λ copy. copy ≡ self.now) }
    {
        let top = match &self.top {
            None => None,
            Some(top) => Some(top.copy()?),
        };
        Ok(SharedMap {
            alloc: self.alloc,
            top,
            len: self.len,
        })
    }

    /// The value under the name.
    pub fn get(&self, name: &TrustDomain) -> Option<&V>
        ensures { option_copied result ≡ finite.get self.now name.now }
    {
        match &self.top {
            None => None,
            Some(top) => top.get(name),
        }
    }

    /// The entries in order.
    pub fn iter(&self) -> Entries<'_, V>
        ensures { result ≡ finite.entries self.now }
    {
        let Some(top) = &self.top else {
            return Entries::new(&[], &[], &[], &[]);
        };
        top.entries()
    }

    /// Puts the value under the name, in place of any that is there. Errors if memory runs out, and nothing has changed.
    pub fn insert(&mut self, name: TrustDomain, value: V) -> Result<(), AllocError>
        ensures ok { OnOk result (self.new ≡ finite.insert self.old name value) }
        ensures err { OnErr result (self.new ≡ self.old) }
    {
        match &mut self.top {
            None => {
                self.top = Some(Top::of(self.alloc, name, value)?);
                self.len = 1;
            }
            Some(top) => {
                let Some(more) = self.len.checked_add(1) else {
                    return Err(AllocError);
                };
                top.make_room(self.alloc, &name)?;
                if top.put(name, value)? {
                    self.len = more;
                }
            }
        }
        Ok(())
    }

    /// Takes away the value under the name, if there is one. Errors if memory for the nodes that are shared runs out, and
    /// nothing has changed.
    pub fn remove(&mut self, name: &TrustDomain) -> Result<(), AllocError>
        ensures ok { OnOk result (self.new ≡ finite.remove self.old name.now) }
        ensures err { OnErr result (self.new ≡ self.old) }
    {
        let Some(top) = &mut self.top else {
            return Ok(());
        };
        if top.get(name).is_none() {
            return Ok(());
        }
        top.take_out(name)?;
        self.len = self.len.saturating_sub(1);
        if self.len == 0 {
            drop(self.top.take());
        }
        Ok(())
    }
}
