//! What each step on the shared table tells.
ghost use Rattle.std.specs.Prelude.{ℕ};
ghost use Rattle.shard_store.specs.declared.change.Change.{Change};
ghost use Rattle.shard_store.specs.Steps.{LoadsWord, TakesShard, ReleasesShard, PublishesChange};
ghost use Rattle.shard_store.specs.Rule.{giver_view, receiver_view, joiner_view, empty_view};

use crate::change::{Change, View};
use crate::rule::Slot;
use atomic_table::{Join, Play, Split};
use std::marker::{Brand, PhantomData};

pub(crate) struct Look;

impl Play<Slot, View> for Look {
    ghost then = { LoadsWord };
}

pub(crate) struct Take;

impl Play<Slot, View> for Take {
    ghost then = { TakesShard };
}

pub(crate) struct Release;

impl Play<Slot, View> for Release {
    ghost then = { ReleasesShard };
}

/// Names the change that a call makes.
pub(crate) trait NamesChange {
    ghost change: { Change };
}

impl NamesChange for Brand {
    ghost use Rattle.shard_store.specs.Private.Fresh.{no_change};

    ghost change = { no_change };
}

pub(crate) struct Publish<W> {
    written: PhantomData<W>,
}

impl<W: NamesChange> Play<Slot, View> for Publish<W> {
    ghost then = { PublishesChange W.change };
}

/// Names how many numbers a call gives away.
pub(crate) trait NamesShare {
    ghost share: { ℕ };
}

impl NamesShare for Brand {
    ghost share = { 0 };
}

pub(crate) struct SplitOff<N> {
    share: PhantomData<N>,
}

impl<N: NamesShare> Split<View> for SplitOff<N> {
    ghost left = { giver_view N.share };

    ghost right = { receiver_view N.share };
}

pub(crate) struct TakeIn;

impl Join<View> for TakeIn {
    ghost both = { joiner_view };

    ghost spent = { empty_view };
}
