//! A ring that was closed.
ghost use Rattle.std.specs.Prelude.{◌≡◌, map};
ghost use Rattle.ifl_ring.specs.Closed.{IsEnded, left_after};
ghost use Rattle.ifl_ringcore.specs.History.{state_after};
ghost use Rattle.ifl_ringcore.specs.State.{first_state, ring_word};

use crate::drainer::RingItem;
use crate::view::View;
use atomic_table::Badge;
use ifl_base::RingWord;
use std::collections::VecDeque;
use std::marker::Model;
use std::snapshot::Snapshot;

/// What [`Ring::close`](crate::Ring::close) leaves: the last word, and the items that were published and not
/// released, of which the caller is the owner. It stands for the size and the whole history of the ring.
///
/// `O` is what the ring's drainer was made with.
#[derive(Drop)]
pub struct ClosedRing<I: RingItem, O> {
    pub(crate) word: RingWord,
    pub(crate) left: VecDeque<I>,
    pub(crate) size: u32,
    pub(crate) last: Snapshot<Badge<View<O>>>,
}

impl<I: RingItem, O> Model for ClosedRing<I, O> {
    ghost use Rattle.ifl_ring.specs.Closed.{ClosedState, IsClosed, last_seen};

    ghost Value = { ClosedState I };

    ghost view = { λ c. record { size = c.size; history = last_seen c.last.value.views; left = c.left.items } };

    ghost invariant = { λ c. IsClosed I.meaning c.size (last_seen c.last.value.views) c.word c.left.items };
}

impl<I: RingItem, O> ClosedRing<I, O> {
    /// The last word.
    pub fn word(&self) -> RingWord
        ensures word { result ≡ ring_word self.now.size (state_after first_state self.now.history) }
        ensures ended { IsEnded self.now.size self.now.history }
    {
        self.word
    }

    /// The items that are left, in the order in which they were published.
    pub fn left(&self) -> &VecDeque<I>
        ensures items { result.now.items ≡ self.now.left }
        ensures published { map I.meaning self.now.left ≡ left_after self.now.history }
    {
        &self.left
    }

    /// Hands the items over.
    pub fn into_left(self) -> VecDeque<I>
        ensures items { result.items ≡ self.left }
        ensures published { map I.meaning self.left ≡ left_after self.history }
    {
        let ClosedRing { left, .. } = self;
        left
    }
}
