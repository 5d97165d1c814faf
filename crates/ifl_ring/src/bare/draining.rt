//! The drain: rounds of batches, each of which ends with a step on the word.
ghost use Rattle.std.specs.Prelude.{◌⊎◌, true, false, ◌≡◌, ◌≢◌, ◌+◌, ◌<◌, ◌≤◌, ℕ, ◌%◌, [], length};
ghost use Rattle.ifl_ring.specs.Tells.{Parked};
ghost use Rattle.ifl_ring.specs.Draining.{IsFresh, Drives, Consuming, EndsRound, GoesOn};
ghost use Rattle.ifl_ring.specs.Calls.{IsDrain, IsTotal};
ghost use Rattle.ifl_ring.specs.Tally.{drain_rise};
ghost use Rattle.ifl_ring.specs.Trails.{IsLived, IsRelease, Trails};
ghost use Rattle.ifl_ring.specs.Law.{IsAtRest};

use crate::bare::{BareRing, BareSeat};
use crate::drainer::{Drainer, RingItem};
use crate::place::{Outlet, Place};
use ifl_base::{Flag, UPDATE_AFTER, advance};
use ifl_ringcore::words::is_busy;
use std::collections::VecDeque;
use std::sync::Wait;

/// A round so far.
#[derive(Drop)]
pub struct Round {
    /// How many items are consumed in it.
    pub count: u32,
    /// How many items are consumed in the whole drain, or `u64::MAX` where they are more.
    pub total: u64,
    /// Whether the drainer consumed none at last.
    pub stalled: bool,
    /// The place of the first item that is left in the slots.
    pub at: u16,
    /// How many items are left in the slots.
    pub left: u32,
}

/// A round that ended.
#[derive(Drop)]
pub struct Done {
    /// The flag that it set.
    pub flag: Flag,
    /// How many items are consumed in the whole drain, or `u64::MAX` where they are more.
    pub total: u64,
    /// The place at which the next round begins, where the flag is busy.
    pub at: u16,
    /// How many items the next round has.
    pub left: u32,
}

/// Whether a round goes on after a batch.
pub fn goes_on(k: u32, more: u64, count: u32, total: u64, budget: u32) -> bool
    ensures yes { result ≡ true → (1 ≤ k) × (1 ≤ more) × (count < 64) × (total < budget) }
    ensures no { result ≡ false → (k ≡ 0) ⊎ (more ≡ 0) ⊎ (64 ≤ count) ⊎ (budget ≤ total) }
{
    k > 0 && more > 0 && count < UPDATE_AFTER && total < budget as u64
}

/// Whether nothing was consumed.
pub fn is_none(k: u32) -> bool
    ensures yes { result ≡ true → k ≡ 0 }
    ensures no { result ≡ false → 1 ≤ k }
{
    k == 0
}

/// Whether the total has come to the budget.
pub fn has_reached(total: u64, budget: u32) -> bool
    ensures yes { result ≡ true → budget ≤ total }
    ensures no { result ≡ false → total < budget }
{
    total >= budget as u64
}

impl<D: Drainer> BareRing<D> {
    /// Takes the drainer out at the start of a round.
    pub fn begin(&self, seat: &mut BareSeat<D>, at: u16, left: u32) -> Box<Outlet<D::Item, D>>
        requires table { seat.old.table_id ≡ self.now.table.shared.table_id }
        requires drives { Drives D.Item.meaning D.origin D.settled D.stands_for self.now.size left at seat.old.me }
        ensures same { (seat.new.table_id ≡ seat.old.table_id) × (seat.new.id ≡ seat.old.id) × (seat.new.me.0 ≡ seat.old.me.0) }
        ensures consuming { (v : Drives D.Item.meaning D.origin D.settled D.stands_for self.now.size left at seat.old.me) → (c : Consuming D.Item.meaning D.origin D.settled D.stands_for self.now.size 0 left at result.value.drainer result.value.batch seat.new.me) × (c.consumer ≡ v.consumer) × (result.value.batch.items ≡ []) }
    {
        let out = self.take_post(seat);
        seat.turn();
        out
    }

    /// Fills the batch and calls the drainer once: how many it consumed, and what is left in the slots.
    pub fn offer<R: Wait>(
        &self,
        rt: &R,
        seat: &mut BareSeat<D>,
        drainer: &mut D,
        batch: &mut VecDeque<D::Item>,
        n: u32,
        at: u16,
        left: u32,
    ) -> (u32, u16, u32)
        requires table { seat.old.table_id ≡ self.now.table.shared.table_id }
        requires at { at < self.now.size }
        requires some { 1 ≤ left + length batch.old.items }
        requires consuming { Consuming D.Item.meaning D.origin D.settled D.stands_for self.now.size n left at drainer.old batch.old seat.old.me }
        ensures same { (seat.new.table_id ≡ seat.old.table_id) × (seat.new.id ≡ seat.old.id) × (seat.new.me.0 ≡ seat.old.me.0) }
        ensures at { result.1 < self.now.size }
        ensures less { result.2 + length batch.new.items + result.0 ≡ left + length batch.old.items }
        ensures count { result.0 ≤ 32 }
        ensures full { result.0 ≡ 0 → D.full drainer.new }
        ensures consuming { (c : Consuming D.Item.meaning D.origin D.settled D.stands_for self.now.size n left at drainer.old batch.old seat.old.me) → (x : Consuming D.Item.meaning D.origin D.settled D.stands_for self.now.size (n + result.0) result.2 result.1 drainer.new batch.new seat.new.me) × (x.consumer ≡ c.consumer) }
    {
        let (slot, more) = self.gather(seat, batch, at, left);
        let k = drainer.drain(rt, batch);
        (k, slot, more)
    }

    /// All items that are not consumed and the drainer go back into the slots.
    pub fn park(
        &self,
        seat: &mut BareSeat<D>,
        outlet: Box<Outlet<D::Item, D>>,
        first: u16,
        n: u32,
        at: u16,
        left: u32,
    )
        requires table { seat.old.table_id ≡ self.now.table.shared.table_id }
        requires consuming { (c : Consuming D.Item.meaning D.origin D.settled D.stands_for self.now.size n left at outlet.value.drainer outlet.value.batch seat.old.me) × (first ≡ (c.consumer.done + n) % self.now.size) }
        requires range { (first < self.now.size) × (n < self.now.size) × (left < self.now.size) }
        ensures same { (seat.new.table_id ≡ seat.old.table_id) × (seat.new.id ≡ seat.old.id) × (seat.new.me.0 ≡ seat.old.me.0) }
        ensures parked { (c : Consuming D.Item.meaning D.origin D.settled D.stands_for self.now.size n left at outlet.value.drainer outlet.value.batch seat.old.me) → first ≡ (c.consumer.done + n) % self.now.size → (p : Parked D.Item.meaning D.origin D.settled D.full D.stands_for self.now.size n seat.new.me) × (p.consumer ≡ c.consumer) × (p.outlet.value.drainer ≡ outlet.value.drainer) }
    {
        let mut outlet = outlet;
        self.turn_by(seat, left + 1 + n);
        self.put_back(seat, &mut outlet.batch, first);
        self.turn_by(seat, left);
        self.put_post(seat, outlet);
    }

    /// One batch: whether the round goes on.
    pub fn take_turn<R: Wait>(
        &self,
        rt: &R,
        seat: &mut BareSeat<D>,
        drainer: &mut D,
        batch: &mut VecDeque<D::Item>,
        round: &mut Round,
        budget: u32,
    ) -> bool
        requires table { seat.old.table_id ≡ self.now.table.shared.table_id }
        requires at { (round.old.at < self.now.size) × (budget ≤ 65535) }
        requires going { (c : Consuming D.Item.meaning D.origin D.settled D.stands_for self.now.size round.old.count round.old.left round.old.at drainer.old batch.old seat.old.me) × GoesOn round.old.count (round.old.left + length batch.old.items) c.consumer }
        ensures same { (seat.new.table_id ≡ seat.old.table_id) × (seat.new.id ≡ seat.old.id) × (seat.new.me.0 ≡ seat.old.me.0) }
        ensures at { round.new.at < self.now.size }
        ensures less { result ≡ true → round.new.left + length batch.new.items < round.old.left + length batch.old.items }
        ensures turn { (c : Consuming D.Item.meaning D.origin D.settled D.stands_for self.now.size round.old.count round.old.left round.old.at drainer.old batch.old seat.old.me) → IsTotal round.old.total (c.consumer.total + round.old.count) → c.consumer.budget ≡ budget → GoesOn round.old.count (round.old.left + length batch.old.items) c.consumer
            → (x : Consuming D.Item.meaning D.origin D.settled D.stands_for self.now.size round.new.count round.new.left round.new.at drainer.new batch.new seat.new.me) × (x.consumer ≡ c.consumer) × IsTotal round.new.total (c.consumer.total + round.new.count)
            × (result ≡ true → GoesOn round.new.count (round.new.left + length batch.new.items) c.consumer)
            × (result ≡ false → EndsRound round.new.stalled (D.full drainer.new) round.new.count (round.new.left + length batch.new.items) c.consumer) }
    {
        let (k, slot, rest) = self.offer(
            rt,
            seat,
            drainer,
            batch,
            round.count,
            round.at,
            round.left,
        );
        let count = round.count + k;
        let total = round.total.saturating_add(k as u64);
        let more = rest as u64 + batch.len() as u64;
        let stalled = is_none(k);
        *round = Round {
            count,
            total,
            stalled,
            at: slot,
            left: rest,
        };
        goes_on(k, more, count, total, budget)
    }

    /// One batch after the other, until the visible cidx is to be moved or the drainer consumes nothing.
    pub fn consume<R: Wait>(
        &self,
        rt: &R,
        seat: &mut BareSeat<D>,
        drainer: &mut D,
        batch: &mut VecDeque<D::Item>,
        at: u16,
        left: u32,
        before: u64,
        budget: u32,
    ) -> Round
        requires table { seat.old.table_id ≡ self.now.table.shared.table_id }
        requires at { (at < self.now.size) × (1 ≤ left) × (budget ≤ 65535) }
        requires consuming { (c : Consuming D.Item.meaning D.origin D.settled D.stands_for self.now.size 0 left at drainer.old batch.old seat.old.me) × IsTotal before c.consumer.total × (c.consumer.budget ≡ budget) × (batch.old.items ≡ []) }
        ensures same { (seat.new.table_id ≡ seat.old.table_id) × (seat.new.id ≡ seat.old.id) × (seat.new.me.0 ≡ seat.old.me.0) }
        ensures at { result.at < self.now.size }
        ensures round { (c : Consuming D.Item.meaning D.origin D.settled D.stands_for self.now.size 0 left at drainer.old batch.old seat.old.me) → IsTotal before c.consumer.total → c.consumer.budget ≡ budget
            → (x : Consuming D.Item.meaning D.origin D.settled D.stands_for self.now.size result.count result.left result.at drainer.new batch.new seat.new.me) × (x.consumer ≡ c.consumer) × IsTotal result.total (c.consumer.total + result.count)
            × EndsRound result.stalled (D.full drainer.new) result.count (result.left + length batch.new.items) c.consumer }
    {
        let mut round = Round {
            count: 0,
            total: before,
            stalled: false,
            at,
            left,
        };
        while self.take_turn(rt, seat, drainer, batch, &mut round, budget) {}
        round
    }

    /// One round of the drain: the flag that is set, and where the next round begins.
    #[inline(always)]
    pub fn round<R: Wait>(
        &self,
        rt: &R,
        seat: &mut BareSeat<D>,
        at: u16,
        left: u32,
        before: u64,
        budget: u32,
    ) -> Done
        requires table { seat.old.table_id ≡ self.now.table.shared.table_id }
        requires at { (at < self.now.size) × (left < self.now.size) × (budget ≤ 65535) }
        requires lived { IsLived self.now.size seat.old.me.0.known }
        requires drives { (v : Drives D.Item.meaning D.origin D.settled D.stands_for self.now.size left at seat.old.me) × IsTotal before v.consumer.total × (v.consumer.budget ≡ budget) }
        ensures same { (seat.new.table_id ≡ seat.old.table_id) × (seat.new.id ≡ seat.old.id) }
        ensures left { result.flag ≢ Flag.Busy → IsAtRest seat.new.me.0.known × (seat.new.me.0.told ≡ []) × (seat.new.me.1 ≡ []) }
        ensures trail { (v : Drives D.Item.meaning D.origin D.settled D.stands_for self.now.size left at seat.old.me) → IsTotal before v.consumer.total → v.consumer.budget ≡ budget
            → (n : ℕ) × (es : _) × IsRelease result.flag n es × Trails self.now.size seat.old.me.0.known es (drain_rise v.consumer.from result.flag (v.consumer.total + n)) seat.new.me.0.known × IsTotal result.total (v.consumer.total + n)
            × (result.flag ≡ Flag.Busy → (result.at < self.now.size) × (result.left < self.now.size) × ((x : Drives D.Item.meaning D.origin D.settled D.stands_for self.now.size result.left result.at seat.new.me) × (x.consumer.total ≡ v.consumer.total + n) × (x.consumer.budget ≡ budget) × (x.consumer.from ≡ v.consumer.from))) }
    {
        let mut outlet = self.begin(seat, at, left);
        let Outlet { drainer, batch } = &mut *outlet;
        let round = self.consume(rt, seat, drainer, batch, at, left, before, budget);
        let first = advance(self.size, at, round.count);
        self.park(seat, outlet, first, round.count, round.at, round.left);
        let over = has_reached(round.total, budget);
        let (flag, place, items) = self.settle(rt, seat, round.count, round.stalled, over);
        Done {
            flag,
            total: round.total,
            at: place,
            left: items,
        }
    }

    /// Drains until the ring is no longer busy: the flag that is left, and how many items were consumed. `from`, the
    /// flag before, is for the contract alone.
    #[inline(always)]
    pub fn drain<R: Wait>(
        &self,
        rt: &R,
        seat: &mut BareSeat<D>,
        at: u16,
        left: u32,
        budget: u32,
        from: Flag,
    ) -> (Flag, u64)
        requires table { seat.old.table_id ≡ self.now.table.shared.table_id }
        requires at { (at < self.now.size) × (left < self.now.size) × (budget ≤ 65535) }
        requires lived { IsLived self.now.size seat.old.me.0.known }
        requires drives { (v : Drives D.Item.meaning D.origin D.settled D.stands_for self.now.size left at seat.old.me) × IsFresh budget from v.consumer }
        ensures same { (seat.new.table_id ≡ seat.old.table_id) × (seat.new.id ≡ seat.old.id) }
        ensures left { (result.0 ≢ Flag.Busy) × IsAtRest seat.new.me.0.known × (seat.new.me.0.told ≡ []) × (seat.new.me.1 ≡ []) }
        ensures trail { (es : _) × IsDrain result.0 result.1 es × Trails self.now.size seat.old.me.0.known es (drain_rise from result.0 result.1) seat.new.me.0.known }
    {
        let mut place = at;
        let mut items = left;
        let mut total = 0;
        for _ in rt.forever() {
            let done = self.round(rt, seat, place, items, total, budget);
            if is_busy(done.flag) {
                place = done.at;
                items = done.left;
                total = done.total;
            } else {
                return (done.flag, done.total);
            }
        }
        unreachable!()
    }
}
