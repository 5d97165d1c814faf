//! What a seat does with the slots that it has.
ghost use Rattle.std.specs.Prelude.{◌≡◌, ◌+◌, ◌<◌, ◌≤◌, ℕ, ◌%◌, [], ◌∷◌, ◌++◌, length, take, drop, IfOk, IfErr};
ghost use Rattle.ifl_ring.specs.Tells.{nothing};
ghost use Rattle.ifl_ring.specs.Acts.{out_all, laid, IsOpening, IsPostFirst, IsItemFirst, InFront, Gathered};
ghost use Rattle.std.specs.VecDeque.{deque_capacity};
ghost use Rattle.atomic_table.specs.Table.{rest};

use crate::bare::{BareRing, BareSeat};
use crate::drainer::Drainer;
use crate::place::{Outlet, Place};
use ifl_base::{DRAIN_BATCH, advance};
use std::alloc::Global;
use std::collections::VecDeque;

/// The room that the drainer's batch needs: for a batch, and for all items of a ring, which come there at its close.
fn batch_room(size: u32) -> usize
    ensures { (32 ≤ result) × (size ≤ result) }
{
    if size < DRAIN_BATCH {
        DRAIN_BATCH as usize
    } else {
        size as usize
    }
}

/// The slots: nothing in each but the last, which has the drainer.
pub fn make_slots<I: Drop, D: Drop>(
    alloc: Global,
    size: u32,
    drainer: D,
) -> Result<Vec<Place<I, D>>, D>
    requires { size ≤ 65536 }
    ensures ok { IfOk result (λ v. IsOpening size drainer v.items) }
    ensures err { IfErr result (λ d. d ≡ drainer) }
{
    let Ok(mut slots) = Vec::with_capacity(alloc, size as usize + 1) else {
        return Err(drainer);
    };
    let Ok(batch) = VecDeque::with_capacity(alloc, batch_room(size)) else {
        return Err(drainer);
    };
    let outlet = match Box::new(alloc, Outlet { drainer, batch }) {
        Ok(outlet) => outlet,
        Err(failed) => {
            let Outlet { drainer, batch: _ } = failed.value;
            return Err(drainer);
        }
    };
    for _ in 0..size {
        slots.push_reserved(Place::Vacant);
    }
    slots.push_reserved(Place::Post(outlet));
    Ok(slots)
}

/// The drainer is the last of the slots.
pub fn drainer_of<I: Drop, D: Drop>(slots: Vec<Place<I, D>>) -> D
    requires { (size : ℕ) × (d : _) × IsOpening size d slots.items }
    ensures { (size : ℕ) (d : _) → IsOpening size d slots.items → result ≡ d }
{
    let mut slots = slots;
    match slots.pop() {
        Some(Place::Post(outlet)) => {
            let Outlet { drainer, batch: _ } = Box::into_inner(outlet);
            drainer
        }
        _ => unreachable!(),
    }
}

impl<D: Drainer> BareRing<D> {
    /// Takes the drainer with its batch out of the slot in front.
    pub fn take_post(&self, seat: &mut BareSeat<D>) -> Box<Outlet<D::Item, D>>
        requires table { seat.old.table_id ≡ self.now.table.shared.table_id }
        requires slot { IsPostFirst self.now.size seat.old.me.1 }
        ensures result { seat.old.me.1 ≡ (self.now.size, Place.Post result) ∷ rest seat.old.me.1 }
        ensures same { (seat.new.table_id ≡ seat.old.table_id) × (seat.new.id ≡ seat.old.id) }
        ensures away { seat.new.me ≡ (seat.old.me.0, (self.now.size, Place.Away) ∷ rest seat.old.me.1) }
    {
        let found = self
            .table
            .shared
            .exchange(seat, self.size as usize, Place::Away);
        match found {
            Place::Post(outlet) => outlet,
            _ => unreachable!(),
        }
    }

    /// Puts the drainer with its batch into the slot in front, which goes behind the others.
    pub fn put_post(&self, seat: &mut BareSeat<D>, outlet: Box<Outlet<D::Item, D>>)
        requires table { seat.old.table_id ≡ self.now.table.shared.table_id }
        requires slot { seat.old.me.1 ≡ (self.now.size, Place.Away) ∷ rest seat.old.me.1 }
        ensures same { (seat.new.table_id ≡ seat.old.table_id) × (seat.new.id ≡ seat.old.id) }
        ensures filled { seat.new.me ≡ (seat.old.me.0, rest seat.old.me.1 ++ (self.now.size, Place.Post outlet) ∷ []) }
    {
        match self
            .table
            .shared
            .exchange(seat, self.size as usize, Place::Post(outlet))
        {
            Place::Away => {}
            _ => unreachable!(),
        }
        seat.turn();
    }

    /// Takes the item out of the slot in front, which goes behind the others.
    pub fn take_item(&self, seat: &mut BareSeat<D>, at: u16) -> D::Item
        requires table { seat.old.table_id ≡ self.now.table.shared.table_id }
        requires slot { IsItemFirst at seat.old.me.1 }
        ensures item { seat.old.me.1 ≡ (at, Place.Item result) ∷ rest seat.old.me.1 }
        ensures same { (seat.new.table_id ≡ seat.old.table_id) × (seat.new.id ≡ seat.old.id) }
        ensures turned { seat.new.me ≡ (seat.old.me.0, rest seat.old.me.1 ++ (at, Place.Vacant) ∷ []) }
    {
        let found = self.table.shared.exchange(seat, at as usize, Place::Vacant);
        seat.turn();
        match found {
            Place::Item(item) => item,
            _ => unreachable!(),
        }
    }

    /// Moves items from the slots in front into the batch, while it has room.
    pub fn gather(
        &self,
        seat: &mut BareSeat<D>,
        batch: &mut VecDeque<D::Item>,
        at: u16,
        left: u32,
    ) -> (u16, u32)
        requires table { seat.old.table_id ≡ self.now.table.shared.table_id }
        requires front { InFront self.now.size at left seat.old.me.1 }
        requires room { 32 ≤ deque_capacity batch.old }
        requires at { at < self.now.size }
        requires few { length batch.old.items ≤ 32 }
        ensures few { length batch.new.items ≤ 32 }
        ensures room { deque_capacity batch.new ≡ deque_capacity batch.old }
        ensures at { result.0 < self.now.size }
        ensures stop { 0 < result.1 → 32 ≤ length batch.new.items }
        ensures same { (seat.new.table_id ≡ seat.old.table_id) × (seat.new.id ≡ seat.old.id) × (seat.new.me.0 ≡ seat.old.me.0) }
        ensures gathered { (front : InFront self.now.size at left seat.old.me.1) → Gathered self.now.size front.start front.items front.behind batch.old.items batch.new.items result.0 result.1 seat.new.me.1 }
    {
        let mut slot = at;
        let mut more = left;
        while more > 0 && batch.len() < DRAIN_BATCH as usize {
            let item = self.take_item(seat, slot);
            batch.push_back_reserved(item);
            slot = advance(self.size, slot, 1);
            more -= 1;
        }
        (slot, more)
    }

    /// The first k slots go behind the others.
    pub fn turn_by(&self, seat: &mut BareSeat<D>, k: u32)
        requires count { k ≤ length seat.old.me.1 }
        ensures same { (seat.new.table_id ≡ seat.old.table_id) × (seat.new.id ≡ seat.old.id) × (seat.new.me.0 ≡ seat.old.me.0) }
        ensures turned { seat.new.me.1 ≡ drop k seat.old.me.1 ++ take k seat.old.me.1 }
    {
        for _ in 0..k {
            seat.turn();
        }
    }

    /// Puts the item into the slot in front, which goes behind the others.
    pub fn refill(&self, seat: &mut BareSeat<D>, at: u16, item: D::Item)
        requires table { seat.old.table_id ≡ self.now.table.shared.table_id }
        requires slot { seat.old.me.1 ≡ (at, Place.Vacant) ∷ rest seat.old.me.1 }
        ensures same { (seat.new.table_id ≡ seat.old.table_id) × (seat.new.id ≡ seat.old.id) }
        ensures filled { seat.new.me ≡ (seat.old.me.0, rest seat.old.me.1 ++ (at, Place.Item item) ∷ []) }
    {
        match self
            .table
            .shared
            .exchange(seat, at as usize, Place::Item(item))
        {
            Place::Vacant => {}
            _ => unreachable!(),
        }
        seat.turn();
    }

    /// Puts what is left of the batch back into the slots in front, which go behind the others.
    pub fn put_back(&self, seat: &mut BareSeat<D>, batch: &mut VecDeque<D::Item>, at: u16)
        requires table { seat.old.table_id ≡ self.now.table.shared.table_id }
        requires front { (a : ℕ) × (c : _) × (at ≡ a % self.now.size) × (seat.old.me.1 ≡ out_all nothing self.now.size a (length batch.old.items) c) }
        requires at { at < self.now.size }
        ensures same { (seat.new.table_id ≡ seat.old.table_id) × (seat.new.id ≡ seat.old.id) × (seat.new.me.0 ≡ seat.old.me.0) }
        ensures batch { (batch.new.items ≡ []) × (deque_capacity batch.new ≡ deque_capacity batch.old) }
        ensures back { (a : ℕ) (c : _) → at ≡ a % self.now.size → seat.old.me.1 ≡ out_all nothing self.now.size a (length batch.old.items) c → seat.new.me.1 ≡ c ++ laid self.now.size a batch.old.items [] }
    {
        let mut slot = at;
        while let Some(item) = batch.pop_front() {
            self.refill(seat, slot, item);
            slot = advance(self.size, slot, 1);
        }
    }
}
