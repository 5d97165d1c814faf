//! Emptying the table of a ring that no seat shares any more.
ghost use Rattle.std.specs.Prelude.{◌≡◌, ◌+◌, ◌-◌, ◌<◌, ◌≤◌, ◌⊎◌, ℕ, [], ◌++◌, length, take, drop, false, slice_index_or};
ghost use Rattle.std.specs.Mem.Slots.{slots_items, slots_filled, slots_len};
ghost use Rattle.std.specs.Mem.Slots.Ownership.{Filled};
ghost use Rattle.std.specs.VecDeque.{deque_capacity};
ghost use Rattle.ifl_base.specs.declared.limits.TheConstants.{PART};
ghost use Rattle.ifl_ring.specs.Acts.{item_in};
ghost use Rattle.ifl_ring.specs.Closed.{IsClosed, IsHandedBack, items_lying};
ghost use Rattle.ifl_ring.specs.Seats.{AreAmong};
ghost use Rattle.ifl_ring.specs.Law.{Rests};

use crate::bare::{BareRing, BareSeat, read};
use crate::drainer::{Drainer, RingItem};
use crate::place::{Outlet, Place};
use atomic_table::Closed;
use ifl_base::{PART, RingWord};
use std::alloc::Global;
use std::collections::VecDeque;

// The item of a slot goes behind those that are there.
fn keep_item<I: Drop, D: Drop>(place: Place<I, D>, left: &mut VecDeque<I>)
    requires room { length left.old.items < deque_capacity left.old }
    ensures item { left.new.items ≡ left.old.items ++ item_in place [] }
    ensures room { deque_capacity left.new ≡ deque_capacity left.old }
{
    match place {
        Place::Item(item) => left.push_back_reserved(item),
        _ => {}
    }
}

// Empties a row of slots. The items in it go behind those that are there.
fn sweep<I: Drop, D: Drop>(
    closed: &mut Closed<Place<I, D>, Global>,
    from: usize,
    to: usize,
    left: &mut VecDeque<I>,
)
    requires row { (from ≤ to) × (to ≤ slots_len closed.old.slots) × Filled (slots_filled closed.old.slots) from to }
    requires room { length left.old.items + (to - from) ≤ deque_capacity left.old }
    ensures items { left.new.items ≡ left.old.items ++ items_lying (take (to - from) (drop from (slots_items closed.old.slots))) }
    ensures few { length left.new.items ≤ length left.old.items + (to - from) }
    ensures room { deque_capacity left.new ≡ deque_capacity left.old }
    ensures emptied { (k : ℕ) → from ≤ k → k < to → slice_index_or (slots_filled closed.new.slots) k false ≡ false }
    ensures others { (k : ℕ) → (k < from) ⊎ (to ≤ k) → slice_index_or (slots_filled closed.new.slots) k false ≡ slice_index_or (slots_filled closed.old.slots) k false }
    ensures same { (slots_items closed.new.slots ≡ slots_items closed.old.slots) × (slots_len closed.new.slots ≡ slots_len closed.old.slots) × (closed.new.words ≡ closed.old.words) }
{
    for k in from..to {
        keep_item(closed.take(k), left);
    }
}

impl<D: Drainer> BareRing<D> {
    /// Ends the ring with its whole seat: the last word, the items that are left, in the room of the batch, and the
    /// drainer.
    pub fn close(self, seat: BareSeat<D>) -> (RingWord, VecDeque<D::Item>, D)
        requires own { seat.table_id ≡ self.table.shared.table_id }
        requires rest { Rests seat.me }
        requires whole { seat.me.0.known.part ≡ PART }
        ensures closed { IsClosed D.Item.meaning self.size seat.me.0.known.seen result.0 result.1.items }
        ensures drainer { IsHandedBack D.origin D.settled D.full D.stands_for (D.origin self.table.shared.key.drainer.value) seat.me.0.known.seen result.2 }
        ensures all { AreAmong seat.me.0.known.stands seat.me.0.known.seen }
    {
        let BareRing { table, size } = self;
        let mut closed = table.close_with(seat);
        let word = read(size, closed.word(0));
        let Place::Post(outlet) = closed.take(size as usize) else {
            unreachable!()
        };
        let Outlet { drainer, batch } = Box::into_inner(outlet);
        let mut left = batch;
        let first = word.cidx as usize;
        sweep(&mut closed, first, size as usize, &mut left);
        sweep(&mut closed, 0, first, &mut left);
        closed.free();
        (word, left, drainer)
    }
}
