//! What an end holds of a ring. The adapters' ends are made of it.
ghost use Rattle.std.specs.Prelude.{◌≡◌, ◌+◌, ◌<◌, ◌≤◌, ◌∷◌, ◌++◌, length, take, drop, suc, [], vec_capacity};
ghost use Rattle.ifl_desc.specs.Rule.{Slot};
ghost use Rattle.ifl_desc.specs.Rack.{SameSeat, IsRack, placed, taken, ahead, seen_of, spin};
ghost use Rattle.ifl_desc.specs.History.{other, sent};
ghost use lib.ListN.{get_elem?};
ghost use mathlib.Core.Option.{some};

use crate::{Desc, IsSide, View};
use atomic_table::{Seat, Shared, TableRule};

pub type EndSeat = Seat<Option<Desc>, View>;

/// The slots that an end holds lie side by side in the ring, from `first` on: `put` full ones, `bare` empty ones and `left` that may be taken.
#[derive(Drop)]
pub struct Rack {
    pub seat: EndSeat,
    pub size: u32,
    pub first: u32,
    pub put: u32,
    pub bare: u32,
    pub left: u32,
}

// Reads and writes the slot behind the first `at` ones.
pub(crate) fn swap_at<P: TableRule<Option<Desc>, View, u32>>(
    shared: &Shared<Option<Desc>, View, u32, P>,
    seat: &mut EndSeat,
    count: u32,
    at: u32,
    slot: usize,
    new: Option<Desc>,
) -> Option<Desc>
    requires table { seat.old.table_id ≡ shared.now.table_id }
    requires count { (count ≡ length seat.old.me.1) × (at < count) }
    requires here { (old : Slot) × (drop at seat.old.me.1 ≡ (slot, old) ∷ drop (suc at) seat.old.me.1) }
    ensures seat { SameSeat seat.old seat.new }
    ensures slots { seat.new.me.1 ≡ take at seat.old.me.1 ++ (slot, new) ∷ drop (suc at) seat.old.me.1 }
    ensures value { drop at seat.old.me.1 ≡ (slot, result) ∷ drop (suc at) seat.old.me.1 }
{
    for _ in 0..at {
        seat.turn();
    }
    let old = shared.exchange(seat, slot, new);
    for _ in at..count {
        seat.turn();
    }
    old
}

impl Rack {
    /// The first `n` slots go behind the others.
    pub fn turn_all(&mut self, n: u32)
        ensures seat { SameSeat self.old.seat self.new.seat }
        ensures slots { self.new.seat.me.1 ≡ spin n self.old.seat.me.1 }
        ensures counts { (self.new.put ≡ self.old.put) × (self.new.bare ≡ self.old.bare) × (self.new.left ≡ self.old.left) × (self.new.first ≡ self.old.first) × (self.new.size ≡ self.old.size) }
    {
        for _ in 0..n {
            self.seat.turn();
        }
    }

    /// Puts `d` into the first empty slot.
    pub fn place<R: IsSide, P: TableRule<Option<Desc>, View, u32>>(
        &mut self,
        shared: &Shared<Option<Desc>, View, u32, P>,
        d: Desc,
    )
        requires table { self.old.seat.table_id ≡ shared.now.table_id }
        requires rack { IsRack R.side self.old }
        requires room { 0 < self.old.bare }
        ensures rack { IsRack R.side self.new }
        ensures seat { SameSeat self.old.seat self.new.seat }
        ensures placed { placed self.new ≡ placed self.old ++ d ∷ [] }
        ensures counts { (self.new.put ≡ self.old.put + 1) × (self.new.bare + 1 ≡ self.old.bare) × (self.new.left ≡ self.old.left) × (self.new.first ≡ self.old.first) × (self.new.size ≡ self.old.size) }
    {
        let count = self.put + self.bare + self.left;
        let slot = (self.first + self.put) % self.size;
        let old = swap_at(
            shared,
            &mut self.seat,
            count,
            self.put,
            slot as usize,
            Some(d),
        );
        let None = old else { unreachable!() };
        self.put += 1;
        self.bare -= 1;
    }

    /// Takes the first entry that may be taken.
    pub fn take<R: IsSide, P: TableRule<Option<Desc>, View, u32>>(
        &mut self,
        shared: &Shared<Option<Desc>, View, u32, P>,
    ) -> Desc
        requires table { self.old.seat.table_id ≡ shared.now.table_id }
        requires rack { IsRack R.side self.old }
        requires some { 0 < self.old.left }
        ensures rack { IsRack R.side self.new }
        ensures seat { SameSeat self.old.seat self.new.seat }
        ensures placed { placed self.new ≡ placed self.old }
        ensures value { get_elem? (sent (other R.side) (seen_of self.old)) (taken R.side self.old) ≡ some result }
        ensures counts { (self.new.put ≡ self.old.put) × (self.new.bare ≡ self.old.bare + 1) × (self.new.left + 1 ≡ self.old.left) × (self.new.first ≡ self.old.first) × (self.new.size ≡ self.old.size) }
    {
        let count = self.put + self.bare + self.left;
        let at = self.put + self.bare;
        let slot = (self.first + at) % self.size;
        let old = swap_at(shared, &mut self.seat, count, at, slot as usize, None);
        let Some(d) = old else { unreachable!() };
        self.bare += 1;
        self.left -= 1;
        d
    }

    /// Takes all entries that may be taken, in order, and puts them behind those in `out`.
    pub fn take_all<R: IsSide, P: TableRule<Option<Desc>, View, u32>>(
        &mut self,
        shared: &Shared<Option<Desc>, View, u32, P>,
        out: &mut Vec<Desc>,
    )
        requires table { self.old.seat.table_id ≡ shared.now.table_id }
        requires rack { IsRack R.side self.old }
        requires room { length out.old.items + self.old.left ≤ vec_capacity out.old }
        ensures rack { IsRack R.side self.new }
        ensures seat { SameSeat self.old.seat self.new.seat }
        ensures placed { placed self.new ≡ placed self.old }
        ensures out { out.new.items ≡ out.old.items ++ ahead R.side (seen_of self.old) self.old.left }
        ensures capacity { vec_capacity out.new ≡ vec_capacity out.old }
        ensures counts { (self.new.put ≡ self.old.put) × (self.new.bare ≡ self.old.bare + self.old.left) × (self.new.left ≡ 0) × (self.new.first ≡ self.old.first) × (self.new.size ≡ self.old.size) }
    {
        for _ in 0..self.left {
            out.push_reserved(self.take::<R, P>(shared));
        }
    }

    /// Takes all placed entries back, in order, and puts them behind those in `out`.
    pub fn unload<R: IsSide, P: TableRule<Option<Desc>, View, u32>>(
        &mut self,
        shared: &Shared<Option<Desc>, View, u32, P>,
        out: &mut Vec<Desc>,
    )
        requires table { self.old.seat.table_id ≡ shared.now.table_id }
        requires rack { IsRack R.side self.old }
        requires room { length out.old.items + self.old.put ≤ vec_capacity out.old }
        ensures rack { IsRack R.side self.new }
        ensures seat { SameSeat self.old.seat self.new.seat }
        ensures out { out.new.items ≡ out.old.items ++ placed self.old }
        ensures capacity { vec_capacity out.new ≡ vec_capacity out.old }
        ensures counts { (self.new.put ≡ 0) × (self.new.bare ≡ self.old.bare + self.old.put) × (self.new.left ≡ self.old.left) × (self.new.first ≡ self.old.first) × (self.new.size ≡ self.old.size) }
    {
        let count = self.put + self.bare + self.left;
        for at in 0..self.put {
            let slot = (self.first + at) % self.size;
            let old = swap_at(shared, &mut self.seat, count, at, slot as usize, None);
            let Some(d) = old else { unreachable!() };
            out.push_reserved(d);
        }
        self.bare += self.put;
        self.put = 0;
    }
}
