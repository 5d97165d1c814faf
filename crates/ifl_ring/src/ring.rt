//! The ring and its seats.
ghost use Rattle.std.specs.Prelude.{◌≡◌, ◌≤◌, [], ◌∷◌, length, map, IfOk, IfErr};
ghost use Rattle.std.specs.VecDeque.{deque_capacity};
ghost use Rattle.ifl_base.specs.declared.limits.TheConstants.{MAX_BATCH};
ghost use Rattle.ifl_ring.specs.Calls.{AreHandedOver, IsChecked, IsEnqueued, publishing};
ghost use Rattle.ifl_ring.specs.Seats.{AreAmong, left_known, right_known, first_known, Sees, Names, Joined, Went, entry, events};
ghost use Rattle.ifl_ring.specs.Rings.{IsFaultOf};
ghost use Rattle.ifl_ring.specs.Tally.{tally_of};
ghost use Rattle.ifl_ringcore.specs.Counters.{capped, counters_of, plus};
ghost use Rattle.ifl_base.specs.Word.{pack};
ghost use Rattle.ifl_ringcore.specs.declared.history.Step.TheVariants.{Look};
ghost use Rattle.ifl_ring.specs.Merges.{IsMerge};
ghost use Rattle.ifl_base.specs.declared.limits.TheConstants.{PART};
ghost use Rattle.ifl_ring.specs.Closed.{IsEnded, IsHandedBack, left_after};
ghost use Rattle.ifl_ringcore.specs.State.{first_state};

use crate::answers::{Checked, Enqueued, RingFault};
use crate::bare::{BareRing, BareSeat, drainer_of, make_slots};
use crate::closed::ClosedRing;
use crate::drainer::{Drainer, RingItem};
use crate::place::Sheet;
use crate::view::Known;
use atomic_table::{Refused, Table};
use ifl_base::{PART, RING_MAX, RING_MIN, RingWord};
use ifl_outside::Gate;
use ifl_ringcore::Counters;
use std::alloc::Global;
use std::collections::VecDeque;
use std::marker::Model;
use std::snapshot::Snapshot;
use std::sync::Wait;

/// A ring of items for many producers, one of which consumes at a time. Threads share it by `&`, and each has a
/// [`Seat`] of its own.
///
/// It owns the items that are in it, and its drainer.
#[derive(Drop)]
pub struct Ring<D: Drainer> {
    bare: BareRing<D>,
}

impl<D: Drainer> Model for Ring<D> {
    ghost use Rattle.ifl_ring.specs.Rings.{RingSeen};

    ghost Value = { RingSeen D.Origin };

    ghost view = { λ r. record { table = r.bare.table.shared.table_id; size = r.bare.size; origin = D.origin r.bare.table.shared.key.drainer.value } };
}

/// The leave to take part in a ring. A thread may hand it to another.
///
/// Between two calls it has no reservation and is not the consumer. A seat that is dropped leaves the ring
/// without a whole seat, so that the ring cannot be closed any more.
#[derive(Drop)]
pub struct Seat<D: Drainer> {
    seat: BareSeat<D>,
    part: u32,
    tally: Counters,
}

impl<D: Drainer> Model for Seat<D> {
    ghost use Rattle.std.specs.Prelude.{◌≡◌, ◌≤◌};
    ghost use Rattle.ifl_base.specs.declared.limits.TheConstants.{PART};
    ghost use Rattle.ifl_ring.specs.Law.{Rests};
    ghost use Rattle.ifl_ring.specs.Rings.{SeatState};
    ghost use Rattle.ifl_ring.specs.Tally.{tally_of};
    ghost use Rattle.ifl_ringcore.specs.Counters.{capped};

    ghost Value = { SeatState };

    ghost view = { λ s. record { table = s.seat.table_id; known = s.seat.me.0.known } };

    ghost invariant = { λ s. Rests s.seat.me × (s.part ≡ s.seat.me.0.known.part) × (s.part ≤ PART) × (s.tally ≡ capped (tally_of s.seat.me.0.known)) };
}

impl<D: Drainer> Seat<D> {
    /// The seat's share of the ring, 1 to [`PART`]. The shares of all seats add up to [`PART`].
    pub fn part(&self) -> u32
        ensures { result ≡ self.now.known.part }
    {
        self.part
    }

    /// What the seat's own steps have counted, and those of the seats that were joined to it.
    pub fn tally(&self) -> Counters
        ensures { result ≡ capped (tally_of self.now.known) }
    {
        self.tally
    }
}

impl<D: Drainer> Ring<D> {
    /// Makes a ring with `size` places, 4 to 65,536, of which it holds `size` - 2 at most, and its whole seat.
    ///
    /// The drainer is settled and has taken no item yet. It comes back where no ring is made.
    pub fn new(alloc: Global, size: u32, drainer: D) -> Result<(Ring<D>, Seat<D>), (RingFault, D)>
        requires { D.settled drainer × D.stands_for drainer [] }
        ensures ring { IfOk result (λ r. (r.0.size ≡ size) × (r.0.origin ≡ D.origin drainer)) }
        ensures seat { IfOk result (λ r. (r.1.table ≡ r.0.table) × (r.1.known ≡ first_known)) }
        ensures size { IfOk result (λ _. (4 ≤ size) × (size ≤ 65536)) }
        ensures fault { IfErr result (λ r. IsFaultOf size r.0) }
        ensures drainer { IfErr result (λ r. r.1 ≡ drainer) }
    {
        if size < RING_MIN || size > RING_MAX {
            return Err((RingFault::BadSize(size), drainer));
        }
        let key = Sheet {
            size,
            drainer: Snapshot::of(&drainer),
        };
        let slots = match make_slots(alloc, size, drainer) {
            Ok(slots) => slots,
            Err(drainer) => return Err((RingFault::Memory, drainer)),
        };
        match Table::new(alloc, &[0], slots, &key) {
            Ok((table, seat)) => {
                let bare = BareRing { table, size };
                let seat = Seat {
                    seat,
                    part: PART,
                    tally: Counters::NOTHING,
                };
                Ok((Ring { bare }, seat))
            }
            Err(refused) => {
                let Refused { slots } = refused;
                Err((RingFault::Memory, drainer_of(slots)))
            }
        }
    }

    /// Gives half of the seat's part, rounded down, to a new seat with a number of its own, which has made no
    /// step yet.
    pub fn split(&self, seat: &mut Seat<D>) -> Seat<D>
        requires own { seat.old.table ≡ self.now.table }
        requires part { 2 ≤ seat.old.known.part }
        ensures own { (seat.new.table ≡ seat.old.table) × (result.table ≡ seat.old.table) }
        ensures left { seat.new.known ≡ left_known seat.old.known }
        ensures new { Names self.now.size (right_known seat.old.known) result.known }
    {
        let half = seat.part / 2;
        let new = self.bare.split(&mut seat.seat);
        seat.part -= half;
        Seat {
            seat: new,
            part: half,
            tally: Counters::NOTHING,
        }
    }

    /// Ends the other seat: its part and its numbers are added to those of this one, which has seen from then on
    /// all that either had seen. The entries of both seats are merged, each seat's in their order, and what they counted
    /// adds up.
    pub fn join(&self, seat: &mut Seat<D>, other: Seat<D>)
        requires own { (seat.old.table ≡ self.now.table) × (other.table ≡ self.now.table) }
        ensures own { seat.new.table ≡ seat.old.table }
        ensures both { Joined self.now.size seat.old.known other.known seat.new.known }
        ensures merged { IsMerge (events seat.old.known) (events other.known) (events seat.new.known) }
        ensures tally { tally_of seat.new.known ≡ plus (tally_of seat.old.known) (tally_of other.known) }
    {
        let Seat {
            seat: other,
            part,
            tally,
        } = other;
        self.bare.join(&mut seat.seat, other);
        seat.part += part;
        seat.tally = seat.tally.plus(&tally);
    }

    /// The word, as one step of this call found it.
    pub fn look(&self, seat: &mut Seat<D>) -> RingWord
        requires own { seat.old.table ≡ self.now.table }
        ensures own { seat.new.table ≡ seat.old.table }
        ensures look { Sees self.now.size seat.old.known result seat.new.known }
        ensures went { Went self.now.size seat.old.known (entry seat.old.known.number (pack result) Look ∷ []) seat.new.known }
    {
        self.bare.look(&mut seat.seat)
    }

    /// Consumes what a consumer left, where no seat is about to publish. It publishes nothing.
    pub fn check_drainage<R: Wait>(&self, rt: &R, seat: &mut Seat<D>, budget: u32) -> Checked
        requires own { seat.old.table ≡ self.now.table }
        requires budget { budget ≤ 65535 }
        ensures own { seat.new.table ≡ seat.old.table }
        ensures answer { (es : _) × Went self.now.size seat.old.known es seat.new.known × IsChecked budget result es × (publishing es ≡ []) }
    {
        self.bare.check(rt, &mut seat.seat, budget, &mut seat.tally)
    }

    /// Publishes 1 to `MAX_BATCH` items, and consumes with a budget of at most 65,535 items where no consumer is
    /// there. With `abdicate` it leaves them to another consumer instead.
    ///
    /// `who` and the gate are for tests. Where the ring has no room, the items stay with the caller, and what a
    /// consumer left because of a full drainer is offered once more.
    pub fn enqueue<G: Gate, R: Wait>(
        &self,
        rt: &R,
        seat: &mut Seat<D>,
        who: u16,
        items: &mut VecDeque<D::Item>,
        budget: u32,
        abdicate: bool,
        gate: &G,
    ) -> Enqueued
        requires own { seat.old.table ≡ self.now.table }
        requires batch { (1 ≤ length items.old.items) × (length items.old.items ≤ MAX_BATCH) }
        requires budget { budget ≤ 65535 }
        ensures own { seat.new.table ≡ seat.old.table }
        ensures answer { (es : _) × Went self.now.size seat.old.known es seat.new.known × IsEnqueued self.now.size budget abdicate (length items.old.items) (map D.Item.meaning items.old.items) result es }
        ensures items { AreHandedOver result items.old.items items.new.items }
        ensures room { deque_capacity items.old ≤ deque_capacity items.new }
    {
        self.bare.enqueue(
            rt,
            &mut seat.seat,
            who,
            items,
            budget,
            abdicate,
            gate,
            &mut seat.tally,
        )
    }

    /// Ends the ring with its whole seat. The items that are left lie in the closed ring, in room that
    /// [`Ring::new`] took, and the drainer comes back.
    pub fn close(self, seat: Seat<D>) -> (ClosedRing<D::Item, D::Origin>, D)
        requires own { seat.table ≡ self.table }
        requires whole { seat.known.part ≡ PART }
        ensures ring { (result.0.size ≡ self.size) × (result.0.history ≡ seat.known.seen) }
        ensures ended { IsEnded self.size seat.known.seen }
        ensures all { AreAmong seat.known.stands seat.known.seen }
        ensures counted { tally_of seat.known ≡ counters_of first_state seat.known.seen }
        ensures left { map D.Item.meaning result.0.left ≡ left_after seat.known.seen }
        ensures drainer { IsHandedBack D.origin D.settled D.full D.stands_for self.origin seat.known.seen result.1 }
    {
        let Ring { bare } = self;
        let Seat {
            seat,
            part: _,
            tally: _,
        } = seat;
        let size = bare.size;
        let badge = seat.into_badge();
        let last = Snapshot::of(&badge);
        let (word, left, drainer) = bare.close(badge.into_seat());
        let closed = ClosedRing {
            word,
            left,
            size,
            last,
        };
        (closed, drainer)
    }
}
