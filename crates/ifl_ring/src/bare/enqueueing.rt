//! A seat publishes what it laid into its places, and drains where nobody else does.
ghost use Rattle.std.specs.Prelude.{◌≡◌, ◌<◌, ◌≤◌, [], map, length, IfOk, IfErr};
ghost use Rattle.std.specs.VecDeque.{deque_capacity};
ghost use Rattle.ifl_base.specs.declared.limits.TheConstants.{MAX_BATCH};
ghost use Rattle.ifl_base.specs.Word.{IsWithin};
ghost use Rattle.ifl_ringcore.specs.Counters.{nothing_counted};
ghost use Rattle.ifl_ringcore.specs.declared.counters.Counters.{Counters};
ghost use Rattle.ifl_ring.specs.Acts.{items_in};
ghost use Rattle.ifl_ring.specs.Calls.{AreHandedOver, AreLooks, IsDelivered, IsDelivery, IsEnqueued, IsRelieved, publishing};
ghost use Rattle.ifl_ring.specs.Law.{Rests};
ghost use Rattle.ifl_ring.specs.Publishing.{IsPublished, IsConsumer};
ghost use Rattle.ifl_ring.specs.Tally.{TallyRises};
ghost use Rattle.ifl_ring.specs.Tells.{HasTurn, HoldsAt, SeesWord, Same};
ghost use Rattle.ifl_ring.specs.Trails.{IsLived, Trails};

use crate::answers::Enqueued;
use crate::bare::{BareRing, BareSeat, read};
use crate::counted::{count_drained, count_elected, count_published, count_refused};
use crate::drainer::{Drainer, RingItem};
use crate::published::Published;
use crate::waiting::Waiting;
use ifl_base::{RingWord, advance};
use ifl_outside::{Gate, Point};
use ifl_ringcore::Counters;
use ifl_ringcore::words::{distance, is_busy, is_stalled};
use std::collections::VecDeque;
use std::sync::Wait;

impl<D: Drainer> BareRing<D> {
    /// Tries to publish at the seat's turn. At `Err` it found another word.
    pub fn publish(
        &self,
        seat: &mut BareSeat<D>,
        w: &RingWord,
        n: u32,
        budget: u32,
        abdicate: bool,
    ) -> Result<Published, u64>
        requires table { seat.old.table_id ≡ self.now.table.shared.table_id }
        requires turn { HasTurn self.now.size n w.now seat.old.me }
        requires word { IsWithin self.now.size w.now }
        requires count { n < self.now.size }
        ensures same { (seat.new.table_id ≡ seat.old.table_id) × (seat.new.id ≡ seat.old.id) }
        ensures err { IfErr result (λ x. SeesWord self.now.size seat.old.me.0.known x seat.new.me.0.known × (seat.new.me.1 ≡ seat.old.me.1) × Same seat.old.me.0 seat.new.me.0) }
        ensures ok { IfOk result (λ p. IsPublished self.now.size budget n abdicate (map D.Item.meaning (items_in seat.old.me.1)) w.now seat.old.me.0.known p seat.new.me.0.known × IsConsumer D.Item.meaning D.origin D.settled D.stands_for self.now.size budget w.now p seat.new.me) }
    {
        if abdicate {
            self.publish_abdicating(seat, w, n)?;
            return Ok(Published::Abdicated);
        }
        if is_busy(w.flag) {
            self.publish_behind(seat, w, n)?;
            return Ok(Published::Behind);
        }
        self.publish_elected(seat, w, n, budget)?;
        let items = distance(self.size, w.cidx, advance(self.size, w.tail, n));
        Ok(Published::Elected { items })
    }

    /// Publishes once it is the seat's turn, where the tail is the start of its reservation: how, and the word that this
    /// found.
    pub fn publish_at_turn<R: Wait>(
        &self,
        rt: &R,
        seat: &mut BareSeat<D>,
        place: u16,
        n: u32,
        budget: u32,
        abdicate: bool,
    ) -> (Published, RingWord)
        requires table { seat.old.table_id ≡ self.now.table.shared.table_id }
        requires held { HoldsAt self.now.size n place seat.old.me }
        requires lived { IsLived self.now.size seat.old.me.0.known }
        requires count { n < self.now.size }
        ensures same { (seat.new.table_id ≡ seat.old.table_id) × (seat.new.id ≡ seat.old.id) }
        ensures within { IsWithin self.now.size result.1 }
        ensures published { (es : _) × (v : _) × AreLooks es × Trails self.now.size seat.old.me.0.known es nothing_counted v × IsPublished self.now.size budget n abdicate (map D.Item.meaning (items_in seat.old.me.1)) result.1 v result.0 seat.new.me.0.known }
        ensures consumer { IsConsumer D.Item.meaning D.origin D.settled D.stands_for self.now.size budget result.1 result.0 seat.new.me }
    {
        let mut waiting = Waiting::new();
        let mut w = self.look_again(seat);
        for _ in rt.forever() {
            if w.tail == place {
                match self.publish(seat, &w, n, budget, abdicate) {
                    Ok(published) => return (published, w),
                    Err(found) => w = read(self.size, found),
                }
            } else {
                waiting.wait();
                w = self.look_again(seat);
            }
        }
        unreachable!()
    }

    /// Publishes what lies in the seat's places, and drains where it became the consumer. The tally counts this.
    pub fn deliver<G: Gate, R: Wait>(
        &self,
        rt: &R,
        seat: &mut BareSeat<D>,
        who: u16,
        place: u16,
        n: u32,
        budget: u32,
        abdicate: bool,
        gate: &G,
        tally: &mut Counters,
    ) -> Enqueued
        requires table { seat.old.table_id ≡ self.now.table.shared.table_id }
        requires held { HoldsAt self.now.size n place seat.old.me }
        requires lived { IsLived self.now.size seat.old.me.0.known }
        requires count { n < self.now.size }
        requires budget { budget ≤ 65535 }
        ensures same { (seat.new.table_id ≡ seat.old.table_id) × (seat.new.id ≡ seat.old.id) }
        ensures rest { Rests seat.new.me }
        ensures went { (es : _) × (x : Counters) × IsDelivery budget abdicate (map D.Item.meaning (items_in seat.old.me.1)) result es × Trails self.now.size seat.old.me.0.known es x seat.new.me.0.known × TallyRises x tally.old tally.new }
        ensures handed { IsDelivered result }
    {
        let (how, found) = self.publish_at_turn(rt, seat, place, n, budget, abdicate);
        gate.at(who, Point::Published);
        match how {
            Published::Behind => {
                count_published(tally, n);
                Enqueued::Behind
            }
            Published::Abdicated => {
                count_published(tally, n);
                Enqueued::Abdicated
            }
            Published::Elected { items } => {
                let (left, total) = self.drain(rt, seat, found.cidx, items, budget, found.flag);
                count_elected(tally, n, found.flag);
                count_drained(tally, found.flag, left, total);
                Enqueued::Drained { left, total }
            }
        }
    }

    /// Consumes what was left in a word that said stalled, with a budget of nothing. The tally counts this.
    #[cold]
    #[inline(never)]
    pub fn relieve<R: Wait>(
        &self,
        rt: &R,
        seat: &mut BareSeat<D>,
        seen: &RingWord,
        tally: &mut Counters,
    )
        requires table { seat.old.table_id ≡ self.now.table.shared.table_id }
        requires rest { Rests seat.old.me }
        requires lived { IsLived self.now.size seat.old.me.0.known }
        ensures same { (seat.new.table_id ≡ seat.old.table_id) × (seat.new.id ≡ seat.old.id) }
        ensures rest { Rests seat.new.me }
        ensures trail { (es : _) × (x : Counters) × (publishing es ≡ []) × IsRelieved seen.now es × Trails self.now.size seat.old.me.0.known es x seat.new.me.0.known × TallyRises x tally.old tally.new }
    {
        if is_stalled(seen.flag) {
            self.check(rt, seat, 0, tally);
        }
    }

    /// Publishes the items, unless the ring has no room for them. The tally counts this.
    pub fn enqueue<G: Gate, R: Wait>(
        &self,
        rt: &R,
        seat: &mut BareSeat<D>,
        who: u16,
        items: &mut VecDeque<D::Item>,
        budget: u32,
        abdicate: bool,
        gate: &G,
        tally: &mut Counters,
    ) -> Enqueued
        requires table { seat.old.table_id ≡ self.now.table.shared.table_id }
        requires rest { Rests seat.old.me }
        requires batch { (1 ≤ length items.old.items) × (length items.old.items ≤ MAX_BATCH) }
        requires budget { budget ≤ 65535 }
        ensures same { (seat.new.table_id ≡ seat.old.table_id) × (seat.new.id ≡ seat.old.id) }
        ensures rest { Rests seat.new.me }
        ensures went { (es : _) × (x : Counters) × IsEnqueued self.now.size budget abdicate (length items.old.items) (map D.Item.meaning items.old.items) result es × Trails self.now.size seat.old.me.0.known es x seat.new.me.0.known × TallyRises x tally.old tally.new }
        ensures items { AreHandedOver result items.old.items items.new.items }
        ensures room { deque_capacity items.new ≡ deque_capacity items.old }
    {
        gate.at(who, Point::Begin);
        let n = items.len() as u32;
        match self.claim(rt, seat, n) {
            Ok(place) => {
                gate.at(who, Point::Reserved);
                self.put_back(seat, items, place);
                self.deliver(rt, seat, who, place, n, budget, abdicate, gate, tally)
            }
            Err(seen) => {
                count_refused(tally, n);
                self.relieve(rt, seat, &seen, tally);
                gate.at(who, Point::Refused);
                Enqueued::NoBuffers { seen }
            }
        }
    }
}
