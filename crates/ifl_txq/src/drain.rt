//! The queue as the ring's drainer.
ghost use Rattle.std.specs.Prelude.{◌≡◌, ◌≢◌, ℕ, ◌+◌, ◌<◌, ◌≤◌, ◌⊎◌, List, [], ◌∷◌, ◌++◌, length, map, take, drop};
ghost use Rattle.std.specs.VecDeque.{deque_capacity};
ghost use Rattle.ifl_ringcore.specs.declared.history.Meaning.{Meaning};
ghost use Rattle.ifl_desc.specs.Ends.{room_of};
ghost use Rattle.ifl_txq.specs.Calls.{FoundFull, Rings};
ghost use Rattle.ifl_txq.specs.Items.{meaning_of};
ghost use Rattle.ifl_txq.specs.Queue.{IsQueue, IsRung, IsFull, SawFlush, origin_of};
ghost use Rattle.ifl_txq.specs.Standing.{QueueStandsFor};
ghost use Rattle.ifl_txq.specs.Steps.{Begun, LookedOnce, Took, WroteOff};

use crate::clusters::{clusters_of, give_all};
use crate::item::Item;
use crate::origin::QueueOrigin;
use crate::queue::Txq;
use ifl_base::{Fate, Ticket};
use ifl_desc::{DriverSide, PortState};
use ifl_mbuf::Freed;
use ifl_ring::Drainer;
use std::collections::VecDeque;
use std::sync::Wait;

impl<'a, R: DriverSide> Txq<'a, R> {
    // Reclaims what is returned, and looks at the port then.
    fn begin<W: Wait>(&mut self, rt: &W) -> PortState
        ensures begun { Begun self.old result self.new }
        ensures lawful { IsQueue self.new }
    {
        self.reclaim(rt);
        self.look()
    }

    // Looks at the port.
    fn look(&mut self) -> PortState
        ensures looked { LookedOnce self.old result self.new }
        ensures lawful { IsQueue self.new }
    {
        self.port.look(&mut self.reader)
    }

    // Takes all items of a batch off a port that is being stopped.
    fn flush_all<W: Wait>(&mut self, rt: &W, batch: &mut VecDeque<Item>) -> u32
        requires saw { SawFlush self.old.reader }
        requires few { length batch.old.items ≤ 32 }
        ensures all { (result ≡ length batch.old.items) × (batch.new.items ≡ []) }
        ensures took { Took (map meaning_of batch.old.items) self.old self.new }
        ensures driver { self.new.driver ≡ self.old.driver }
        ensures room { deque_capacity batch.old ≤ deque_capacity batch.new }
        ensures lawful { IsQueue self.new }
    {
        // The fields tell what every queue keeps.
        let _segs = self.max_segs;
        let mut count = 0;
        while let Some(item) = batch.pop_front() {
            self.flush_one(rt, item);
            count += 1;
        }
        count
    }

    // Takes one item of a port that is being stopped.
    fn flush_one<W: Wait>(&mut self, rt: &W, item: Item)
        requires saw { SawFlush self.old.reader }
        ensures took { Took (meaning_of item ∷ []) self.old self.new }
        ensures driver { self.new.driver ≡ self.old.driver }
        ensures lawful { IsQueue self.new }
    {
        // The fields tell what every queue keeps.
        let _segs = self.max_segs;
        match item {
            Item::Kick => {}
            Item::Packet(packet) => {
                let ticket = packet.ticket;
                let (_ticket, _stamp, chain) = packet.into_parts();
                self.write_off(rt, ticket, Fate::Flush, clusters_of(chain));
            }
        }
    }

    // Notes a packet that is not posted with its fate, and gives its clusters back.
    pub(crate) fn write_off<W: Wait>(&mut self, rt: &W, ticket: Ticket, fate: Fate, freed: Freed)
        ensures wrote { WroteOff ticket fate (length freed) self.old self.new }
        ensures lawful { IsQueue self.new }
    {
        self.log.note(ticket);
        self.log.settle(ticket, fate);
        give_all(rt, self.pool, &mut self.pass, freed);
    }
}

impl<'a, R: DriverSide + Sync> Drainer for Txq<'a, R>
where
    R::Driver: Send,
{
    type Item = Item;

    type Origin = QueueOrigin<R>;

    ghost origin = { origin_of };

    ghost stands_for = { QueueStandsFor };

    ghost settled = { λ q. IsRung q.driver };

    ghost full = { IsFull };

    /// Reclaims first, and looks at the port then: a port that is down takes nothing, one that is being stopped takes
    /// all, and one that is up takes items as long as there is room.
    fn drain<W: Wait>(&mut self, rt: &W, batch: &mut VecDeque<Item>) -> u32
        requires settled { IsRung self.old.driver }
        requires some { (1 ≤ length batch.old.items) × (length batch.old.items ≤ 32) }
        ensures count { result ≤ length batch.old.items }
        ensures left { batch.new.items ≡ drop result batch.old.items }
        ensures stands { (ms : List Meaning) → QueueStandsFor self.old ms → QueueStandsFor self.new (ms ++ map meaning_of (take result batch.old.items)) }
        ensures settled { IsRung self.new.driver }
        ensures origin { origin_of self.new ≡ origin_of self.old }
        ensures room { deque_capacity batch.old ≤ deque_capacity batch.new }
        ensures full { result ≡ 0 → IsFull self.new }
        ensures cause { result ≡ 0 → FoundFull self.old self.new }
        ensures fewer { result < length batch.old.items → (result ≡ 0) ⊎ (room_of self.new.driver ≤ self.new.max_segs + 2) }
        ensures rung { Rings self.old self.new }
    {
        match self.begin(rt) {
            PortState::Down => 0,
            PortState::Flush => self.flush_all(rt, batch),
            PortState::Up => self.send_all(rt, batch),
        }
    }
}
