//! Items of a port that is up: as long as there is room, packets are posted, and the doorbell is rung for them.
ghost use Rattle.std.specs.Prelude.{◌≡◌, ◌<◌, ◌≤◌, length};
ghost use Rattle.std.specs.VecDeque.{deque_capacity};
ghost use Rattle.ifl_txq.specs.Queue.{IsQueue, IsRung, SawFlush};
ghost use Rattle.ifl_txq.specs.Steps.{Boarded, Paced, RangOnce, SentAll, SentNext, SentOne, WroteDown};

use crate::clusters::give_all;
use crate::encap::Encap;
use crate::item::Item;
use crate::queue::Txq;
use crate::sent::Sent;
use ifl_base::{Fate, Ticket};
use ifl_desc::DriverSide;
use ifl_mbuf::{Freed, Packet};
use std::collections::VecDeque;
use std::sync::Wait;

impl<'a, R: DriverSide> Txq<'a, R> {
    // Takes items off a batch of a port that is up, as long as there is room.
    pub(crate) fn send_all<W: Wait>(&mut self, rt: &W, batch: &mut VecDeque<Item>) -> u32
        requires up { SawFlush self.old.reader → ⊥ }
        requires settled { IsRung self.old.driver }
        requires few { length batch.old.items ≤ 32 }
        ensures sent { SentAll self.old batch.old.items result self.new batch.new.items }
        ensures room { deque_capacity batch.old ≤ deque_capacity batch.new }
        ensures lawful { IsQueue self.new }
    {
        // The fields tell what every queue keeps.
        let _segs = self.max_segs;
        let mut count = 0;
        let mut unrung = 0;
        while let Some(now) = self.send_next(rt, batch, unrung) {
            unrung = now;
            count += 1;
        }
        if unrung > 0 {
            self.ring_bell();
        }
        count
    }

    // Takes the next item of a batch, and answers how many packets wait for their doorbell then; nothing where no item
    // is left or there is no room.
    fn send_next<W: Wait>(&mut self, rt: &W, batch: &mut VecDeque<Item>, unrung: u32) -> Option<u32>
        requires up { SawFlush self.old.reader → ⊥ }
        requires few { unrung < self.old.doorbell_every }
        ensures sent { SentNext self.old batch.old.items unrung result self.new batch.new.items }
        ensures room { deque_capacity batch.old ≤ deque_capacity batch.new }
        ensures lawful { IsQueue self.new }
    {
        // The fields tell what every queue keeps.
        let _segs = self.max_segs;
        let item = batch.pop_front()?;
        match self.send(rt, item) {
            Sent::Posted => Some(self.pace(unrung)),
            Sent::Gone => Some(unrung),
            Sent::Full(item) => {
                batch.push_front_reserved(item);
                None
            }
        }
    }

    // Takes one item of a port that is up, where there is room.
    fn send<W: Wait>(&mut self, rt: &W, item: Item) -> Sent
        requires up { SawFlush self.old.reader → ⊥ }
        ensures sent { SentOne self.old item result self.new }
        ensures lawful { IsQueue self.new }
    {
        // The fields tell what every queue keeps.
        let _segs = self.max_segs;
        match item {
            Item::Kick => Sent::Gone,
            Item::Packet(packet) => self.board(rt, packet),
        }
    }

    // Posts a packet, or writes it off where it needs too many descriptors.
    fn board<W: Wait>(&mut self, rt: &W, packet: Packet) -> Sent
        requires up { SawFlush self.old.reader → ⊥ }
        ensures sent { Boarded self.old packet result self.new }
        ensures lawful { IsQueue self.new }
    {
        // The fields tell what every queue keeps.
        let _segs = self.max_segs;
        let ticket = packet.ticket;
        match self.encap(packet) {
            Encap::NoRoom { packet, avail: _ } => Sent::Full(Item::Packet(packet)),
            Encap::Dropped(freed) => {
                self.write_off(rt, ticket, Fate::TooManySegments, freed);
                Sent::Gone
            }
            Encap::Posted { count: _, freed } => {
                self.write_down(rt, ticket, freed);
                Sent::Posted
            }
        }
    }

    // Counts one more packet that waits for its doorbell, and rings it where they are enough.
    fn pace(&mut self, unrung: u32) -> u32
        requires { unrung < self.old.doorbell_every }
        ensures paced { Paced unrung self.old result self.new }
        ensures lawful { IsQueue self.new }
    {
        let every = self.doorbell_every;
        let now = unrung + 1;
        if now < every {
            return now;
        }
        self.ring_bell();
        0
    }

    // Rings the doorbell for all that was posted.
    fn ring_bell(&mut self)
        ensures rang { RangOnce self.old self.new }
        ensures lawful { IsQueue self.new }
    {
        self.ring.flush(&mut self.driver);
    }

    // Notes a packet that is posted, and gives what compaction freed back.
    fn write_down<W: Wait>(&mut self, rt: &W, ticket: Ticket, freed: Freed)
        ensures wrote { WroteDown ticket (length freed) self.old self.new }
        ensures lawful { IsQueue self.new }
    {
        self.log.note(ticket);
        give_all(rt, self.pool, &mut self.pass, freed);
    }
}
