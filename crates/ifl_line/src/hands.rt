//! What one thread has of a line.
ghost use Rattle.std.specs.Prelude.{◌≡◌, ◌≤◌, ◌+◌, []};
ghost use Rattle.ifl_pool.specs.Passes.{Joined as PassesJoined};
ghost use Rattle.ifl_ring.specs.Merges.{IsMerge};
ghost use Rattle.ifl_ring.specs.Seats.{Joined, events};
ghost use Rattle.ifl_line.specs.Hands.{AreOf, AreSeats, AreFresh, AreHalves, AreSeatHalves};

use crate::line::Line;
use ifl_desc::{DescRing, TurnSeat};
use ifl_device::TxEngine;
use ifl_pool::PoolPass;
use ifl_ring::Seat;
use ifl_txq::Txq;

/// A seat of a line's ring, and one of its turnstile.
#[derive(Drop)]
pub struct Seats<'a, R: DescRing> {
    pub(crate) ring: Seat<Txq<'a, R>>,
    pub(crate) turn: TurnSeat<TxEngine<'a, R>>,
}

/// What one thread has of a line: a seat of its ring, one of its turnstile, and a pass of its pool.
#[derive(Drop)]
pub struct Hands<'a, R: DescRing> {
    pub(crate) seats: Seats<'a, R>,
    pub(crate) pass: PoolPass,
}

impl<'a, R: DescRing> Seats<'a, R> {
    /// Gives half of its parts, rounded down, to new seats, which have done nothing yet.
    pub(crate) fn split(&mut self, line: &Line<'a, R>) -> Seats<'a, R>
        requires own { AreSeats line.now self.old }
        requires part { (2 ≤ self.old.ring.known.part) × (2 ≤ self.old.turn.part) }
        ensures left { AreSeats line.now self.new × (events self.new.ring.known ≡ events self.old.ring.known) }
        ensures new { AreSeats line.now result × (events result.ring.known ≡ []) }
        ensures halves { AreSeatHalves self.old self.new result }
    {
        let ring = line.ring.split(&mut self.ring);
        let turn = line.turnstile.split(&mut self.turn);
        Seats { ring, turn }
    }

    /// Ends other seats: their parts and all that they did are those of these from then on.
    pub(crate) fn join(&mut self, line: &Line<'a, R>, other: Seats<'a, R>)
        requires own { AreSeats line.now self.old }
        requires other { AreSeats line.now other }
        ensures own { AreSeats line.now self.new }
        ensures ring { Joined line.now.ring.size self.old.ring.known other.entry.ring.known self.new.ring.known }
        ensures merged { IsMerge (events self.old.ring.known) (events other.entry.ring.known) (events self.new.ring.known) }
        ensures turn { self.new.turn.part ≡ self.old.turn.part + other.entry.turn.part }
    {
        let Seats { ring, turn } = other;
        line.ring.join(&mut self.ring, ring);
        line.turnstile.join(&mut self.turn, turn);
    }
}

impl<'a, R: DescRing> Hands<'a, R> {
    /// Hands of these seats and this pass.
    pub fn new(
        ring: Seat<Txq<'a, R>>,
        turn: TurnSeat<TxEngine<'a, R>>,
        pass: PoolPass,
    ) -> Hands<'a, R>
        ensures ring { result.seats.ring ≡ ring.entry }
        ensures turn { result.seats.turn ≡ turn.entry }
        ensures pass { result.pass ≡ pass }
    {
        let seats = Seats { ring, turn };
        Hands { seats, pass }
    }

    /// Gives half of its parts, rounded down, to new hands. Neither has done anything yet.
    pub(crate) fn split(&mut self, line: &Line<'a, R>) -> Hands<'a, R>
        requires own { AreOf line.now self.old }
        requires fresh { AreFresh self.old }
        requires part { (2 ≤ self.old.seats.ring.known.part) × (2 ≤ self.old.seats.turn.part) × (2 ≤ self.old.pass.known.part) }
        ensures left { AreOf line.now self.new × AreFresh self.new }
        ensures new { AreOf line.now result × AreFresh result }
        ensures halves { AreHalves self.old self.new result }
    {
        let seats = self.seats.split(line);
        let pass = line.pool.split(&mut self.pass);
        Hands { seats, pass }
    }

    /// Ends other hands: their parts and all that they did are those of these from then on.
    pub(crate) fn join(&mut self, line: &Line<'a, R>, other: Hands<'a, R>)
        requires own { AreOf line.now self.old }
        requires other { AreOf line.now other }
        ensures own { AreOf line.now self.new }
        ensures ring { Joined line.now.ring.size self.old.seats.ring.known other.entry.seats.ring.known self.new.seats.ring.known }
        ensures merged { IsMerge (events self.old.seats.ring.known) (events other.entry.seats.ring.known) (events self.new.seats.ring.known) }
        ensures turn { self.new.seats.turn.part ≡ self.old.seats.turn.part + other.entry.seats.turn.part }
        ensures passes { PassesJoined self.old.pass.known other.entry.pass.known self.new.pass.known }
    {
        let Hands { seats, pass } = other;
        self.seats.join(line, seats);
        line.pool.join(&mut self.pass, pass);
    }
}
