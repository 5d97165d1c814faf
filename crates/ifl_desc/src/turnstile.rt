//! A turnstile: a value that at most one seat has at a time.
ghost use Rattle.std.specs.Prelude.{◌≡◌, ◌-◌, ◌/◌, ◌+◌, ◌≤◌, true, false, Some, None, IfOk, IfErr};
ghost use Rattle.ifl_base.specs.declared.limits.TheConstants.{PART};

use crate::turns::{Adds, Gives, Halves, Tries, TurnView, Turns};
use atomic_table::{Refused, Seat, Table};
use ifl_base::NoMemory;
use std::alloc::{AllocFailed, Global};
use std::marker::Model;
use std::snapshot::Snapshot;

/// What a turnstile may keep.
pub trait Kept: Send + Drop {
    /// Plain data.
    type Origin;

    /// With what the value was made.
    ghost origin: { Self → Self.Origin };
}

/// A value that one seat has at a time, which takes it and gives it back. It has one word, 0 where the turn is free
/// and 1 where it is taken, and one slot. No call waits.
///
/// Each value that it ever holds has the origin of the value with which it was made.
#[derive(Drop)]
pub struct Turnstile<E: Kept> {
    table: Table<Option<E>, TurnView<E, E::Origin>, Snapshot<E>, Turns<E>, Global>,
}

impl<E: Kept> Model for Turnstile<E> {
    ghost use Rattle.std.specs.Prelude.{◌≡◌, Some};
    ghost use Rattle.ifl_desc.specs.Turns.{TurnstileId};

    ghost Value = { TurnstileId E.Origin };

    ghost view = { λ t. record { table = t.table.shared.table_id; origin = Some (E.origin t.table.shared.key.value) } };

    ghost invariant = { λ t. (t.table.shared.table_id.words ≡ 1) × (t.table.shared.table_id.slots ≡ 1) };
}

/// The leave to take the turn of a turnstile. It has no bytes, and a thread may hand it to another.
///
/// It counts the exchanges that took the turn, and those that found it taken.
#[derive(Drop)]
pub struct TurnSeat<E: Kept> {
    seat: Seat<Option<E>, TurnView<E, E::Origin>>,
}

impl<E: Kept> Model for TurnSeat<E> {
    ghost use Rattle.ifl_desc.specs.Turns.{TurnState, IsTurnSeat};

    ghost Value = { TurnState E E.Origin };

    ghost view = { λ s. record { turnstile = record { table = s.seat.table_id; origin = s.seat.me.0.origin }; part = s.seat.me.0.part; held = s.seat.me.0.holds; turns = s.seat.me.0.turns; looks = s.seat.me.0.looks; found = s.seat.me.0.found; left = s.seat.me.0.left } };

    ghost invariant = { λ s. IsTurnSeat s.seat.me };
}

/// The turn is with another seat.
#[derive(Clone, Copy, Debug, PartialEq, Eq)]
pub struct Taken {
    /// The word that was found.
    pub seen: u64,
}

impl<E: Kept> Turnstile<E> {
    /// A turnstile that keeps `e`, with the whole seat. Where there is no memory, `e` comes back.
    pub fn new(alloc: Global, e: E) -> Result<(Turnstile<E>, TurnSeat<E>), (NoMemory, E)>
        ensures origin { IfOk result (λ t. t.0.origin ≡ Some (E.origin e)) }
        ensures whole { IfOk result (λ t. t.1 ≡ record { turnstile = t.0; part = PART; held = false; turns = 0; looks = 0; found = None; left = None }) }
        ensures back { IfErr result (λ x. x.1 ≡ e) }
    {
        let key = Snapshot::of(&e);
        let mut slots = Vec::new(alloc);
        if let Err(failed) = slots.push(Some(e)) {
            let AllocFailed { value } = failed;
            let Some(e) = value else { unreachable!() };
            return Err((NoMemory, e));
        }
        match Table::new(alloc, &[0], slots, &key) {
            Ok((table, seat)) => Ok((Turnstile { table }, TurnSeat { seat })),
            Err(Refused { mut slots }) => {
                let Some(Some(e)) = slots.pop() else {
                    unreachable!()
                };
                Err((NoMemory, e))
            }
        }
    }

    /// Gives half of the seat's part, rounded down, to a new seat.
    pub fn split(&self, seat: &mut TurnSeat<E>) -> TurnSeat<E>
        requires own { seat.old.turnstile ≡ self.now }
        requires part { 2 ≤ seat.old.part }
        requires free { seat.old.held ≡ false }
        ensures left { seat.new ≡ record seat.old { part = seat.old.part - seat.old.part / 2 } }
        ensures new { result ≡ record { turnstile = self.now; part = seat.old.part / 2; held = false; turns = 0; looks = 0; found = None; left = None } }
    {
        let other = self.table.shared.split_seat::<Halves>(&mut seat.seat);
        TurnSeat { seat: other }
    }

    /// Ends the other seat: its part and its counts are added to those of this one.
    pub fn join(&self, seat: &mut TurnSeat<E>, other: TurnSeat<E>)
        requires own { (seat.old.turnstile ≡ self.now) × (other.turnstile ≡ self.now) }
        requires free { (seat.old.held ≡ false) × (other.held ≡ false) }
        ensures both { seat.new ≡ record seat.old { part = seat.old.part + other.part; turns = seat.old.turns + other.turns; looks = seat.old.looks + other.looks } }
    {
        let TurnSeat { seat: spent } = other;
        self.table.shared.join_seat::<Adds>(&mut seat.seat, spent);
    }

    /// Takes the turn by one exchange, and the value, which the caller owns until it gives it back.
    ///
    /// It answers `Taken` exactly where the exchange found the turn taken. The seat counts the exchange either way.
    pub fn try_turn(&self, seat: &mut TurnSeat<E>) -> Result<E, Taken>
        requires own { seat.old.turnstile ≡ self.now }
        requires free { seat.old.held ≡ false }
        ensures got { IfOk result (λ e. (self.now.origin ≡ Some (E.origin e)) × (seat.new ≡ record seat.old { held = true; turns = seat.old.turns + 1; found = Some e })) }
        ensures taken { IfErr result (λ t. (t.seen ≡ 1) × (seat.new ≡ record seat.old { looks = seat.old.looks + 1 })) }
    {
        let seen = self
            .table
            .shared
            .compare_exchange::<Tries<E>>(&mut seat.seat, 0, 0, 1);
        if seen != 0 {
            return Err(Taken { seen });
        }
        let Some(e) = self.table.shared.exchange(&mut seat.seat, 0, None) else {
            unreachable!()
        };
        Ok(e)
    }

    /// Puts the value back and gives the turn.
    pub fn give_turn(&self, seat: &mut TurnSeat<E>, e: E)
        requires own { seat.old.turnstile ≡ self.now }
        requires held { seat.old.held ≡ true }
        requires origin { self.now.origin ≡ Some (E.origin e) }
        ensures gave { seat.new ≡ record seat.old { held = false; left = Some e } }
    {
        let None = self.table.shared.exchange(&mut seat.seat, 0, Some(e)) else {
            unreachable!()
        };
        self.table.shared.store::<Gives>(&mut seat.seat, 0, 0);
    }

    /// Ends the turnstile with its whole seat, and gives the value that is home.
    pub fn close(self, seat: TurnSeat<E>) -> E
        requires own { seat.turnstile ≡ self }
        requires whole { (seat.held ≡ false) × (seat.part ≡ PART) }
        ensures { self.origin ≡ Some (E.origin result) }
    {
        let Turnstile { table } = self;
        let TurnSeat { seat } = seat;
        let mut closed = table.close_with(seat);
        let Some(e) = closed.take(0) else {
            unreachable!()
        };
        closed.free();
        e
    }
}
