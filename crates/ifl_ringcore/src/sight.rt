ghost use Rattle.std.specs.Prelude.{◌≡◌, ◌||◌, nat_le, nat_eq};
ghost use Rattle.ifl_ringcore.specs.Table.{conditions, first_failing, is_within};

use crate::event::Event;
use crate::illegal::Illegal;
use crate::words::{is_busy, is_left};
use ifl_base::{Flag, MAX_BATCH};

/// What the conditions of a seat's events look at.
#[derive(Clone, Copy)]
pub struct Sight {
    /// The seat's number is below the number of seats.
    pub is_seat: bool,
    /// The seat is the consumer.
    pub is_consumer: bool,
    /// The seat has a reservation.
    pub has_reservation: bool,
    /// The seat's reservation starts where what is published ends.
    pub is_turn: bool,
    /// All that is reserved is published.
    pub is_quiet: bool,
    pub flag: Flag,
    /// One more than the number of items that may be reserved.
    pub room: u32,
    /// The items that are published and not released.
    pub waiting: u32,
    /// Those of them of which the seat knows, where it is the consumer.
    pub known: u32,
    /// The items that its drain is still to release, where it is the consumer.
    pub budget_left: u32,
}

impl Sight {
    /// The first condition of the event that fails.
    pub fn refusal(&self, e: &Event) -> Option<Illegal>
        ensures { result ≡ first_failing (conditions self.now e.now) }
    {
        match *e {
            Event::Look { .. } => first_failing(&[(Illegal::Seat, self.is_seat)]),
            Event::Refuse { n, .. } => first_failing(&[
                (Illegal::Seat, self.is_seat),
                (Illegal::Count, is_within(n, 1, MAX_BATCH)),
                (Illegal::Role, !self.is_consumer),
                (Illegal::Pending, !self.has_reservation),
                (Illegal::Room, self.room <= n),
            ]),
            Event::Reserve { n, .. } => first_failing(&[
                (Illegal::Seat, self.is_seat),
                (Illegal::Count, is_within(n, 1, MAX_BATCH)),
                (Illegal::Role, !self.is_consumer),
                (Illegal::Pending, !self.has_reservation),
                (Illegal::Room, n < self.room),
            ]),
            Event::Behind { .. } => first_failing(&[
                (Illegal::Seat, self.is_seat),
                (Illegal::NoReservation, self.has_reservation),
                (Illegal::Turn, self.is_turn),
                (Illegal::Flag, is_busy(self.flag)),
            ]),
            Event::Elected { .. } => first_failing(&[
                (Illegal::Seat, self.is_seat),
                (Illegal::NoReservation, self.has_reservation),
                (Illegal::Turn, self.is_turn),
                (Illegal::Flag, !is_busy(self.flag)),
            ]),
            Event::Abdicating { .. } => first_failing(&[
                (Illegal::Seat, self.is_seat),
                (Illegal::NoReservation, self.has_reservation),
                (Illegal::Turn, self.is_turn),
            ]),
            Event::Advance { n, .. } => self.refusal_to_advance(n),
            Event::LeaveIdle { n, .. } => self.refusal_to_leave_idle(n),
            Event::LeaveAbdicated { n, .. } => self.refusal_to_abdicate(n),
            Event::Stall { n, .. } => self.refusal_to_stall(n),
            Event::TakeOver { .. } => self.refusal_to_take_over(),
        }
    }

    fn refusal_to_advance(&self, n: u32) -> Option<Illegal>
        ensures { result ≡ first_failing (conditions self.now (Event.Advance 0 n)) }
    {
        first_failing(&[
            (Illegal::Seat, self.is_seat),
            (Illegal::Role, self.is_consumer),
            (Illegal::Count, is_within(n, 1, 95)),
            (Illegal::Known, n <= self.known),
            (Illegal::Update, self.is_update(n)),
            (Illegal::Left, n < self.waiting),
            (Illegal::Budget, !self.is_spent(n) || self.is_quiet),
        ])
    }

    fn refusal_to_leave_idle(&self, n: u32) -> Option<Illegal>
        ensures { result ≡ first_failing (conditions self.now (Event.LeaveIdle 0 n)) }
    {
        first_failing(&[
            (Illegal::Seat, self.is_seat),
            (Illegal::Role, self.is_consumer),
            (Illegal::Count, is_within(n, 1, 95)),
            (Illegal::Known, n <= self.known),
            (Illegal::Left, n == self.waiting),
        ])
    }

    fn refusal_to_abdicate(&self, n: u32) -> Option<Illegal>
        ensures { result ≡ first_failing (conditions self.now (Event.LeaveAbdicated 0 n)) }
    {
        first_failing(&[
            (Illegal::Seat, self.is_seat),
            (Illegal::Role, self.is_consumer),
            (Illegal::Count, is_within(n, 1, 95)),
            (Illegal::Known, n <= self.known),
            (Illegal::Budget, self.is_spent(n)),
            (Illegal::Left, n < self.waiting),
            (Illegal::Quiet, !self.is_quiet),
        ])
    }

    fn refusal_to_stall(&self, n: u32) -> Option<Illegal>
        ensures { result ≡ first_failing (conditions self.now (Event.Stall 0 n)) }
    {
        first_failing(&[
            (Illegal::Seat, self.is_seat),
            (Illegal::Role, self.is_consumer),
            (Illegal::Count, is_within(n, 0, 63)),
            (Illegal::Known, n < self.known),
            (Illegal::Update, n == 0 || n < self.budget_left),
        ])
    }

    fn refusal_to_take_over(&self) -> Option<Illegal>
        ensures { result ≡ first_failing (conditions self.now (Event.TakeOver 0 0)) }
    {
        first_failing(&[
            (Illegal::Seat, self.is_seat),
            (Illegal::Role, !self.is_consumer),
            (Illegal::Pending, !self.has_reservation),
            (Illegal::Flag, is_left(self.flag)),
            (Illegal::Quiet, self.is_quiet),
        ])
    }

    // The drain has released what it was asked to, with these items.
    fn is_spent(&self, n: u32) -> bool
        ensures { result ≡ nat_le self.now.budget_left n }
    {
        self.budget_left <= n
    }

    // It is time to show that these items are released.
    fn is_update(&self, n: u32) -> bool
        ensures { result ≡ (nat_eq n self.now.known || nat_le 64 n || nat_le self.now.budget_left n) }
    {
        n == self.known || 64 <= n || self.is_spent(n)
    }
}

fn first_failing(conditions: &[(Illegal, bool)]) -> Option<Illegal>
    ensures { result ≡ first_failing conditions.now }
{
    let failing = conditions.iter().find(|condition| !condition.1);
    failing.map(|condition| condition.0)
}

fn is_within(n: u32, low: u32, high: u32) -> bool
    ensures { result ≡ is_within n low high }
{
    low <= n && n <= high
}
