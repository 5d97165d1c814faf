ghost use Rattle.std.specs.Prelude.{◌≡◌};
ghost use Rattle.ifl_ringcore.specs.Texts.{condition_name};

use thiserror::Error;

/// Why an event may not come: the first of its conditions that fails. It prints as the condition's name.
#[derive(Clone, Copy, Debug, PartialEq, Eq, Error)]
pub enum Illegal {
    /// The seat's number is not below the number of seats.
    #[error("Seat")]
    Seat,
    /// The number of items is out of the event's range.
    #[error("Count")]
    Count,
    /// The seat is the consumer, or is not, as the event does not allow.
    #[error("Role")]
    Role,
    /// The seat has a reservation that it did not publish.
    #[error("Pending")]
    Pending,
    /// The seat has no reservation.
    #[error("NoReservation")]
    NoReservation,
    /// Reservations before the seat's are not published.
    #[error("Turn")]
    Turn,
    /// The flag is not one of those from which the event may come.
    #[error("Flag")]
    Flag,
    /// There is no room, or at a refusal there is.
    #[error("Room")]
    Room,
    /// The consumer does not know of so many items.
    #[error("Known")]
    Known,
    /// It is not time to show how far the consumer has come.
    #[error("Update")]
    Update,
    /// What is left is none, or at the leaving of an idle ring some.
    #[error("Left")]
    Left,
    /// The budget is not spent, or at an advance it is and others are about to publish.
    #[error("Budget")]
    Budget,
    /// Others are about to publish, or at an abdication none are.
    #[error("Quiet")]
    Quiet,
}

impl Illegal {
    /// The condition's name.
    pub fn name(self) -> &'static str
        ensures { result.now ≡ condition_name self }
    {
        match self {
            Illegal::Seat => "Seat",
            Illegal::Count => "Count",
            Illegal::Role => "Role",
            Illegal::Pending => "Pending",
            Illegal::NoReservation => "NoReservation",
            Illegal::Turn => "Turn",
            Illegal::Flag => "Flag",
            Illegal::Room => "Room",
            Illegal::Known => "Known",
            Illegal::Update => "Update",
            Illegal::Left => "Left",
            Illegal::Budget => "Budget",
            Illegal::Quiet => "Quiet",
        }
    }
}
