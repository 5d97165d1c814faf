ghost use Rattle.std.specs.Prelude.{◌≡◌};
ghost use Rattle.ifl_ringcore.specs.Events.{seat_of};

/// What a seat does in one step on the ring's word.
///
/// A seat is a number, and `n` counts items.
#[derive(Clone, Copy, Debug, PartialEq, Eq)]
pub enum Event {
    /// Looks at the word.
    Look { seat: u32 },
    /// Sees no room for `n` items.
    Refuse { seat: u32, n: u32 },
    /// Reserves `n` places.
    Reserve { seat: u32, n: u32 },
    /// Publishes its reservation behind a consumer.
    Behind { seat: u32 },
    /// Publishes its reservation and becomes the consumer.
    Elected { seat: u32, budget: u32 },
    /// Publishes its reservation and leaves it to others to consume.
    Abdicating { seat: u32 },
    /// Releases `n` items, and goes on as the consumer.
    Advance { seat: u32, n: u32 },
    /// Releases `n` items, which were the last ones, and leaves.
    LeaveIdle { seat: u32, n: u32 },
    /// Releases `n` items, and leaves the rest to whoever is about to publish.
    LeaveAbdicated { seat: u32, n: u32 },
    /// Releases `n` items, and leaves the rest, since its drainer took no more.
    Stall { seat: u32, n: u32 },
    /// Becomes the consumer of what another one left.
    TakeOver { seat: u32, budget: u32 },
}

impl Event {
    /// The seat that makes the event.
    pub fn seat(&self) -> u32
        ensures { result ≡ seat_of self.now }
    {
        match *self {
            Event::Look { seat } => seat,
            Event::Refuse { seat, .. } => seat,
            Event::Reserve { seat, .. } => seat,
            Event::Behind { seat } => seat,
            Event::Elected { seat, .. } => seat,
            Event::Abdicating { seat } => seat,
            Event::Advance { seat, .. } => seat,
            Event::LeaveIdle { seat, .. } => seat,
            Event::LeaveAbdicated { seat, .. } => seat,
            Event::Stall { seat, .. } => seat,
            Event::TakeOver { seat, .. } => seat,
        }
    }
}
