use ifl_base::Flag;

/// A seat's reservation, as the machine keeps it.
#[derive(Clone, Copy)]
pub struct Held {
    /// Its first place.
    pub start: u16,
    /// How many items it takes.
    pub count: u32,
}

/// The consumer, as the machine keeps it.
#[derive(Clone, Copy)]
pub struct Drain {
    pub seat: u32,
    /// The place behind the last item of which it knows.
    pub known: u16,
    /// The items that it has released. It stays at `u64::MAX` once it has reached it.
    pub total: u64,
    /// The items that it is to release.
    pub budget: u32,
    /// The flag from which it began.
    pub from: Flag,
}
