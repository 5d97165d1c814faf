ghost use Rattle.std.specs.Prelude.{◌≡◌, ◌+◌, ◌*◌, ◌^◌};

/// Names one frame of a run: the record `index` of the capture `sender`, both counted from 0.
#[derive(Clone, Copy, Debug, PartialEq, Eq)]
pub struct Ticket {
    pub sender: u16,
    pub index: u32,
}

/// When a frame was captured, and how long it was on the wire before the capture cut it.
#[derive(Clone, Copy, Debug, PartialEq, Eq)]
pub struct Stamp {
    /// Seconds since 1970.
    pub sec: u32,
    /// Microseconds in that second; a capture may hold any number here.
    pub usec: u32,
    /// The frame's original length in bytes; a capture may hold any number here.
    pub orig: u32,
}

/// The number of a ticket, which no other ticket has.
pub fn tag(t: &Ticket) -> u64
    ensures { result ≡ t.now.sender * 2 ^ 32 + t.now.index }
{
    (t.sender as u64) * 4_294_967_296 + t.index as u64
}
