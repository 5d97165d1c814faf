use ifl_base::{Away, Ticket};

/// One frame that was turned away.
#[derive(Clone, Copy, Debug, PartialEq, Eq)]
pub struct AwayLine {
    /// Names the frame.
    pub ticket: Ticket,
    /// Why it was turned away.
    pub away: Away,
}
