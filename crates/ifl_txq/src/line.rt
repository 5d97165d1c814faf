//! Lines of the order record.
use ifl_base::{Fate, Ticket};

/// A line of the order record.
#[derive(Clone, Copy, Debug, PartialEq, Eq)]
pub struct OrderLine {
    /// Names the frame.
    pub ticket: Ticket,
    /// What became of it.
    pub fate: Fate,
}

/// A line as it is kept: the fate is there once it is settled.
#[derive(Clone, Copy, Drop)]
pub struct Line {
    pub ticket: Ticket,
    pub fate: Option<Fate>,
}
