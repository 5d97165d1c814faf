use crate::event::Event;
use ifl_base::Items;
use thiserror::Error;

/// A ring's size, its number of seats, and events to be made on it one after another.
#[derive(Drop)]
pub struct Schedule {
    pub size: u32,
    pub seats: u32,
    pub events: Items<Event>,
}

/// Why a schedule's text is not read.
#[derive(Clone, Copy, Debug, PartialEq, Eq, Error)]
pub enum ScheduleFault {
    /// The line, counted from 1, is the first that is not of the grammar.
    #[error("line {0}")]
    Line(u32),
    /// There is no memory.
    #[error("out of memory")]
    Memory,
}
