use ifl_base::{Away, Fate};

/// One line of an order text: the frame that it names, and what it says of it.
#[derive(Clone, Copy, Debug)]
pub struct Line<T> {
    /// The file of the frame, counted from 0.
    pub sender: u32,
    /// The record in that file, counted from 0.
    pub index: u32,
    /// What became of the frame, or why it was turned away.
    pub what: T,
}

/// The lines of an order text.
#[derive(Debug, Drop)]
pub struct Order {
    /// The accepted frames, in the order of acceptance.
    pub accepted: Vec<Line<Fate>>,
    /// The frames that were turned away.
    pub away: Vec<Line<Away>>,
}
