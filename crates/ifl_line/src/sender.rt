use crate::away_line::AwayLine;
use ifl_txq::Item;
use std::collections::VecDeque;

/// One sender's number and room: for the item that it offers, and for a line for each of its frames.
#[derive(Drop)]
pub struct Sender {
    /// The number of its capture.
    pub number: u16,
    /// Empty between frames, with room for one item.
    pub items: VecDeque<Item>,
    /// The frames that were turned away, in the order of the capture.
    pub away: Vec<AwayLine>,
}
