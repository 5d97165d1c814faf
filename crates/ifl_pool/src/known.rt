use crate::history::{Counts, Entry};
use std::collections::LinkedList;

/// What contracts see of a pass. No value of it is made.
pub struct Known {
    /// The number that its next events bear. No other pass has it.
    pub number: u64,
    /// Its share of the pool, 1 to `PART`. The shares of all passes add up to `PART`.
    pub part: u64,
    /// The numbers for which it stands: its own, and those of the passes that were joined to it.
    pub numbers: LinkedList<u64>,
    /// The beginning of the pool's history that it has seen.
    pub seen: LinkedList<Entry>,
    /// The events that bear its numbers.
    pub counts: Counts,
}
