//! What a seat knows. No value of these types is made.
use ifl_ringcore::Entry;
use std::collections::LinkedList;

/// One of two seats that were joined, as it was then. The joined seat remembers both until its next step.
pub struct Past {
    /// The numbers for which it stood.
    pub stands: LinkedList<u64>,
    /// The beginning of the ring's history that it had seen.
    pub seen: LinkedList<Entry>,
}

/// What contracts see of a seat.
pub struct Known {
    /// Its number, which no other seat has.
    pub number: u64,
    /// Its share of the ring, of [`PART`](ifl_base::PART) in all.
    pub part: u64,
    /// The numbers for which it stands: its own, and those of the seats that were joined to it.
    pub stands: LinkedList<u64>,
    /// The beginning of the ring's history that it has seen.
    pub seen: LinkedList<Entry>,
}

/// What the rule of the ring's table knows of a seat.
pub struct View<O> {
    /// What contracts see of the seat.
    pub known: Known,
    /// The two seats that it was made of by a join since its last step, if there was one.
    pub told: LinkedList<Past>,
    /// With what the ring's drainer was made; none of a seat that was joined to another.
    pub origin: Option<O>,
}
