//! A lock-free ring for many producers, whose whole state is one 64-bit word.
//!
//! A seat that publishes and finds no consumer becomes the consumer, and drains into the ring's [`Drainer`]. It stands
//! on `atomic_table` for the word and the slots, on `ifl_base` for words, on `ifl_ringcore` for what a legal history
//! is, and on `ifl_outside` for the gate. Its one contract: the steps on the word form one legal history, of which each
//! seat has seen a beginning with all of its own steps, and the answer of each call is what its own steps found.
//!
//! `specs/` reads in this order: `Seats` (what contracts know of a seat, and what a call does to it), `Calls` (the
//! answers), `Tally` (the counts), `Rings` and `Closed` (what contracts see); then, for the proof, `Law` (the rule: who
//! owns which slot, what a view knows), `Tells` and `Acts` (single steps).
#![tactic(auto)]

mod answers;
mod bare;
mod closed;
mod counted;
mod drainer;
pub mod laws;
mod place;
mod plays;
mod published;
mod ring;
mod view;
mod waiting;
mod word;

pub use answers::{Checked, Enqueued, RingFault};
pub use closed::ClosedRing;
pub use drainer::{Drainer, RingItem};
pub use ring::{Ring, Seat};
pub use view::{Known, Past, View};

#[cfg(test)]
mod tests;
