//! A descriptor ring with a ring of completion entries: word 0 is the doorbell, the number of posted descriptors
//! modulo the size, and word w the completion entry w - 1. An entry has a generation in bit 0, and from bit 16 on the
//! slot of the last descriptor of a returned frame. The generation is 1 in the first lap of the entries and flips in
//! each, so the driver knows by it which entries are new, and stores nothing.
//!
//! It stands on `atomic_table` for the words and the slots, and on `ifl_desc`, whose trait `DescRing` is its one
//! contract: it keeps that trait's rule for these words. [`laws`] has which completion entries bear the generation.
#![tactic(auto)]

mod closed;
mod ends;
mod lap;
pub mod laws;
mod plays;
mod ring;

pub use closed::GenerationClosed;
pub use ends::{GenerationDevice, GenerationDriver};
pub use ring::GenerationRing;

#[cfg(test)]
mod tests;
