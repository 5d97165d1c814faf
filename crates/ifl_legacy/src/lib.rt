//! A descriptor ring with a status word for each descriptor: word 0 is the doorbell, the number of posted descriptors
//! modulo the size, and word w the status of the descriptor in slot w - 1. It is 0, or at the first slot of a returned
//! frame the number of its descriptors, until the driver has counted them and stores 0 there.
//!
//! It stands on `atomic_table` for the words and the slots, and on `ifl_desc`, whose trait `DescRing` is its one
//! contract: it keeps that trait's rule for these words. [`laws`] has what a frame's status words are.
#![tactic(auto)]

mod closed;
mod ends;
pub mod laws;
mod plays;
mod ring;

pub use closed::LegacyClosed;
pub use ends::{LegacyDevice, LegacyDriver};
pub use ring::LegacyRing;

#[cfg(test)]
mod tests;
