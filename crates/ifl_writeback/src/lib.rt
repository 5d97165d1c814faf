//! A descriptor ring whose device writes its progress back: word 0 is the doorbell, the number of posted descriptors
//! modulo the size, and word 1 the device's head, the number of returned ones modulo the size.
//!
//! It stands on `atomic_table` for the words and the slots, and on `ifl_desc`, whose trait `DescRing` is its one
//! contract: it keeps that trait's rule for these two words.
#![tactic(auto)]

mod closed;
mod ends;
mod plays;
mod ring;

pub use closed::WritebackClosed;
pub use ends::{WritebackDevice, WritebackDriver};
pub use ring::WritebackRing;

#[cfg(test)]
mod tests;
