//! Traffic from a seed: captures whose frames are made from one number.
//!
//! It stands on `ifl_base` for limits, on `ifl_pcap` for captures and on `byteorder` for the numbers of a record. Its one
//! contract: [`generate`] gives the captures that a seed, a number of senders and a number of frames define, the same ones
//! each time, and fails for want of memory alone; [`measure`] tells beforehand which limit they exceed.
//!
//! `specs/` reads in this order: `States` (the numbers, one after another), `Frames` (what a frame is made of, and
//! whose it is), `Measure` (the limits).
#![tactic(auto)]

mod body;
mod file;
mod generating;
pub mod laws;
mod measuring;
mod state;
mod traffic;

pub use generating::generate;
pub use measuring::{Measured, measure};
pub use traffic::Traffic;

#[cfg(test)]
mod tests;
