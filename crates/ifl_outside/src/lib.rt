//! What lies outside the product: a host with files and standard output, and a gate at which a test may hold
//! a thread.
//!
//! It stands on `ifl_base`. Its contract is that of the two traits. A [`Host`] holds files, remembers what
//! was printed and counts its faults: it answers `Failed` only where that count rose, so code that is generic
//! over it can neither give up nor blame it. A [`Gate`] changes nothing.
#![tactic(auto)]

mod entry;
mod fault;
mod gate;
mod host;
mod memory;
mod real;
mod steady;

pub use entry::FileEntry;
pub use fault::HostError;
pub use gate::{FreeGate, Gate, Point};
pub use host::{Fetch, Host};
pub use memory::MemoryHost;
pub use real::RealHost;
pub use steady::SteadyHost;

#[cfg(test)]
mod tests;
