//! The transmit queue: it takes packets out of the ring, lays them into descriptors, and keeps the order record.
//!
//! It stands on `ifl_ring` for what a drainer is, on `ifl_desc` for the descriptor ring and the port, on `ifl_pool`
//! for the pool of clusters, and on `ifl_mbuf` and `ifl_base`. Its one contract is [`Drainer`](ifl_ring::Drainer):
//! a queue has taken just these items, in this order, and each packet among them is noted once, is posted as the
//! next frame or has its fate, and has all its clusters with the adapter or back in the pool.
#![tactic(auto)]

mod clusters;
mod drain;
mod encap;
mod item;
pub mod laws;
mod line;
mod log;
mod origin;
mod posting;
mod queue;
mod reclaim;
mod send;
mod sent;
mod tally;
#[cfg(test)]
mod tests;

pub use encap::Encap;
pub use item::Item;
pub use line::OrderLine;
pub use log::Log;
pub use origin::QueueOrigin;
pub use queue::{Txq, TxqEnds};
pub use tally::Tally;
