//! The pool of clusters: one word that holds how many clusters are in it, and a queue with the clusters.
//!
//! It stands on `ifl_mbuf` for the clusters, on `atomic_table` for the word and on `crossbeam_queue` for the
//! queue. Its one contract is the history of the pool: each step on the word is a [`Event::Take`], a
//! [`Event::Give`], an [`Event::Empty`] or a look, in one order that all threads share, and a pool of N clusters
//! holds N less those taken plus those given. A thread takes and gives with a [`PoolPass`], which has seen a
//! beginning of that history and has counted its own events in it. The one pass that is left at the end has
//! counted them all, so [`Pool::close`] knows exactly how many clusters are there.
#![tactic(auto)]

mod closed;
mod history;
mod known;
mod moves;
mod pool;
mod queue;
mod steps;
#[cfg(test)]
mod tests;
mod word;

pub use closed::{ClosedPool, retire};
pub use history::{Counts, Entry, Event};
pub use known::Known;
pub use pool::{Pool, PoolPass};
