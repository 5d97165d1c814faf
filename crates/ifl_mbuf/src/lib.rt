//! Clusters of 2,048 bytes, and the chains in which a frame's bytes lie on their way to an adapter
//! and back.
//!
//! A cluster is a box with a number. Only [`make_clusters`] makes one, nothing doubles one, and to
//! drop one is to spend it. A segment is a cluster with the part of it that is in use, and a chain
//! is a list of at most 64 segments of at least one byte. What a chain no longer needs, it hands
//! back as a list of freed clusters. No call but [`make_clusters`] takes memory: a cluster's own
//! box is the node by which a list holds it.
//!
//! It stands on `std`, whose boxes are taken apart to link them, and on `ifl_base` for limits and
//! tickets. The functions that touch a pointer are those of `unboxed` and `run`; all others see a
//! list of nodes.
//!
//! Its contract: a chain is its segments. Each call says exactly which segments and which bytes it
//! leaves, and a chain together with what it hands back holds the clusters that it held before, by
//! number.
#![tactic(auto)]

mod chain;
mod cluster;
mod collapse;
mod copy;
mod defrag;
mod freed;
mod node;
mod nodes;
mod packet;
mod run;
mod segment;
mod trim;
mod unboxed;

pub use chain::Chain;
pub use cluster::{Cluster, make_clusters};
pub use freed::Freed;
pub use packet::Packet;
pub use segment::Seg;

#[cfg(test)]
mod tests;
