//! The words that every crate of the transmit path shares: limits, tickets, stamps, verdicts, fates, and the
//! ring's word with its flag.
//!
//! It stands on `std` and on `thiserror` for one message. Its contract: a ticket's tag is a number that no
//! other ticket has, the verdict of a frame follows from its length alone, and the ring's word packs and
//! counts its places modulo the ring's size, for every size from 4 to 65,536.
#![tactic(auto)]

mod fate;
mod items;
mod judged;
pub mod laws;
mod limits;
mod memory;
mod places;
mod ticket;
mod word;

pub use fate::{Away, Fate};
pub use items::Items;
pub use judged::{Judged, verdict};
pub use limits::{
    ALL_MAX, CHAIN_MAX, CLUSTER_BYTES, DRAIN_BATCH, FILE_MAX, FILES_MAX, FRAME_MIN, FRAMES_MAX,
    MAX_BATCH, MAX_FRAME, PART, RING_MAX, RING_MIN, TX_BUDGET, UPDATE_AFTER,
};
pub use memory::NoMemory;
pub use places::{advance, flag_after, space};
pub use ticket::{Stamp, Ticket, tag};
pub use word::{Flag, RingWord};

#[cfg(test)]
mod tests;
