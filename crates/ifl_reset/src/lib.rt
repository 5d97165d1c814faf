//! Serving, resetting, stopping and emptying an adapter, beside running senders.
//!
//! It stands on `ifl_desc` for the turnstile that keeps an engine, on `ifl_device` for the engine, on `ifl_ring` for
//! the ring, and on `ifl_txq` for the queue. Its one contract: an engine changes under the turn alone, by whole calls
//! of its own, and each call here says which engine it found and as which it left it. [`quiesce`] publishes single
//! kicks and ends at a moment at which nothing is reserved and nothing waits; after [`empty_out`] nothing is
//! outstanding and nothing is held.
#![tactic(auto)]

mod empty;
mod resting;
mod served;
mod turns;

pub use empty::empty_out;
pub use resting::quiesce;
pub use served::Served;
pub use turns::{reset, serve, set_link, stop_flush};

#[cfg(test)]
mod tests;
