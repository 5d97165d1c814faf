//! The device's side of an adapter: an engine that emits whole frames onto a wire, and one that stores frames that
//! arrive.
//!
//! It stands on `ifl_desc` for the ring, the port and the turnstile's kept values, and on `ifl_pcap` for the form of
//! a record. Its one contract: an engine returns each frame whole, once and in order. The transmit engine changes
//! nothing but the status, and its wire is the capture of the frames that it emitted; the receive engine returns each
//! frame that it stored as it arrived.
#![tactic(auto)]

mod arrive;
mod engine;
mod frames;
pub mod laws;
mod plan;
mod point;
mod receive;
#[cfg(test)]
mod tests;
mod tried;
mod wire;

pub use arrive::Arrive;
pub use engine::TxEngine;
pub use plan::{EngineOrigin, EnginePlan, Turn};
pub use receive::RxEngine;
pub use wire::{WireBuffer, frame_len, record_len};
