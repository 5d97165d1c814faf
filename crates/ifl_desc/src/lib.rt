//! Rings of descriptors between a driver and a device, and the turnstile and the port that stand beside them.
//!
//! It stands on `ifl_base` and `ifl_mbuf` for tickets and segments, and on `atomic_table` for words and slots. Its
//! one contract is [`DescRing`]: a ring is one list of posted descriptors with five lengths, kept by one history of
//! both sides' steps, of which each end has seen a beginning. The rule of a ring, the racks in which its ends hold
//! their slots, what is done with both ends at once ([`new_ends`], [`let_meet`], [`gather`]) and the lemmas on all
//! these stand here for any words, so that an adapter adds only what its words show of the history ([`RingWords`]).
//! [`laws`] says what the definitions come to. A [`Turnstile`] keeps a value that one seat has at a time, and a
//! [`Port`] a state that one end sets and the other looks at.
#![tactic(auto)]

mod both;
mod closed;
mod desc;
mod history;
pub mod laws;
mod plays;
mod port;
mod rack;
mod remains;
mod ring;
mod ruled;
mod side;
mod signals;
#[cfg(test)]
mod tests;
mod turns;
mod turnstile;

pub use both::{RingTable, gather, let_meet, new_ends};
pub use closed::ClosedList;
pub use desc::{DESC_MAX, DESC_MIN, Desc, DescFault, Status};
pub use history::{Event, IsSide, OfDevice, OfDriver, Role, Side, View};
pub use port::{Port, PortReader, PortState, PortWriter};
pub use rack::{EndSeat, Rack};
pub use remains::Remains;
pub use ring::DescRing;
pub use ruled::{RingWords, Ruled};
pub use side::DriverSide;
pub use turnstile::{Kept, Taken, TurnSeat, Turnstile};
