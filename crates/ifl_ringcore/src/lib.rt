//! The ring's machine: numbers that never wrap, events with exact conditions, and counters.
//!
//! It stands on `ifl_base` for the word. Its one contract: an event is applied exactly where all of its
//! conditions hold, and else the first that fails is named and nothing changes. The running ring makes the
//! same steps, and cites the same definitions. A schedule is a text with events to be replayed, and a trace is
//! the text that this prints.
#![tactic(auto)]

mod counters;
mod event;
mod history;
mod illegal;
mod kept;
pub mod laws;
mod line;
mod machine;
mod owner;
mod reading;
mod schedule;
mod sight;
mod texts;
mod trace;
pub mod words;

pub use counters::Counters;
pub use event::Event;
pub use history::{Entry, Meaning, Step};
pub use illegal::Illegal;
pub use machine::Machine;
pub use owner::Owner;
pub use reading::read_schedule;
pub use schedule::{Schedule, ScheduleFault};
pub use trace::{Trace, replay};

#[cfg(test)]
mod tests;
