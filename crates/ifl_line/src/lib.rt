//! A whole run: several senders over one ring, one pool and one adapter, and a task worker beside them.
//!
//! It stands on `ifl_ring` and `ifl_txq` for the ring and the queue that drains it, on `ifl_pool` for clusters, on
//! `ifl_desc`, `ifl_device` and `ifl_reset` for the adapter's engine under its turnstile, and on `ifl_mbuf`, `ifl_pcap`,
//! `ifl_outside` and `ifl_base`. Its one contract is that of [`send_captures`]: every record of the captures is accepted
//! or turned away, once; the order record has the accepted frames, each sender's in the order of its capture, each with
//! one fate, which its length and the engine's plan allow; the wire is the capture of those with fate wire; every other
//! frame has a line that says why; the ring, the descriptor ring and the pool are closed with nothing left in them, and
//! every cluster is back.
//!
//! `fit_out` makes what a line belongs to, `assemble` the line, `transmit` runs it, `close` ends it, and `finish` puts
//! together what is left. A line lives no longer than what it belongs to, so it is taken apart before that is closed.
//!
//! `specs/` reads in this order: `Meanings` and `Steps` (what entries publish), `Frames` (what becomes of one sender's
//! frames), `Sent` (what a part of a run did), `Runs` (what that comes to for the files), `Good` (what a run leaves),
//! `Causes` (why a frame has its fate); `Hands`, `Obtains`, `Ready`, `Runners`, `Jobs`, `Works`, `Loads`, `Passes`,
//! `Lines` and `Remains` are for the functions below it.
#![tactic(auto)]

mod assembling;
mod away_line;
mod building;
mod ending;
mod finishing;
mod gathering;
mod hands;
mod jobs;
pub mod laws;
mod line;
mod making;
mod offering;
mod plan;
mod remains;
mod rules;
mod run;
mod running;
mod sender;
mod sending;
mod settling;
mod sizes;
mod transmitting;
mod working;

pub use assembling::assemble;
pub use away_line::AwayLine;
pub use ending::{Ends, close};
pub use finishing::Sent;
pub use gathering::Ended;
pub use hands::{Hands, Seats};
pub use jobs::{Job, Task};
pub use line::Line;
pub use making::{Load, make_jobs, make_loads};
pub use plan::{Plan, Tokens, fit_out};
pub use rules::{Policy, Rules};
pub use run::send_captures;
pub use running::Runner;
pub use sender::Sender;
pub use sizes::Sizes;
pub use transmitting::transmit;
pub use working::Worker;
