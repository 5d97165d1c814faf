//! The engine: what the program does with its words, over any host and any gate.
//!
//! It stands on `ifl_outside` (files, standard output, gates), `ifl_conf` (words and settings), `ifl_pcap` (captures),
//! `ifl_line` (a whole run over ring, adapter and pool) with the three adapters, and `ifl_ringcore` (replays of
//! schedules). Its one contract is that of [`run`]: at status 0 of `send` the order file lists the accepted frames, each
//! sender's in the order of its capture, each once, with one fate; the wire file is exactly the frames with fate `wire`,
//! in that order; every other frame stands in one named counter; every cluster is back; and every status has its cause.
//!
//! `specs/` reads in this order: `Words` (what was asked), `Counts` and `Report` (what a good report is), `Texts`,
//! `Tracing` (what a replay prints), `Account` (what the files were found to be), `Loading` (what `send` goes by),
//! `Wanted` (what a run is to do, or the first thing that stops it), `Status` and `FaultLines` (of each stop), `Seen`,
//! `Left`, `CutShort` and `Answer` (what a run answers and does to its host). `Read`, `Loaded` and `Steps` are for the
//! functions below `run`.
#![tactic(auto)]

mod counting;
mod gathering;
mod laws;
mod reading;
mod report;
mod sending;
mod stop;
mod telling;
mod texts;
mod top;
mod tracing;
mod words;
mod writing;

pub use laws::{
    accounts_are_what_is_told, bad_schedules_keep_their_status, runs_complete,
    stops_leave_no_report,
};
pub use report::{ClosedLine, Finished, Plain, Report};
pub use stop::{Input, SettingsWhy, Stop, WordsWhy};
pub use texts::{counter_text, order_text};
pub use top::run;
pub use tracing::run_trace;

#[cfg(test)]
mod tests;
