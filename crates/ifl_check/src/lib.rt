//! Judges the two files that a run wrote, the wire capture and the order text, against the captures that it read.
//!
//! It stands on `ifl_base` for fates and words, and on `ifl_pcap` for captures. It shares nothing with the code that
//! writes these files. Its one contract: `check_run` names the first of seven clauses that fails, and answers that
//! none does exactly where all of them hold.
//!
//! 1. The order text is of its grammar (`specs/Text`).
//! 2. Each record stands in exactly one line, and no line names another (`EachOnce`).
//! 3. The accepted lines of each sender stand in the order of its records, and the away lines in the order of senders
//!    and records (`InOrder`).
//! 4. What a line says suits the length of its frame (`Lengths`).
//! 5. What a line says may stand there under the settings (`Allowed`).
//! 6. A word that refused a frame is that of a ring without room (`FullRing`).
//! 7. The wire is the written capture of the frames whose fate it is (`OnWire`).
//!
//! `FirstFailing` puts them together, and is to be read last.
#![tactic(auto)]

mod allowed;
mod checking;
mod files;
mod full;
pub mod laws;
mod lengths;
mod line;
mod marking;
mod ordering;
mod parts;
mod reading;
mod terms;
mod wire;
mod words;

pub use checking::check_run;
pub use line::{Line, Order};
pub use reading::read_order;
pub use terms::Terms;

#[cfg(test)]
mod tests;
