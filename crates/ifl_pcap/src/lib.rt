//! Captures as files: the capture file format 2.4, in both byte orders, with microseconds or nanoseconds.
//!
//! It stands on `ifl_base`, and reads and writes numbers by `byteorder`. Its contract: `read_capture` gives a
//! capture exactly where the bytes are a capture's file, and that file's frames; elsewhere it names the first
//! fault of the bytes, with its place; `write_capture` gives the one file that is written for a capture.
#![tactic(auto)]

mod builder;
mod capture;
mod fault;
mod form;
mod frame;
mod header;
pub mod laws;
mod reading;
mod table;
mod writing;

pub use builder::CaptureBuilder;
pub use capture::Capture;
pub use fault::{CaptureFault, CaptureWhy};
pub use frame::{Frame, record_len};
pub use reading::read_capture;
pub use writing::write_capture;

#[cfg(test)]
mod tests;
