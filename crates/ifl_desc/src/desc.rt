//! What a ring carries.
ghost use Rattle.std.specs.Prelude.{◌≤◌, length};

use ifl_base::{Stamp, Ticket};
use ifl_mbuf::Seg;
use thiserror::Error;

/// What became of a descriptor.
#[derive(Clone, Copy, Debug, PartialEq, Eq)]
pub enum Status {
    /// The driver posted it, and the device has not completed it.
    Posted,
    /// Its frame is on the wire.
    Emitted,
    /// The adapter was reset before its frame was emitted.
    Aborted,
    /// The adapter was stopped before its frame was emitted.
    Flushed,
    /// The device filled it with bytes that it received.
    Filled,
    /// The device gave it back as it was.
    Unused,
}

/// A part of a frame, with the segment that holds its bytes and that it owns.
#[derive(Drop)]
pub struct Desc {
    /// The bytes.
    pub seg: Seg,
    /// Names the frame.
    pub ticket: Ticket,
    /// When the frame was captured.
    pub stamp: Stamp,
    /// It is the last one of its frame.
    pub last: bool,
    /// What became of it.
    pub status: Status,
    ghost fits: { length seg.bytes ≤ 2048 },
}

/// The fewest slots of a ring.
pub const DESC_MIN: u32 = 8;

/// The most slots of a ring.
pub const DESC_MAX: u32 = 32_768;

/// Why a ring could not be made.
#[derive(Clone, Copy, Debug, PartialEq, Eq, Error)]
pub enum DescFault {
    /// A ring has no such size: it is outside 8 to 32,768.
    #[error("bad size {0}")]
    BadSize(u32),
    /// There was no memory.
    #[error("out of memory")]
    Memory,
}
