//! What became of an arrival.

/// A frame that arrived was stored, or there were not enough buffers for it.
#[derive(Clone, Copy, Debug, PartialEq, Eq)]
pub enum Arrive {
    /// It lies in buffers of the ring, which are returned.
    Stored,
    /// It needs more buffers than are rung and unused. Nothing is stored.
    Missed {
        /// How many are rung and unused.
        free: u32,
    },
}
