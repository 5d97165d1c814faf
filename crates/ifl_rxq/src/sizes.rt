//! How large the parts of a receive run are, and how it goes.
ghost use Rattle.std.specs.Prelude.{◌≤◌};

/// How large the two parts of a receive run are.
#[derive(Clone, Copy, Debug)]
pub struct RxSizes {
    /// Slots of the descriptor ring, from 8 to 32,768.
    pub descriptors: u32,
    /// Clusters of the pool, from 1 to 65,536.
    pub clusters: u32,
    pub ghost descriptors_within: { (8 ≤ descriptors) × (descriptors ≤ 32768) },
    pub ghost clusters_within: { (1 ≤ clusters) × (clusters ≤ 65536) },
}

/// How frames are received.
#[derive(Clone, Copy, Debug)]
pub struct RxRules {
    /// How many frames arrive between two refills, at least one.
    pub burst: u32,
    /// The most bytes of a frame that is copied, so that its clusters are kept for the next refill.
    pub copy_break: u32,
    pub ghost burst_within: { 1 ≤ burst },
}
