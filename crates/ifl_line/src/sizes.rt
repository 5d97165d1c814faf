//! How large the parts of a run are.
ghost use Rattle.std.specs.Prelude.{◌≡◌, ◌≤◌, ◌+◌};

/// How large the parts of a run are, and the two limits of its queue.
#[derive(Clone, Copy, Debug)]
pub struct Sizes {
    /// Places of the ring, from 4 to 65,536.
    pub ring: u32,
    /// Clusters of the pool, from 1 to 65,536.
    pub clusters: u32,
    /// Slots of the descriptor ring, from 8 to 32,768.
    pub descriptors: u32,
    /// The most descriptors of a packet, from 1 to 64, and at most `descriptors` - 4.
    pub max_segs: u32,
    /// After how many packets the doorbell is rung, from 1 to 32.
    pub doorbell_every: u32,
    pub ghost ring_within: { (4 ≤ ring) × (ring ≤ 65536) },
    pub ghost clusters_within: { (1 ≤ clusters) × (clusters ≤ 65536) },
    pub ghost descriptors_within: { (8 ≤ descriptors) × (descriptors ≤ 32768) },
    pub ghost max_segs_within: { (1 ≤ max_segs) × (max_segs ≤ 64) },
    pub ghost doorbell_every_within: { (1 ≤ doorbell_every) × (doorbell_every ≤ 32) },
    pub ghost fits: { max_segs + 4 ≤ descriptors },
}
