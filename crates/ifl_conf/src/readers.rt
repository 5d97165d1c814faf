ghost use Rattle.std.specs.Prelude.{◌≡◌, ◌≤◌};

use crate::choices::{AdapterKind, Policy, Start, StopMode};
use crate::settings::Settings;

/// A reader for each key.
impl Settings {
    /// The version of the settings file's form. It is 1.
    pub fn version(&self) -> u32
        ensures value { result ≡ self.now.version }
        ensures within { result ≡ 1 }
    {
        self.version
    }

    /// Places of the ring, from 4 to 65,536: `ring.size`.
    pub fn ring_size(&self) -> u32
        ensures value { result ≡ self.now.ring.size }
        ensures within { (4 ≤ result) × (result ≤ 65536) }
    {
        self.ring.size
    }

    /// Items that a drain may consume before it hands the ring over, up to 65,535: `ring.budget`.
    pub fn ring_budget(&self) -> u32
        ensures value { result ≡ self.now.ring.budget }
        ensures within { result ≤ 65535 }
    {
        self.ring.budget
    }

    /// Whether a consumer gives the ring up where its budget is spent: `ring.abdicate`.
    pub fn ring_abdicate(&self) -> bool
        ensures { result ≡ self.now.ring.abdicate }
    {
        self.ring.abdicate
    }

    /// How the adapter tells what it has done: `adapter.kind`.
    pub fn adapter_kind(&self) -> AdapterKind
        ensures { result ≡ self.now.adapter.kind }
    {
        self.adapter.kind
    }

    /// Places of the adapter's descriptor ring, from 8 to 32,768: `adapter.descriptors`. It is at least
    /// `adapter_max_segs` + 4.
    pub fn adapter_descriptors(&self) -> u32
        ensures value { result ≡ self.now.adapter.descriptors }
        ensures within { (8 ≤ result) × (result ≤ 32768) }
    {
        self.adapter.descriptors
    }

    /// The most segments of one frame, from 1 to 64: `adapter.max_segs`.
    pub fn adapter_max_segs(&self) -> u32
        ensures value { result ≡ self.now.adapter.max_segs }
        ensures within { (1 ≤ result) × (result ≤ 64) }
    {
        self.adapter.max_segs
    }

    /// Frames for each doorbell, from 1 to 32: `adapter.doorbell_every`.
    pub fn adapter_doorbell_every(&self) -> u32
        ensures value { result ≡ self.now.adapter.doorbell_every }
        ensures within { (1 ≤ result) × (result ≤ 32) }
    {
        self.adapter.doorbell_every
    }

    /// Frames that the adapter takes in one turn, from 1 to 65,535: `adapter.turn_frames`.
    pub fn adapter_turn_frames(&self) -> u32
        ensures value { result ≡ self.now.adapter.turn_frames }
        ensures within { (1 ≤ result) × (result ≤ 65535) }
    {
        self.adapter.turn_frames
    }

    /// When the adapter begins to work: `adapter.start`. It is at once where senders try again.
    pub fn adapter_start(&self) -> Start
        ensures { result ≡ self.now.adapter.start }
    {
        self.adapter.start
    }

    /// Frames after which the adapter hangs, up to 1,000,000, and 0 for never: `adapter.hang_after`.
    pub fn adapter_hang_after(&self) -> u32
        ensures value { result ≡ self.now.adapter.hang_after }
        ensures within { result ≤ 1000000 }
    {
        self.adapter.hang_after
    }

    /// Frames after which the link is lost, up to 1,000,000, and 0 for never: `adapter.link_down_after`.
    pub fn adapter_link_down_after(&self) -> u32
        ensures value { result ≡ self.now.adapter.link_down_after }
        ensures within { result ≤ 1000000 }
    {
        self.adapter.link_down_after
    }

    /// Turns for which the link stays lost, from 1 to 65,535: `adapter.link_down_turns`.
    pub fn adapter_link_down_turns(&self) -> u32
        ensures value { result ≡ self.now.adapter.link_down_turns }
        ensures within { (1 ≤ result) × (result ≤ 65535) }
    {
        self.adapter.link_down_turns
    }

    /// The most bytes of a frame that may be sent, from 14 to 65,536: `frames.max_frame`.
    pub fn frames_max_frame(&self) -> u32
        ensures value { result ≡ self.now.frames.max_frame }
        ensures within { (14 ≤ result) × (result ≤ 65536) }
    {
        self.frames.max_frame
    }

    /// What a sender does where there is no room for a frame: `frames.policy`.
    pub fn frames_policy(&self) -> Policy
        ensures { result ≡ self.now.frames.policy }
    {
        self.frames.policy
    }

    /// Clusters of the pool, from 1 to 65,536: `pool.clusters`. The longest frame never needs more.
    pub fn pool_clusters(&self) -> u32
        ensures value { result ≡ self.now.pool.clusters }
        ensures within { (1 ≤ result) × (result ≤ 65536) }
    {
        self.pool.clusters
    }

    /// Bytes of a frame that one cluster takes, from 64 to 2,048: `pool.seg_bytes`. The longest frame never
    /// needs more than 64 clusters.
    pub fn pool_seg_bytes(&self) -> u32
        ensures value { result ≡ self.now.pool.seg_bytes }
        ensures within { (64 ≤ result) × (result ≤ 2048) }
    {
        self.pool.seg_bytes
    }

    /// What becomes of the frames that are still queued when a run ends: `stop.mode`.
    pub fn stop_mode(&self) -> StopMode
        ensures { result ≡ self.now.stop.mode }
    {
        self.stop.mode
    }

    /// Frames after which a run that flushes does so, up to 1,000,000: `stop.after`.
    pub fn stop_after(&self) -> u32
        ensures value { result ≡ self.now.stop.after }
        ensures within { result ≤ 1000000 }
    {
        self.stop.after
    }

    /// Places of the receive path's descriptor ring, from 8 to 32,768: `rx.descriptors`.
    pub fn rx_descriptors(&self) -> u32
        ensures value { result ≡ self.now.rx.descriptors }
        ensures within { (8 ≤ result) × (result ≤ 32768) }
    {
        self.rx.descriptors
    }

    /// Clusters of the receive path, from 8 to 65,536: `rx.clusters`.
    pub fn rx_clusters(&self) -> u32
        ensures value { result ≡ self.now.rx.clusters }
        ensures within { (8 ≤ result) × (result ≤ 65536) }
    {
        self.rx.clusters
    }

    /// Frames that arrive at once, from 1 to 65,535: `rx.burst`.
    pub fn rx_burst(&self) -> u32
        ensures value { result ≡ self.now.rx.burst }
        ensures within { (1 ≤ result) × (result ≤ 65535) }
    {
        self.rx.burst
    }

    /// The most bytes of a frame that is copied and not handed on in its cluster, up to 2,048:
    /// `rx.copy_break`.
    pub fn rx_copy_break(&self) -> u32
        ensures value { result ≡ self.now.rx.copy_break }
        ensures within { result ≤ 2048 }
    {
        self.rx.copy_break
    }
}
