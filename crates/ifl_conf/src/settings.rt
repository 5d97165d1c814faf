ghost use Rattle.std.specs.Prelude.{◌≡◌, ◌≤◌, ◌+◌};
ghost use Rattle.ifl_conf.specs.Parts.{parts};
ghost use Rattle.ifl_conf.specs.declared.choices.Start.TheVariants.{AfterSenders};
ghost use Rattle.ifl_conf.specs.declared.choices.Policy.TheVariants.{Drop};

use crate::choices::{AdapterKind, Policy, Start, StopMode};

/// The settings of the ring.
#[derive(Clone, Copy, Debug)]
pub struct RingSettings {
    /// Places, from 4 to 65,536.
    pub size: u32,
    /// Items that a drain may consume before it hands the ring over, up to 65,535.
    pub budget: u32,
    /// Whether a consumer gives the ring up where its budget is spent.
    pub abdicate: bool,
    pub ghost size_within: { (4 ≤ size) × (size ≤ 65536) },
    pub ghost budget_within: { budget ≤ 65535 },
}

/// The settings of the adapter.
#[derive(Clone, Copy, Debug)]
pub struct AdapterSettings {
    /// How the adapter tells what it has done.
    pub kind: AdapterKind,
    /// Places of the descriptor ring, from 8 to 32,768.
    pub descriptors: u32,
    /// The most segments of one frame, from 1 to 64.
    pub max_segs: u32,
    /// Frames for each doorbell, from 1 to 32.
    pub doorbell_every: u32,
    /// Frames that the adapter takes in one turn, from 1 to 65,535.
    pub turn_frames: u32,
    /// When the adapter begins to work.
    pub start: Start,
    /// Frames after which the adapter hangs, up to 1,000,000; with 0 it never does.
    pub hang_after: u32,
    /// Frames after which the link is lost, up to 1,000,000; with 0 it never is.
    pub link_down_after: u32,
    /// Turns for which the link stays lost, from 1 to 65,535.
    pub link_down_turns: u32,
    pub ghost descriptors_within: { (8 ≤ descriptors) × (descriptors ≤ 32768) },
    pub ghost max_segs_within: { (1 ≤ max_segs) × (max_segs ≤ 64) },
    pub ghost doorbell_every_within: { (1 ≤ doorbell_every) × (doorbell_every ≤ 32) },
    pub ghost turn_frames_within: { (1 ≤ turn_frames) × (turn_frames ≤ 65535) },
    pub ghost hang_after_within: { hang_after ≤ 1000000 },
    pub ghost link_down_after_within: { link_down_after ≤ 1000000 },
    pub ghost link_down_turns_within: { (1 ≤ link_down_turns) × (link_down_turns ≤ 65535) },
}

/// The settings of frames.
#[derive(Clone, Copy, Debug)]
pub struct FramesSettings {
    /// The most bytes of a frame that may be sent, from 14 to 65,536.
    pub max_frame: u32,
    /// What a sender does where there is no room for a frame.
    pub policy: Policy,
    pub ghost max_frame_within: { (14 ≤ max_frame) × (max_frame ≤ 65536) },
}

/// The settings of the pool.
#[derive(Clone, Copy, Debug)]
pub struct PoolSettings {
    /// Clusters, from 1 to 65,536.
    pub clusters: u32,
    /// Bytes of a frame that one cluster takes, from 64 to 2,048.
    pub seg_bytes: u32,
    pub ghost clusters_within: { (1 ≤ clusters) × (clusters ≤ 65536) },
    pub ghost seg_bytes_within: { (64 ≤ seg_bytes) × (seg_bytes ≤ 2048) },
}

/// The settings of how a run ends.
#[derive(Clone, Copy, Debug)]
pub struct StopSettings {
    /// What becomes of the frames that are still queued.
    pub mode: StopMode,
    /// Frames after which a run that flushes does so, up to 1,000,000.
    pub after: u32,
    pub ghost after_within: { after ≤ 1000000 },
}

/// The settings of the receive path.
#[derive(Clone, Copy, Debug)]
pub struct RxSettings {
    /// Places of the descriptor ring, from 8 to 32,768.
    pub descriptors: u32,
    /// Clusters, from 8 to 65,536.
    pub clusters: u32,
    /// Frames that arrive at once, from 1 to 65,535.
    pub burst: u32,
    /// The most bytes of a frame that is copied and not handed on in its cluster, up to 2,048.
    pub copy_break: u32,
    pub ghost descriptors_within: { (8 ≤ descriptors) × (descriptors ≤ 32768) },
    pub ghost clusters_within: { (8 ≤ clusters) × (clusters ≤ 65536) },
    pub ghost burst_within: { (1 ≤ burst) × (burst ≤ 65535) },
    pub ghost copy_break_within: { copy_break ≤ 2048 },
}

/// Settings, of which every value is valid: each number is in its range, and the rules over several of them hold.
///
/// A field is a table of the settings file, and a field of it a key.
#[derive(Clone, Copy, Debug)]
pub struct Settings {
    /// The version of the settings file's form.
    pub version: u32,
    /// The table `ring`.
    pub ring: RingSettings,
    /// The table `adapter`.
    pub adapter: AdapterSettings,
    /// The table `frames`.
    pub frames: FramesSettings,
    /// The table `pool`.
    pub pool: PoolSettings,
    /// The table `stop`.
    pub stop: StopSettings,
    /// The table `rx`.
    pub rx: RxSettings,
    pub ghost version_within: { version ≡ 1 },
    pub ghost room: { adapter.max_segs + 4 ≤ adapter.descriptors },
    pub ghost start: { adapter.start ≡ AfterSenders → frames.policy ≡ Drop },
    pub ghost segs: { parts frames.max_frame pool.seg_bytes ≤ 64 },
    pub ghost clusters: { parts frames.max_frame pool.seg_bytes ≤ pool.clusters },
}
