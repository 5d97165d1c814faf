//! How frames are sent.
ghost use Rattle.std.specs.Prelude.{◌≡◌, ◌≤◌};
ghost use Rattle.std.specs.Bool.{OnTrue, OnFalse};
ghost use Rattle.ifl_line.specs.declared.rules.Policy.TheVariants.{Retry, Drop};
ghost use Rattle.ifl_line.specs.Needs.{clusters_needed};

/// What a sender does where there is no room for a frame.
#[derive(Clone, Copy, Debug, PartialEq, Eq)]
pub enum Policy {
    /// It serves the adapter and tries again.
    Retry,
    /// It turns the frame away.
    Drop,
}

/// How frames are sent.
#[derive(Clone, Copy, Debug)]
pub struct Rules {
    /// The most bytes of a frame, at most 65,536.
    pub max_frame: u32,
    /// The bytes of a frame that one cluster takes, from 64 to 2,048.
    pub seg_bytes: u32,
    /// How many items a drain that a packet's sender begins may consume, at most 65,535.
    pub budget: u32,
    /// Whether a packet is left to another consumer.
    pub abdicate: bool,
    /// What a sender does where there is no room for a frame.
    pub policy: Policy,
    /// How many frames the adapter takes in one turn, at least one.
    pub turn_frames: u32,
    /// Whether the adapter starts after the senders: then no task worker serves it beside them.
    pub after_senders: bool,
    pub ghost max_frame_within: { max_frame ≤ 65536 },
    pub ghost seg_bytes_within: { (64 ≤ seg_bytes) × (seg_bytes ≤ 2048) },
    pub ghost budget_within: { budget ≤ 65535 },
    pub ghost turn_frames_within: { 1 ≤ turn_frames },
    pub ghost segments: { clusters_needed seg_bytes max_frame ≤ 64 },
}

impl Rules {
    /// Whether a frame for which there is no room is turned away.
    pub fn drops(&self) -> bool
        ensures yes { OnTrue result (self.now.policy ≡ Drop) }
        ensures no { OnFalse result (self.now.policy ≡ Retry) }
    {
        match self.policy {
            Policy::Retry => false,
            Policy::Drop => true,
        }
    }
}
