//! The numbers from which frames are made.
#![tactic(auto, unfolding(crate::specs::States::stepped, crate::specs::Frames::length_by))]

ghost use Rattle.std.specs.Prelude.{◌≡◌, ◌≤◌};
ghost use Rattle.ifl_gen.specs.States.{stepped, first_state};
ghost use Rattle.ifl_gen.specs.Frames.{length_by};

/// The multiplier of a step.
const MULTIPLIER: u64 = 6_364_136_223_846_793_005;

/// What a step adds.
const INCREMENT: u64 = 1_442_695_040_888_963_407;

/// The fewest bytes of a frame.
const SHORTEST: u32 = 60;

/// How many lengths there are.
const LENGTHS: u64 = 1_455;

/// What a sender begins with.
pub(crate) fn first(seed: u64, sender: u32) -> u64
    ensures { result ≡ first_state seed sender }
{
    seed.wrapping_add(sender as u64)
}

/// One step.
pub(crate) fn next(x: u64) -> u64
    ensures { result ≡ stepped x }
{
    x.wrapping_mul(MULTIPLIER).wrapping_add(INCREMENT)
}

/// The length of the frame that is made from this number, 60 to 1,514 bytes.
pub(crate) fn frame_len(x: u64) -> u32
    ensures value { result ≡ length_by x }
    ensures short { result ≤ 1514 }
{
    SHORTEST + ((x >> 33) % LENGTHS) as u32
}
