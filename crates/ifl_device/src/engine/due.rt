//! What an engine's plan asks for now.
ghost use Rattle.std.specs.Prelude.{◌≡◌, ◌+◌, ◌<◌, ◌≤◌};
ghost use Rattle.std.specs.Bool.{OnTrue, OnFalse};
ghost use Rattle.ifl_device.specs.Engine.{IsEngine};
ghost use Rattle.ifl_device.specs.Turns.{IsAt, IsDue, IsHung, IsCut, StopsBefore, Reaches};

use crate::engine::TxEngine;
use crate::point::Point;
use ifl_desc::DescRing;

// So many of `frames`, from `emitted` on, that they do not pass `number`.
fn at_most(frames: u64, emitted: u64, number: u64) -> u64
    ensures few { result ≤ frames }
    ensures some { 1 ≤ frames → 1 ≤ result }
    ensures stops { emitted < number → emitted + result ≤ number }
    ensures reaches { result < frames → (emitted < number) × (emitted + result ≡ number) }
{
    if number > emitted && number - emitted < frames {
        return number - emitted;
    }
    frames
}

impl<'a, R: DescRing> TxEngine<'a, R> {
    // At which point a turn is.
    pub(super) fn point(&self) -> Point
        ensures point { IsAt result self.now }
        ensures lawful { IsEngine self.now }
    {
        if self.flushing || self.is_due() {
            return Point::Stopping;
        }
        if self.is_hung() {
            return Point::Hanging;
        }
        if self.is_cut() {
            return Point::Cutting;
        }
        Point::Emitting
    }

    // As many frames are emitted as the flush comes after.
    fn is_due(&self) -> bool
        ensures due { OnTrue result (IsDue self.now) }
        ensures not_due { OnFalse result (IsDue self.now → ⊥) }
    {
        match self.plan.flush_after {
            Some(n) => self.emitted >= n,
            None => false,
        }
    }

    fn is_hung(&self) -> bool
        ensures hung { OnTrue result (IsHung self.now) }
        ensures not_hung { OnFalse result (IsHung self.now → ⊥) }
    {
        self.plan.hang_after > 0 && self.emitted >= self.plan.hang_after && !self.cleared
    }

    fn is_cut(&self) -> bool
        ensures lost { OnTrue result (IsCut self.now) }
        ensures not_lost { OnFalse result (IsCut self.now → ⊥) }
    {
        self.plan.link_down_after > 0 && self.emitted >= self.plan.link_down_after && self.downs > 0
    }

    // How many of `frames` may be emitted before a number of the plan is reached.
    pub(super) fn limit(&self, frames: u32) -> u32
        requires { 1 ≤ frames }
        ensures some { (1 ≤ result) × (result ≤ frames) }
        ensures stops { StopsBefore self.now.plan self.now.emitted result }
        ensures reaches { result < frames → Reaches self.now.plan self.now.emitted result }
    {
        let mut limit = frames as u64;
        if let Some(n) = self.plan.flush_after {
            limit = at_most(limit, self.emitted, n);
        }
        limit = at_most(limit, self.emitted, self.plan.hang_after);
        limit = at_most(limit, self.emitted, self.plan.link_down_after);
        limit as u32
    }
}
