//! What comes back: entries are reclaimed, fates settled and clusters given back.
ghost use Rattle.std.specs.Prelude.{cond, ◌≡◌, List, length};
ghost use Rattle.ifl_ringcore.specs.declared.history.Meaning.{Meaning};
ghost use Rattle.ifl_txq.specs.Calls.{Reclaimed, reclaimed_since};
ghost use Rattle.ifl_txq.specs.Frames.{fate_of, fates_of};
ghost use Rattle.ifl_txq.specs.Log.{after_settle};
ghost use Rattle.ifl_txq.specs.Queue.{IsQueue, origin_of};
ghost use Rattle.ifl_txq.specs.Standing.{QueueStandsFor};
ghost use Rattle.ifl_txq.specs.Steps.{LookedBack, TakesBack};

use crate::clusters::give_one;
use crate::log::Log;
use crate::queue::Txq;
use ifl_base::{Fate, Ticket};
use ifl_desc::{Desc, DriverSide, Status};
use std::sync::Wait;

// The fate that a returned frame has.
fn fate_of(status: Status) -> Fate
    ensures { result ≡ fate_of status }
{
    match status {
        Status::Emitted => Fate::Wire,
        Status::Flushed => Fate::Flush,
        _ => Fate::Reset,
    }
}

// Settles the fate of a frame at its last descriptor.
fn settle_frame(log: &mut Log, last: bool, ticket: Ticket, status: Status)
    ensures { log.new ≡ cond last (after_settle ticket (fate_of status) log.old) log.old }
{
    if last {
        log.settle(ticket, fate_of(status));
    }
}

impl<'a, R: DriverSide> Txq<'a, R> {
    /// Reclaims all that is known to be returned after a look, settles the fate of each frame by the status of its
    /// last descriptor, and gives the clusters back. It answers how many frames were reclaimed.
    pub fn reclaim<W: Wait>(&mut self, rt: &W) -> u32
        ensures origin { origin_of self.new ≡ origin_of self.old }
        ensures stands { (ms : List Meaning) → QueueStandsFor self.old ms → QueueStandsFor self.new ms }
        ensures did { Reclaimed self.old self.new }
        ensures frames { result ≡ length (fates_of (reclaimed_since self.old self.new)) }
        ensures lawful { IsQueue self.new }
    {
        // Fewer frames than it has slots were posted and not reclaimed.
        let _slots = self.ring.slots();
        self.look_back();
        let mut frames = 0;
        while let Some(last) = self.take_back(rt) {
            if last {
                frames += 1;
            }
        }
        frames
    }

    // Asks how much more is returned.
    fn look_back(&mut self)
        ensures looked { LookedBack self.old self.new }
        ensures lawful { IsQueue self.new }
    {
        self.ring.credits(&mut self.driver);
    }

    // Reclaims the next descriptor that is known to be returned, and answers whether it is the last one of a frame.
    fn take_back<W: Wait>(&mut self, rt: &W) -> Option<bool>
        ensures took { TakesBack self.old result self.new }
        ensures lawful { IsQueue self.new }
    {
        let Desc {
            seg,
            ticket,
            stamp: _,
            last,
            status,
        } = self.ring.reclaim(&mut self.driver)?;
        settle_frame(&mut self.log, last, ticket, status);
        give_one(rt, self.pool, &mut self.pass, seg.into_cluster());
        Some(last)
    }
}
