//! The end of a line.
ghost use Rattle.std.specs.Prelude.{◌≡◌, [], Some};
ghost use Rattle.ifl_base.specs.declared.limits.TheConstants.{PART};
ghost use Rattle.ifl_desc.specs.Ends.{posted};
ghost use Rattle.ifl_device.specs.Engine.{IsEngine};
ghost use Rattle.ifl_device.specs.Origin.{made_with};
ghost use Rattle.ifl_reset.specs.Quiet.{IsQuiet};
ghost use Rattle.ifl_ring.specs.Closed.{IsEnded};
ghost use Rattle.ifl_ring.specs.Seats.{events};
ghost use Rattle.ifl_ringcore.specs.Counters.{capped, counters_of};
ghost use Rattle.ifl_ringcore.specs.History.{state_after};
ghost use Rattle.ifl_ringcore.specs.State.{first_state};
ghost use Rattle.ifl_txq.specs.Queue.{IsQueue, IsRung, origin_of};
ghost use Rattle.ifl_txq.specs.Standing.{QueueStandsFor};
ghost use Rattle.ifl_line.specs.Hands.{AreOf};
ghost use Rattle.ifl_line.specs.Runs.{published};

use crate::hands::{Hands, Seats};
use crate::line::Line;
use ifl_desc::DescRing;
use ifl_device::TxEngine;
use ifl_pool::PoolPass;
use ifl_reset::empty_out;
use ifl_ring::ClosedRing;
use ifl_ringcore::Counters;
use ifl_txq::{Item, QueueOrigin, Txq};
use std::sync::Wait;

/// What is left of a line.
#[derive(Drop)]
pub struct Ends<'a, R: DescRing> {
    /// The ring, closed.
    pub ring: ClosedRing<Item, QueueOrigin<R>>,
    /// What all seats of the ring counted.
    pub counters: Counters,
    /// The queue, of which nothing is outstanding.
    pub queue: Txq<'a, R>,
    /// The engine, which holds nothing.
    pub engine: TxEngine<'a, R>,
    /// The pass of the pool in which all others ended.
    pub pass: PoolPass,
}

/// Ends a line whose ring is at rest, with its whole hands: the ring and the turnstile are closed, and queue and engine
/// are emptied.
///
/// The queue has taken just what was published, in published order. It may wait for ever: it ends only where the engine
/// returns all that the queue posted.
pub fn close<'a, R: DescRing, W: Wait>(
    rt: &W,
    line: Line<'a, R>,
    hands: Hands<'a, R>,
) -> Ends<'a, R>
    requires own { AreOf line hands }
    requires whole { (hands.seats.ring.known.part ≡ PART) × (hands.seats.turn.part ≡ PART) }
    requires quiet { IsQuiet (state_after first_state hands.seats.ring.known.seen) }
    ensures ring { (result.ring.size ≡ line.entry.ring.size) × IsEnded line.entry.ring.size result.ring.history }
    ensures left { result.ring.left ≡ [] }
    ensures history { result.ring.history ≡ events hands.entry.seats.ring.known }
    ensures counters { result.counters ≡ capped (counters_of first_state result.ring.history) }
    ensures rest { IsQuiet (state_after first_state result.ring.history) }
    ensures queue { (origin_of result.queue ≡ line.entry.ring.origin) × IsQueue result.queue × IsRung result.queue.driver × (posted result.queue.driver ≡ result.queue.driver.back) }
    ensures stands { QueueStandsFor result.queue (published result.ring.history) }
    ensures engine { IsEngine result.engine × (result.engine.held ≡ []) × (line.entry.turnstile.origin ≡ Some (made_with result.engine)) }
    ensures pass { result.pass ≡ hands.entry.pass }
{
    let Hands { seats, pass } = hands;
    let Seats { ring: seat, turn } = seats;
    let Line {
        ring,
        turnstile,
        pool: _,
        rules,
        senders: _,
        ended: _,
    } = line;
    let counters = seat.tally();
    let (ring, mut queue) = ring.close(seat);
    let mut engine = turnstile.close(turn);
    empty_out(rt, &mut queue, &mut engine, rules.turn_frames);
    Ends {
        ring,
        counters,
        queue,
        engine,
        pass,
    }
}
