//! How an engine and a queue are emptied after the last sender.
ghost use Rattle.std.specs.Prelude.{◌≡◌, ◌≤◌, List, []};
ghost use Rattle.ifl_ringcore.specs.declared.history.Meaning.{Meaning};
ghost use Rattle.ifl_desc.specs.Ends.{posted};
ghost use Rattle.ifl_device.specs.Engine.{IsEngine};
ghost use Rattle.ifl_device.specs.Origin.{made_with};
ghost use Rattle.ifl_txq.specs.Queue.{IsQueue, IsRung, origin_of};
ghost use Rattle.ifl_txq.specs.Standing.{QueueStandsFor};

use crate::turns::turn_or_reset;
use ifl_desc::DescRing;
use ifl_device::TxEngine;
use ifl_txq::Txq;
use std::sync::Wait;

/// Makes turns and reclaims until nothing is outstanding and nothing is held, and resets the engine where it hangs.
///
/// It may wait for ever: it ends only where the engine returns all that the queue posted. Queue and engine keep what
/// they were made with, and the queue stands for every list for which it stood.
pub fn empty_out<'a, 'b, R: DescRing, W: Wait>(
    rt: &W,
    queue: &mut Txq<'a, R>,
    engine: &mut TxEngine<'b, R>,
    frames: u32,
)
    requires { 1 ≤ frames }
    ensures none { (posted queue.new.driver ≡ queue.new.driver.back) × (engine.new.held ≡ []) }
    ensures origins { (origin_of queue.new ≡ origin_of queue.old) × (made_with engine.new ≡ made_with engine.old) }
    ensures stands { (ms : List Meaning) → QueueStandsFor queue.old ms → QueueStandsFor queue.new ms }
    ensures settled { IsRung queue.old.driver → IsRung queue.new.driver }
    ensures lawful { IsQueue queue.new × IsEngine engine.new }
{
    for _ in rt.forever() {
        if queue.outstanding() == 0 && engine.held() == 0 {
            return;
        }
        turn_or_reset(engine, frames);
        queue.reclaim(rt);
    }
}
