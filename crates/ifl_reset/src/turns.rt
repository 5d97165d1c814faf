//! What is done to an engine that a turnstile keeps.
ghost use Rattle.std.specs.Prelude.{◌≡◌, ◌<◌, ◌≤◌, true, false};
ghost use Rattle.ifl_device.specs.Engine.{IsEngine, IsStopped};
ghost use Rattle.ifl_device.specs.Origin.{made_with};
ghost use Rattle.ifl_reset.specs.Served.{IsByHand, IsBack, IsServed, IsReset, IsFlushed, IsSet, IsStoppedBy, IsLinked, IsTurnedOrReset};

use crate::served::Served;
use ifl_desc::{DescRing, Status, Taken, TurnSeat, Turnstile};
use ifl_device::{Turn, TxEngine};

// One turn, and a reset where it hangs.
pub(crate) fn turn_or_reset<R: DescRing>(engine: &mut TxEngine<'_, R>, frames: u32) -> Served
    requires { 1 ≤ frames }
    ensures did { IsTurnedOrReset frames engine.old result engine.new }
    ensures origin { made_with engine.new ≡ made_with engine.old }
    ensures lawful { IsEngine engine.new }
{
    match engine.turn(frames) {
        Turn::Hung { emitted: _ } => Served::Reset(engine.abort_all(Status::Aborted)),
        turn => Served::Turned(turn),
    }
}

// The flush begins, and every rung frame is flushed.
fn flush<R: DescRing>(engine: &mut TxEngine<'_, R>) -> u32
    requires by_hand { engine.old.plan.by_hand ≡ true }
    ensures did { IsStoppedBy engine.old result engine.new }
    ensures origin { made_with engine.new ≡ made_with engine.old }
    ensures lawful { IsEngine engine.new }
{
    engine.begin_flush();
    engine.abort_all(Status::Flushed)
}

// The link is set, unless the flush has begun.
fn link<R: DescRing>(engine: &mut TxEngine<'_, R>, up: bool) -> bool
    requires by_hand { engine.old.plan.by_hand ≡ true }
    ensures did { IsLinked up engine.old result engine.new }
    ensures origin { made_with engine.new ≡ made_with engine.old }
    ensures lawful { IsEngine engine.new }
{
    if engine.flushing() {
        return false;
    }
    engine.set_link(up);
    true
}

/// Tries to take the turn, makes one turn of the engine, aborts what is rung where it hangs, and gives the turn back.
///
/// It answers `Taken` exactly where its one exchange found the turn taken, and `Reset` exactly where the engine hung.
/// Each of the calls here hands the turn back before it returns.
pub fn serve<'a, R: DescRing>(
    t: &Turnstile<TxEngine<'a, R>>,
    seat: &mut TurnSeat<TxEngine<'a, R>>,
    frames: u32,
) -> Served
    requires own { seat.old.turnstile ≡ t.now }
    requires free { seat.old.held ≡ false }
    requires frames { 1 ≤ frames }
    ensures did { IsServed frames seat.old result seat.new }
    ensures seat { IsBack seat.old seat.new }
{
    match t.try_turn(seat) {
        Err(taken) => Served::Taken(taken),
        Ok(mut engine) => {
            let served = turn_or_reset(&mut engine, frames);
            t.give_turn(seat, engine);
            served
        }
    }
}

/// Aborts every frame that is held or rung, and answers how many they were.
pub fn reset<'a, R: DescRing>(
    t: &Turnstile<TxEngine<'a, R>>,
    seat: &mut TurnSeat<TxEngine<'a, R>>,
) -> Result<u32, Taken>
    requires own { seat.old.turnstile ≡ t.now }
    requires free { seat.old.held ≡ false }
    requires by_hand { IsByHand t.now.origin }
    ensures did { IsReset seat.old result seat.new }
    ensures seat { IsBack seat.old seat.new }
{
    let mut engine = t.try_turn(seat)?;
    let aborted = engine.abort_all(Status::Aborted);
    t.give_turn(seat, engine);
    Ok(aborted)
}

/// Sets the port to Flush, for good, and flushes every frame that is held or rung; answers how many they were.
pub fn stop_flush<'a, R: DescRing>(
    t: &Turnstile<TxEngine<'a, R>>,
    seat: &mut TurnSeat<TxEngine<'a, R>>,
) -> Result<u32, Taken>
    requires own { seat.old.turnstile ≡ t.now }
    requires free { seat.old.held ≡ false }
    requires by_hand { IsByHand t.now.origin }
    ensures did { IsFlushed seat.old result seat.new }
    ensures seat { IsBack seat.old seat.new }
{
    let mut engine = t.try_turn(seat)?;
    let flushed = flush(&mut engine);
    t.give_turn(seat, engine);
    Ok(flushed)
}

/// Sets the port to Up or Down. It answers false exactly where the engine found under the turn had begun its flush;
/// then nothing changed.
pub fn set_link<'a, R: DescRing>(
    t: &Turnstile<TxEngine<'a, R>>,
    seat: &mut TurnSeat<TxEngine<'a, R>>,
    up: bool,
) -> Result<bool, Taken>
    requires own { seat.old.turnstile ≡ t.now }
    requires free { seat.old.held ≡ false }
    requires by_hand { IsByHand t.now.origin }
    ensures did { IsSet up seat.old result seat.new }
    ensures seat { IsBack seat.old seat.new }
{
    let mut engine = t.try_turn(seat)?;
    let set = link(&mut engine, up);
    t.give_turn(seat, engine);
    Ok(set)
}
