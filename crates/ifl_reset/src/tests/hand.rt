//! An engine that is led by hand.
ghost use Rattle.std.specs.Prelude.{◌≡◌, ◌≤◌, [], true, false};
ghost use Rattle.ifl_reset.specs.Served.{IsByHand};

use super::packets::{load, offer};
use super::{BY_HAND, make, make_queue};
use crate::{Served, reset, serve, set_link, stop_flush};
use ifl_desc::{DescRing, Taken, TurnSeat, Turnstile};
use ifl_device::TxEngine;
use ifl_txq::Tally;
use ifl_writeback::WritebackRing;
use std::alloc::Global;
use std::collections::VecDeque;
use std::process::Abort;
use std::sync::Wait;
use std::test::*;

/// While another seat has the turn, each call finds it taken.
fn find_it_taken<'a, R: DescRing, W: Abort>(
    rt: &W,
    turnstile: &Turnstile<TxEngine<'a, R>>,
    seat: &mut TurnSeat<TxEngine<'a, R>>,
)
    requires own { (seat.old.turnstile ≡ turnstile.now) × (seat.old.held ≡ false) }
    requires part { 2 ≤ seat.old.part }
    requires by_hand { IsByHand turnstile.now.origin }
{
    let taken = Taken { seen: 1 };
    let mut other = turnstile.split(seat);
    let engine = turnstile.try_turn(seat).expect(rt, "the turn is free");
    assert_eq!(rt; reset(turnstile, &mut other), Err(taken));
    assert_eq!(rt; stop_flush(turnstile, &mut other), Err(taken));
    assert_eq!(rt; set_link(turnstile, &mut other, true), Err(taken));
    assert_eq!(rt; serve(turnstile, &mut other, 1), Served::Taken(taken));
    turnstile.give_turn(seat, engine);
}

/// Resets, takes the link down and up, and stops, while packets come.
fn lead<R: DescRing, W: Wait + Abort>(rt: &W, alloc: Global) -> Result<(), Fail> {
    let (shared, ends, mut pass) = make::<R, W>(rt, alloc, 16, 8)?;
    let pool = &shared.pool;
    let (mut queue, engine) = make_queue(alloc, &shared, ends, 4, BY_HAND)?;
    let Ok((turnstile, mut seat)) = Turnstile::new(alloc, engine) else {
        panic!(rt; "no memory")
    };
    let mut batch = VecDeque::new(alloc);
    load(rt, pool, &mut pass, &mut batch, 0, 2)?;
    assert_eq!(rt; offer(rt, &mut queue, &mut batch), 2);
    assert_eq!(rt; reset(&turnstile, &mut seat), Ok(2));
    assert_eq!(rt; reset(&turnstile, &mut seat), Ok(0));
    load(rt, pool, &mut pass, &mut batch, 2, 1)?;
    assert_eq!(rt; set_link(&turnstile, &mut seat, false), Ok(true));
    assert_eq!(rt; offer(rt, &mut queue, &mut batch), 0);
    assert_eq!(rt; batch.len(), 1);
    assert_eq!(rt; set_link(&turnstile, &mut seat, true), Ok(true));
    assert_eq!(rt; offer(rt, &mut queue, &mut batch), 1);
    assert_eq!(rt; stop_flush(&turnstile, &mut seat), Ok(1));
    load(rt, pool, &mut pass, &mut batch, 3, 1)?;
    assert_eq!(rt; offer(rt, &mut queue, &mut batch), 1);
    assert_eq!(rt; batch.len(), 0);
    assert_eq!(rt; set_link(&turnstile, &mut seat, true), Ok(false));
    find_it_taken(rt, &turnstile, &mut seat);
    let tally = Tally {
        packets: 4,
        reset: 2,
        flush: 2,
        ..Tally::NOTHING
    };
    assert_eq!(rt; queue.tally(), tally);
    Ok(())
}

#[test]
fn an_engine_is_led_by_hand(rt: HostRuntime) -> Result<(), Fail> {
    lead::<WritebackRing, _>(&rt, rt.alloc())
}
