//! A ring comes to rest, and an engine and a queue are emptied.
ghost use Rattle.std.specs.Prelude.{◌≡◌, ◌≤◌, [], false};
ghost use Rattle.std.specs.VecDeque.{deque_capacity};
ghost use Rattle.ifl_base.specs.declared.limits.TheConstants.{PART};

use super::packets::{lay, load, offer, offer_one};
use super::{QUIET, leave, make, make_queue};
use crate::{Served, empty_out, quiesce, serve};
use ifl_base::{Fate, Flag};
use ifl_desc::{DescRing, TurnSeat, Turnstile};
use ifl_device::{EnginePlan, Turn, TxEngine};
use ifl_outside::FreeGate;
use ifl_pool::{Pool, PoolPass};
use ifl_ring::{Ring, Seat};
use ifl_txq::{Item, Tally, Txq};
use ifl_writeback::WritebackRing;
use std::alloc::Global;
use std::collections::VecDeque;
use std::process::Abort;
use std::sync::Wait;
use std::test::*;

/// Publishes the first so many packets, one at a time.
fn publish<'a, R: DescRing, W: Wait + Abort>(
    rt: &W,
    ring: &Ring<Txq<'a, R>>,
    seat: &mut Seat<Txq<'a, R>>,
    pool: &Pool,
    pass: &mut PoolPass,
    items: &mut VecDeque<Item>,
    count: u32,
)
    requires own { (seat.old.table ≡ ring.now.table) × (pass.old.pool ≡ pool.now) }
    requires room { (items.old.items ≡ []) × (1 ≤ deque_capacity items.old) }
    ensures own { (seat.new.table ≡ ring.now.table) × (pass.new.pool ≡ pool.now) }
    ensures part { seat.new.known.part ≡ seat.old.known.part }
    ensures room { (items.new.items ≡ []) × (1 ≤ deque_capacity items.new) }
{
    for index in 0..count {
        lay(rt, pool, pass, items, index);
        assert!(rt; offer_one(rt, ring, seat, items));
    }
}

/// Brings a stalled ring to rest.
fn rest<'a, R: DescRing, W: Wait + Abort>(
    rt: &W,
    ring: &Ring<Txq<'a, R>>,
    seat: &mut Seat<Txq<'a, R>>,
    turnstile: &Turnstile<TxEngine<'a, R>>,
    turn: &mut TurnSeat<TxEngine<'a, R>>,
    items: &mut VecDeque<Item>,
)
    requires own { (seat.old.table ≡ ring.now.table) × (turn.old.turnstile ≡ turnstile.now) × (turn.old.held ≡ false) }
    requires room { (items.old.items ≡ []) × (1 ≤ deque_capacity items.old) }
    ensures own { (seat.new.table ≡ ring.now.table) × (turn.new.turnstile ≡ turnstile.now) × (turn.new.held ≡ false) }
    ensures part { seat.new.known.part ≡ seat.old.known.part }
{
    assert_eq!(rt; ring.look(seat).flag, Flag::Stalled);
    quiesce(rt, ring, seat, turnstile, turn, 4, items, &FreeGate);
    let word = ring.look(seat);
    assert_eq!(rt; word.flag, Flag::Idle);
    assert_eq!(rt; (word.tail, word.cidx), (word.head, word.head));
}

/// Closes a ring in which nothing is left, and answers what its queue has counted.
fn tally_of<'a, R: DescRing, W: Abort>(
    rt: &W,
    ring: Ring<Txq<'a, R>>,
    seat: Seat<Txq<'a, R>>,
) -> Tally
    requires own { seat.table ≡ ring.table }
    requires whole { seat.known.part ≡ PART }
{
    let (closed, queue) = ring.close(seat);
    assert!(rt; closed.left().is_empty());
    queue.tally()
}

/// Six packets stall the ring, since the adapter takes four. When it is at rest, two are with the adapter.
fn come_to_rest<R: DescRing, W: Wait + Abort>(rt: &W, alloc: Global) -> Result<(), Fail> {
    let mut items = VecDeque::with_capacity(alloc, 1)?;
    let (shared, ends, mut pass) = make::<R, W>(rt, alloc, 8, 8)?;
    let pool = &shared.pool;
    let (queue, engine) = make_queue(alloc, &shared, ends, 6, QUIET)?;
    let Ok((turnstile, mut turn)) = Turnstile::new(alloc, engine) else {
        panic!(rt; "no memory")
    };
    let Ok((ring, mut seat)) = Ring::new(alloc, 16, queue) else {
        panic!(rt; "no ring was made")
    };
    publish(rt, &ring, &mut seat, pool, &mut pass, &mut items, 6);
    rest(rt, &ring, &mut seat, &turnstile, &mut turn, &mut items);
    let tally = Tally {
        packets: 6,
        wire: 4,
        aboard: 2,
        ..Tally::NOTHING
    };
    assert_eq!(rt; tally_of(rt, ring, seat), tally);
    let served = serve(&turnstile, &mut turn, 4);
    assert_eq!(rt; served, Served::Turned(Turn::Moved(2)));
    Ok(())
}

/// An engine that hangs after two of five frames is emptied with its queue.
fn empty_a_hung_engine<R: DescRing, W: Wait + Abort>(rt: &W, alloc: Global) -> Result<(), Fail> {
    let plan = EnginePlan {
        hang_after: 2,
        ..QUIET
    };
    let (shared, ends, mut pass) = make::<R, W>(rt, alloc, 16, 8)?;
    let (mut queue, mut engine) = make_queue(alloc, &shared, ends, 5, plan)?;
    let mut batch = VecDeque::new(alloc);
    load(rt, &shared.pool, &mut pass, &mut batch, 0, 5)?;
    assert_eq!(rt; offer(rt, &mut queue, &mut batch), 5);
    assert_eq!(rt; queue.outstanding(), 5);
    empty_out(rt, &mut queue, &mut engine, 4);
    assert_eq!(rt; queue.outstanding(), 0);
    assert_eq!(rt; (engine.held(), engine.emitted()), (0, 2));
    let (lines, _pass) = leave(rt, queue);
    let fates = [
        Fate::Wire,
        Fate::Wire,
        Fate::Reset,
        Fate::Reset,
        Fate::Reset,
    ];
    assert_eq!(rt; lines.len(), 5);
    for (line, fate) in lines.iter().zip(fates) {
        assert_eq!(rt; line.fate, fate);
    }
    Ok(())
}

#[test]
fn a_stalled_ring_comes_to_rest(rt: HostRuntime) -> Result<(), Fail> {
    come_to_rest::<WritebackRing, _>(&rt, rt.alloc())
}

#[test]
fn a_hung_engine_is_emptied(rt: HostRuntime) -> Result<(), Fail> {
    empty_a_hung_engine::<WritebackRing, _>(&rt, rt.alloc())
}
