//! An engine is reset, cut off and stopped while packets are sent.
ghost use Rattle.std.specs.Prelude.{◌≡◌, ◌≤◌, ◌-◌, ◌/◌, [], false, length, IfOk};
ghost use Rattle.std.specs.VecDeque.{deque_capacity};
ghost use Rattle.ifl_base.specs.declared.limits.TheConstants.{PART};
ghost use Rattle.ifl_pool.specs.Passes.{new_known};
ghost use Rattle.ifl_desc.specs.Ends.{IsNewDriver, IsNewDevice};
ghost use Rattle.ifl_desc.specs.Port.{writer_of, reader_of};
ghost use Rattle.ifl_reset.specs.Served.{IsByHand};

use super::packets::{bytes, lay, offer_one, stamp};
use super::{BY_HAND, Ends, Shared, leave, make, make_queue, over};
use crate::{empty_out, quiesce, reset, serve, set_link, stop_flush};
use ifl_base::Fate;
use ifl_desc::{DescRing, TurnSeat, Turnstile};
use ifl_device::TxEngine;
use ifl_outside::FreeGate;
use ifl_pcap::{Capture, read_capture};
use ifl_pool::{Pool, PoolPass};
use ifl_ring::{Ring, Seat};
use ifl_txq::{Item, OrderLine, Txq};
use ifl_writeback::WritebackRing;
use std::alloc::Global;
use std::collections::VecDeque;
use std::process::Abort;
use std::sync::Wait;
use std::sync::atomic::{AtomicU64, Ordering};
use std::test::*;
use std::thread::{Threads, join_mut, yield_now};

/// How many packets are sent.
const PACKETS: u32 = 10_000;

/// How many of them are sent when the engine is stopped.
const BEFORE_STOP: u64 = 9_000;

/// How many are sent between two resets.
const BETWEEN: u64 = 50;

/// More clusters than the ring has places and the adapter slots.
const CLUSTERS: u32 = 64;

/// What the two threads share.
#[derive(Drop)]
struct Line<'a, R: DescRing> {
    ring: Ring<Txq<'a, R>>,
    turnstile: Turnstile<TxEngine<'a, R>>,
    pool: &'a Pool,
    sent: AtomicU64,
}

/// What the sender has of it.
#[derive(Drop)]
struct Sender<'a, R: DescRing> {
    seat: Seat<Txq<'a, R>>,
    turn: TurnSeat<TxEngine<'a, R>>,
    pass: PoolPass,
    items: VecDeque<Item>,
}

/// Publishes the packet that lies in `items`, as often as there is no room for it.
fn publish<'a, R: DescRing, W: Wait>(rt: &W, line: &Line<'a, R>, sender: &mut Sender<'a, R>)
    requires own { (sender.old.seat.table ≡ line.now.ring.table) × (sender.old.turn.turnstile ≡ line.now.turnstile) × (sender.old.turn.held ≡ false) × (sender.old.pass.pool ≡ line.now.pool.now) }
    requires one { (length sender.old.items.items ≡ 1) × (1 ≤ deque_capacity sender.old.items) }
    ensures own { (sender.new.seat.table ≡ line.now.ring.table) × (sender.new.turn.turnstile ≡ line.now.turnstile) × (sender.new.turn.held ≡ false) × (sender.new.pass.pool ≡ line.now.pool.now) }
    ensures part { (sender.new.seat.known.part ≡ sender.old.seat.known.part) × (sender.new.turn.part ≡ sender.old.turn.part) × (sender.new.pass.known.part ≡ sender.old.pass.known.part) }
    ensures items { (sender.new.items.items ≡ []) × (1 ≤ deque_capacity sender.new.items) }
{
    for _ in rt.forever() {
        if offer_one(rt, &line.ring, &mut sender.seat, &mut sender.items) {
            return;
        }
        serve(&line.turnstile, &mut sender.turn, 8);
        line.ring.check_drainage(rt, &mut sender.seat, 32);
        yield_now();
    }
    unreachable!()
}

/// Sends all packets, serves behind each eighth of them, and tells how many were sent.
fn send<'a, R: DescRing, W: Wait + Abort>(rt: &W, line: &Line<'a, R>, sender: &mut Sender<'a, R>)
    requires own { (sender.old.seat.table ≡ line.now.ring.table) × (sender.old.turn.turnstile ≡ line.now.turnstile) × (sender.old.turn.held ≡ false) × (sender.old.pass.pool ≡ line.now.pool.now) }
    requires items { (sender.old.items.items ≡ []) × (1 ≤ deque_capacity sender.old.items) }
    ensures own { (sender.new.seat.table ≡ line.now.ring.table) × (sender.new.turn.turnstile ≡ line.now.turnstile) × (sender.new.turn.held ≡ false) × (sender.new.pass.pool ≡ line.now.pool.now) }
    ensures part { (sender.new.seat.known.part ≡ sender.old.seat.known.part) × (sender.new.turn.part ≡ sender.old.turn.part) × (sender.new.pass.known.part ≡ sender.old.pass.known.part) }
    ensures items { (sender.new.items.items ≡ []) × (1 ≤ deque_capacity sender.new.items) }
{
    for index in 0..PACKETS {
        lay(rt, line.pool, &mut sender.pass, &mut sender.items, index);
        publish(rt, line, sender);
        if index % 8 == 7 {
            serve(&line.turnstile, &mut sender.turn, 8);
        }
        line.sent.fetch_add(1, Ordering::SeqCst);
    }
}

/// Waits until so many packets are sent.
fn await_sent<R: DescRing, W: Wait>(rt: &W, line: &Line<'_, R>, count: u64) {
    for _ in rt.forever() {
        if line.sent.load(Ordering::SeqCst) >= count {
            return;
        }
        yield_now();
    }
    unreachable!()
}

/// Sets the link, once the turn is free.
fn link<'a, R: DescRing, W: Wait>(
    rt: &W,
    line: &Line<'a, R>,
    seat: &mut TurnSeat<TxEngine<'a, R>>,
    up: bool,
)
    requires own { (seat.old.turnstile ≡ line.now.turnstile) × (seat.old.held ≡ false) }
    requires by_hand { IsByHand line.now.turnstile.origin }
    ensures own { (seat.new.turnstile ≡ line.now.turnstile) × (seat.new.held ≡ false) }
    ensures part { seat.new.part ≡ seat.old.part }
{
    for _ in rt.forever() {
        if set_link(&line.turnstile, seat, up).is_ok() {
            return;
        }
        yield_now();
    }
    unreachable!()
}

/// Stops, once the turn is free.
fn stop<'a, R: DescRing, W: Wait>(rt: &W, line: &Line<'a, R>, seat: &mut TurnSeat<TxEngine<'a, R>>)
    requires own { (seat.old.turnstile ≡ line.now.turnstile) × (seat.old.held ≡ false) }
    requires by_hand { IsByHand line.now.turnstile.origin }
    ensures own { (seat.new.turnstile ≡ line.now.turnstile) × (seat.new.held ≡ false) }
    ensures part { seat.new.part ≡ seat.old.part }
{
    for _ in rt.forever() {
        if stop_flush(&line.turnstile, seat).is_ok() {
            return;
        }
        yield_now();
    }
    unreachable!()
}

/// Resets, and takes the link down and up, again and again, and stops at the end.
fn lead<'a, R: DescRing, W: Wait>(rt: &W, line: &Line<'a, R>, seat: &mut TurnSeat<TxEngine<'a, R>>)
    requires own { (seat.old.turnstile ≡ line.now.turnstile) × (seat.old.held ≡ false) }
    requires by_hand { IsByHand line.now.turnstile.origin }
    ensures own { (seat.new.turnstile ≡ line.now.turnstile) × (seat.new.held ≡ false) }
    ensures part { seat.new.part ≡ seat.old.part }
{
    for round in 1..BEFORE_STOP / BETWEEN {
        await_sent(rt, line, round * BETWEEN);
        let _ = reset(&line.turnstile, seat);
        link(rt, line, seat, false);
        yield_now();
        link(rt, line, seat, true);
    }
    await_sent(rt, line, BEFORE_STOP);
    stop(rt, line, seat);
}

/// What the sending thread has.
#[derive(Drop)]
struct Sending<'l, 'a, R: DescRing> {
    line: &'l Line<'a, R>,
    sender: Sender<'a, R>,
}

/// What the leading thread has.
#[derive(Drop)]
struct Leading<'l, 'a, R: DescRing> {
    line: &'l Line<'a, R>,
    seat: TurnSeat<TxEngine<'a, R>>,
}

/// The sending thread.
fn run_sender<'l, 'a, R: DescRing, W: Wait + Abort>(rt: &W, sending: &mut Sending<'l, 'a, R>)
    requires own { (sending.old.sender.seat.table ≡ sending.old.line.now.ring.table) × (sending.old.sender.turn.turnstile ≡ sending.old.line.now.turnstile) × (sending.old.sender.turn.held ≡ false) × (sending.old.sender.pass.pool ≡ sending.old.line.now.pool.now) }
    requires items { (sending.old.sender.items.items ≡ []) × (1 ≤ deque_capacity sending.old.sender.items) }
    ensures line { sending.new.line.now ≡ sending.old.line.now }
    ensures own { (sending.new.sender.seat.table ≡ sending.new.line.now.ring.table) × (sending.new.sender.turn.turnstile ≡ sending.new.line.now.turnstile) × (sending.new.sender.turn.held ≡ false) × (sending.new.sender.pass.pool ≡ sending.new.line.now.pool.now) }
    ensures part { (sending.new.sender.seat.known.part ≡ sending.old.sender.seat.known.part) × (sending.new.sender.turn.part ≡ sending.old.sender.turn.part) × (sending.new.sender.pass.known.part ≡ sending.old.sender.pass.known.part) }
    ensures items { (sending.new.sender.items.items ≡ []) × (1 ≤ deque_capacity sending.new.sender.items) }
{
    send(rt, sending.line, &mut sending.sender);
}

/// The leading thread.
fn run_leader<'l, 'a, R: DescRing, W: Wait>(rt: &W, leading: &mut Leading<'l, 'a, R>)
    requires own { (leading.old.seat.turnstile ≡ leading.old.line.now.turnstile) × (leading.old.seat.held ≡ false) }
    requires by_hand { IsByHand leading.old.line.now.turnstile.origin }
    ensures line { leading.new.line.now ≡ leading.old.line.now }
    ensures own { (leading.new.seat.turnstile ≡ leading.new.line.now.turnstile) × (leading.new.seat.held ≡ false) }
    ensures part { leading.new.seat.part ≡ leading.old.seat.part }
{
    lead(rt, leading.line, &mut leading.seat);
}

/// Both threads. The sender has the whole turn seat at the end.
fn both<'a, W: Threads + Wait + Abort + Sync>(
    rt: &W,
    line: &Line<'a, WritebackRing>,
    sender: Sender<'a, WritebackRing>,
) -> Sender<'a, WritebackRing>
    requires own { (sender.seat.table ≡ line.now.ring.table) × (sender.turn.turnstile ≡ line.now.turnstile) × (sender.turn.held ≡ false) × (sender.pass.pool ≡ line.now.pool.now) }
    requires by_hand { IsByHand line.now.turnstile.origin }
    requires part { 2 ≤ sender.turn.part }
    requires items { (sender.items.items ≡ []) × (1 ≤ deque_capacity sender.items) }
    ensures own { (result.seat.table ≡ line.now.ring.table) × (result.turn.turnstile ≡ line.now.turnstile) × (result.turn.held ≡ false) × (result.pass.pool ≡ line.now.pool.now) }
    ensures part { (result.seat.known.part ≡ sender.entry.seat.known.part) × (result.turn.part ≡ sender.entry.turn.part) × (result.pass.known.part ≡ sender.entry.pass.known.part) }
    ensures items { (result.items.items ≡ []) × (1 ≤ deque_capacity result.items) }
{
    over::<WritebackRing>();
    let mut sender = sender;
    let seat = line.turnstile.split(&mut sender.turn);
    let mut sending = Sending { line, sender };
    let mut leading = Leading { line, seat };
    join_mut(
        rt,
        &mut ||
            requires { (sending.sender.seat.table ≡ sending.line.now.ring.table) × (sending.sender.turn.turnstile ≡ sending.line.now.turnstile) × (sending.sender.turn.held ≡ false) × (sending.sender.pass.pool ≡ sending.line.now.pool.now) × (sending.sender.items.items ≡ []) × (1 ≤ deque_capacity sending.sender.items) }
        { run_sender(rt, &mut sending) },
        &mut ||
            requires { (leading.seat.turnstile ≡ leading.line.now.turnstile) × (leading.seat.held ≡ false) × IsByHand leading.line.now.turnstile.origin }
        { run_leader(rt, &mut leading) },
    );
    let Sending {
        line: _,
        mut sender,
    } = sending;
    let Leading { line: _, seat } = leading;
    line.turnstile.join(&mut sender.turn, seat);
    sender
}

/// The wire is the capture of the packets that were emitted, in the order in which they were sent.
fn assert_emitted<W: Abort>(rt: &W, wire: &Capture, lines: &[OrderLine]) {
    let mut next = 0;
    for line in lines {
        if line.fate == Fate::Wire {
            let index = line.ticket.index;
            assert!(rt; next < wire.len());
            let frame = wire.frame(next);
            assert_eq!(rt; frame.stamp(), stamp(index));
            assert!(rt; frame.bytes() == bytes(index).as_slice());
            next += 1;
        }
    }
    assert_eq!(rt; next, wire.len());
}

/// Each packet came back once, in the order in which they were sent.
fn assert_once<W: Abort>(rt: &W, lines: &[OrderLine]) {
    assert_eq!(rt; lines.len(), PACKETS as usize);
    for (line, index) in lines.iter().zip(0..PACKETS) {
        assert_eq!(rt; (line.ticket.sender, line.ticket.index), (0, index));
        assert!(rt; line.fate != Fate::TooManySegments);
    }
}

/// Brings all to rest, and compares the order record with what is on the wire. The pass is the queue's and the sender's.
fn conclude<'a, W: Wait + Abort>(
    rt: &W,
    alloc: Global,
    line: Line<'a, WritebackRing>,
    sender: Sender<'a, WritebackRing>,
) -> Result<PoolPass, Fail>
    requires own { (sender.seat.table ≡ line.ring.table) × (sender.turn.turnstile ≡ line.turnstile) × (sender.turn.held ≡ false) × (sender.pass.pool ≡ line.pool.now) }
    requires whole { (sender.seat.known.part ≡ PART) × (sender.turn.part ≡ PART) }
    requires pass { sender.pass.known.part ≡ PART - PART / 2 }
    requires queue { (line.ring.origin.pool ≡ line.pool.now) × (line.ring.origin.part ≡ PART / 2) }
    requires items { (sender.items.items ≡ []) × (1 ≤ deque_capacity sender.items) }
    ensures pool { IfOk result (λ p. (p.pool ≡ line.entry.pool.now) × (p.known.part ≡ PART)) }
{
    let Sender {
        mut seat,
        mut turn,
        mut pass,
        mut items,
    } = sender;
    quiesce(
        rt,
        &line.ring,
        &mut seat,
        &line.turnstile,
        &mut turn,
        4,
        &mut items,
        &FreeGate,
    );
    let Line {
        ring,
        turnstile,
        pool,
        sent: _,
    } = line;
    let (closed, mut queue) = ring.close(seat);
    assert!(rt; closed.left().is_empty());
    let mut engine = turnstile.close(turn);
    empty_out(rt, &mut queue, &mut engine, 4);
    let (_, _, wire) = engine.close();
    let (lines, own) = leave(rt, queue);
    assert_once(rt, &lines);
    let Ok(wire) = read_capture(alloc, wire) else {
        panic!(rt; "the wire is a capture")
    };
    assert_emitted(rt, &wire, &lines);
    pool.join(&mut pass, own);
    Ok(pass)
}

/// Sends all packets beside a leading hand, and answers the whole pass.
fn send_all<W: Threads + Wait + Abort + Sync>(
    rt: &W,
    alloc: Global,
    shared: &Shared<WritebackRing>,
    ends: Ends<WritebackRing>,
    pass: PoolPass,
) -> Result<PoolPass, Fail>
    requires size { shared.now.ring.slots ≡ 32 }
    requires ring { IsNewDriver shared.now.ring ends.driver × IsNewDevice shared.now.ring ends.device }
    requires port { (ends.reader ≡ reader_of shared.now.port []) × (ends.writer ≡ writer_of shared.now.port []) }
    requires pool { (ends.pass.pool ≡ shared.now.pool) × (pass.pool ≡ shared.now.pool) }
    requires pass { ends.pass.known ≡ new_known ends.pass.known.number (PART / 2) }
    requires rest { pass.known.part ≡ PART - PART / 2 }
    ensures pool { IfOk result (λ p. (p.pool ≡ shared.now.pool) × (p.known.part ≡ PART)) }
{
    let items = VecDeque::with_capacity(alloc, 1)?;
    let (queue, engine) = make_queue(alloc, shared, ends, PACKETS, BY_HAND)?;
    let Ok((turnstile, turn)) = Turnstile::new(alloc, engine) else {
        panic!(rt; "no memory")
    };
    let Ok((ring, seat)) = Ring::new(alloc, 16, queue) else {
        panic!(rt; "no ring was made")
    };
    let line = Line {
        ring,
        turnstile,
        pool: &shared.pool,
        sent: AtomicU64::new(0),
    };
    let sender = both(
        rt,
        &line,
        Sender {
            seat,
            turn,
            pass,
            items,
        },
    );
    conclude(rt, alloc, line, sender)
}

/// It is done over a new ring, port and pool. All clusters are back.
fn send_beside<W: Threads + Wait + Abort + Sync>(rt: &W, alloc: Global) -> Result<(), Fail> {
    let (shared, ends, pass) = make::<WritebackRing, W>(rt, alloc, 32, CLUSTERS)?;
    let whole = send_all(rt, alloc, &shared, ends, pass)?;
    let Shared {
        ring: _,
        port: _,
        pool,
    } = shared;
    assert_eq!(rt; pool.close(rt, whole).count(), CLUSTERS);
    Ok(())
}

#[test]
fn each_packet_comes_back_once(rt: HostRuntime) -> Result<(), Fail> {
    send_beside(&rt, rt.alloc())
}
