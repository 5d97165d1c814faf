//! Packets of one segment, whose bytes and stamp tell their number.
ghost use Rattle.std.specs.Prelude.{◌≡◌, ◌≤◌, ◌+◌, [], length};
ghost use Rattle.std.specs.Bool.{OnTrue, OnFalse};
ghost use Rattle.std.specs.VecDeque.{deque_capacity};
ghost use Rattle.ifl_txq.specs.Queue.{IsRung};

use byteorder::{ByteOrder, LittleEndian};
use ifl_base::{Stamp, Ticket};
use ifl_desc::DescRing;
use ifl_mbuf::{Chain, Cluster, Packet, Seg};
use ifl_outside::FreeGate;
use ifl_pool::{Pool, PoolPass};
use ifl_ring::{Drainer, Enqueued, Ring, Seat};
use ifl_txq::{Item, Txq};
use std::collections::VecDeque;
use std::process::Abort;
use std::sync::Wait;
use std::test::*;

/// The stamp of the frame with this number.
pub fn stamp(index: u32) -> Stamp {
    Stamp {
        sec: index,
        usec: 2,
        orig: 60,
    }
}

/// The 60 bytes of the frame with this number.
pub fn bytes(index: u32) -> [u8; 60] {
    let mut bytes = [7; 60];
    LittleEndian::write_u32(&mut bytes, index);
    bytes
}

/// The packet with this number.
pub fn packet(cluster: Cluster, index: u32) -> Packet {
    let mut chain = Chain::new();
    chain.push(Seg::fill(cluster, &bytes(index)));
    Packet::new(Ticket { sender: 0, index }, stamp(index), chain)
}

/// Lays the packet with this number into `items`, which are empty. Its cluster comes out of the pool.
pub fn lay<W: Wait + Abort>(
    rt: &W,
    pool: &Pool,
    pass: &mut PoolPass,
    items: &mut VecDeque<Item>,
    index: u32,
)
    requires own { pass.old.pool ≡ pool.now }
    requires room { (items.old.items ≡ []) × (1 ≤ deque_capacity items.old) }
    ensures own { (pass.new.pool ≡ pool.now) × (pass.new.known.part ≡ pass.old.known.part) }
    ensures one { length items.new.items ≡ 1 }
    ensures room { deque_capacity items.old ≤ deque_capacity items.new }
{
    let cluster = pool.take(rt, pass).expect(rt, "the pool has enough");
    items.push_back_reserved(Item::Packet(packet(cluster, index)));
}

/// Offers the one item to the ring, and answers whether it is published.
pub fn offer_one<'a, R: DescRing, W: Wait>(
    rt: &W,
    ring: &Ring<Txq<'a, R>>,
    seat: &mut Seat<Txq<'a, R>>,
    items: &mut VecDeque<Item>,
) -> bool
    requires own { seat.old.table ≡ ring.now.table }
    requires one { length items.old.items ≡ 1 }
    ensures own { seat.new.table ≡ ring.now.table }
    ensures part { seat.new.known.part ≡ seat.old.known.part }
    ensures published { OnTrue result (items.new.items ≡ []) }
    ensures refused { OnFalse result (items.new.items ≡ items.old.items) }
    ensures room { deque_capacity items.old ≤ deque_capacity items.new }
{
    match ring.enqueue(rt, seat, 0, items, 32, false, &FreeGate) {
        Enqueued::NoBuffers { seen: _ } => false,
        Enqueued::Behind => true,
        Enqueued::Abdicated => true,
        Enqueued::Drained { left: _, total: _ } => true,
    }
}

/// Lays the packets with these numbers into the batch. Their clusters come out of the pool.
pub fn load<W: Wait + Abort>(
    rt: &W,
    pool: &Pool,
    pass: &mut PoolPass,
    batch: &mut VecDeque<Item>,
    first: u32,
    count: u32,
) -> Result<(), Fail>
    requires own { pass.old.pool ≡ pool.now }
    requires few { first + count ≤ 10000 }
    ensures { (pass.new.pool ≡ pool.now) × (pass.new.known.part ≡ pass.old.known.part) }
{
    for index in first..first + count {
        let cluster = pool.take(rt, pass).expect(rt, "the pool has enough");
        batch.push_back(Item::Packet(packet(cluster, index)))?;
    }
    Ok(())
}

/// Offers a batch to the queue, and answers how many of its items it took.
pub fn offer<R: DescRing, W: Wait + Abort>(
    rt: &W,
    queue: &mut Txq<'_, R>,
    batch: &mut VecDeque<Item>,
) -> u32
    requires { IsRung queue.old.driver }
    ensures { IsRung queue.new.driver }
{
    let count = batch.len();
    assert!(rt; 1 <= count && count <= 32);
    queue.drain(rt, batch)
}
