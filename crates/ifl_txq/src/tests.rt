//! Queues over the writeback ring, with their device on the same thread.
ghost use Rattle.std.specs.Prelude.{◌≡◌, ◌-◌, ◌/◌, ◌≤◌, [], IfOk};
ghost use Rattle.ifl_base.specs.declared.limits.TheConstants.{PART};
ghost use Rattle.ifl_pool.specs.Passes.{new_known};
ghost use Rattle.ifl_desc.specs.Ends.{IsNewDriver, IsNewDevice};
ghost use Rattle.ifl_desc.specs.Port.{writer_of, reader_of};

mod closing;
mod device;
mod doorbells;
mod encap;
mod line;
mod notes;
mod port;
mod room;
mod scenario;
mod segments;
mod sender;
mod tickets;

use ifl_base::{Stamp, Ticket};
use ifl_desc::{DescRing, Port, PortReader, PortWriter};
use ifl_mbuf::{Chain, Packet, Seg};
use ifl_pool::{Pool, PoolPass};
use ifl_writeback::{WritebackDevice, WritebackDriver, WritebackRing};
use std::alloc::Global;
use std::process::Abort;
use std::sync::Wait;
use std::test::*;

/// A function that holds a queue in a value of another type calls it, so that the queue's ring is known there.
fn over<R: DescRing>() {}

/// What a queue looks at and does not own.
#[derive(Drop)]
struct Shared {
    ring: WritebackRing,
    port: Port,
    pool: Pool,
}

/// What a queue and its device own.
#[derive(Drop)]
struct Ends {
    driver: WritebackDriver,
    device: WritebackDevice,
    reader: PortReader,
    pass: PoolPass,
}

/// What others own: whoever sets the port, and a sender.
#[derive(Drop)]
struct Others {
    writer: PortWriter,
    pass: PoolPass,
}

/// A ring of so many slots, a port, and a pool of so many clusters.
fn make<W: Wait + Abort>(
    rt: &W,
    alloc: Global,
    slots: u32,
    clusters: u32,
) -> Result<(Shared, Ends, Others), Fail>
    requires { (8 ≤ slots) × (slots ≤ 32768) × (1 ≤ clusters) × (clusters ≤ 65536) }
    ensures ring { IfOk result (λ t. (t.0.ring.slots ≡ slots) × IsNewDriver t.0.ring t.1.driver × IsNewDevice t.0.ring t.1.device) }
    ensures port { IfOk result (λ t. (t.1.reader ≡ reader_of t.0.port []) × (t.2.writer ≡ writer_of t.0.port [])) }
    ensures pool { IfOk result (λ t. (t.1.pass.pool ≡ t.0.pool) × (t.2.pass.pool ≡ t.0.pool)) }
    ensures pass { IfOk result (λ t. t.1.pass.known ≡ new_known t.1.pass.known.number (PART / 2)) }
    ensures rest { IfOk result (λ t. t.2.pass.known.part ≡ PART - PART / 2) }
{
    let Ok((ring, driver, device)) = WritebackRing::make(alloc, slots) else {
        panic!(rt; "no memory")
    };
    let (port, writer, reader) = Port::new(alloc)?;
    let (pool, mut whole) = Pool::new(rt, alloc, clusters)?;
    let pass = pool.split(&mut whole);
    let ends = Ends {
        driver,
        device,
        reader,
        pass,
    };
    let others = Others {
        writer,
        pass: whole,
    };
    Ok((Shared { ring, port, pool }, ends, others))
}

/// The ticket with this number of the first sender.
fn ticket(index: u32) -> Ticket {
    Ticket { sender: 0, index }
}

/// A packet of so many segments with `len` bytes each, whose clusters come out of the pool.
fn packet<W: Wait + Abort>(
    rt: &W,
    pool: &Pool,
    pass: &mut PoolPass,
    ticket: Ticket,
    segments: u32,
    len: usize,
) -> Packet
    requires { pass.old.pool ≡ pool.now }
    ensures { (pass.new.pool ≡ pool.now) × (pass.new.known.part ≡ pass.old.known.part) }
{
    let bytes = [7; 2_048];
    assert!(rt; 0 < len && len <= 2_048);
    let mut chain = Chain::new();
    for _ in 0..segments {
        let cluster = pool.take(rt, pass).expect(rt, "the pool has enough");
        assert!(rt; chain.segments() < 64);
        chain.push(Seg::fill(cluster, &bytes[..len]));
    }
    assert!(rt; 0 < chain.len());
    let stamp = Stamp {
        sec: 1,
        usec: 2,
        orig: 3,
    };
    Packet::new(ticket, stamp, chain)
}
