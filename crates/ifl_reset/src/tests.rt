//! Engines and queues over the writeback ring.
ghost use Rattle.std.specs.Prelude.{◌≡◌, ◌≤◌, ◌<◌, ◌+◌, ◌-◌, ◌/◌, ◌∷◌, [], length, true, false, IfOk};
ghost use Rattle.ifl_base.specs.declared.limits.TheConstants.{PART};
ghost use Rattle.ifl_pool.specs.Passes.{new_known};
ghost use Rattle.ifl_desc.specs.Ends.{IsNewDriver, IsNewDevice, posted};
ghost use Rattle.ifl_desc.specs.Port.{writer_of, reader_of};
ghost use Rattle.ifl_device.specs.Engine.{IsEngine};
ghost use Rattle.ifl_txq.specs.Queue.{IsQueue, IsRung};
ghost use Rattle.ifl_txq.specs.Standing.{QueueStandsFor};

mod beside;
mod hand;
mod packets;
mod plans;
mod resting;

use ifl_base::NoMemory;
use ifl_desc::{DescRing, Port, PortReader, PortWriter};
use ifl_device::{EnginePlan, TxEngine, WireBuffer};
use ifl_pool::{Pool, PoolPass};
use ifl_txq::{Log, OrderLine, Txq, TxqEnds};
use std::alloc::Global;
use std::process::Abort;
use std::sync::Wait;
use std::test::*;

/// The bytes of a record with a frame of 60 bytes.
const RECORD: u64 = 76;

/// A plan that names no number.
const QUIET: EnginePlan = EnginePlan {
    hang_after: 0,
    link_down_after: 0,
    link_down_turns: 0,
    flush_after: None,
    by_hand: false,
};

/// A plan of an engine that is led by hand alone.
const BY_HAND: EnginePlan = EnginePlan {
    by_hand: true,
    ..QUIET
};

/// A function that holds a queue in a value of another type calls it, so that the queue's ring is known there.
fn over<R: DescRing>() {}

/// What a queue and an engine look at and do not own.
#[derive(Drop)]
struct Shared<R: DescRing> {
    ring: R,
    port: Port,
    pool: Pool,
}

/// What the two own.
#[derive(Drop)]
struct Ends<R: DescRing> {
    driver: R::Driver,
    reader: PortReader,
    pass: PoolPass,
    device: R::Device,
    writer: PortWriter,
}

/// A ring of so many slots, a port, and a pool of so many clusters, of which a sender has the pass.
fn make<R: DescRing, W: Wait + Abort>(
    rt: &W,
    alloc: Global,
    slots: u32,
    clusters: u32,
) -> Result<(Shared<R>, Ends<R>, PoolPass), NoMemory>
    requires { (1 ≤ clusters) × (clusters ≤ 65536) }
    ensures size { IfOk result (λ t. (R.ring t.0.ring).slots ≡ slots) }
    ensures ring { IfOk result (λ t. IsNewDriver (R.ring t.0.ring) (R.driver_sees t.1.driver) × IsNewDevice (R.ring t.0.ring) (R.device_sees t.1.device)) }
    ensures port { IfOk result (λ t. (t.1.reader ≡ reader_of t.0.port []) × (t.1.writer ≡ writer_of t.0.port [])) }
    ensures pool { IfOk result (λ t. (t.1.pass.pool ≡ t.0.pool) × (t.2.pool ≡ t.0.pool)) }
    ensures pass { IfOk result (λ t. t.1.pass.known ≡ new_known t.1.pass.known.number (PART / 2)) }
    ensures rest { IfOk result (λ t. t.2.known.part ≡ PART - PART / 2) }
{
    let Ok((ring, driver, device)) = R::make(alloc, slots) else {
        panic!(rt; "no ring was made")
    };
    let (port, writer, reader) = Port::new(alloc)?;
    let (pool, mut whole) = Pool::new(rt, alloc, clusters)?;
    let pass = pool.split(&mut whole);
    let ends = Ends {
        driver,
        reader,
        pass,
        device,
        writer,
    };
    Ok((Shared { ring, port, pool }, ends, whole))
}

/// A queue that has taken nothing, with a log of so many packets, and an engine that has emitted nothing, with room for
/// as many records.
fn make_queue<'a, R: DescRing>(
    alloc: Global,
    shared: &'a Shared<R>,
    ends: Ends<R>,
    packets: u32,
    plan: EnginePlan,
) -> Result<(Txq<'a, R>, TxEngine<'a, R>), NoMemory>
    requires size { 8 ≤ (R.ring shared.now.ring).slots }
    requires ring { IsNewDriver (R.ring shared.now.ring) (R.driver_sees ends.driver) × IsNewDevice (R.ring shared.now.ring) (R.device_sees ends.device) }
    requires port { (ends.reader ≡ reader_of shared.now.port []) × (ends.writer ≡ writer_of shared.now.port []) }
    requires pool { ends.pass.pool ≡ shared.now.pool }
    requires pass { ends.pass.known ≡ new_known ends.pass.known.number (PART / 2) }
    requires packets { packets ≤ 1000000 }
    ensures queue { IfOk result (λ t. (t.0.pool ≡ shared.now.pool) × (t.0.pass.known.part ≡ PART / 2) × IsRung t.0.driver × QueueStandsFor t.0 []) }
    ensures plan { IfOk result (λ t. t.1.plan ≡ plan) }
{
    let log = Log::new(alloc, &[packets])?;
    let wire = WireBuffer::new(alloc, u64::from(packets) * RECORD)?;
    let Ends {
        driver,
        reader,
        pass,
        device,
        writer,
    } = ends;
    let Shared { ring, port, pool } = shared;
    let queue = Txq::new(ring, driver, port, reader, pool, pass, log, 1, 4);
    let engine = TxEngine::new(ring, device, port, writer, wire, plan);
    Ok((queue, engine))
}

/// What a queue leaves whose packets all have their fates: the order record, and its pass of the pool.
fn leave<R: DescRing, W: Abort>(rt: &W, queue: Txq<'_, R>) -> (Vec<OrderLine>, PoolPass)
    requires settled { IsRung queue.driver }
    requires done { posted queue.driver ≡ queue.driver.back }
    ensures pass { result.1 ≡ queue.entry.pass }
{
    assert!(rt; queue.tally().aboard == 0);
    let TxqEnds {
        driver: _,
        reader: _,
        pass,
        log,
    } = queue.close();
    (log.into_lines(), pass)
}
