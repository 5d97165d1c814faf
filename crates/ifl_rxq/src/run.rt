//! A whole receive run, from its capture to what it leaves.
ghost use Rattle.std.specs.Prelude.{◌≡◌, ◌≤◌, ◌+◌, [], length, vec_capacity, IfOk};
ghost use Rattle.std.specs.List.{flat_map};
ghost use Rattle.ifl_base.specs.declared.limits.TheConstants.{PART};
ghost use Rattle.ifl_pcap.specs.File.{record_of};
ghost use Rattle.ifl_device.specs.Receive.{rx_returned};
ghost use Rattle.ifl_rxq.specs.FreeLists.{accounted, settled};
ghost use Rattle.ifl_rxq.specs.Received.{IsReceived, IsServed};

use crate::free_list::FreeList;
use crate::line::{MissedLine, RxCounters};
use crate::sizes::{RxRules, RxSizes};
use crate::worker::receive;
use ifl_base::NoMemory;
use ifl_desc::DescRing;
use ifl_device::{RxEngine, WireBuffer};
use ifl_pcap::{Capture, record_len};
use ifl_pool::{ClosedPool, Pool, PoolPass};
use std::alloc::Global;
use std::sync::Wait;

/// What a receive run leaves.
#[derive(Drop)]
pub struct Received<R: DescRing> {
    /// The arrivals that were not stored, in order.
    pub missed: Vec<MissedLine>,
    /// The capture of those that were, in order, as its file holds it.
    pub host: Vec<u8>,
    /// What was counted.
    pub counters: RxCounters,
    /// The descriptor ring, closed.
    pub desc: R::Closed,
    /// The pool, closed.
    pub pool: ClosedPool,
}

// What is left of the list and the engine.
#[derive(Drop)]
struct Remains<R: DescRing> {
    driver: R::Driver,
    device: R::Device,
    pass: PoolPass,
    host: Vec<u8>,
    delivered: u64,
    copied: u64,
    missed: Vec<MissedLine>,
}

// The bytes of the records of all frames, which no memory holds where they are 2^64 or more.
fn records_len(input: &Capture) -> Result<u64, NoMemory>
    ensures { IfOk result (λ len. len ≡ length (flat_map record_of input.now.frames)) }
{
    let mut len = 0u64;
    for index in 0..input.len() {
        let record = record_len(&input.frame(index));
        let Some(more) = len.checked_add(record) else {
            return Err(NoMemory);
        };
        len = more;
    }
    Ok(len)
}

// Receives all frames, and takes the list and the engine apart.
fn serve<R: DescRing + 'static, W: Wait>(
    rt: &W,
    list: FreeList<'_, R>,
    engine: RxEngine<'_, R>,
    rules: RxRules,
    input: &Capture,
    missed: Vec<MissedLine>,
) -> Remains<R>
    requires ring { engine.ring ≡ list.ring }
    requires fresh { (settled list ≡ []) × (rx_returned engine ≡ []) × (missed.items ≡ []) }
    requires pass { (list.pass.part ≡ PART) × (list.pass.counts.taken ≡ accounted list) }
    requires rules { list.copy_break ≡ rules.copy_break }
    requires frames { length input.now.frames ≤ 1000000 }
    requires lines { length input.now.frames ≤ vec_capacity missed }
    requires room { length (flat_map record_of input.now.frames) ≤ list.host.room }
    ensures served { IsServed rules list.entry.ring list.entry.pool input.now.frames (R.driver_sees result.driver) (R.device_sees result.device) result.pass result.host.items result.delivered result.copied result.missed.items }
{
    let mut list = list;
    let mut engine = engine;
    let mut missed = missed;
    receive(rt, &mut list, &mut engine, input, rules.burst, &mut missed);
    let (delivered, copied) = list.counters();
    let (driver, pass, host) = list.close(rt);
    let device = engine.close();
    Remains {
        driver,
        device,
        pass,
        host,
        delivered,
        copied,
        missed,
    }
}

// Closes the descriptor ring and the pool, and puts together what the run leaves.
fn finish<R: DescRing, W: Wait>(
    rt: &W,
    ring: R,
    pool: Pool,
    remains: Remains<R>,
    sizes: RxSizes,
    rules: RxRules,
    input: &Capture,
) -> Received<R>
    requires sizes { ((R.ring ring).slots ≡ sizes.descriptors) × (pool.size ≡ sizes.clusters) }
    requires served { IsServed rules (R.ring ring) pool input.now.frames (R.driver_sees remains.driver) (R.device_sees remains.device) remains.pass remains.host.items remains.delivered remains.copied remains.missed.items }
    ensures received { IsReceived sizes rules input.now.frames result.missed.items result.host.items result.counters (R.Closed.ClosedList.closed_sees result.desc) result.pool }
{
    let Remains {
        driver,
        device,
        pass,
        host,
        delivered,
        copied,
        missed,
    } = remains;
    let counters = RxCounters {
        arrived: input.len() as u64,
        delivered,
        missed: missed.len() as u64,
        copied,
    };
    Received {
        missed,
        host,
        counters,
        desc: ring.close(driver, device),
        pool: pool.close(rt, pass),
    }
}

/// Receives the frames of a capture, at most 1,000,000, over a descriptor ring and a pool of these sizes, which it makes
/// and closes. The frames stay where they lie in the capture.
///
/// `NoMemory` comes before the first arrival.
pub fn receive_capture<R: DescRing + 'static, W: Wait>(
    rt: &W,
    alloc: Global,
    sizes: RxSizes,
    rules: RxRules,
    input: &Capture,
) -> Result<Received<R>, NoMemory>
    requires few { length input.now.frames ≤ 1000000 }
    ensures received { IfOk result (λ r. IsReceived sizes rules input.now.frames r.missed.items r.host.items r.counters (R.Closed.ClosedList.closed_sees r.desc) r.pool) }
{
    let missed = Vec::with_capacity(alloc, input.len())?;
    let host = WireBuffer::new(alloc, records_len(input)?)?;
    let (ring, driver, device) = match R::make(alloc, sizes.descriptors) {
        Ok(made) => made,
        Err(_) => return Err(NoMemory),
    };
    let (pool, pass) = Pool::new(rt, alloc, sizes.clusters)?;
    let list = FreeList::new(alloc, &ring, driver, &pool, pass, rules.copy_break, host)?;
    let engine = RxEngine::new(&ring, device);
    let remains = serve(rt, list, engine, rules, input, missed);
    Ok(finish(rt, ring, pool, remains, sizes, rules, input))
}
