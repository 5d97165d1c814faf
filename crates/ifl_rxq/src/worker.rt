//! The receive worker.
ghost use Rattle.std.specs.Prelude.{◌≡◌, ℕ, ◌+◌, ◌%◌, ◌<◌, ◌≤◌, [], length, vec_capacity};
ghost use Rattle.std.specs.List.{flat_map};
ghost use Rattle.ifl_base.specs.declared.limits.TheConstants.{PART};
ghost use Rattle.ifl_pcap.specs.File.{record_of};
ghost use Rattle.ifl_desc.specs.declared.history.Side.TheVariants.{Driver, Device};
ghost use Rattle.ifl_desc.specs.History.{sent};
ghost use Rattle.ifl_desc.specs.Frames.{frames_of};
ghost use Rattle.ifl_device.specs.Receive.{IsRx, rx_returned};
ghost use mathlib.Core.List.{IsPrefix};
ghost use Rattle.ifl_rxq.specs.FreeLists.{IsFreeList, accounted, delivered_of, settled};
ghost use Rattle.ifl_rxq.specs.Receive.{Arrives, AreReceived, full_of};
ghost use Rattle.ifl_rxq.specs.Worker.{HasArrived, IsReady, IsDone};

use crate::free_list::FreeList;
use crate::line::MissedLine;
use ifl_base::Ticket;
use ifl_desc::DescRing;
use ifl_device::{Arrive, RxEngine};
use ifl_pcap::{Capture, Frame};
use std::sync::Wait;

// One arrival. Where it is missed, a line says so.
fn arrive_one<R: DescRing>(
    engine: &mut RxEngine<'_, R>,
    frame: &Frame<'_>,
    index: u32,
    missed: &mut Vec<MissedLine>,
)
    requires room { length missed.old.items < vec_capacity missed.old }
    ensures did { Arrives index frame.now engine.old missed.old.items engine.new missed.new.items }
    ensures lawful { IsRx engine.new }
    ensures capacity { vec_capacity missed.new ≡ vec_capacity missed.old }
{
    let ticket = Ticket { sender: 0, index };
    let Arrive::Missed { free } = engine.arrive(ticket, frame.stamp(), frame.bytes()) else {
        return;
    };
    missed.push_reserved(MissedLine { index, free });
}

// The arrivals from `next` on, up to `end`, which are of one burst.
fn arrive_burst<R: DescRing>(
    engine: &mut RxEngine<'_, R>,
    input: &Capture,
    burst: u32,
    next: usize,
    end: usize,
    missed: &mut Vec<MissedLine>,
)
    requires range { (next < end) × (end ≤ length input.now.frames) × (length input.now.frames ≤ 1000000) }
    requires burst { (0 < burst) × (next % burst ≡ 0) × (end ≤ next + burst) }
    requires room { (length input.now.frames ≤ vec_capacity missed.old) × (length missed.old.items ≤ next) }
    requires lawful { IsRx engine.old }
    ensures did { (full : ℕ) → HasArrived burst full input.now.frames next engine.old missed.old.items → full + length (rx_returned engine.old) ≤ length (sent Driver engine.old.device.seen) → HasArrived burst full input.now.frames end engine.new missed.new.items }
    ensures few { (length missed.new.items ≤ end) × (length (frames_of (rx_returned engine.new)) ≤ length (frames_of (rx_returned engine.old)) + burst) }
    ensures on { (engine.new.ring ≡ engine.old.ring) × IsPrefix engine.old.device.seen engine.new.device.seen }
    ensures lawful { IsRx engine.new }
    ensures capacity { vec_capacity missed.new ≡ vec_capacity missed.old }
{
    for index in next..end {
        arrive_one(engine, &input.frame(index), index as u32, missed);
    }
}

/// Receives the frames, in bursts of so many: before each burst the ring is filled as far as the pool allows.
///
/// Each frame is stored, delivered to the host's capture and counted, or it has a line in `missed`, which says how many
/// buffers were free. Nothing is outstanding in the end.
pub fn receive<R: DescRing, W: Wait>(
    rt: &W,
    list: &mut FreeList<'_, R>,
    engine: &mut RxEngine<'_, R>,
    input: &Capture,
    burst: u32,
    missed: &mut Vec<MissedLine>,
)
    requires ring { engine.old.ring ≡ list.old.ring }
    requires fresh { (settled list.old ≡ []) × (rx_returned engine.old ≡ []) × (missed.old.items ≡ []) }
    requires pass { (list.old.pass.part ≡ PART) × (list.old.pass.counts.taken ≡ accounted list.old) }
    requires frames { length input.now.frames ≤ 1000000 }
    requires burst { 0 < burst }
    requires lines { length input.now.frames ≤ vec_capacity missed.old }
    requires room { length (flat_map record_of input.now.frames) ≤ list.old.host.room }
    ensures received { AreReceived burst (full_of list.old.ring.slots list.old.pool.size) 0 0 input.now.frames missed.new.items (delivered_of list.new) }
    ensures done { IsDone list.new engine.new }
    ensures same { (list.new.ring ≡ list.old.ring) × (list.new.pool ≡ list.old.pool) × (list.new.copy_break ≡ list.old.copy_break) × (engine.new.ring ≡ engine.old.ring) }
    ensures pass { (list.new.pass.part ≡ PART) × (list.new.pass.counts.taken ≡ accounted list.new) }
    ensures lawful { IsFreeList list.new × IsRx engine.new }
{
    list.refill(rt, u32::MAX);
    let mut next = 0;
    while next < input.len() {
        let end = next + (burst as usize).min(input.len() - next);
        serve_burst(rt, list, engine, input, burst, next, end, missed);
        next = end;
    }
    list.meet(engine);
    engine.abort_all();
    list.meet(engine);
    list.rx_eof(rt, 1);
}

// One burst, between two meetings, and then the deliveries and a full refill.
fn serve_burst<R: DescRing, W: Wait>(
    rt: &W,
    list: &mut FreeList<'_, R>,
    engine: &mut RxEngine<'_, R>,
    input: &Capture,
    burst: u32,
    next: usize,
    end: usize,
    missed: &mut Vec<MissedLine>,
)
    requires range { (next < end) × (end ≤ length input.now.frames) × (length input.now.frames ≤ 1000000) }
    requires burst { (0 < burst) × (next % burst ≡ 0) × (end ≤ next + burst) }
    requires room { (length input.now.frames ≤ vec_capacity missed.old) × (length missed.old.items ≤ next) }
    requires host { length (flat_map record_of input.now.frames) ≤ list.old.host.room }
    requires ready { IsReady burst input.now.frames next list.old engine.old missed.old.items }
    ensures ready { IsReady burst input.now.frames end list.new engine.new missed.new.items }
    ensures same { (list.new.ring ≡ list.old.ring) × (list.new.pool ≡ list.old.pool) × (list.new.copy_break ≡ list.old.copy_break) × (list.new.host.room ≡ list.old.host.room) × (engine.new.ring ≡ engine.old.ring) }
    ensures few { length missed.new.items ≤ end }
    ensures capacity { vec_capacity missed.new ≡ vec_capacity missed.old }
{
    list.meet(engine);
    arrive_burst(engine, input, burst, next, end, missed);
    list.meet(engine);
    list.rx_eof(rt, burst);
    list.refill(rt, u32::MAX); // in time for the next burst
}
