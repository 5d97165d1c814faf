//! What an engine that is served does by its plan alone.
ghost use Rattle.std.specs.Prelude.{◌≡◌, ◌≤◌, ◌<◌, [], true, false};
ghost use Rattle.ifl_desc.specs.Ends.{room_of};

use super::{QUIET, RECORD};
use crate::{Served, serve};
use ifl_base::{Stamp, Ticket};
use ifl_desc::PortState::{Down, Flush, Up};
use ifl_desc::{Desc, DescRing, Port, PortReader, PortState, Status, TurnSeat, Turnstile};
use ifl_device::{EnginePlan, Turn, TxEngine, WireBuffer};
use ifl_mbuf::{Cluster, Seg, make_clusters};
use ifl_writeback::WritebackRing;
use std::alloc::Global;
use std::process::Abort;
use std::test::*;

/// How many slots the ring has. As many clusters are there, and as many records fit on the wire.
const SLOTS: u32 = 16;

/// One try to serve: how many frames are rung before it, what it answers, and what the port shows then.
type Try = (u32, Served, PortState);

fn moved(count: u32) -> Served {
    Served::Turned(Turn::Moved(count))
}

fn flushed(count: u32) -> Served {
    Served::Turned(Turn::Flushed(count))
}

fn lost(left: u32) -> Served {
    Served::Turned(Turn::Down { left })
}

fn idle(doorbell: u32) -> Served {
    Served::Turned(Turn::Idle { doorbell })
}

/// The frame with this number, of one descriptor.
fn frame(cluster: Cluster, index: u32) -> Desc
    ensures { result.last ≡ true }
{
    Desc {
        seg: Seg::fill(cluster, &[7; 60]),
        ticket: Ticket { sender: 0, index },
        stamp: Stamp {
            sec: 1,
            usec: 2,
            orig: 60,
        },
        last: true,
        status: Status::Posted,
    }
}

/// What rings frames, serves and looks.
#[derive(Drop)]
struct Hands<'a, R: DescRing> {
    driver: R::Driver,
    clusters: Vec<Cluster>,
    seat: TurnSeat<TxEngine<'a, R>>,
    reader: PortReader,
}

/// What hands are of.
#[derive(Drop)]
struct Adapter<'a, R: DescRing> {
    ring: &'a R,
    port: &'a Port,
    turnstile: Turnstile<TxEngine<'a, R>>,
}

/// Posts so many frames, and rings the doorbell for each.
fn ring_frames<R: DescRing, W: Abort>(
    rt: &W,
    ring: &R,
    driver: &mut R::Driver,
    clusters: &mut Vec<Cluster>,
    count: u32,
)
    requires ring { (R.driver_sees driver.old).ring ≡ R.ring ring.now }
    requires rung { (R.driver_sees driver.old).pending ≡ [] }
    ensures ring { (R.driver_sees driver.new).ring ≡ R.ring ring.now }
    ensures rung { (R.driver_sees driver.new).pending ≡ [] }
{
    for index in 0..count {
        let cluster = clusters.pop().expect(rt, "there are enough clusters");
        assert!(rt; ring.avail(driver) > 0);
        ring.post(driver, frame(cluster, index));
        ring.flush(driver);
    }
}

/// Rings so many frames, tries to serve once, and looks at the port.
fn try_once<'a, R: DescRing, W: Abort>(
    rt: &W,
    adapter: &Adapter<'a, R>,
    hands: &mut Hands<'a, R>,
    frames: u32,
    rung: u32,
) -> (Served, PortState)
    requires frames { 1 ≤ frames }
    requires ring { ((R.driver_sees hands.old.driver).ring ≡ R.ring adapter.now.ring.now) × ((R.driver_sees hands.old.driver).pending ≡ []) }
    requires turn { (hands.old.seat.turnstile ≡ adapter.now.turnstile) × (hands.old.seat.held ≡ false) }
    requires port { hands.old.reader.port ≡ adapter.now.port.now }
    ensures ring { ((R.driver_sees hands.new.driver).ring ≡ R.ring adapter.now.ring.now) × ((R.driver_sees hands.new.driver).pending ≡ []) }
    ensures turn { (hands.new.seat.turnstile ≡ adapter.now.turnstile) × (hands.new.seat.held ≡ false) }
    ensures port { hands.new.reader.port ≡ adapter.now.port.now }
{
    ring_frames(
        rt,
        adapter.ring,
        &mut hands.driver,
        &mut hands.clusters,
        rung,
    );
    let answer = serve(&adapter.turnstile, &mut hands.seat, frames);
    (answer, adapter.port.look(&mut hands.reader))
}

/// Makes the tries in turn, each of which moves at most so many frames, and compares what comes of them.
fn try_all<R: DescRing, W: Abort>(
    rt: &W,
    alloc: Global,
    plan: EnginePlan,
    frames: u32,
    tries: &[Try],
) -> Result<(), Fail> {
    let Ok((ring, driver, device)) = R::make(alloc, SLOTS) else {
        panic!(rt; "no ring was made")
    };
    let (port, writer, reader) = Port::new(alloc)?;
    let wire = WireBuffer::new(alloc, u64::from(SLOTS) * RECORD)?;
    let engine = TxEngine::new(&ring, device, &port, writer, wire, plan);
    let Ok((turnstile, seat)) = Turnstile::new(alloc, engine) else {
        panic!(rt; "no memory")
    };
    let adapter = Adapter {
        ring: &ring,
        port: &port,
        turnstile,
    };
    let mut hands = Hands {
        driver,
        clusters: make_clusters(alloc, SLOTS)?,
        seat,
        reader,
    };
    assert!(rt; 1 <= frames);
    for (rung, answer, state) in tries {
        let made = try_once(rt, &adapter, &mut hands, frames, *rung);
        assert_eq!(rt; made, (*answer, *state), "{plan:?}");
    }
    Ok(())
}

#[test]
fn hangs(rt: HostRuntime) -> Result<(), Fail> {
    let alloc = rt.alloc();
    // The number 0 is never.
    let never = [(5, moved(5), Up), (0, idle(5), Up)];
    try_all::<WritebackRing, _>(&rt, alloc, QUIET, 64, &never)?;
    // It hangs once, and a turn of fewer frames stops at the number too.
    let plan = EnginePlan {
        hang_after: 3,
        ..QUIET
    };
    let once = [
        (5, moved(3), Up),
        (0, Served::Reset(2), Up),
        (0, idle(5), Up),
        (4, moved(4), Up),
    ];
    try_all::<WritebackRing, _>(&rt, alloc, plan, 64, &once)?;
    let by_two = [
        (5, moved(2), Up),
        (0, moved(1), Up),
        (0, Served::Reset(2), Up),
        (1, moved(1), Up),
    ];
    try_all::<WritebackRing, _>(&rt, alloc, plan, 2, &by_two)
}

#[test]
fn stops(rt: HostRuntime) -> Result<(), Fail> {
    let alloc = rt.alloc();
    // At the number 0 nothing is emitted.
    let at_once = EnginePlan {
        flush_after: Some(0),
        ..QUIET
    };
    let none = [(5, flushed(5), Flush), (0, idle(5), Flush)];
    try_all::<WritebackRing, _>(&rt, alloc, at_once, 1, &none)?;
    // A stop goes on, however many frames a turn moves at most.
    let later = EnginePlan {
        flush_after: Some(2),
        ..QUIET
    };
    let goes_on = [
        (5, moved(2), Up),
        (0, flushed(3), Flush),
        (0, idle(5), Flush),
        (4, flushed(4), Flush),
    ];
    try_all::<WritebackRing, _>(&rt, alloc, later, 2, &goes_on)?;
    // It is idle where nothing was rung when the number was reached.
    let reached = [(2, moved(2), Up), (0, idle(2), Flush)];
    try_all::<WritebackRing, _>(&rt, alloc, later, 64, &reached)
}

#[test]
fn loses_its_link(rt: HostRuntime) -> Result<(), Fail> {
    let alloc = rt.alloc();
    let plan = EnginePlan {
        link_down_after: 1,
        link_down_turns: 3,
        ..QUIET
    };
    let three_turns = [
        (3, moved(1), Up),
        (0, lost(2), Down),
        (1, lost(1), Down),
        (0, lost(0), Up),
        (0, moved(3), Up),
        (0, idle(4), Up),
    ];
    try_all::<WritebackRing, _>(&rt, alloc, plan, 64, &three_turns)?;
    // For one turn the port is down and up again before anyone looks.
    let plan = EnginePlan {
        link_down_turns: 1,
        ..plan
    };
    let one_turn = [(3, moved(1), Up), (0, lost(0), Up), (0, moved(2), Up)];
    try_all::<WritebackRing, _>(&rt, alloc, plan, 64, &one_turn)?;
    // The number 0 is never.
    let plan = EnginePlan {
        link_down_after: 0,
        ..plan
    };
    let never = [(3, moved(3), Up), (0, idle(3), Up)];
    try_all::<WritebackRing, _>(&rt, alloc, plan, 64, &never)
}

#[test]
fn several_at_one_number(rt: HostRuntime) -> Result<(), Fail> {
    let alloc = rt.alloc();
    // The stop comes first, for good.
    let all = EnginePlan {
        hang_after: 2,
        link_down_after: 2,
        link_down_turns: 2,
        flush_after: Some(2),
        by_hand: false,
    };
    let stop = [
        (5, moved(2), Up),
        (0, flushed(3), Flush),
        (1, flushed(1), Flush),
        (0, idle(6), Flush),
    ];
    try_all::<WritebackRing, _>(&rt, alloc, all, 64, &stop)?;
    // Without one, the hang comes before the link is lost.
    let two = EnginePlan {
        flush_after: None,
        ..all
    };
    let hang = [
        (5, moved(2), Up),
        (1, Served::Reset(4), Up),
        (1, lost(1), Down),
        (0, lost(0), Up),
        (0, moved(1), Up),
        (0, idle(7), Up),
    ];
    try_all::<WritebackRing, _>(&rt, alloc, two, 64, &hang)
}

#[test]
fn several_in_turn(rt: HostRuntime) -> Result<(), Fail> {
    let alloc = rt.alloc();
    // Behind a stop nothing hangs.
    let stop_first = EnginePlan {
        hang_after: 3,
        flush_after: Some(2),
        ..QUIET
    };
    let stop = [
        (5, moved(2), Up),
        (0, flushed(3), Flush),
        (0, idle(5), Flush),
    ];
    try_all::<WritebackRing, _>(&rt, alloc, stop_first, 64, &stop)?;
    // The numbers count emitted frames alone: those that were aborted are none of them.
    let hang_first = EnginePlan {
        hang_after: 2,
        link_down_after: 3,
        link_down_turns: 1,
        flush_after: Some(5),
        by_hand: false,
    };
    let each = [
        (5, moved(2), Up),
        (0, Served::Reset(3), Up),
        (4, moved(1), Up),
        (0, lost(0), Up),
        (0, moved(2), Up),
        (0, flushed(1), Flush),
        (0, idle(9), Flush),
    ];
    try_all::<WritebackRing, _>(&rt, alloc, hang_first, 64, &each)
}
