//! Two threads at one ring: one posts frames and reclaims them, the other takes and completes them.
ghost use Rattle.std.specs.Prelude.{◌≡◌, ◌≤◌, ◌<◌, [], true, IfOk};
ghost use Rattle.ifl_desc.specs.Ends.{completed};

use super::emitted;
use crate::LegacyRing as Adapter;
use ifl_base::{NoMemory, Stamp, Ticket};
use ifl_desc::{ClosedList, Desc, DescRing, Status};
use ifl_mbuf::{Cluster, Seg, make_clusters};
use std::alloc::Global;
use std::process::Abort;
use std::sync::Wait;
use std::test::*;
use std::thread::{Threads, join, yield_now};

/// How many clusters go round.
const CLUSTERS: u32 = 7;

/// A frame has 1 to 5 descriptors, in turn.
fn count_of(index: u32) -> u32
    ensures { (1 ≤ result) × (result ≤ 5) }
{
    index % 5 + 1
}

/// A part of the frame with this number. Its one byte is the part's own number.
fn part_of(cluster: Cluster, index: u32, part: u32, last: bool) -> Desc
    requires { part < 5 }
    ensures { result.last ≡ last }
{
    Desc {
        seg: Seg::fill(cluster, &[part as u8]),
        ticket: Ticket { sender: 0, index },
        stamp: Stamp {
            sec: 1,
            usec: 2,
            orig: 3,
        },
        last,
        status: Status::Posted,
    }
}

/// Which descriptor comes back next, and what came back so far.
#[derive(Clone, Copy)]
struct Due {
    index: u32,
    part: u32,
    count: u64,
    wrong: u64,
}

impl Due {
    fn first() -> Due {
        Due {
            index: 0,
            part: 0,
            count: 0,
            wrong: 0,
        }
    }

    /// Whether this is the descriptor that is due, emitted.
    fn is(&self, d: &Desc) -> bool {
        d.ticket.index == self.index
            && matches!(d.seg.bytes(), [part] if u32::from(*part) == self.part)
            && d.last == (self.part.saturating_add(1) == count_of(self.index))
            && d.status == Status::Emitted
    }

    /// The one that is due behind it, with this one counted.
    fn after(self, right: bool) -> Due {
        let more = self.part.saturating_add(1);
        let ends = more == count_of(self.index);
        Due {
            index: self.index.saturating_add(u32::from(ends)),
            part: if ends { 0 } else { more },
            count: self.count.saturating_add(1),
            wrong: self.wrong.saturating_add(u64::from(!right)),
        }
    }
}

/// Posts a frame and rings the doorbell, or answers that there is no room for it yet.
fn post_frame<R: DescRing>(
    ring: &R,
    driver: &mut R::Driver,
    clusters: &mut Vec<Cluster>,
    index: u32,
) -> bool
    requires ring { (R.driver_sees driver.old).ring ≡ R.ring ring.now }
    requires rung { (R.driver_sees driver.old).pending ≡ [] }
    ensures ring { (R.driver_sees driver.new).ring ≡ R.ring ring.now }
    ensures rung { (R.driver_sees driver.new).pending ≡ [] }
{
    let count = count_of(index);
    if ring.avail(driver) < count || clusters.len() < count as usize {
        return false;
    }
    let before = count - 1;
    for part in 0..before {
        let Some(cluster) = clusters.pop() else {
            unreachable!()
        };
        ring.post(driver, part_of(cluster, index, part, false));
    }
    let Some(cluster) = clusters.pop() else {
        unreachable!()
    };
    ring.post(driver, part_of(cluster, index, before, true));
    ring.flush(driver);
    true
}

/// The oldest descriptor that is known to be returned.
fn reclaim_one<R: DescRing>(ring: &R, driver: &mut R::Driver) -> Option<Desc>
    requires ring { (R.driver_sees driver.old).ring ≡ R.ring ring.now }
    ensures ring { (R.driver_sees driver.new).ring ≡ R.ring ring.now }
    ensures rung { (R.driver_sees driver.new).pending ≡ (R.driver_sees driver.old).pending }
{
    ring.reclaim(driver)
}

/// Reclaims all that is known to be returned, and keeps the clusters for further frames.
fn reclaim_all<R: DescRing>(
    ring: &R,
    driver: &mut R::Driver,
    clusters: &mut Vec<Cluster>,
    due: Due,
) -> Result<Due, NoMemory>
    requires ring { (R.driver_sees driver.old).ring ≡ R.ring ring.now }
    ensures ring { (R.driver_sees driver.new).ring ≡ R.ring ring.now }
    ensures rung { (R.driver_sees driver.new).pending ≡ (R.driver_sees driver.old).pending }
{
    let mut due = due;
    for _ in 0..ring.credits(driver) {
        if let Some(d) = reclaim_one(ring, driver) {
            due = due.after(due.is(&d));
            clusters.push(d.seg.into_cluster())?;
        }
    }
    Ok(due)
}

/// Posts a frame, once there is room for it.
fn send<R: DescRing, W: Wait>(
    rt: &W,
    ring: &R,
    driver: &mut R::Driver,
    clusters: &mut Vec<Cluster>,
    due: Due,
    index: u32,
) -> Result<Due, NoMemory>
    requires ring { (R.driver_sees driver.old).ring ≡ R.ring ring.now }
    requires rung { (R.driver_sees driver.old).pending ≡ [] }
    ensures ring { (R.driver_sees driver.new).ring ≡ R.ring ring.now }
    ensures rung { (R.driver_sees driver.new).pending ≡ [] }
{
    let mut due = due;
    for _ in rt.forever() {
        due = reclaim_all(ring, driver, clusters, due)?;
        if post_frame(ring, driver, clusters, index) {
            return Ok(due);
        }
        yield_now();
    }
    unreachable!()
}

/// What the driver's thread hands back: its end, the clusters, and what came back.
#[derive(Drop)]
struct Driven<D: Drop> {
    driver: D,
    clusters: Vec<Cluster>,
    due: Due,
}

/// The driver's thread: it posts so many frames, and waits until so many descriptors came back.
fn drive<R: DescRing, W: Wait>(
    rt: &W,
    ring: &R,
    driver: R::Driver,
    clusters: Vec<Cluster>,
    frames: u32,
    count: u64,
) -> Result<Driven<R::Driver>, NoMemory>
    requires ring { (R.driver_sees driver).ring ≡ R.ring ring.now }
    requires rung { (R.driver_sees driver).pending ≡ [] }
    ensures { IfOk result (λ e. (R.driver_sees e.driver).ring ≡ R.ring ring.now) }
{
    let mut driver = driver;
    let mut clusters = clusters;
    let mut due = Due::first();
    for index in 0..frames {
        due = send(rt, ring, &mut driver, &mut clusters, due, index)?;
    }
    for _ in rt.forever() {
        due = reclaim_all(ring, &mut driver, &mut clusters, due)?;
        if due.count >= count {
            return Ok(Driven {
                driver,
                clusters,
                due,
            });
        }
        yield_now();
    }
    unreachable!()
}

/// Completes the oldest descriptor that is known to be rung, as emitted, and answers whether it ended a frame. Where
/// there is none, it answers what was so before.
fn emit_one<R: DescRing>(ring: &R, device: &mut R::Device, whole: bool) -> bool
    requires ring { (R.device_sees device.old).ring ≡ R.ring ring.now }
    requires done { completed (R.device_sees device.old) ≡ (R.device_sees device.old).fetched }
    requires whole { whole ≡ true → (R.device_sees device.old).ready ≡ [] }
    ensures ring { (R.device_sees device.new).ring ≡ R.ring ring.now }
    ensures done { completed (R.device_sees device.new) ≡ (R.device_sees device.new).fetched }
    ensures whole { result ≡ true → (R.device_sees device.new).ready ≡ [] }
{
    let Some(d) = ring.next(device) else {
        return whole;
    };
    let last = d.last;
    ring.complete(device, emitted(d));
    last
}

/// What the device's thread hands back: its end, how many descriptors were rung, and whether the last one ended a frame.
#[derive(Drop)]
struct Emitted<D: Drop> {
    device: D,
    count: u64,
    whole: bool,
}

/// The device's thread: it looks and completes all that is known to be rung, until that were so many descriptors.
fn emit<R: DescRing, W: Wait>(rt: &W, ring: &R, device: R::Device, count: u64) -> Emitted<R::Device>
    requires ring { (R.device_sees device).ring ≡ R.ring ring.now }
    requires done { completed (R.device_sees device) ≡ (R.device_sees device).fetched }
    requires whole { (R.device_sees device).ready ≡ [] }
    ensures ring { (R.device_sees result.device).ring ≡ R.ring ring.now }
    ensures done { completed (R.device_sees result.device) ≡ (R.device_sees result.device).fetched }
    ensures whole { result.whole ≡ true → (R.device_sees result.device).ready ≡ [] }
{
    let mut emitted = Emitted {
        device,
        count: 0,
        whole: true,
    };
    for _ in rt.forever() {
        emitted = emit_all(ring, emitted);
        if emitted.count >= count {
            return emitted;
        }
        yield_now();
    }
    unreachable!()
}

/// Looks once, and completes all that is known to be rung.
fn emit_all<R: DescRing>(ring: &R, emitted: Emitted<R::Device>) -> Emitted<R::Device>
    requires ring { (R.device_sees emitted.device).ring ≡ R.ring ring.now }
    requires done { completed (R.device_sees emitted.device) ≡ (R.device_sees emitted.device).fetched }
    requires whole { emitted.whole ≡ true → (R.device_sees emitted.device).ready ≡ [] }
    ensures ring { (R.device_sees result.device).ring ≡ R.ring ring.now }
    ensures done { completed (R.device_sees result.device) ≡ (R.device_sees result.device).fetched }
    ensures whole { result.whole ≡ true → (R.device_sees result.device).ready ≡ [] }
{
    let Emitted {
        mut device,
        count,
        mut whole,
    } = emitted;
    let more = ring.fetch(&mut device);
    for _ in 0..more {
        whole = emit_one(ring, &mut device, whole);
    }
    Emitted {
        device,
        count: count.saturating_add(u64::from(more)),
        whole,
    }
}

/// Both threads.
fn both<R: DescRing, W: Threads + Wait + Sync>(
    rt: &W,
    ring: &R,
    ends: (R::Driver, R::Device),
    clusters: Vec<Cluster>,
    frames: u32,
    count: u64,
) -> (Result<Driven<R::Driver>, NoMemory>, Emitted<R::Device>)
    requires rings { ((R.driver_sees ends.0).ring ≡ R.ring ring.now) × ((R.device_sees ends.1).ring ≡ R.ring ring.now) }
    requires rung { (R.driver_sees ends.0).pending ≡ [] }
    requires done { completed (R.device_sees ends.1) ≡ (R.device_sees ends.1).fetched }
    requires whole { (R.device_sees ends.1).ready ≡ [] }
    ensures driver { IfOk result.0 (λ e. (R.driver_sees e.driver).ring ≡ R.ring ring.now) }
    ensures ring { (R.device_sees result.1.device).ring ≡ R.ring ring.now }
    ensures done { completed (R.device_sees result.1.device) ≡ (R.device_sees result.1.device).fetched }
    ensures whole { result.1.whole ≡ true → (R.device_sees result.1.device).ready ≡ [] }
{
    let (driver, device) = ends;
    join(
        rt,
        move || -> Result<Driven<R::Driver>, NoMemory>
            requires { ((R.driver_sees driver).ring ≡ R.ring ring.now) × ((R.driver_sees driver).pending ≡ []) }
            ensures { IfOk result (λ e. (R.driver_sees e.driver).ring ≡ R.ring ring.entry.now) }
        { drive(rt, ring, driver, clusters, frames, count) },
        move || -> Emitted<R::Device>
            requires { ((R.device_sees device).ring ≡ R.ring ring.now) × (completed (R.device_sees device) ≡ (R.device_sees device).fetched) × ((R.device_sees device).ready ≡ []) }
            ensures { ((R.device_sees result.device).ring ≡ R.ring ring.entry.now) × (completed (R.device_sees result.device) ≡ (R.device_sees result.device).fetched) × (result.whole ≡ true → (R.device_sees result.device).ready ≡ []) }
        { emit(rt, ring, device, count) },
    )
}

/// Whether this cluster is one of them.
fn holds(clusters: &[Cluster], number: u32) -> bool {
    for cluster in clusters {
        if cluster.number() == number {
            return true;
        }
    }
    false
}

/// So many frames go round a ring of this size, with `count` descriptors in all, and the ring is closed.
fn go_round<R: DescRing, W: Threads + Wait + Abort + Sync>(
    rt: &W,
    alloc: Global,
    size: u32,
    frames: u32,
    count: u64,
) -> Result<(), Fail> {
    let clusters = make_clusters(alloc, CLUSTERS)?;
    let Ok((ring, driver, device)) = R::make(alloc, size) else {
        panic!(rt; "no memory")
    };
    let (driven, emitted) = both(rt, &ring, (driver, device), clusters, frames, count);
    let Driven {
        driver,
        clusters,
        due,
    } = driven?;
    assert_eq!(rt; emitted.count, count);
    assert_eq!(rt; due.wrong, 0);
    assert_eq!(rt; due.count, count);
    assert_eq!(rt; (due.index, due.part), (frames, 0));
    assert_eq!(rt; clusters.len(), CLUSTERS as usize);
    for number in 0..CLUSTERS {
        assert!(rt; holds(&clusters, number));
    }
    assert!(rt; emitted.whole);
    let closed = ring.close(driver, emitted.device);
    assert!(rt; closed.left().is_empty());
    Ok(())
}

#[test]
fn frames_go_round_the_smallest_ring(rt: HostRuntime) -> Result<(), Fail> {
    // 2,000 times 1, 2, 3, 4 and 5 descriptors.
    go_round::<Adapter, _>(&rt, rt.alloc(), 8, 10_000, 30_000)
}

#[test]
fn frames_go_round_the_largest_ring(rt: HostRuntime) -> Result<(), Fail> {
    // 2,200 times 1, 2, 3, 4 and 5 descriptors.
    go_round::<Adapter, _>(&rt, rt.alloc(), 32_768, 11_000, 33_000)
}
