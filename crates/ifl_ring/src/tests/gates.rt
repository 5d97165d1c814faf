//! A gate that writes down where each thread has been, and lets the first go on only when the second is done.
ghost use Rattle.std.specs.Prelude.{◌≡◌, ◌<◌};

use super::{Taker, one};
use crate::{Enqueued, Ring, Seat};
use ifl_base::Flag;
use ifl_outside::{Gate, Point};
use std::alloc::Global;
use std::sync::Wait;
use std::sync::atomic::{AtomicU64, Ordering};
use std::test::*;
use std::thread::{join, yield_now};

// Where one thread has been: a digit a point, in order, the last point last.
fn digit(point: Point) -> u64
    ensures { result < 10 }
{
    match point {
        Point::Begin => 1,
        Point::Reserved => 2,
        Point::Published => 3,
        Point::Refused => 4,
    }
}

// A gate that writes down where the threads 0 and 1 have been, and where any other has. Where it holds, thread 0
// goes on from where it has published only when thread 1 has published too, or after ten million looks.
#[derive(Drop)]
struct TrailGate {
    first: AtomicU64,
    second: AtomicU64,
    others: AtomicU64,
    holds: bool,
}

impl TrailGate {
    fn new(holds: bool) -> TrailGate {
        TrailGate {
            first: AtomicU64::new(0),
            second: AtomicU64::new(0),
            others: AtomicU64::new(0),
            holds,
        }
    }

    // The three trails, each as it is now.
    fn trails(&self) -> [u64; 3] {
        [
            self.first.load(Ordering::SeqCst),
            self.second.load(Ordering::SeqCst),
            self.others.load(Ordering::SeqCst),
        ]
    }
}

fn write_down(trail: &AtomicU64, point: Point) {
    let before = trail.load(Ordering::SeqCst);
    trail.store(
        before.wrapping_mul(10).wrapping_add(digit(point)),
        Ordering::SeqCst,
    );
}

// Looks until this thread has come to so many points, at most ten million times.
fn wait_for(trail: &AtomicU64, wanted: u64) {
    for _ in 0..10_000_000_u32 {
        if trail.load(Ordering::SeqCst) == wanted {
            return;
        }
        yield_now();
    }
}

impl Gate for TrailGate {
    fn at(&self, who: u16, point: Point) {
        match who {
            0 => write_down(&self.first, point),
            1 => write_down(&self.second, point),
            _ => write_down(&self.others, point),
        }
        if self.holds && who == 0 && matches!(point, Point::Published) {
            wait_for(&self.second, 123);
        }
    }
}

// Enqueues one item as thread `who`.
fn enqueue_as<R: Wait>(
    rt: &R,
    alloc: Global,
    ring: &Ring<Taker>,
    seat: &mut Seat<Taker>,
    who: u16,
    abdicate: bool,
    gate: &TrailGate,
) -> Option<Enqueued>
    requires { seat.old.table ≡ ring.now.table }
    ensures { seat.new.table ≡ seat.old.table }
{
    let Ok(mut items) = one(alloc, 5) else {
        return None;
    };
    Some(ring.enqueue(rt, seat, who, &mut items, 32, abdicate, gate))
}

// Enqueues one item as thread 1, when thread 0 has published.
fn enqueue_behind<R: Wait>(
    rt: &R,
    alloc: Global,
    ring: &Ring<Taker>,
    seat: &mut Seat<Taker>,
    gate: &TrailGate,
) -> Option<Enqueued>
    requires { seat.old.table ≡ ring.now.table }
{
    wait_for(&gate.first, 123);
    enqueue_as(rt, alloc, ring, seat, 1, false, gate)
}

#[test]
fn gate_is_told_of_each_point(rt: HostRuntime) -> Result<(), Fail> {
    let alloc = rt.alloc();
    let Ok((ring, mut seat)) = Ring::new(alloc, 4, Taker::takes_in_turn([1, 0, 0, 0, 2])) else {
        panic!(rt; "no ring was made")
    };
    let gate = TrailGate::new(false);
    let abdicated = enqueue_as(&rt, alloc, &ring, &mut seat, 1, true, &gate);
    assert_eq!(rt; abdicated, Some(Enqueued::Abdicated));
    assert_eq!(rt; gate.trails(), [0, 123, 0]);
    let drained = enqueue_as(&rt, alloc, &ring, &mut seat, 0, false, &gate);
    assert_eq!(rt;
        drained,
        Some(Enqueued::Drained {
            left: Flag::Stalled,
            total: 1
        })
    );
    assert_eq!(rt; gate.trails(), [123, 123, 0]);
    Ok(())
}

#[test]
fn gate_is_told_of_a_refusal(rt: HostRuntime) -> Result<(), Fail> {
    let alloc = rt.alloc();
    let Ok((ring, mut seat)) = Ring::new(alloc, 4, Taker::takes_in_turn([0, 0, 0, 0, 0])) else {
        panic!(rt; "no ring was made")
    };
    let gate = TrailGate::new(false);
    enqueue_as(&rt, alloc, &ring, &mut seat, 0, false, &gate);
    enqueue_as(&rt, alloc, &ring, &mut seat, 0, false, &gate);
    let refused = enqueue_as(&rt, alloc, &ring, &mut seat, 9, false, &gate);
    assert!(rt; matches!(refused, Some(Enqueued::NoBuffers { .. })));
    assert_eq!(rt; gate.trails(), [123_123, 0, 14]);
    Ok(())
}

#[test]
fn gate_is_told_behind_a_consumer(rt: HostRuntime) -> Result<(), Fail> {
    let alloc = rt.alloc();
    let Ok((ring, mut seat)) = Ring::new(alloc, 8, Taker::takes_all()) else {
        panic!(rt; "no ring was made")
    };
    let mut other = ring.split(&mut seat);
    let gate = TrailGate::new(true);
    let (first, second) = join(
        &rt,
        || enqueue_as(&rt, alloc, &ring, &mut seat, 0, false, &gate),
        || enqueue_behind(&rt, alloc, &ring, &mut other, &gate),
    );
    assert_eq!(rt; second, Some(Enqueued::Behind));
    assert_eq!(rt;
        first,
        Some(Enqueued::Drained {
            left: Flag::Idle,
            total: 2
        })
    );
    assert_eq!(rt; gate.trails(), [123, 123, 0]);
    Ok(())
}
