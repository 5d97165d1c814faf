//! Four threads send through one small ring, and each of them consumes at times.
ghost use Rattle.std.specs.Prelude.{◌≡◌, ◌≤◌, [], drop, length};
ghost use Rattle.std.specs.VecDeque.{deque_capacity};
ghost use Rattle.ifl_base.specs.declared.limits.TheConstants.{PART};

use super::Number;
use crate::{Drainer, Enqueued, Ring, RingItem, Seat};
use ifl_outside::FreeGate;
use std::alloc::Global;
use std::collections::VecDeque;
use std::sync::Wait;
use std::test::*;
use std::thread::{Threads, join, yield_now};

// A drainer that takes all, and writes down the tags in the order in which they come, as far as it has room.
#[derive(Drop)]
struct Recorder {
    tags: Vec<u64>,
}

// Takes the first item, and writes its tag down.
fn record_first(batch: &mut VecDeque<Number>, tags: &mut Vec<u64>)
    requires { 1 ≤ length batch.old.items }
    ensures items { batch.new.items ≡ drop 1 batch.old.items }
    ensures room { deque_capacity batch.new ≡ deque_capacity batch.old }
{
    let Some(item) = batch.pop_front() else {
        unreachable!()
    };
    if tags.len() < tags.capacity() {
        tags.push_reserved(item.tag());
    }
}

impl Drainer for Recorder {
    type Item = Number;

    type Origin = ();

    ghost origin = { λ d. tt };

    ghost stands_for = { λ d ms. Unit {0} };

    ghost settled = { λ d. Unit {0} };

    ghost full = { λ d. Unit {0} };

    fn drain<R: Wait>(&mut self, rt: &R, batch: &mut VecDeque<Number>) -> u32 {
        let _ = rt;
        let count = batch.len() as u32;
        for _ in 0..count {
            record_first(batch, &mut self.tags);
        }
        count
    }
}

// Enqueues one item, as often as it is refused, and consumes meanwhile what was left. Each second item is left
// to another consumer.
fn send_one<R: Wait>(
    rt: &R,
    ring: &Ring<Recorder>,
    seat: &mut Seat<Recorder>,
    items: &mut VecDeque<Number>,
    tag: u64,
)
    requires own { seat.old.table ≡ ring.now.table }
    requires room { (items.old.items ≡ []) × (1 ≤ deque_capacity items.old) }
    ensures own { seat.new.table ≡ ring.now.table }
    ensures part { seat.new.known.part ≡ seat.old.known.part }
    ensures room { (items.new.items ≡ []) × (1 ≤ deque_capacity items.new) }
{
    items.push_back_reserved(Number { tag });
    for _ in rt.forever() {
        match ring.enqueue(rt, seat, 0, items, 1, tag % 2 == 1, &FreeGate) {
            Enqueued::NoBuffers { seen: _ } => {
                ring.check_drainage(rt, seat, 1);
                yield_now();
            }
            Enqueued::Behind => return,
            Enqueued::Abdicated => return,
            Enqueued::Drained { left: _, total: _ } => return,
        }
    }
    unreachable!()
}

// Enqueues a thousand items, with the number of the thread in their tags. Where there is no memory, it sends none.
fn send<R: Wait>(
    rt: &R,
    alloc: Global,
    ring: &Ring<Recorder>,
    seat: Seat<Recorder>,
    number: u64,
) -> Seat<Recorder>
    requires own { seat.table ≡ ring.now.table }
    requires number { number ≤ 3 }
    ensures own { result.table ≡ ring.now.table }
    ensures part { result.known.part ≡ seat.known.part }
{
    let mut seat = seat;
    let Ok(mut items) = VecDeque::with_capacity(alloc, 1) else {
        return seat;
    };
    for i in 0..1_000_u64 {
        send_one(rt, ring, &mut seat, &mut items, number * 10_000 + i);
    }
    seat
}

// Two threads send, of which the first has this number, each with half of the seat's part.
fn send_by_two<R: Threads + Wait + Sync>(
    rt: &R,
    alloc: Global,
    ring: &Ring<Recorder>,
    seat: Seat<Recorder>,
    number: u64,
) -> Seat<Recorder>
    requires own { seat.table ≡ ring.now.table }
    requires part { 2 ≤ seat.known.part }
    requires number { number ≤ 2 }
    ensures own { result.table ≡ ring.now.table }
    ensures part { result.known.part ≡ seat.known.part }
{
    let mut left = seat;
    let right = ring.split(&mut left);
    let (mut left, right) = join(
        rt,
        move ||
            requires { (left.table ≡ ring.now.table) × (number ≤ 2) }
            ensures { (result.table ≡ ring.entry.now.table) × (result.known.part ≡ left.known.part) }
        { send(rt, alloc, ring, left, number) },
        move ||
            requires { (right.table ≡ ring.now.table) × (number ≤ 2) }
            ensures { (result.table ≡ ring.entry.now.table) × (result.known.part ≡ right.known.part) }
        { send(rt, alloc, ring, right, number + 1) },
    );
    ring.join(&mut left, right);
    left
}

// Four threads send. The whole seat comes back.
fn send_by_four<R: Threads + Wait + Sync>(
    rt: &R,
    alloc: Global,
    ring: &Ring<Recorder>,
    seat: Seat<Recorder>,
) -> Seat<Recorder>
    requires own { seat.table ≡ ring.now.table }
    requires whole { seat.known.part ≡ PART }
    ensures own { result.table ≡ ring.now.table }
    ensures whole { result.known.part ≡ PART }
{
    let mut left = seat;
    let right = ring.split(&mut left);
    let (mut left, right) = join(
        rt,
        move ||
            requires { (left.table ≡ ring.now.table) × (2 ≤ left.known.part) }
            ensures { (result.table ≡ ring.entry.now.table) × (result.known.part ≡ left.known.part) }
        { send_by_two(rt, alloc, ring, left, 0) },
        move ||
            requires { (right.table ≡ ring.now.table) × (2 ≤ right.known.part) }
            ensures { (result.table ≡ ring.entry.now.table) × (result.known.part ≡ right.known.part) }
        { send_by_two(rt, alloc, ring, right, 2) },
    );
    ring.join(&mut left, right);
    left
}

// Whether the tags of this thread are 0 to 999, each once and in this order.
fn are_in_order(tags: &[u64], number: u64) -> bool {
    let mut next: u64 = 0;
    for tag in tags {
        if *tag / 10_000 == number {
            if *tag % 10_000 != next {
                return false;
            }
            next = next.saturating_add(1);
        }
    }
    next == 1_000
}

#[test]
fn four_threads_send(rt: HostRuntime) -> Result<(), Fail> {
    let alloc = rt.alloc();
    let tags = Vec::with_capacity(alloc, 5_000)?;
    let Ok((ring, seat)) = Ring::new(alloc, 4, Recorder { tags }) else {
        panic!(rt; "no ring was made")
    };
    let mut seat = send_by_four(&rt, alloc, &ring, seat);
    assert_eq!(rt; seat.part(), 1_048_576);
    assert_eq!(rt; seat.tally().enqueues, 4_000);
    ring.check_drainage(&rt, &mut seat, 65_535);
    let (closed, drainer) = ring.close(seat);
    assert!(rt; closed.left().is_empty());
    assert_eq!(rt; drainer.tags.len(), 4_000);
    for number in 0..4 {
        assert!(rt;
            are_in_order(drainer.tags.as_slice(), number),
            "thread {number}"
        );
    }
    Ok(())
}
