ghost use Rattle.std.specs.Prelude.{true, ◌≡◌, ◌≤◌, [], drop, length, IfOk};
ghost use Rattle.std.specs.VecDeque.{deque_capacity};

mod gates;
mod ledger;
mod sending;

use super::{Checked, Drainer, Enqueued, Ring, RingFault, RingItem, Seat};
use ifl_base::{Flag, NoMemory, RingWord};
use ifl_outside::FreeGate;
use ifl_ringcore::Counters;
use std::alloc::Global;
use std::collections::VecDeque;
use std::sync::Wait;
use std::test::*;

// An item that is a number.
#[derive(Drop)]
struct Number {
    tag: u64,
}

impl RingItem for Number {
    ghost meaning = { λ s. record { tag = s.tag; bytes = []; marks = []; weight = 0 } };

    fn tag(&self) -> u64 {
        self.tag
    }
}

// A drainer that is told how many items it takes at each call: the first of the numbers at its first call, and
// so on, and all where no number is left.
#[derive(Drop)]
struct Taker {
    takes: [u32; 5],
    calls: usize,
    many: bool,
}

impl Taker {
    fn takes_all() -> Taker
        ensures { result.many ≡ true }
    {
        Taker {
            takes: [0; 5],
            calls: 5,
            many: true,
        }
    }

    fn takes_in_turn(takes: [u32; 5]) -> Taker {
        Taker {
            takes,
            calls: 0,
            many: false,
        }
    }

    fn next(&mut self) -> u32
        ensures { self.new.many ≡ self.old.many }
    {
        if self.calls < 5 {
            let take = self.takes[self.calls];
            self.calls += 1;
            take
        } else {
            32
        }
    }
}

// Takes so many items out, from the front.
fn take_front(batch: &mut VecDeque<Number>, count: usize)
    requires { count ≤ length batch.old.items }
    ensures left { batch.new.items ≡ drop count batch.old.items }
    ensures room { deque_capacity batch.new ≡ deque_capacity batch.old }
{
    for _ in 0..count {
        match batch.pop_front() {
            Some(item) => drop(item),
            None => unreachable!(),
        }
    }
}

fn least(a: u32, b: usize) -> usize
    ensures { result ≤ b }
{
    if (a as usize) < b { a as usize } else { b }
}

impl Drainer for Taker {
    type Item = Number;

    type Origin = bool;

    ghost origin = { λ d. d.many };

    ghost stands_for = { λ d ms. Unit {0} };

    ghost settled = { λ d. Unit {0} };

    ghost full = { λ d. Unit {0} };

    fn drain<R: Wait>(&mut self, rt: &R, batch: &mut VecDeque<Number>) -> u32 {
        let _ = rt;
        let count = least(self.next(), batch.len());
        take_front(batch, count);
        count as u32
    }
}

// One item in a queue of its own.
fn one(alloc: Global, tag: u64) -> Result<VecDeque<Number>, NoMemory>
    ensures { IfOk result (λ q. length q.items ≡ 1) }
{
    let mut items = VecDeque::with_capacity(alloc, 1)?;
    items.push_back_reserved(Number { tag });
    Ok(items)
}

// Enqueues one item.
fn enqueue<R: Wait>(
    rt: &R,
    alloc: Global,
    ring: &Ring<Taker>,
    seat: &mut Seat<Taker>,
    tag: u64,
    abdicate: bool,
) -> Result<Enqueued, NoMemory>
    requires { seat.old.table ≡ ring.now.table }
    ensures { seat.new.table ≡ seat.old.table }
{
    let mut items = one(alloc, tag)?;
    Ok(ring.enqueue(rt, seat, 0, &mut items, 32, abdicate, &FreeGate))
}

fn word(head: u16, tail: u16, cidx: u16, flag: Flag) -> RingWord {
    RingWord {
        head,
        tail,
        cidx,
        flag,
    }
}

#[test]
fn stalls_and_takes_over(rt: HostRuntime) -> Result<(), Fail> {
    let alloc = rt.alloc();
    let Ok((ring, mut seat)) = Ring::new(alloc, 4, Taker::takes_in_turn([1, 0, 0, 0, 2])) else {
        panic!(rt; "no ring was made")
    };
    let answers = [
        Enqueued::Drained {
            left: Flag::Idle,
            total: 1,
        },
        Enqueued::Drained {
            left: Flag::Stalled,
            total: 0,
        },
        Enqueued::Drained {
            left: Flag::Stalled,
            total: 0,
        },
        Enqueued::NoBuffers {
            seen: word(3, 3, 1, Flag::Stalled),
        },
    ];
    for tag in 0..4_usize {
        let answer = enqueue(&rt, alloc, &ring, &mut seat, tag as u64, false)?;
        assert_eq!(rt; answer, answers[tag]);
    }
    let checked = ring.check_drainage(&rt, &mut seat, 32);
    assert_eq!(rt;
        checked,
        Checked::Drained {
            left: Flag::Idle,
            total: 2
        }
    );
    let tally = Counters {
        starts: 2,
        stalls: 1,
        restarts: 1,
        abdications: 0,
        enqueues: 3,
        drops: 1,
    };
    assert_eq!(rt; seat.tally(), tally);
    Ok(())
}

#[test]
fn abdicates_and_is_checked(rt: HostRuntime) -> Result<(), Fail> {
    let alloc = rt.alloc();
    let Ok((ring, mut seat)) = Ring::new(alloc, 4, Taker::takes_all()) else {
        panic!(rt; "no ring was made")
    };
    assert_eq!(rt;
        enqueue(&rt, alloc, &ring, &mut seat, 7, true)?,
        Enqueued::Abdicated
    );
    assert_eq!(rt; ring.look(&mut seat), word(1, 1, 0, Flag::Abdicated));
    let first = ring.check_drainage(&rt, &mut seat, 0);
    assert_eq!(rt;
        first,
        Checked::Drained {
            left: Flag::Idle,
            total: 1
        }
    );
    let second = ring.check_drainage(&rt, &mut seat, 0);
    assert_eq!(rt;
        second,
        Checked::NotNeeded {
            seen: word(1, 1, 1, Flag::Idle)
        }
    );
    let tally = Counters {
        enqueues: 1,
        ..Counters::NOTHING
    };
    assert_eq!(rt; seat.tally(), tally);
    Ok(())
}

#[test]
fn size_of_three_is_refused(rt: HostRuntime) -> Result<(), Fail> {
    match Ring::new(rt.alloc(), 3, Taker::takes_all()) {
        Ok(_) => panic!(rt; "a ring of three places was made"),
        Err((fault, drainer)) => {
            drop(drainer);
            assert_eq!(rt; fault, RingFault::BadSize(3));
        }
    }
    Ok(())
}

// Enqueues one item with a seat that keeps its part.
fn offer<R: Wait>(
    rt: &R,
    alloc: Global,
    ring: &Ring<Taker>,
    seat: &mut Seat<Taker>,
    tag: u64,
) -> Result<Enqueued, NoMemory>
    requires { seat.old.table ≡ ring.now.table }
    ensures own { seat.new.table ≡ seat.old.table }
    ensures part { seat.new.known.part ≡ seat.old.known.part }
{
    let mut items = one(alloc, tag)?;
    Ok(ring.enqueue(rt, seat, 0, &mut items, 32, false, &FreeGate))
}

#[test]
fn closes_with_items_left(rt: HostRuntime) -> Result<(), Fail> {
    let alloc = rt.alloc();
    let Ok((ring, mut seat)) = Ring::new(alloc, 4, Taker::takes_in_turn([1, 0, 0, 0, 0])) else {
        panic!(rt; "no ring was made")
    };
    offer(&rt, alloc, &ring, &mut seat, 1)?;
    offer(&rt, alloc, &ring, &mut seat, 2)?;
    offer(&rt, alloc, &ring, &mut seat, 3)?;
    let (closed, drainer) = ring.close(seat);
    drop(drainer);
    assert_eq!(rt; closed.word(), word(3, 3, 1, Flag::Stalled));
    assert_eq!(rt; closed.left().len(), 2);
    let mut left = closed.into_left();
    assert!(rt; left.pop_front().is_some_and(|item| item.tag == 2));
    assert!(rt; left.pop_front().is_some_and(|item| item.tag == 3));
    Ok(())
}

#[test]
fn tallies_of_joined_seats_are_added(rt: HostRuntime) -> Result<(), Fail> {
    let alloc = rt.alloc();
    let Ok((ring, mut seat)) = Ring::new(alloc, 8, Taker::takes_in_turn([1, 0, 3, 0, 0])) else {
        panic!(rt; "no ring was made")
    };
    let mut other = ring.split(&mut seat);
    enqueue(&rt, alloc, &ring, &mut seat, 1, false)?;
    enqueue(&rt, alloc, &ring, &mut other, 2, false)?;
    enqueue(&rt, alloc, &ring, &mut seat, 3, true)?;
    enqueue(&rt, alloc, &ring, &mut other, 4, false)?;
    let own = Counters {
        starts: 1,
        enqueues: 2,
        ..Counters::NOTHING
    };
    assert_eq!(rt; seat.tally(), own);
    ring.join(&mut seat, other);
    let both = Counters {
        starts: 2,
        stalls: 1,
        restarts: 1,
        abdications: 0,
        enqueues: 4,
        drops: 0,
    };
    assert_eq!(rt; seat.tally(), both);
    Ok(())
}
