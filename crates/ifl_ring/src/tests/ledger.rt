//! A drainer that stands for just the tags that it has written down, and is full where it has room for no more.
ghost use Rattle.std.specs.Prelude.{◌≡◌, ◌≤◌, ◌++◌, [], ◌∷◌, drop, length, map};
ghost use Rattle.std.specs.Vec.{vec_capacity};
ghost use Rattle.std.specs.VecDeque.{deque_capacity};
ghost use Rattle.ifl_base.specs.declared.limits.TheConstants.{PART};
ghost use Rattle.ifl_base.specs.declared.word.Flag.TheVariants.{Stalled};
ghost use Rattle.ifl_ringcore.specs.State.{first_state};
ghost use Rattle.ifl_ringcore.specs.History.{state_after};

use super::{Number, one};
use crate::{Drainer, Enqueued, Ring, RingItem, Seat};
use ifl_base::{Flag, NoMemory};
use ifl_outside::FreeGate;
use std::alloc::Global;
use std::collections::VecDeque;
use std::sync::Wait;
use std::test::*;

// The tags of the items that it took, in room that was taken when it was made.
#[derive(Drop)]
struct Ledger {
    tags: Vec<u64>,
}

impl Drainer for Ledger {
    type Item = Number;

    type Origin = ();

    ghost origin = { λ d. tt };

    ghost stands_for = { λ d ms. d.tags.items ≡ map (λ m. m.tag) ms };

    ghost settled = { λ d. Unit {0} };

    ghost full = { λ d. vec_capacity d.tags ≡ length d.tags.items };

    fn drain<R: Wait>(&mut self, rt: &R, batch: &mut VecDeque<Number>) -> u32 {
        let _ = rt;
        if self.tags.len() == self.tags.capacity() {
            return 0;
        }
        let Some(item) = batch.pop_front() else {
            unreachable!()
        };
        self.tags.push_reserved(item.tag());
        1
    }
}

// Enqueues one item, which is drained at once where it can be.
fn offer<R: Wait>(
    rt: &R,
    alloc: Global,
    ring: &Ring<Ledger>,
    seat: &mut Seat<Ledger>,
    tag: u64,
) -> Result<Enqueued, NoMemory>
    requires { seat.old.table ≡ ring.now.table }
    ensures own { seat.new.table ≡ seat.old.table }
    ensures part { seat.new.known.part ≡ seat.old.known.part }
{
    let mut items = one(alloc, tag)?;
    Ok(ring.enqueue(rt, seat, 0, &mut items, 32, false, &FreeGate))
}

// Closes the ring. The tags written down and those left are the published ones, in order; where the last word says
// stalled, no more could be written down.
fn ended(ring: Ring<Ledger>, seat: Seat<Ledger>) -> (Vec<u64>, VecDeque<Number>)
    requires own { seat.table ≡ ring.table }
    requires whole { seat.known.part ≡ PART }
    ensures each_once { result.0.items ++ map (λ i. i.tag) result.1.items ≡ map (λ m. m.tag) (state_after first_state seat.known.seen).items }
    ensures full { (state_after first_state seat.known.seen).flag ≡ Stalled → vec_capacity result.0 ≡ length result.0.items }
{
    let (closed, ledger) = ring.close(seat);
    let Ledger { tags } = ledger;
    (tags, closed.into_left())
}

#[test]
fn each_published_tag_is_written_down_or_left(rt: HostRuntime) -> Result<(), Fail> {
    let alloc = rt.alloc();
    let tags = Vec::with_capacity(alloc, 2)?;
    let Ok((ring, mut seat)) = Ring::new(alloc, 8, Ledger { tags }) else {
        panic!(rt; "no ring was made")
    };
    let idle = Enqueued::Drained {
        left: Flag::Idle,
        total: 1,
    };
    let stalled = Enqueued::Drained {
        left: Flag::Stalled,
        total: 0,
    };
    assert_eq!(rt; offer(&rt, alloc, &ring, &mut seat, 11)?, idle);
    assert_eq!(rt; offer(&rt, alloc, &ring, &mut seat, 12)?, idle);
    assert_eq!(rt; offer(&rt, alloc, &ring, &mut seat, 13)?, stalled);
    assert_eq!(rt; offer(&rt, alloc, &ring, &mut seat, 14)?, stalled);
    let (tags, mut left) = ended(ring, seat);
    assert!(rt; tags.as_slice() == [11, 12].as_slice());
    assert!(rt; left.pop_front().is_some_and(|item| item.tag == 13));
    assert!(rt; left.pop_front().is_some_and(|item| item.tag == 14));
    assert!(rt; left.is_empty());
    Ok(())
}
