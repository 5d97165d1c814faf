//! What the ring carries, and who takes it out.
ghost use Rattle.std.specs.Prelude.{◌≡◌, ◌≤◌, List, ◌++◌, map, take, drop, length};
ghost use Rattle.std.specs.VecDeque.{deque_capacity};
ghost use Rattle.ifl_ringcore.specs.declared.history.Meaning.{Meaning};

use ifl_ringcore::Meaning;
use std::collections::VecDeque;
use std::sync::Wait;

/// What a ring carries. A thread may hand it to another.
pub trait RingItem: Send + Drop {
    /// What it means: a tag, bytes, marks and a weight, which the history records where it is published.
    ghost meaning: { Self → Meaning };

    /// The tag of its meaning.
    fn tag(&self) -> u64
        ensures { result ≡ (meaning self.now).tag };
}

/// What consumes the items of a ring. Whoever is the consumer has it; else it lies in the ring.
pub trait Drainer: Send + Drop {
    /// What it consumes.
    type Item: RingItem;

    /// With what it was made.
    type Origin;

    /// With what it was made, which no call changes.
    ghost origin: { Self → Self.Origin };

    /// It has taken just items of these meanings, in this order.
    ghost stands_for: { Self → List Meaning → Type 0 };

    /// Nothing that it took waits for a doorbell.
    ghost settled: { Self → Type 0 };

    /// It could take no item when it was last asked.
    ghost full: { Self → Type 0 };

    /// Takes the first items out of a batch of 1 to 32, and answers how many; 0 only where it is full. The others stay
    /// in the batch, whose room never falls.
    fn drain<R: Wait>(&mut self, rt: &R, batch: &mut VecDeque<Self::Item>) -> u32
        requires settled { settled self.old }
        requires some { (1 ≤ length batch.old.items) × (length batch.old.items ≤ 32) }
        ensures count { result ≤ length batch.old.items }
        ensures left { batch.new.items ≡ drop result batch.old.items }
        ensures stands { (ms : List Meaning) → stands_for self.old ms → stands_for self.new (ms ++ map Self.Item.meaning (take result batch.old.items)) }
        ensures settled { settled self.new }
        ensures origin { origin self.new ≡ origin self.old }
        ensures room { deque_capacity batch.old ≤ deque_capacity batch.new }
        ensures full { result ≡ 0 → full self.new };
}
