//! One item for the ring.
ghost use Rattle.std.specs.Prelude.{◌≡◌, ◌≤◌, true, false, [], length, map, MatchOption, IfSome};
ghost use Rattle.std.specs.VecDeque.{deque_capacity};
ghost use Rattle.ifl_txq.specs.Items.{meaning_of};
ghost use Rattle.ifl_line.specs.declared.rules.Policy.TheVariants.{Drop};
ghost use Rattle.ifl_line.specs.Hands.{AreSeats};
ghost use Rattle.ifl_line.specs.Steps.{IsOffered, OnlyKicks, Stepped, refusal_of};

use crate::hands::Seats;
use crate::line::Line;
use ifl_base::{RingWord, TX_BUDGET};
use ifl_desc::DescRing;
use ifl_device::Turn;
use ifl_outside::Gate;
use ifl_reset::{Served, serve};
use ifl_ring::{Enqueued, Ring, Seat};
use ifl_txq::{Item, Txq};
use std::collections::VecDeque;
use std::sync::Wait;

// The word in which items were refused.
fn refusal(got: Enqueued) -> Option<RingWord>
    ensures { result ≡ refusal_of got }
{
    match got {
        Enqueued::NoBuffers { seen } => Some(seen),
        Enqueued::Behind => None,
        Enqueued::Abdicated => None,
        Enqueued::Drained { left: _, total: _ } => None,
    }
}

/// Offers one item to the ring, and answers the word in which there was no room for it.
pub(crate) fn offer<'a, R: DescRing, W: Wait, G: Gate>(
    rt: &W,
    ring: &Ring<Txq<'a, R>>,
    seat: &mut Seat<Txq<'a, R>>,
    who: u16,
    items: &mut VecDeque<Item>,
    budget: u32,
    abdicate: bool,
    gate: &G,
) -> Option<RingWord>
    requires own { seat.old.table ≡ ring.now.table }
    requires one { length items.old.items ≡ 1 }
    requires budget { budget ≤ 65535 }
    ensures own { seat.new.table ≡ ring.now.table }
    ensures offered { (es : _) × Stepped seat.old.known es seat.new.known × IsOffered ring.now.size budget abdicate (map meaning_of items.old.items) result es }
    ensures items { MatchOption result (items.new.items ≡ []) (λ _. items.new.items ≡ items.old.items) }
    ensures room { deque_capacity items.old ≤ deque_capacity items.new }
{
    refusal(ring.enqueue(rt, seat, who, items, budget, abdicate, gate))
}

// Offers one item, and where it is refused, consumes what a consumer left.
fn offer_and_check<'a, R: DescRing, W: Wait, G: Gate>(
    rt: &W,
    ring: &Ring<Txq<'a, R>>,
    seat: &mut Seat<Txq<'a, R>>,
    who: u16,
    items: &mut VecDeque<Item>,
    budget: u32,
    abdicate: bool,
    gate: &G,
) -> Option<RingWord>
    requires own { seat.old.table ≡ ring.now.table }
    requires one { length items.old.items ≡ 1 }
    requires budget { budget ≤ 65535 }
    ensures own { seat.new.table ≡ ring.now.table }
    ensures offered { (es : _) × Stepped seat.old.known es seat.new.known × IsOffered ring.now.size budget abdicate (map meaning_of items.old.items) result es }
    ensures items { MatchOption result (items.new.items ≡ []) (λ _. items.new.items ≡ items.old.items) }
    ensures room { deque_capacity items.old ≤ deque_capacity items.new }
{
    let seen = offer(rt, ring, seat, who, items, budget, abdicate, gate)?;
    ring.check_drainage(rt, seat, TX_BUDGET);
    Some(seen)
}

// Whether a try to serve moved a frame.
fn moved(served: Served) -> bool {
    match served {
        Served::Taken(_) => false,
        Served::Turned(Turn::Moved(_)) => true,
        Served::Turned(Turn::Flushed(_)) => true,
        Served::Turned(_) => false,
        Served::Reset(_) => true,
    }
}

// Gives the adapter one turn, and answers whether that moved a frame.
fn attend<'a, R: DescRing>(line: &Line<'a, R>, seats: &mut Seats<'a, R>) -> bool
    requires own { AreSeats line.now seats.old }
    ensures own { AreSeats line.now seats.new }
    ensures ring { seats.new.ring ≡ seats.old.ring }
    ensures part { seats.new.turn.part ≡ seats.old.turn.part }
{
    moved(serve(&line.turnstile, &mut seats.turn, line.rules.turn_frames))
}

/// Publishes the packet that lies in `items`. Where frames are dropped and there was no room for it, the packet stays
/// there, and the answer is the word that was seen.
pub(crate) fn publish<'a, R: DescRing, W: Wait, G: Gate>(
    rt: &W,
    line: &Line<'a, R>,
    seats: &mut Seats<'a, R>,
    who: u16,
    items: &mut VecDeque<Item>,
    gate: &G,
) -> Option<RingWord>
    requires own { AreSeats line.now seats.old }
    requires one { length items.old.items ≡ 1 }
    ensures own { AreSeats line.now seats.new }
    ensures part { seats.new.turn.part ≡ seats.old.turn.part }
    ensures offered { (es : _) × Stepped seats.old.ring.known es seats.new.ring.known × IsOffered line.now.ring.size line.now.rules.budget line.now.rules.abdicate (map meaning_of items.old.items) result es }
    ensures dropped { IfSome result (λ _. line.now.rules.policy ≡ Drop) }
    ensures items { MatchOption result (items.new.items ≡ []) (λ _. items.new.items ≡ items.old.items) }
    ensures room { deque_capacity items.old ≤ deque_capacity items.new }
{
    let budget = line.rules.budget;
    let abdicate = line.rules.abdicate;
    for _ in rt.forever() {
        let ring = &line.ring;
        match offer_and_check(
            rt,
            ring,
            &mut seats.ring,
            who,
            items,
            budget,
            abdicate,
            gate,
        ) {
            None => return None,
            Some(seen) => {
                if line.rules.drops() {
                    return Some(seen);
                }
                attend(line, seats);
            }
        }
    }
    unreachable!()
}

/// Makes whoever has to consume do so: a kick. One for which there is no room is forgotten.
pub(crate) fn kick<'a, R: DescRing, W: Wait, G: Gate>(
    rt: &W,
    ring: &Ring<Txq<'a, R>>,
    seat: &mut Seat<Txq<'a, R>>,
    who: u16,
    items: &mut VecDeque<Item>,
    gate: &G,
)
    requires own { seat.old.table ≡ ring.now.table }
    requires ready { (items.old.items ≡ []) × (1 ≤ deque_capacity items.old) }
    ensures own { seat.new.table ≡ ring.now.table }
    ensures only { (es : _) × Stepped seat.old.known es seat.new.known × OnlyKicks es }
    ensures ready { (items.new.items ≡ []) × (1 ≤ deque_capacity items.new) }
{
    items.push_back_reserved(Item::Kick);
    if offer(rt, ring, seat, who, items, TX_BUDGET, false, gate).is_some() {
        items.clear();
    }
}

/// What a thread does that waits: it serves the adapter, consumes what a consumer left, and makes whoever has to
/// consume do so. It answers whether the adapter moved a frame.
pub(crate) fn tend<'a, R: DescRing, W: Wait, G: Gate>(
    rt: &W,
    line: &Line<'a, R>,
    seats: &mut Seats<'a, R>,
    who: u16,
    items: &mut VecDeque<Item>,
    gate: &G,
) -> bool
    requires own { AreSeats line.now seats.old }
    requires ready { (items.old.items ≡ []) × (1 ≤ deque_capacity items.old) }
    ensures own { AreSeats line.now seats.new }
    ensures part { seats.new.turn.part ≡ seats.old.turn.part }
    ensures only { (es : _) × Stepped seats.old.ring.known es seats.new.ring.known × OnlyKicks es }
    ensures ready { (items.new.items ≡ []) × (1 ≤ deque_capacity items.new) }
{
    let moved = attend(line, seats);
    line.ring.check_drainage(rt, &mut seats.ring, TX_BUDGET);
    kick(rt, &line.ring, &mut seats.ring, who, items, gate);
    moved
}
