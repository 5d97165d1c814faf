//! How a ring comes to rest.
ghost use Rattle.std.specs.Prelude.{◌≡◌, ◌≤◌, [], false};
ghost use Rattle.std.specs.VecDeque.{deque_capacity};
ghost use Rattle.ifl_txq.specs.Items.{meaning_of};
ghost use Rattle.ifl_txq.specs.declared.item.Item.TheVariants.{Kick};
ghost use Rattle.ifl_reset.specs.Quiet.{IsQuieted};

use crate::turns::serve;
use ifl_base::{Flag, TX_BUDGET};
use ifl_desc::{DescRing, TurnSeat, Turnstile};
use ifl_device::TxEngine;
use ifl_outside::Gate;
use ifl_ring::{Ring, Seat};
use ifl_txq::{Item, Txq};
use std::collections::VecDeque;
use std::sync::Wait;

/// The number that quiescing gives at the gate.
const QUIESCE_WHO: u16 = 65_535;

/// Serves, checks drainage and enqueues kicks until it sees a word that is idle and whose head is its tail.
///
/// `kick` is empty and has room for one item, before and after. It may wait for ever, as long as others publish.
pub fn quiesce<'a, 'b, R: DescRing, G: Gate, W: Wait>(
    rt: &W,
    ring: &Ring<Txq<'b, R>>,
    seat: &mut Seat<Txq<'b, R>>,
    t: &Turnstile<TxEngine<'a, R>>,
    turn: &mut TurnSeat<TxEngine<'a, R>>,
    frames: u32,
    kick: &mut VecDeque<Item>,
    gate: &G,
)
    requires ring { seat.old.table ≡ ring.now.table }
    requires turn { (turn.old.turnstile ≡ t.now) × (turn.old.held ≡ false) }
    requires frames { 1 ≤ frames }
    requires kick { (kick.old.items ≡ []) × (1 ≤ deque_capacity kick.old) }
    ensures ring { seat.new.table ≡ seat.old.table }
    ensures did { IsQuieted (meaning_of Kick) ring.now.size seat.old.known seat.new.known }
    ensures turn { (turn.new.turnstile ≡ turn.old.turnstile) × (turn.new.part ≡ turn.old.part) × (turn.new.held ≡ false) }
    ensures kick { (kick.new.items ≡ []) × (deque_capacity kick.old ≤ deque_capacity kick.new) }
{
    for _ in rt.forever() {
        let word = ring.look(seat);
        if word.flag == Flag::Idle && word.head == word.tail {
            return;
        }
        serve(t, turn, frames);
        ring.check_drainage(rt, seat, TX_BUDGET);
        kick.push_back_reserved(Item::Kick);
        ring.enqueue(rt, seat, QUIESCE_WHO, kick, TX_BUDGET, false, gate);
        kick.clear();
    }
}
