//! The frames of one sender.
ghost use Rattle.std.specs.Prelude.{◌≡◌, ◌+◌, ◌<◌, ◌≤◌, ◌∷◌, ◌++◌, [], length, vec_len, vec_capacity, MatchOption};
ghost use Rattle.std.specs.VecDeque.{deque_capacity};
ghost use Rattle.ifl_txq.specs.Items.{meaning_of};
ghost use Rattle.ifl_txq.specs.declared.item.Item.TheVariants.{Packet as Wrapped};
ghost use Rattle.ifl_line.specs.declared.rules.Policy.TheVariants.{Drop};
ghost use Rattle.ifl_line.specs.Frames.{IsFit, judged_of, line_of};
ghost use Rattle.ifl_line.specs.Hands.{AreOf};
ghost use Rattle.ifl_line.specs.Needs.{clusters_needed};
ghost use Rattle.ifl_line.specs.Obtains.{IsObtained};
ghost use Rattle.ifl_line.specs.Ready.{IsReady};
ghost use Rattle.ifl_line.specs.Sent.{Handled, Rises};
ghost use Rattle.ifl_line.specs.Steps.{IsOffered, OnlyKicks, Stepped};

use crate::away_line::AwayLine;
use crate::building::{build, give_back};
use crate::hands::Hands;
use crate::line::Line;
use crate::offering::{publish, tend};
use crate::rules::Rules;
use crate::sender::Sender;
use ifl_base::{Away, Judged, MAX_FRAME, RingWord, Ticket, verdict};
use ifl_desc::DescRing;
use ifl_mbuf::{Chain, Packet};
use ifl_outside::Gate;
use ifl_pcap::{Capture, Frame};
use ifl_txq::Item;
use std::collections::VecDeque;
use std::sync::Wait;

// Builds the chain of a frame, as often as that is tried. Where frames are dropped, it is tried once.
fn obtain<'a, R: DescRing, W: Wait, G: Gate>(
    rt: &W,
    line: &Line<'a, R>,
    hands: &mut Hands<'a, R>,
    who: u16,
    bytes: &[u8],
    items: &mut VecDeque<Item>,
    gate: &G,
) -> Option<Chain>
    requires own { AreOf line.now hands.old }
    requires fits { clusters_needed line.now.rules.seg_bytes (length bytes.now) ≤ 64 }
    requires ready { (items.old.items ≡ []) × (1 ≤ deque_capacity items.old) }
    ensures own { AreOf line.now hands.new }
    ensures part { hands.new.seats.turn.part ≡ hands.old.seats.turn.part }
    ensures only { (es : _) × Stepped hands.old.seats.ring.known es hands.new.seats.ring.known × OnlyKicks es }
    ensures obtained { IsObtained line.now.rules bytes.now result hands.old.pass.known hands.new.pass.known }
    ensures ready { (items.new.items ≡ []) × (1 ≤ deque_capacity items.new) }
{
    let seg_bytes = line.rules.seg_bytes;
    for _ in rt.forever() {
        match build(rt, line.pool, &mut hands.pass, bytes, seg_bytes) {
            Some(chain) => return Some(chain),
            None => {
                if line.rules.drops() {
                    return None;
                }
                tend(rt, line, &mut hands.seats, who, items, gate);
            }
        }
    }
    unreachable!()
}

// Turns one frame away.
fn turn_away(sender: &mut Sender, index: u32, away: Away)
    requires room { vec_len sender.old.away < vec_capacity sender.old.away }
    ensures line { sender.new.away.items ≡ sender.old.away.items ++ line_of sender.old.number index away ∷ [] }
    ensures room { vec_capacity sender.new.away ≡ vec_capacity sender.old.away }
    ensures same { (sender.new.number ≡ sender.old.number) × (sender.new.items ≡ sender.old.items) }
    ensures more { vec_len sender.new.away ≡ vec_len sender.old.away + 1 }
{
    let ticket = Ticket {
        sender: sender.number,
        index,
    };
    sender.away.push_reserved(AwayLine { ticket, away });
}

// Publishes a packet, or gives its clusters back and answers the word in which there was no room for it.
fn publish_chain<'a, R: DescRing, W: Wait, G: Gate>(
    rt: &W,
    line: &Line<'a, R>,
    hands: &mut Hands<'a, R>,
    sender: &mut Sender,
    packet: Packet,
    gate: &G,
) -> Option<RingWord>
    requires own { AreOf line.now hands.old }
    requires ready { (sender.old.items.items ≡ []) × (1 ≤ deque_capacity sender.old.items) }
    ensures own { AreOf line.now hands.new }
    ensures part { hands.new.seats.turn.part ≡ hands.old.seats.turn.part }
    ensures offered { (es : _) × Stepped hands.old.seats.ring.known es hands.new.seats.ring.known × IsOffered line.now.ring.size line.now.rules.budget line.now.rules.abdicate (meaning_of (Wrapped packet) ∷ []) result es }
    ensures clusters { MatchOption result (Rises 0 0 0 hands.old.pass.known hands.new.pass.known)
        (λ _. (line.now.rules.policy ≡ Drop) × Rises 0 (length packet.chain) 0 hands.old.pass.known hands.new.pass.known) }
    ensures ready { (sender.new.items.items ≡ []) × (1 ≤ deque_capacity sender.new.items) }
    ensures same { (sender.new.number ≡ sender.old.number) × (sender.new.away ≡ sender.old.away) }
    ensures lines { sender.new.away.items ≡ sender.old.away.items }
    ensures long { vec_len sender.new.away ≡ vec_len sender.old.away }
{
    sender.items.push_back_reserved(Item::Packet(packet));
    let who = sender.number;
    let seen = publish(rt, line, &mut hands.seats, who, &mut sender.items, gate)?;
    let Some(Item::Packet(packet)) = sender.items.pop_front() else {
        unreachable!()
    };
    let (_, _, chain) = packet.into_parts();
    give_back(rt, line.pool, &mut hands.pass, chain);
    Some(seen)
}

// Sends a fit frame, or turns it away.
fn send_fit<'a, R: DescRing, W: Wait, G: Gate>(
    rt: &W,
    line: &Line<'a, R>,
    hands: &mut Hands<'a, R>,
    sender: &mut Sender,
    index: u32,
    frame: &Frame<'_>,
    gate: &G,
)
    requires own { AreOf line.now hands.old }
    requires fit { IsFit line.now.rules frame.now }
    requires ready { (sender.old.items.items ≡ []) × (1 ≤ deque_capacity sender.old.items) }
    requires room { vec_len sender.old.away < vec_capacity sender.old.away }
    ensures own { AreOf line.now hands.new }
    ensures part { hands.new.seats.turn.part ≡ hands.old.seats.turn.part }
    ensures handled { Handled line.now.ring.size line.now.rules sender.old.number index (frame.now ∷ []) hands.old.seats.ring.known hands.old.pass.known sender.old.away.items hands.new.seats.ring.known hands.new.pass.known sender.new.away.items }
    ensures ready { (sender.new.items.items ≡ []) × (1 ≤ deque_capacity sender.new.items) }
    ensures room { vec_capacity sender.new.away ≡ vec_capacity sender.old.away }
    ensures number { sender.new.number ≡ sender.old.number }
    ensures more { vec_len sender.new.away ≤ vec_len sender.old.away + 1 }
{
    let who = sender.number;
    let bytes = frame.bytes();
    let stamp = frame.stamp();
    match obtain(rt, line, hands, who, bytes, &mut sender.items, gate) {
        None => turn_away(sender, index, Away::NoClusters),
        Some(chain) => {
            let ticket = Ticket { sender: who, index };
            let packet = Packet::new(ticket, stamp, chain);
            match publish_chain(rt, line, hands, sender, packet, gate) {
                None => {}
                Some(seen) => turn_away(sender, index, Away::NoBuffers(seen)),
            }
        }
    }
}

// What a frame is by its length.
fn judge(frame: &Frame<'_>, rules: &Rules) -> Judged
    ensures { result ≡ judged_of rules.now frame.now }
{
    let len = frame.len().min(MAX_FRAME as usize + 1);
    verdict(len as u32, rules.max_frame)
}

// Handles one frame of a sender.
fn send_frame<'a, R: DescRing, W: Wait, G: Gate>(
    rt: &W,
    line: &Line<'a, R>,
    hands: &mut Hands<'a, R>,
    sender: &mut Sender,
    index: u32,
    frame: &Frame<'_>,
    gate: &G,
)
    requires own { AreOf line.now hands.old }
    requires ready { (sender.old.items.items ≡ []) × (1 ≤ deque_capacity sender.old.items) }
    requires room { vec_len sender.old.away < vec_capacity sender.old.away }
    ensures own { AreOf line.now hands.new }
    ensures part { hands.new.seats.turn.part ≡ hands.old.seats.turn.part }
    ensures handled { Handled line.now.ring.size line.now.rules sender.old.number index (frame.now ∷ []) hands.old.seats.ring.known hands.old.pass.known sender.old.away.items hands.new.seats.ring.known hands.new.pass.known sender.new.away.items }
    ensures ready { (sender.new.items.items ≡ []) × (1 ≤ deque_capacity sender.new.items) }
    ensures room { vec_capacity sender.new.away ≡ vec_capacity sender.old.away }
    ensures number { sender.new.number ≡ sender.old.number }
    ensures more { vec_len sender.new.away ≤ vec_len sender.old.away + 1 }
{
    match judge(frame, &line.rules) {
        Judged::Runt => turn_away(sender, index, Away::Runt),
        Judged::Oversize => turn_away(sender, index, Away::Oversize),
        Judged::Fit => send_fit(rt, line, hands, sender, index, frame, gate),
    }
}

/// Handles all frames of a sender in order.
pub(crate) fn send<'a, R: DescRing, W: Wait, G: Gate>(
    rt: &W,
    line: &Line<'a, R>,
    hands: &mut Hands<'a, R>,
    sender: &mut Sender,
    capture: &Capture,
    gate: &G,
)
    requires own { AreOf line.now hands.old }
    requires ready { IsReady capture.now.frames sender.old }
    ensures own { AreOf line.now hands.new }
    ensures part { hands.new.seats.turn.part ≡ hands.old.seats.turn.part }
    ensures handled { Handled line.now.ring.size line.now.rules sender.old.number 0 capture.now.frames hands.old.seats.ring.known hands.old.pass.known [] hands.new.seats.ring.known hands.new.pass.known sender.new.away.items }
    ensures number { sender.new.number ≡ sender.old.number }
{
    for index in 0..capture.len() {
        let frame = capture.frame(index);
        send_frame(rt, line, hands, sender, index as u32, &frame, gate);
    }
}
