//! From the last frame to a ring at rest.
ghost use Rattle.std.specs.Prelude.{◌≡◌, ◌+◌, ◌≤◌, [], length, vec_capacity};
ghost use Rattle.std.specs.VecDeque.{deque_capacity};
ghost use Rattle.ifl_line.specs.Hands.{AreOf, AreSeats, AreFresh};
ghost use Rattle.ifl_line.specs.Sent.{IsSent};
ghost use Rattle.ifl_line.specs.Steps.{OnlyKicks, Stepped};
ghost use Rattle.ifl_line.specs.Works.{AreDone, ended_in, files_in, tasks_of, turned_in, ring_parts, turn_parts, pass_parts};
ghost use Rattle.ifl_reset.specs.Quiet.{IsQuiet};
ghost use Rattle.ifl_ring.specs.Seats.{events};
ghost use Rattle.ifl_ringcore.specs.History.{state_after};
ghost use Rattle.ifl_ringcore.specs.State.{first_state};

use crate::gathering::{Ended, gather};
use crate::hands::{Hands, Seats};
use crate::jobs::Job;
use crate::line::Line;
use ifl_desc::DescRing;
use ifl_outside::Gate;
use ifl_reset::quiesce;
use ifl_txq::Item;
use std::collections::VecDeque;
use std::sync::Wait;

// Serves and consumes until the ring is at rest.
fn rest<'a, R: DescRing, W: Wait, G: Gate>(
    rt: &W,
    line: &Line<'a, R>,
    seats: &mut Seats<'a, R>,
    kick: &mut VecDeque<Item>,
    gate: &G,
)
    requires own { AreSeats line.now seats.old }
    requires kick { (kick.old.items ≡ []) × (1 ≤ deque_capacity kick.old) }
    ensures own { AreSeats line.now seats.new }
    ensures part { seats.new.turn.part ≡ seats.old.turn.part }
    ensures only { (es : _) × Stepped seats.old.ring.known es seats.new.ring.known × OnlyKicks es }
    ensures quiet { IsQuiet (state_after first_state seats.new.ring.known.seen) }
{
    quiesce(
        rt,
        &line.ring,
        &mut seats.ring,
        &line.turnstile,
        &mut seats.turn,
        line.rules.turn_frames,
        kick,
        gate,
    );
}

/// Takes the hands of all jobs in, once they have ended, and serves and consumes until the ring is at rest. It takes no
/// memory: what the senders leave, in order, lies in the empty `Vec` that is given.
pub(crate) fn settle<'l, 'a, R: DescRing, W: Wait, G: Gate>(
    rt: &W,
    line: &Line<'a, R>,
    hands: &mut Hands<'a, R>,
    jobs: &mut [Job<'l, 'a, R>],
    kick: &mut VecDeque<Item>,
    room: Vec<Ended>,
    gate: &G,
) -> Vec<Ended>
    requires own { AreOf line.now hands.old }
    requires fresh { AreFresh hands.old }
    requires done { AreDone line.now 0 (tasks_of jobs.old) }
    requires kick { (kick.old.items ≡ []) × (1 ≤ deque_capacity kick.old) }
    requires room { (room.items ≡ []) × (length jobs.old ≤ vec_capacity room) }
    ensures own { AreOf line.now hands.new }
    ensures ring { hands.new.seats.ring.known.part ≡ hands.old.seats.ring.known.part + ring_parts (tasks_of jobs.old) }
    ensures turn { hands.new.seats.turn.part ≡ hands.old.seats.turn.part + turn_parts (tasks_of jobs.old) }
    ensures pass { hands.new.pass.known.part ≡ hands.old.pass.known.part + pass_parts (tasks_of jobs.old) }
    ensures ended { result.items ≡ ended_in (tasks_of jobs.old) }
    ensures sent { IsSent line.now.ring.size line.now.rules 0 (files_in result.items) (turned_in result.items) (events hands.new.seats.ring.known) hands.new.pass.known.counts }
    ensures quiet { IsQuiet (state_after first_state hands.new.seats.ring.known.seen) }
{
    let ended = gather(line, hands, jobs, room);
    rest(rt, line, &mut hands.seats, kick, gate);
    ended
}
