//! All jobs of a line, from the first frame to a ring at rest.
ghost use Rattle.std.specs.Prelude.{◌≡◌, ◌+◌, ◌≤◌, [], length, vec_capacity};
ghost use Rattle.std.specs.VecDeque.{deque_capacity};
ghost use Rattle.ifl_line.specs.Hands.{AreOf, AreFresh};
ghost use Rattle.ifl_line.specs.Sent.{IsSent};
ghost use Rattle.ifl_line.specs.Works.{AreAt, AreSet, captures_in, captures_of, files_in, tasks_of, turned_in, ring_parts, turn_parts, pass_parts};
ghost use Rattle.ifl_reset.specs.Quiet.{IsQuiet};
ghost use Rattle.ifl_ring.specs.Seats.{events};
ghost use Rattle.ifl_ringcore.specs.History.{state_after};
ghost use Rattle.ifl_ringcore.specs.State.{first_state};

use crate::gathering::Ended;
use crate::hands::Hands;
use crate::jobs::{Job, run_jobs};
use crate::line::Line;
use crate::settling::settle;
use ifl_desc::DescRing;
use ifl_outside::Gate;
use ifl_txq::Item;
use std::collections::VecDeque;
use std::sync::Wait;
use std::thread::Threads;

/// Runs all jobs, each in a thread of its own where one can be made, takes their hands in once they have ended, and
/// serves and consumes until the ring is at rest. It takes no memory: what the senders leave, in order, lies in the
/// empty `Vec` that is given.
pub fn transmit<'l, 'a, R: DescRing, T: Threads + Wait + Sync, G: Gate>(
    rt: &T,
    line: &Line<'a, R>,
    hands: &mut Hands<'a, R>,
    jobs: &mut [Job<'l, 'a, R>],
    kick: &mut VecDeque<Item>,
    room: Vec<Ended>,
    gate: &G,
) -> Vec<Ended>
    requires own { AreOf line.now hands.old }
    requires fresh { AreFresh hands.old }
    requires jobs { AreAt line.now jobs.old × AreSet line.now 0 (tasks_of jobs.old) }
    requires kick { (kick.old.items ≡ []) × (1 ≤ deque_capacity kick.old) }
    requires room { (room.items ≡ []) × (length jobs.old ≤ vec_capacity room) }
    ensures own { AreOf line.now hands.new }
    ensures ring { hands.new.seats.ring.known.part ≡ hands.old.seats.ring.known.part + ring_parts (tasks_of jobs.old) }
    ensures turn { hands.new.seats.turn.part ≡ hands.old.seats.turn.part + turn_parts (tasks_of jobs.old) }
    ensures pass { hands.new.pass.known.part ≡ hands.old.pass.known.part + pass_parts (tasks_of jobs.old) }
    ensures captures { captures_of result.items ≡ captures_in (tasks_of jobs.old) }
    ensures sent { IsSent line.now.ring.size line.now.rules 0 (files_in result.items) (turned_in result.items) (events hands.new.seats.ring.known) hands.new.pass.known.counts }
    ensures quiet { IsQuiet (state_after first_state hands.new.seats.ring.known.seen) }
{
    run_jobs(rt, gate, jobs);
    settle(rt, line, hands, jobs, kick, room, gate)
}
