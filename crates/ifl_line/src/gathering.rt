//! The hands of all jobs, as one.
ghost use Rattle.std.specs.Prelude.{◌≡◌, ◌+◌, ◌<◌, ◌≤◌, [], ◌∷◌, ◌++◌, length, vec_len, vec_capacity};
ghost use Rattle.ifl_line.specs.Hands.{AreOf, AreFresh};
ghost use Rattle.ifl_line.specs.Sent.{IsSent};
ghost use Rattle.ifl_line.specs.Works.{AreDone, ended_in, files_in, turned_in, tasks_of, ring_parts, turn_parts, pass_parts};
ghost use Rattle.ifl_ring.specs.Seats.{events};

use crate::away_line::AwayLine;
use crate::hands::Hands;
use crate::jobs::{Job, Task};
use crate::line::Line;
use ifl_desc::DescRing;
use ifl_pcap::Capture;
use std::mem::replace;

/// What a sender leaves.
#[derive(Drop)]
pub struct Ended {
    /// Its capture, as it was.
    pub capture: Capture,
    /// The frames that were turned away, in the order of the capture.
    pub away: Vec<AwayLine>,
}

// Takes the hands of one more task in.
fn take_in<'a, R: DescRing>(
    line: &Line<'a, R>,
    hands: &mut Hands<'a, R>,
    ended: &mut Vec<Ended>,
    task: Task<'a, R>,
)
    requires own { AreOf line.now hands.old }
    requires sent { IsSent line.now.ring.size line.now.rules 0 (files_in ended.old.items) (turned_in ended.old.items) (events hands.old.seats.ring.known) hands.old.pass.known.counts }
    requires done { AreDone line.now (length ended.old.items) (task ∷ []) }
    requires room { vec_len ended.old < vec_capacity ended.old }
    ensures own { AreOf line.now hands.new }
    ensures sent { IsSent line.now.ring.size line.now.rules 0 (files_in ended.new.items) (turned_in ended.new.items) (events hands.new.seats.ring.known) hands.new.pass.known.counts }
    ensures ended { ended.new.items ≡ ended.old.items ++ ended_in (task.entry ∷ []) }
    ensures ring { hands.new.seats.ring.known.part ≡ hands.old.seats.ring.known.part + ring_parts (task.entry ∷ []) }
    ensures turn { hands.new.seats.turn.part ≡ hands.old.seats.turn.part + turn_parts (task.entry ∷ []) }
    ensures pass { hands.new.pass.known.part ≡ hands.old.pass.known.part + pass_parts (task.entry ∷ []) }
    ensures room { (vec_capacity ended.new ≡ vec_capacity ended.old) × (vec_len ended.new ≤ vec_len ended.old + 1) }
{
    match task {
        Task::Work(worker) => hands.seats.join(line, worker.seats),
        Task::Send(runner) => {
            hands.join(line, runner.hands);
            ended.push_reserved(Ended {
                capture: runner.capture,
                away: runner.sender.away,
            });
        }
        Task::Done => {}
    }
}

/// Takes the hands of all jobs in, and answers what the senders leave, in order, in the empty `Vec` that is given.
pub(crate) fn gather<'l, 'a, R: DescRing>(
    line: &Line<'a, R>,
    hands: &mut Hands<'a, R>,
    jobs: &mut [Job<'l, 'a, R>],
    ended: Vec<Ended>,
) -> Vec<Ended>
    requires own { AreOf line.now hands.old }
    requires fresh { AreFresh hands.old }
    requires done { AreDone line.now 0 (tasks_of jobs.old) }
    requires room { (ended.items ≡ []) × (length jobs.old ≤ vec_capacity ended) }
    ensures own { AreOf line.now hands.new }
    ensures sent { IsSent line.now.ring.size line.now.rules 0 (files_in result.items) (turned_in result.items) (events hands.new.seats.ring.known) hands.new.pass.known.counts }
    ensures ended { result.items ≡ ended_in (tasks_of jobs.old) }
    ensures ring { hands.new.seats.ring.known.part ≡ hands.old.seats.ring.known.part + ring_parts (tasks_of jobs.old) }
    ensures turn { hands.new.seats.turn.part ≡ hands.old.seats.turn.part + turn_parts (tasks_of jobs.old) }
    ensures pass { hands.new.pass.known.part ≡ hands.old.pass.known.part + pass_parts (tasks_of jobs.old) }
{
    let mut ended = ended;
    for index in 0..jobs.len() {
        let task = replace(&mut jobs[index].task, Task::Done);
        take_in(line, hands, &mut ended, task);
    }
    ended
}
