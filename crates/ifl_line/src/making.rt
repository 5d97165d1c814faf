//! The jobs of a run, made from its captures.
ghost use Rattle.std.specs.Prelude.{◌≡◌, ◌+◌, ◌≤◌, [], length, vec_capacity, IfOk};
ghost use Rattle.std.specs.VecDeque.{deque_capacity};
ghost use Rattle.ifl_ring.specs.Seats.{events};
ghost use Rattle.ifl_line.specs.Hands.{AreOf, AreFresh};
ghost use Rattle.ifl_line.specs.Jobs.{MayWork};
ghost use Rattle.ifl_line.specs.Loads.{AreLoads, loaded};
ghost use Rattle.ifl_line.specs.Ready.{IsReady};
ghost use Rattle.ifl_line.specs.Runners.{MayStart};
ghost use Rattle.ifl_line.specs.Works.{AreAt, AreFew, AreSet, captures_in, tasks_of, ring_parts, turn_parts, pass_parts};

use crate::hands::Hands;
use crate::jobs::{Job, Task};
use crate::line::Line;
use crate::running::Runner;
use crate::sender::Sender;
use crate::working::Worker;
use ifl_base::NoMemory;
use ifl_desc::DescRing;
use ifl_pcap::Capture;
use ifl_txq::Item;
use std::alloc::Global;
use std::collections::VecDeque;

/// A capture, with the room of its sender.
#[derive(Drop)]
pub struct Load {
    pub(crate) capture: Capture,
    pub(crate) sender: Sender,
}

// A capture with its sender's room: for one item, and for a line for each frame.
fn make_load(alloc: Global, number: u16, capture: Capture) -> Result<Load, NoMemory>
    requires few { length capture.frames ≤ 1000000 }
    ensures ready { IfOk result (λ x. IsReady x.capture.frames x.sender) }
    ensures named { IfOk result (λ x. (x.capture ≡ capture) × (x.sender.number ≡ number)) }
{
    let items = VecDeque::with_capacity(alloc, 1)?;
    let away = Vec::with_capacity(alloc, capture.len())?;
    let sender = Sender {
        number,
        items,
        away,
    };
    Ok(Load { capture, sender })
}

/// Takes the room of a sender for each capture, in order.
pub fn make_loads(alloc: Global, captures: Vec<Capture>) -> Result<Vec<Load>, NoMemory>
    requires captures { (length captures.items ≤ 16) × AreFew captures.items }
    ensures loads { IfOk result (λ loads. AreLoads 0 loads.items) }
    ensures captures { IfOk result (λ loads. loaded loads.items ≡ captures.items) }
{
    let mut loads = Vec::with_capacity(alloc, captures.len())?;
    let mut number = 0;
    for capture in captures {
        let load = make_load(alloc, number, capture)?;
        loads.push_reserved(load);
        number += 1;
    }
    Ok(loads)
}

// The task worker, with half of the hands' parts of the ring and of the turnstile.
fn make_worker<'a, R: DescRing>(
    line: &Line<'a, R>,
    hands: &mut Hands<'a, R>,
    items: VecDeque<Item>,
) -> Worker<'a, R>
    requires own { AreOf line.now hands.old }
    requires fresh { AreFresh hands.old }
    requires part { (2 ≤ hands.old.seats.ring.known.part) × (2 ≤ hands.old.seats.turn.part) }
    requires items { (items.items ≡ []) × (1 ≤ deque_capacity items) }
    ensures own { AreOf line.now hands.new × AreFresh hands.new }
    ensures worker { MayWork line.now result × (events result.seats.ring.known ≡ []) }
    ensures ring { (hands.new.seats.ring.known.part + result.seats.ring.known.part ≡ hands.old.seats.ring.known.part) × (result.seats.ring.known.part ≤ hands.new.seats.ring.known.part) }
    ensures turn { (hands.new.seats.turn.part + result.seats.turn.part ≡ hands.old.seats.turn.part) × (result.seats.turn.part ≤ hands.new.seats.turn.part) }
    ensures pass { hands.new.pass.known.part ≡ hands.old.pass.known.part }
{
    let seats = hands.seats.split(line);
    Worker { seats, items }
}

// A sender with half of the hands' parts.
fn make_runner<'a, R: DescRing>(
    line: &Line<'a, R>,
    hands: &mut Hands<'a, R>,
    load: Load,
) -> Runner<'a, R>
    requires own { AreOf line.now hands.old }
    requires fresh { AreFresh hands.old }
    requires part { (2 ≤ hands.old.seats.ring.known.part) × (2 ≤ hands.old.seats.turn.part) × (2 ≤ hands.old.pass.known.part) }
    requires ready { IsReady load.capture.frames load.sender }
    ensures own { AreOf line.now hands.new × AreFresh hands.new }
    ensures runner { MayStart line.now result }
    ensures named { (result.capture ≡ load.capture) × (result.sender.number ≡ load.sender.number) }
    ensures ring { (hands.new.seats.ring.known.part + result.hands.seats.ring.known.part ≡ hands.old.seats.ring.known.part) × (result.hands.seats.ring.known.part ≤ hands.new.seats.ring.known.part) }
    ensures turn { (hands.new.seats.turn.part + result.hands.seats.turn.part ≡ hands.old.seats.turn.part) × (result.hands.seats.turn.part ≤ hands.new.seats.turn.part) }
    ensures pass { (hands.new.pass.known.part + result.hands.pass.known.part ≡ hands.old.pass.known.part) × (result.hands.pass.known.part ≤ hands.new.pass.known.part) }
{
    let hands = hands.split(line);
    let Load { capture, sender } = load;
    Runner {
        capture,
        sender,
        hands,
    }
}

/// The task worker, with room for a kick, and behind it a sender for each capture, in order, in the empty `Vec` that is
/// given. It takes no memory.
///
/// Each gets half of the parts that the hands had left, so that parts are left for 16 senders. The worker stands first:
/// where no thread can be made, the jobs run from the last to the first, and the senders have then ended before it.
pub fn make_jobs<'l, 'a, R: DescRing>(
    line: &'l Line<'a, R>,
    hands: &mut Hands<'a, R>,
    items: VecDeque<Item>,
    loads: Vec<Load>,
    room: Vec<Job<'l, 'a, R>>,
) -> Vec<Job<'l, 'a, R>>
    requires own { AreOf line.now hands.old }
    requires fresh { AreFresh hands.old }
    requires part { (131072 ≤ hands.old.seats.ring.known.part) × (131072 ≤ hands.old.seats.turn.part) × (65536 ≤ hands.old.pass.known.part) }
    requires items { (items.items ≡ []) × (1 ≤ deque_capacity items) }
    requires loads { (length loads.items ≤ 16) × AreLoads 0 loads.items }
    requires room { (room.items ≡ []) × (length loads.items + 1 ≤ vec_capacity room) }
    ensures own { AreOf line.now hands.new × AreFresh hands.new }
    ensures jobs { AreAt line.now result.items × AreSet line.now 0 (tasks_of result.items) }
    ensures captures { captures_in (tasks_of result.items) ≡ loaded loads.items }
    ensures count { length result.items ≡ length loads.items + 1 }
    ensures ring { hands.new.seats.ring.known.part + ring_parts (tasks_of result.items) ≡ hands.old.seats.ring.known.part }
    ensures turn { hands.new.seats.turn.part + turn_parts (tasks_of result.items) ≡ hands.old.seats.turn.part }
    ensures pass { hands.new.pass.known.part + pass_parts (tasks_of result.items) ≡ hands.old.pass.known.part }
{
    let mut jobs = room;
    let worker = make_worker(line, hands, items);
    jobs.push_reserved(Job {
        line,
        task: Task::Work(worker),
    });
    for load in loads {
        let runner = make_runner(line, hands, load);
        jobs.push_reserved(Job {
            line,
            task: Task::Send(runner),
        });
    }
    jobs
}
