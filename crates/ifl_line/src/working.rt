//! The task worker.
ghost use Rattle.std.specs.Prelude.{◌≡◌, ◌<◌, ◌≤◌, []};
ghost use Rattle.std.specs.VecDeque.{deque_capacity};
ghost use Rattle.ifl_line.specs.Hands.{AreSeats};
ghost use Rattle.ifl_line.specs.Steps.{OnlyKicks, Stepped};

use crate::hands::Seats;
use crate::line::Line;
use crate::offering::tend;
use ifl_desc::DescRing;
use ifl_outside::Gate;
use ifl_txq::Item;
use std::collections::VecDeque;
use std::sync::Wait;
use std::sync::atomic::Ordering;

/// The number that the worker gives at the gate.
const WORKER_WHO: u16 = 65_535;

/// The turns in a row that may move nothing before the worker ends.
const IDLE_MAX: u32 = 1_000_000;

// How many turns in a row moved nothing.
fn idle_after(idle: u32, moved: bool) -> u32
    requires { idle < 1000000 }
    ensures { result ≤ 1000000 }
{
    if moved { 0 } else { idle + 1 }
}

/// The task worker's seats, and its room for a kick.
#[derive(Drop)]
pub struct Worker<'a, R: DescRing> {
    pub(crate) seats: Seats<'a, R>,
    pub(crate) items: VecDeque<Item>,
}

/// Serves the adapter until all senders have ended, or a million turns in a row moved nothing. It does nothing
/// where the adapter starts after the senders.
pub(crate) fn work<'a, R: DescRing, W: Wait, G: Gate>(
    rt: &W,
    line: &Line<'a, R>,
    gate: &G,
    worker: &mut Worker<'a, R>,
)
    requires own { AreSeats line.now worker.old.seats }
    requires ready { (worker.old.items.items ≡ []) × (1 ≤ deque_capacity worker.old.items) }
    ensures own { AreSeats line.now worker.new.seats }
    ensures part { worker.new.seats.turn.part ≡ worker.old.seats.turn.part }
    ensures only { (es : _) × Stepped worker.old.seats.ring.known es worker.new.seats.ring.known × OnlyKicks es }
{
    if line.rules.after_senders {
        return;
    }
    let mut idle = 0;
    for _ in rt.forever() {
        if idle >= IDLE_MAX || line.ended.load(Ordering::SeqCst) >= line.senders {
            return;
        }
        let moved = tend(
            rt,
            line,
            &mut worker.seats,
            WORKER_WHO,
            &mut worker.items,
            gate,
        );
        idle = idle_after(idle, moved);
    }
    unreachable!()
}
