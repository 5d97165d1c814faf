//! The end of a run: its parts are closed, and what they leave is put together.
ghost use Rattle.std.specs.Prelude.{◌≡◌, ◌+◌, ◌^◌, ◌<◌, ◌≤◌, ◌++◌, false, [], length, map, vec_len, vec_capacity};
ghost use Rattle.ifl_line.specs.Causes.{AreOfLength, FollowsPlan};
ghost use Rattle.ifl_line.specs.Good.{IsLawful, IsRingOf, IsAdapterOf, IsPoolOf};
ghost use Rattle.ifl_line.specs.Lines.{AreSmall};
ghost use Rattle.ifl_line.specs.Remains.{AreWhole, IsDoneEngine, IsDoneQueue};
ghost use Rattle.ifl_line.specs.Runs.{AreShort, all_lines};
ghost use Rattle.ifl_line.specs.Sent.{IsSent};
ghost use Rattle.ifl_line.specs.Steps.{packets};
ghost use Rattle.ifl_line.specs.Works.{files_in, turned_in};

use crate::away_line::AwayLine;
use crate::gathering::Ended;
use crate::plan::Plan;
use crate::remains::Remains;
use crate::rules::Rules;
use crate::sizes::Sizes;
use ifl_base::Ticket;
use ifl_desc::DescRing;
use ifl_device::EnginePlan;
use ifl_pool::ClosedPool;
use ifl_ring::ClosedRing;
use ifl_ringcore::Counters;
use ifl_txq::{Item, OrderLine, QueueOrigin};
use std::sync::Wait;

/// What a run leaves.
#[derive(Drop)]
pub struct Sent<R: DescRing> {
    /// The accepted frames, in the order in which the ring took them, each with its fate.
    pub order: Vec<OrderLine>,
    /// The other frames, in the order of sender and record.
    pub away: Vec<AwayLine>,
    /// The wire, as a capture.
    pub wire: Vec<u8>,
    /// The ring, closed.
    pub ring: ClosedRing<Item, QueueOrigin<R>>,
    /// What the seats of the ring counted.
    pub counters: Counters,
    /// The descriptor ring, closed.
    pub desc: R::Closed,
    /// The pool, closed.
    pub pool: ClosedPool,
}

// Puts some lines behind others.
fn append(all: &mut Vec<AwayLine>, lines: &[AwayLine])
    requires room { vec_len all.old + length lines.now ≤ vec_capacity all.old }
    ensures lines { all.new.items ≡ all.old.items ++ lines.now }
    ensures room { vec_capacity all.new ≡ vec_capacity all.old }
    ensures more { vec_len all.new ≡ vec_len all.old + length lines.now }
{
    for index in 0..lines.len() {
        all.push_reserved(lines[index]);
    }
}

// The lines of all senders, one sender after another, in the empty `Vec` that is given.
fn all_away(ended: &[Ended], room: Vec<AwayLine>) -> Vec<AwayLine>
    requires room { (room.items ≡ []) × (length (all_lines (turned_in ended.now)) ≤ vec_capacity room) }
    ensures { result.items ≡ all_lines (turned_in ended.now) }
{
    let mut all = room;
    for index in 0..ended.len() {
        append(&mut all, ended[index].away.as_slice());
    }
    all
}

// The number of a record fits its type: a fact for proofs, which does nothing.
fn see_ticket(ticket: Ticket)
    ensures { ticket.index < 2 ^ 32 }
{}

// The numbers of all records do.
fn see_tickets(order: &[OrderLine])
    ensures { AreSmall order.now }
{
    for index in 0..order.len() {
        see_ticket(order[index].ticket);
    }
}

/// Closes the descriptor ring, the port and the pool, and puts together what the run leaves. It takes no memory: the
/// away lines of all senders lie in the empty `Vec` that is given.
pub(crate) fn finish<R: DescRing, W: Wait>(
    rt: &W,
    plan: Plan<R>,
    remains: Remains<R>,
    ended: &[Ended],
    room: Vec<AwayLine>,
    sizes: Sizes,
    engine_plan: EnginePlan,
    rules: Rules,
) -> Sent<R>
    requires slots { (R.ring plan.ring).slots ≡ sizes.descriptors }
    requires pool { plan.pool.size ≡ sizes.clusters }
    requires few { AreShort (files_in ended.now) }
    requires room { (room.items ≡ []) × (length (all_lines (turned_in ended.now)) ≤ vec_capacity room) }
    requires ring { IsRingOf sizes rules remains.ring remains.counters }
    requires queue { IsDoneQueue (R.ring plan.ring) sizes.max_segs (map length (files_in ended.now)) remains.ring.history (R.driver_sees remains.driver) remains.reader remains.queue_pass remains.log }
    requires engine { IsDoneEngine (R.ring plan.ring) engine_plan (R.device_sees remains.device) remains.writer remains.wire.items }
    requires passes { AreWhole plan.pool remains.queue_pass remains.pass }
    requires port { (remains.reader.port ≡ plan.port) × (remains.writer.port ≡ plan.port) }
    requires sent { IsSent sizes.ring rules 0 (files_in ended.now) (turned_in ended.now) remains.ring.history remains.pass.known.counts }
    ensures away { result.away.items ≡ all_lines (turned_in ended.now) }
    ensures lawful { IsLawful sizes.ring rules (files_in ended.now) result.order.items result.away.items result.ring.history }
    ensures ring { IsRingOf sizes rules result.ring result.counters }
    ensures adapter { IsAdapterOf sizes (files_in ended.now) result.order.items (packets result.ring.history) (R.Closed.ClosedList.closed_sees result.desc) result.wire.items }
    ensures pool { IsPoolOf sizes rules (files_in ended.now) result.away.items result.ring.history result.pool }
    ensures lengths { AreOfLength sizes.max_segs (files_in ended.now) result.order.items }
    ensures causes { engine_plan.by_hand ≡ false → FollowsPlan engine_plan sizes.descriptors result.order.items }
{
    let Plan {
        ring: slots,
        port,
        pool,
    } = plan;
    let Remains {
        ring,
        counters,
        mut driver,
        reader,
        queue_pass,
        log,
        mut device,
        writer,
        wire,
        mut pass,
    } = remains;
    slots.meet(&mut driver, &mut device);
    let desc = slots.close(driver, device);
    port.close(writer, reader);
    pool.join(&mut pass, queue_pass);
    let pool = pool.close(rt, pass);
    let order = log.into_lines();
    see_tickets(&order);
    let away = all_away(ended, room);
    Sent {
        order,
        away,
        wire,
        ring,
        counters,
        desc,
        pool,
    }
}
