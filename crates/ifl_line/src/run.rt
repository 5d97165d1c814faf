//! A whole run, from its captures to what it leaves.
ghost use Rattle.std.specs.Prelude.{◌≡◌, ◌≤◌, false, [], length, map, sum, IfOk};
ghost use Rattle.ifl_desc.specs.Ends.{IsNewDevice, IsNewDriver};
ghost use Rattle.ifl_desc.specs.Port.{reader_of, writer_of};
ghost use Rattle.ifl_pcap.specs.File.{written};
ghost use Rattle.ifl_line.specs.Causes.{AreOfLength, FollowsPlan};
ghost use Rattle.ifl_line.specs.Good.{IsLawful, IsRingOf, IsAdapterOf, IsPoolOf};
ghost use Rattle.ifl_line.specs.Passes.{ArePasses};
ghost use Rattle.ifl_line.specs.Remains.{AreWhole, IsDoneEngine, IsDoneQueue};
ghost use Rattle.ifl_line.specs.Sent.{IsSent};
ghost use Rattle.ifl_line.specs.Steps.{packets};
ghost use Rattle.ifl_line.specs.Works.{AreFew, captures_of, files_in, files_of, turned_in};

use crate::assembling::assemble;
use crate::ending::close;
use crate::finishing::{Sent, finish};
use crate::gathering::Ended;
use crate::making::{make_jobs, make_loads};
use crate::plan::{Plan, Tokens, fit_out};
use crate::remains::{Remains, take_apart};
use crate::rules::Rules;
use crate::sizes::Sizes;
use crate::transmitting::transmit;
use ifl_base::NoMemory;
use ifl_desc::DescRing;
use ifl_device::EnginePlan;
use ifl_outside::Gate;
use ifl_pcap::Capture;
use std::alloc::Global;
use std::collections::VecDeque;
use std::sync::Wait;
use std::thread::Threads;

// The line of a run, from its making to its end.
fn run_line<'a, R: DescRing + 'static, T: Threads + Wait + Sync, G: Gate>(
    rt: &T,
    alloc: Global,
    plan: &'a Plan<R>,
    tokens: Tokens<R>,
    sizes: Sizes,
    engine_plan: EnginePlan,
    rules: Rules,
    captures: Vec<Capture>,
    gate: &G,
) -> Result<(Remains<R>, Vec<Ended>), NoMemory>
    requires captures { (length captures.items ≤ 16) × AreFew captures.items }
    requires slots { (R.ring plan.now.ring).slots ≡ sizes.descriptors }
    requires ends { IsNewDriver (R.ring plan.now.ring) (R.driver_sees tokens.driver) × IsNewDevice (R.ring plan.now.ring) (R.device_sees tokens.device) }
    requires port { (tokens.reader ≡ reader_of plan.now.port []) × (tokens.writer ≡ writer_of plan.now.port []) }
    requires passes { ArePasses plan.now.pool tokens.queue_pass tokens.pass }
    requires log { tokens.log ≡ record { counts = map length (files_of captures.items); lines = [] } }
    requires wire { tokens.wire.bytes ≡ written [] }
    ensures captures { IfOk result (λ p. captures_of p.1.items ≡ captures.items) }
    ensures ring { IfOk result (λ p. IsRingOf sizes rules p.0.ring p.0.counters) }
    ensures queue { IfOk result (λ p. IsDoneQueue (R.ring plan.now.ring) sizes.max_segs (map length (files_of captures.items)) p.0.ring.history (R.driver_sees p.0.driver) p.0.reader p.0.queue_pass p.0.log) }
    ensures engine { IfOk result (λ p. IsDoneEngine (R.ring plan.now.ring) engine_plan (R.device_sees p.0.device) p.0.writer p.0.wire.items) }
    ensures passes { IfOk result (λ p. AreWhole plan.now.pool p.0.queue_pass p.0.pass) }
    ensures port { IfOk result (λ p. (p.0.reader.port ≡ plan.now.port) × (p.0.writer.port ≡ plan.now.port)) }
    ensures sent { IfOk result (λ p. IsSent sizes.ring rules 0 (files_in p.1.items) (turned_in p.1.items) p.0.ring.history p.0.pass.known.counts) }
{
    let senders = captures.len();
    let loads = make_loads(alloc, captures)?;
    let items = VecDeque::with_capacity(alloc, 1)?;
    let mut kick = VecDeque::with_capacity(alloc, 1)?;
    let job_room = Vec::with_capacity(alloc, senders + 1)?;
    let room = Vec::with_capacity(alloc, senders + 1)?;
    let (line, mut hands) = assemble(
        alloc,
        plan,
        tokens,
        sizes,
        engine_plan,
        rules,
        senders as u64,
    )?;
    let mut jobs = make_jobs(&line, &mut hands, items, loads, job_room);
    let ended = transmit(
        rt,
        &line,
        &mut hands,
        jobs.as_mut_slice(),
        &mut kick,
        room,
        gate,
    );
    drop(jobs);
    Ok((take_apart(close(rt, line, hands)), ended))
}

// How many frames the captures have together.
fn count(captures: &[Capture]) -> usize
    requires few { (length captures.now ≤ 16) × AreFew captures.now }
    ensures { result ≡ sum (map length (files_of captures.now)) }
{
    let mut total = 0;
    for index in 0..captures.len() {
        total += captures[index].len();
    }
    total
}

/// Sends all captures, at most 16, each from a thread of its own where one can be made, beside a task worker, over a
/// ring, a pool and a descriptor ring of these sizes and an engine with this plan.
///
/// It may wait for ever: it ends only where the engine returns all that was posted. `NoMemory` comes before the first
/// frame is sent.
pub fn send_captures<R: DescRing + 'static, T: Threads + Wait + Sync, G: Gate>(
    rt: &T,
    alloc: Global,
    sizes: Sizes,
    engine_plan: EnginePlan,
    rules: Rules,
    captures: Vec<Capture>,
    gate: &G,
) -> Result<Sent<R>, NoMemory>
    requires captures { (length captures.items ≤ 16) × AreFew captures.items }
    requires all { sum (map length (files_of captures.items)) ≤ 1000000 }
    ensures lawful { IfOk result (λ s. IsLawful sizes.ring rules (files_of captures.items) s.order.items s.away.items s.ring.history) }
    ensures ring { IfOk result (λ s. IsRingOf sizes rules s.ring s.counters) }
    ensures adapter { IfOk result (λ s. IsAdapterOf sizes (files_of captures.items) s.order.items (packets s.ring.history) (R.Closed.ClosedList.closed_sees s.desc) s.wire.items) }
    ensures pool { IfOk result (λ s. IsPoolOf sizes rules (files_of captures.items) s.away.items s.ring.history s.pool) }
    ensures lengths { IfOk result (λ s. AreOfLength sizes.max_segs (files_of captures.items) s.order.items) }
    ensures causes { IfOk result (λ s. engine_plan.by_hand ≡ false → FollowsPlan engine_plan sizes.descriptors s.order.items) }
{
    let room = Vec::with_capacity(alloc, count(&captures))?;
    let (plan, tokens) = fit_out::<R, T>(rt, alloc, sizes, &captures)?;
    let (remains, ended) = run_line(
        rt,
        alloc,
        &plan,
        tokens,
        sizes,
        engine_plan,
        rules,
        captures,
        gate,
    )?;
    Ok(finish(rt, plan, remains, &ended, room, sizes, engine_plan, rules))
}
