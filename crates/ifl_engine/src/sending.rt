//! The run of `send`, by its settings.
ghost use Rattle.std.specs.Prelude.{◌≡◌, length, IfOk};
ghost use Rattle.ifl_engine.specs.Report.{AreRulesBy, AreSizesBy, IsGood, IsGoodRun, IsPlanBy};
ghost use Rattle.ifl_engine.specs.Loaded.{chosen, each_frames};
ghost use Rattle.ifl_engine.specs.Steps.{AreSmall};

use crate::counting::{
    HEAD_LEN, HEADER_LEN, flushes, no_buffers, no_clusters, oversizes, resets, runts, too_longs,
    wires,
};
use crate::gathering::frame_count;
use crate::report::{ClosedLine, Plain, Report};
use ifl_base::{Items, NoMemory};
use ifl_conf::{AdapterKind, Policy as Chosen, Settings, Start, StopMode};
use ifl_desc::DescRing;
use ifl_device::EnginePlan;
use ifl_generation::GenerationRing;
use ifl_legacy::LegacyRing;
use ifl_line::{AwayLine, Policy, Rules, Sent, Sizes, send_captures};
use ifl_outside::Gate;
use ifl_pcap::Capture;
use ifl_pool::ClosedPool;
use ifl_ringcore::Counters;
use ifl_txq::OrderLine;
use ifl_writeback::WritebackRing;
use std::alloc::Global;
use std::marker::PhantomData;
use std::sync::Wait;
use std::thread::Threads;

/// How large the parts of a run are.
fn sizes_of(settings: &Settings) -> Sizes
    ensures { AreSizesBy (chosen settings.now) result }
{
    Sizes {
        ring: settings.ring.size,
        clusters: settings.pool.clusters,
        descriptors: settings.adapter.descriptors,
        max_segs: settings.adapter.max_segs,
        doorbell_every: settings.adapter.doorbell_every,
    }
}

/// How frames are sent.
fn rules_of(settings: &Settings) -> Rules
    ensures { AreRulesBy (chosen settings.now) result }
{
    let policy = match settings.frames.policy {
        Chosen::Retry => Policy::Retry,
        Chosen::Drop => Policy::Drop,
    };
    let after_senders = match settings.adapter.start {
        Start::AtOnce => false,
        Start::AfterSenders => true,
    };
    Rules {
        max_frame: settings.frames.max_frame,
        seg_bytes: settings.pool.seg_bytes,
        budget: settings.ring.budget,
        abdicate: settings.ring.abdicate,
        policy,
        turn_frames: settings.adapter.turn_frames,
        after_senders,
    }
}

/// When the engine hangs, loses its link and is stopped.
fn plan_of(settings: &Settings) -> EnginePlan
    ensures { IsPlanBy (chosen settings.now) result }
{
    let flush_after = match settings.stop.mode {
        StopMode::Drain => None,
        StopMode::Flush => Some(settings.stop.after as u64),
    };
    EnginePlan {
        hang_after: settings.adapter.hang_after as u64,
        link_down_after: settings.adapter.link_down_after as u64,
        link_down_turns: settings.adapter.link_down_turns,
        flush_after,
        by_hand: false,
    }
}

/// Sends the captures over an adapter of this kind, and counts the lines.
fn sent_over<R: DescRing + 'static, T: Threads + Wait + Sync, G: Gate>(
    rt: &T,
    alloc: Global,
    settings: &Settings,
    captures: Vec<Capture>,
    gate: &G,
) -> Result<(Sent<R>, Plain), NoMemory>
    requires { AreSmall (each_frames captures) }
    ensures { IfOk result (λ p. IsGoodRun (chosen settings.now) (each_frames captures) p.0.order.items p.0.away.items p.0.wire.items p.1 p.0.counters p.0.ring (R.Closed.ClosedList.closed_sees p.0.desc) p.0.pool) }
{
    let frames = frame_count(&captures) as u64;
    let sent = send_captures::<R, T, G>(
        rt,
        alloc,
        sizes_of(settings),
        plan_of(settings),
        rules_of(settings),
        captures,
        gate,
    )?;
    let wire = wires(&sent.order);
    let wire_bytes = sent.wire.len() - HEADER_LEN - HEAD_LEN * wire as usize;
    let plain = Plain {
        frames,
        wire,
        wire_bytes: wire_bytes as u64,
        runt: runts(&sent.away),
        oversize: oversizes(&sent.away),
        no_buffers: no_buffers(&sent.away),
        no_clusters: no_clusters(&sent.away),
        too_many_segments: too_longs(&sent.order),
        reset: resets(&sent.order),
        flush: flushes(&sent.order),
    };
    Ok((sent, plain))
}

/// A report of these parts.
fn report(
    order: Vec<OrderLine>,
    away: Vec<AwayLine>,
    wire: Vec<u8>,
    plain: Plain,
    ring: Counters,
    closed: ClosedLine,
    pool: ClosedPool,
) -> Report
    ensures lines { (result.order ≡ order.items) × (result.away ≡ away.items) × (result.wire ≡ wire.items) }
    ensures counted { (result.plain ≡ plain) × (result.ring ≡ ring) }
    ensures closed { (result.closed ≡ closed) × (result.pool ≡ pool) }
{
    Report {
        order: Items::from_vec(order),
        away: Items::from_vec(away),
        wire: Items::from_vec(wire),
        plain,
        ring,
        closed,
        pool,
    }
}

/// The report of a run over captures, by the settings: each capture has a sender, and the adapter is of the kind that
/// the settings name.
pub fn report_of<T: Threads + Wait + Sync, G: Gate>(
    rt: &T,
    alloc: Global,
    settings: &Settings,
    captures: Vec<Capture>,
    gate: &G,
) -> Result<Report, NoMemory>
    requires { AreSmall (each_frames captures) }
    ensures { IfOk result (λ r. IsGood (chosen settings.now) (each_frames captures) r) }
{
    match settings.adapter.kind {
        AdapterKind::Legacy => {
            let (sent, plain) = sent_over::<LegacyRing, T, G>(rt, alloc, settings, captures, gate)?;
            let closed = ClosedLine::Legacy(sent.ring, sent.desc, PhantomData);
            Ok(report(
                sent.order,
                sent.away,
                sent.wire,
                plain,
                sent.counters,
                closed,
                sent.pool,
            ))
        }
        AdapterKind::Writeback => {
            let (sent, plain) = sent_over::<WritebackRing, T, G>(
                rt, alloc, settings, captures, gate,
            )?;
            let closed = ClosedLine::Writeback(sent.ring, sent.desc, PhantomData);
            Ok(report(
                sent.order,
                sent.away,
                sent.wire,
                plain,
                sent.counters,
                closed,
                sent.pool,
            ))
        }
        AdapterKind::Generation => {
            let (sent, plain) = sent_over::<GenerationRing, T, G>(
                rt, alloc, settings, captures, gate,
            )?;
            let closed = ClosedLine::Generation(sent.ring, sent.desc, PhantomData);
            Ok(report(
                sent.order,
                sent.away,
                sent.wire,
                plain,
                sent.counters,
                closed,
                sent.pool,
            ))
        }
    }
}
