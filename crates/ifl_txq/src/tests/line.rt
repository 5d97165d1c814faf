//! A queue with its device.
ghost use Rattle.std.specs.Prelude.{◌≡◌, ◌+◌, ◌-◌, ◌/◌, ◌≤◌, [], length, sum, IfOk};
ghost use Rattle.ifl_base.specs.declared.limits.TheConstants.{PART};
ghost use Rattle.ifl_pool.specs.Passes.{new_known};
ghost use Rattle.ifl_desc.specs.Ends.{IsNewDriver, IsNewDevice, completed};
ghost use Rattle.ifl_desc.specs.Port.{reader_of};

use super::device::turn;
use super::{Ends, Shared};
use crate::{Item, Log, Txq, TxqEnds};
use ifl_desc::PortReader;
use ifl_pool::PoolPass;
use ifl_ring::Drainer;
use ifl_writeback::{WritebackDevice, WritebackDriver, WritebackRing};
use std::alloc::Global;
use std::collections::VecDeque;
use std::marker::Model;
use std::process::Abort;
use std::sync::Wait;
use std::test::*;

/// A queue over the writeback ring, and its device.
///
/// Contracts see what it looks at. That all its parts belong together is its invariant, so its calls ask for nothing.
#[derive(Drop)]
pub struct Line<'a> {
    shared: &'a Shared,
    pub queue: Txq<'a, WritebackRing>,
    device: WritebackDevice,
    // The device completed whole frames.
    whole: bool,
}

impl<'a> Model for Line<'a> {
    ghost use Rattle.std.specs.Prelude.{◌≡◌, ◌/◌, [], true};
    ghost use Rattle.atomic_table.specs.Seated.{TableId};
    ghost use Rattle.ifl_base.specs.declared.limits.TheConstants.{PART};
    ghost use Rattle.ifl_pool.specs.Pools.{PoolId};
    ghost use Rattle.ifl_desc.specs.Ends.{completed};
    ghost use Rattle.ifl_txq.specs.Queue.{IsRung};

    ghost Value = { TableId × (TableId × PoolId) };

    ghost view = { λ l. (l.shared.now.ring, (l.shared.now.port, l.shared.now.pool)) };

    ghost invariant = { λ l. (l.queue.ring ≡ l.shared.now.ring) × (l.queue.port ≡ l.shared.now.port) × (l.queue.pool ≡ l.shared.now.pool) × IsRung l.queue.driver × (l.device.ring ≡ l.shared.now.ring) × (completed l.device ≡ l.device.fetched) × (l.whole ≡ true → l.device.ready ≡ []) × (l.queue.pass.known.part ≡ PART / 2) };
}

/// What is left of a line: what its queue hands back, its device, and the whole pass of the pool.
#[derive(Drop)]
pub struct Ended {
    pub driver: WritebackDriver,
    pub device: WritebackDevice,
    pub reader: PortReader,
    pub pass: PoolPass,
    pub log: Log,
}

impl<'a> Line<'a> {
    /// A line with a queue that has taken nothing.
    pub fn new(
        alloc: Global,
        shared: &'a Shared,
        ends: Ends,
        counts: &[u32],
        max_segs: u32,
        doorbell_every: u32,
    ) -> Result<Line<'a>, Fail>
        requires ring { IsNewDriver shared.now.ring ends.driver × IsNewDevice shared.now.ring ends.device }
        requires port { ends.reader ≡ reader_of shared.now.port [] }
        requires pool { ends.pass.pool ≡ shared.now.pool }
        requires pass { ends.pass.known ≡ new_known ends.pass.known.number (PART / 2) }
        requires counts { (length counts.now ≤ 16) × (sum counts.now ≤ 1000000) }
        requires segs { (1 ≤ max_segs) × (max_segs ≤ 64) × (max_segs + 4 ≤ shared.now.ring.slots) }
        requires every { (1 ≤ doorbell_every) × (doorbell_every ≤ 32) }
        ensures { IfOk result (λ l. l ≡ (shared.now.ring, (shared.now.port, shared.now.pool))) }
    {
        let log = Log::new(alloc, counts)?;
        let Ends {
            driver,
            device,
            reader,
            pass,
        } = ends;
        let Shared { ring, port, pool } = shared;
        let queue = Txq::new(
            ring,
            driver,
            port,
            reader,
            pool,
            pass,
            log,
            max_segs,
            doorbell_every,
        );
        Ok(Line {
            shared,
            queue,
            device,
            whole: true,
        })
    }

    /// Offers a batch of 1 to 32 items to the queue.
    pub fn offer<W: Wait + Abort>(&mut self, rt: &W, batch: &mut VecDeque<Item>) -> u32
        ensures { self.new ≡ self.old }
    {
        let count = batch.len();
        assert!(rt; 1 <= count && count <= 32);
        self.queue.drain(rt, batch)
    }

    /// A turn of the device, which emits all that it finds. It answers how many descriptors these were.
    pub fn emit(&mut self) -> u32
        ensures { self.new ≡ self.old }
    {
        let (count, whole) = turn(&self.shared.ring, &mut self.device, self.whole);
        self.whole = whole;
        count
    }

    /// How many frames the queue reclaimed.
    pub fn take_back<W: Wait>(&mut self, rt: &W) -> u32
        ensures { self.new ≡ self.old }
    {
        self.queue.reclaim(rt)
    }

    /// Ends the line, once all that was posted is reclaimed. The sender's pass makes the queue's whole.
    pub fn close<W: Abort>(self, rt: &W, pass: PoolPass) -> Ended
        requires own { pass.pool ≡ self.1.1 }
        requires part { pass.known.part ≡ PART - PART / 2 }
        ensures ring { (result.driver.ring ≡ self.entry.0) × (result.device.ring ≡ self.entry.0) }
        ensures done { (completed result.device ≡ result.device.fetched) × (result.device.ready ≡ []) }
        ensures port { result.reader.port ≡ self.entry.1.0 }
        ensures pool { (result.pass.pool ≡ self.entry.1.1) × (result.pass.known.part ≡ PART) }
    {
        let Line {
            shared,
            queue,
            device,
            whole,
        } = self;
        let mut pass = pass;
        assert!(rt; whole);
        assert!(rt; queue.outstanding() == 0);
        let TxqEnds {
            driver,
            reader,
            pass: own,
            log,
        } = queue.close();
        shared.pool.join(&mut pass, own);
        Ended {
            driver,
            device,
            reader,
            pass,
            log,
        }
    }
}
