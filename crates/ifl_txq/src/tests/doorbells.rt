//! How often a drain rings the doorbell.
ghost use Rattle.std.specs.Prelude.{◌≡◌};
ghost use Rattle.ifl_txq.specs.Queue.{IsRung};

use super::{Ends, Others, Shared, make, packet, ticket};
use crate::{Item, Log, Txq};
use ifl_desc::{Desc, DescFault, DescRing};
use ifl_pool::{Pool, PoolPass};
use ifl_ring::Drainer;
use ifl_writeback::{WritebackClosed, WritebackDevice, WritebackDriver, WritebackRing};
use std::alloc::Global;
use std::collections::VecDeque;
use std::process::Abort;
use std::sync::Wait;
use std::test::*;

/// A writeback ring whose driver counts its doorbell stores.
#[derive(Drop)]
struct CountingRing {
    ring: WritebackRing,
}

/// The driver's end of it.
#[derive(Drop)]
struct CountingDriver {
    end: WritebackDriver,
    bells: u32,
}

impl DescRing for CountingRing {
    type Driver = CountingDriver;

    type Device = WritebackDevice;

    type Closed = WritebackClosed;

    ghost ring = { λ r. r.ring };

    ghost driver_sees = { λ d. d.end };

    ghost device_sees = { λ d. d };

    fn make(
        alloc: Global,
        size: u32,
    ) -> Result<(CountingRing, CountingDriver, WritebackDevice), DescFault> {
        let (ring, end, device) = WritebackRing::make(alloc, size)?;
        Ok((
            CountingRing { ring },
            CountingDriver { end, bells: 0 },
            device,
        ))
    }

    fn size(&self) -> u32 {
        self.ring.size()
    }

    fn avail(&self, end: &CountingDriver) -> u32 {
        self.ring.avail(&end.end)
    }

    fn post(&self, end: &mut CountingDriver, d: Desc) {
        self.ring.post(&mut end.end, d);
    }

    fn flush(&self, end: &mut CountingDriver) {
        end.bells = end.bells.saturating_add(1);
        self.ring.flush(&mut end.end);
    }

    fn credits(&self, end: &mut CountingDriver) -> u32 {
        self.ring.credits(&mut end.end)
    }

    fn reclaim(&self, end: &mut CountingDriver) -> Option<Desc> {
        self.ring.reclaim(&mut end.end)
    }

    fn fetch(&self, end: &mut WritebackDevice) -> u32 {
        self.ring.fetch(end)
    }

    fn doorbell(&self, end: &WritebackDevice) -> u32 {
        self.ring.doorbell(end)
    }

    fn next(&self, end: &mut WritebackDevice) -> Option<Desc> {
        self.ring.next(end)
    }

    fn complete(&self, end: &mut WritebackDevice, d: Desc) {
        self.ring.complete(end, d);
    }

    fn meet(&self, driver: &mut CountingDriver, device: &mut WritebackDevice) {
        self.ring.meet(&mut driver.end, device);
    }

    fn close(self, driver: CountingDriver, device: WritebackDevice) -> WritebackClosed {
        let CountingRing { ring } = self;
        let CountingDriver { end, bells: _ } = driver;
        ring.close(end, device)
    }
}

/// A batch of so many packets of one segment.
fn batch_of<W: Wait + Abort>(
    rt: &W,
    alloc: Global,
    pool: &Pool,
    pass: &mut PoolPass,
    count: u32,
) -> Result<VecDeque<Item>, Fail>
    requires { pass.old.pool ≡ pool.now }
{
    let mut batch = VecDeque::new(alloc);
    for index in 0..count {
        batch.push_back(Item::Packet(packet(rt, pool, pass, ticket(index), 1, 100)))?;
    }
    Ok(batch)
}

/// Drains a batch of 32 packets.
fn drain_32<W: Wait + Abort>(rt: &W, queue: &mut Txq<CountingRing>, batch: &mut VecDeque<Item>)
    requires { IsRung queue.old.driver }
{
    assert!(rt; batch.len() == 32);
    assert_eq!(rt; queue.drain(rt, batch), 32);
    assert_eq!(rt; queue.driver.bells, 8);
}

#[test]
fn a_batch_of_32_rings_8_times(rt: HostRuntime) -> Result<(), Fail> {
    let log = Log::new(rt.alloc(), &[32])?;
    let (shared, ends, others) = make(&rt, rt.alloc(), 64, 32)?;
    let Shared { ring, port, pool } = shared;
    let Others {
        writer: _,
        mut pass,
    } = others;
    let mut batch = batch_of(&rt, rt.alloc(), &pool, &mut pass, 32)?;
    let Ends {
        driver: end,
        device: _,
        reader,
        pass: own,
    } = ends;
    let ring = CountingRing { ring };
    let driver = CountingDriver { end, bells: 0 };
    let mut queue = Txq::new(&ring, driver, &port, reader, &pool, own, log, 1, 4);
    drain_32(&rt, &mut queue, &mut batch);
    Ok(())
}
