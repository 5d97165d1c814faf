//! The queue.
ghost use Rattle.std.specs.Prelude.{◌≡◌, ◌+◌, ◌≤◌, []};
ghost use Rattle.ifl_desc.specs.Ends.{posted};
ghost use Rattle.ifl_txq.specs.Queue.{IsQueue, IsRung, queue_of};
ghost use Rattle.ifl_txq.specs.Standing.{QueueStandsFor};
ghost use Rattle.ifl_txq.specs.Tallies.{tally_of, IsBalanced};

use crate::log::Log;
use crate::tally::Tally;
use ifl_desc::{DriverSide, Port, PortReader};
use ifl_pool::{Pool, PoolPass};
use std::marker::Model;

/// Takes packets out of the ring, posts them, and keeps the order record. It owns the driver's end of the descriptor
/// ring, the port's reader, its pass of the pool and the log. No call takes memory.
#[derive(Drop)]
pub struct Txq<'a, R: DriverSide> {
    pub(crate) ring: &'a R,
    pub(crate) port: &'a Port,
    pub(crate) pool: &'a Pool,
    pub(crate) driver: R::Driver,
    pub(crate) reader: PortReader,
    pub(crate) pass: PoolPass,
    pub(crate) log: Log,
    pub(crate) max_segs: u32,
    pub(crate) doorbell_every: u32,
}

impl<'a, R: DriverSide> Model for Txq<'a, R> {
    ghost use Rattle.ifl_txq.specs.Queue.{QueueSees, IsQueue, queue_of};

    ghost Value = { QueueSees };

    ghost view = { λ q. queue_of (R.ring q.ring.now) q.port.now q.pool.now q.max_segs q.doorbell_every (R.driver_sees q.driver) q.reader q.pass q.log };

    ghost invariant = { λ q. IsQueue (queue_of (R.ring q.ring.now) q.port.now q.pool.now q.max_segs q.doorbell_every (R.driver_sees q.driver) q.reader q.pass q.log) };
}

/// What a closed queue hands back.
#[derive(Drop)]
pub struct TxqEnds<R: DriverSide> {
    /// Its end of the descriptor ring.
    pub driver: R::Driver,
    /// The port's reader.
    pub reader: PortReader,
    /// Its pass of the pool.
    pub pass: PoolPass,
    /// The order record.
    pub log: Log,
}

impl<'a, R: DriverSide> Txq<'a, R> {
    /// A queue that has taken nothing. A packet is posted in 1 to 64 descriptors, at most `max_segs`, and the
    /// doorbell is rung after each 1 to 32 packets, as `doorbell_every` says.
    pub fn new(
        ring: &'a R,
        driver: R::Driver,
        port: &'a Port,
        reader: PortReader,
        pool: &'a Pool,
        pass: PoolPass,
        log: Log,
        max_segs: u32,
        doorbell_every: u32,
    ) -> Txq<'a, R>
        requires own { ((R.driver_sees driver).ring ≡ R.ring ring.now) × (reader.port ≡ port.now) × (pass.pool ≡ pool.now) }
        requires segs { (1 ≤ max_segs) × (max_segs ≤ 64) × (max_segs + 4 ≤ (R.ring ring.now).slots) }
        requires every { (1 ≤ doorbell_every) × (doorbell_every ≤ 32) }
        requires fresh { (posted (R.driver_sees driver) ≡ 0) × (log.lines ≡ []) × (pass.known.counts.taken ≡ 0) × (pass.known.counts.given ≡ 0) }
        ensures made { result ≡ queue_of (R.ring ring.now) port.now pool.now max_segs doorbell_every (R.driver_sees driver) reader pass log }
        ensures settled { IsRung result.driver }
        ensures stands { QueueStandsFor result [] }
        ensures lawful { IsQueue result }
    {
        // Any call at the end tells that it is one of a lawful ring.
        ring.avail(&driver);
        Txq {
            ring,
            port,
            pool,
            driver,
            reader,
            pass,
            log,
            max_segs,
            doorbell_every,
        }
    }

    /// How many descriptors are posted and not reclaimed.
    pub fn outstanding(&self) -> u32
        ensures count { result + self.now.driver.back ≡ posted self.now.driver }
        ensures lawful { IsQueue self.now }
    {
        self.ring.slots() - 1 - self.ring.avail(&self.driver)
    }

    /// How many packets the log has noted, by their fates: `packets` is the sum of the others.
    pub fn tally(&self) -> Tally
        ensures value { result ≡ tally_of self.now.log.lines }
        ensures balanced { IsBalanced result }
    {
        self.log.tally()
    }

    /// Its parts, once all that was posted is rung and reclaimed.
    pub fn close(self) -> TxqEnds<R>
        requires settled { IsRung self.driver }
        requires done { posted self.driver ≡ self.driver.back }
        ensures driver { R.driver_sees result.driver ≡ self.entry.driver }
        ensures reader { result.reader ≡ self.entry.reader }
        ensures pass { result.pass ≡ self.entry.pass }
        ensures log { result.log ≡ self.entry.log }
    {
        let Txq {
            ring: _,
            port: _,
            pool: _,
            driver,
            reader,
            pass,
            log,
            max_segs: _,
            doorbell_every: _,
        } = self;
        TxqEnds {
            driver,
            reader,
            pass,
            log,
        }
    }
}
