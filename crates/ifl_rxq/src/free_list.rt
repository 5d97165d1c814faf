//! The free list.
ghost use Rattle.std.specs.Prelude.{◌≡◌, ◌+◌, ◌-◌, ◌<◌, ◌≤◌, ◌^◌, ◌⊎◌, [], List, ◌++◌, length, take, suc, vec_capacity, IfOk, true, false, cond};
ghost use Rattle.std.specs.Bool.{OnTrue, OnFalse};
ghost use Rattle.ifl_pcap.specs.File.{written};
ghost use Rattle.ifl_pool.specs.declared.history.Counts.{Counts};
ghost use Rattle.ifl_desc.specs.declared.desc.Desc.{Desc as Entry};
ghost use Rattle.ifl_desc.specs.declared.history.Side.TheVariants.{Driver, Device};
ghost use Rattle.ifl_desc.specs.History.{sent, known};
ghost use Rattle.ifl_desc.specs.Frames.{open_after, IsWholeFrame};
ghost use Rattle.ifl_desc.specs.Ends.{IsDriver, IsNewDriver};
ghost use Rattle.ifl_device.specs.Adapter.{record_size};
ghost use Rattle.ifl_device.specs.Wire.{left_in};
ghost use Rattle.ifl_device.specs.Receive.{IsRx, is_filled};
ghost use Rattle.ifl_rxq.specs.FreeLists.{IsFreeList, Refills, Delivers, Looks, Met, Tries, Holds, Settles, IsCaughtUp, outstanding, accounted, free_list_of};

use crate::clusters::{free_clusters, give_kept, keep_clusters, post_buffers};
use crate::tried::Tried;
use ifl_base::NoMemory;
use ifl_desc::{Desc, DescRing, Status};
use ifl_device::{RxEngine, WireBuffer, frame_len, record_len};
use ifl_mbuf::Cluster;
use ifl_pool::{Pool, PoolPass};
use std::alloc::Global;
use std::marker::Model;
use std::sync::Wait;

/// Keeps a receive ring filled with empty buffers, and delivers the frames that come back to the host's capture.
///
/// It owns the driver's end of the ring, a pass of the pool, the clusters that it keeps for the next refill, and the
/// host's capture. Each cluster that its pass took is given back, kept, or outstanding.
#[derive(Drop)]
pub struct FreeList<'a, R: DescRing> {
    ring: &'a R,
    pool: &'a Pool,
    driver: R::Driver,
    pass: PoolPass,
    copy_break: u32,
    kept: Vec<Cluster>,
    // What was reclaimed and is neither delivered nor passed over: nothing, or one frame.
    frame: Vec<Desc>,
    host: WireBuffer,
    delivered: u64,
    copied: u64,
}

impl<'a, R: DescRing> Model for FreeList<'a, R> {
    ghost use Rattle.std.specs.Prelude.{◌≡◌, ◌≤◌, length, vec_capacity};
    ghost use Rattle.ifl_rxq.specs.FreeLists.{FreeSees, IsFreeList, free_list_of};
    ghost use Rattle.ifl_rxq.specs.Room.{HasRoom};

    ghost Value = { FreeSees };

    ghost view = { λ f. free_list_of (R.ring f.ring.now) f.pool.now f.copy_break (R.driver_sees f.driver) f.pass.known (length f.kept.items) f.frame.items f.host f.delivered f.copied };

    ghost invariant = { λ f. IsFreeList (free_list_of (R.ring f.ring.now) f.pool.now f.copy_break (R.driver_sees f.driver) f.pass.known (length f.kept.items) f.frame.items f.host f.delivered f.copied)
        × (f.pass.pool ≡ f.pool.now) × HasRoom (R.ring f.ring.now).slots (vec_capacity f.kept) (vec_capacity f.frame) f.host.room };
}

/// Takes the next returned frame off the ring, or answers that no more is known to be returned.
fn take_frame<R: DescRing>(ring: &R, driver: &mut R::Driver, frame: &mut Vec<Desc>) -> bool
    requires ring { (R.driver_sees driver.old).ring ≡ R.ring ring.now }
    requires lawful { IsDriver (R.driver_sees driver.old) }
    requires told { known Driver (R.driver_sees driver.old).seen ≡ length (sent Device (R.driver_sees driver.old).seen) }
    requires start { open_after 0 (take (R.driver_sees driver.old).back (sent Device (R.driver_sees driver.old).seen)) ≡ 0 }
    requires none { frame.old.items ≡ [] }
    requires room { length (sent Device (R.driver_sees driver.old).seen) ≤ (R.driver_sees driver.old).back + vec_capacity frame.old }
    ensures same { R.driver_sees driver.new ≡ record (R.driver_sees driver.old) { back = (R.driver_sees driver.old).back + length frame.new.items } }
    ensures lawful { IsDriver (R.driver_sees driver.new) }
    ensures taken { OnTrue result (IsWholeFrame frame.new.items × (take (R.driver_sees driver.new).back (sent Device (R.driver_sees driver.old).seen) ≡ take (R.driver_sees driver.old).back (sent Device (R.driver_sees driver.old).seen) ++ frame.new.items)) }
    ensures none { OnFalse result ((frame.new.items ≡ []) × ((R.driver_sees driver.old).back ≡ length (sent Device (R.driver_sees driver.old).seen))) }
    ensures capacity { vec_capacity frame.new ≡ vec_capacity frame.old }
{
    let mut last = false;
    while !last {
        let Some(d) = ring.reclaim(driver) else {
            return false;
        };
        last = d.last;
        frame.push_reserved(d);
    }
    true
}

/// Whether a returned frame was filled.
fn was_filled(frame: &[Desc]) -> bool
    ensures { result ≡ is_filled frame.now }
{
    match frame.first() {
        Some(d) => d.status == Status::Filled,
        None => false,
    }
}

/// 1 where it holds, and else 0.
fn one_if(holds: bool) -> u64
    ensures { result ≡ cond holds 1 0 }
{
    u64::from(holds)
}

impl<'a, R: DescRing> FreeList<'a, R> {
    /// A free list that has posted nothing. It takes the room for the clusters that it keeps, and for the
    /// descriptors of one frame.
    pub fn new(
        alloc: Global,
        ring: &'a R,
        driver: R::Driver,
        pool: &'a Pool,
        pass: PoolPass,
        copy_break: u32,
        host: WireBuffer,
    ) -> Result<FreeList<'a, R>, NoMemory>
        requires own { ((R.driver_sees driver).ring ≡ R.ring ring.now) × (pass.pool ≡ pool.now) }
        requires fresh { IsNewDriver (R.ring ring.now) (R.driver_sees driver) × (pass.known.counts.taken ≡ 0) × (pass.known.counts.given ≡ 0) × (host.bytes ≡ written []) }
        ensures made { IfOk result (λ f. f ≡ free_list_of (R.ring ring.now) pool.now copy_break (R.driver_sees driver) pass.known 0 [] host 0 0) }
        ensures lawful { IfOk result IsFreeList }
    {
        let room = ring.size() as usize;
        // Any call at the end tells that it is one of a lawful ring.
        ring.avail(&driver);
        let kept = Vec::with_capacity(alloc, room)?;
        let frame = Vec::with_capacity(alloc, room)?;
        Ok(FreeList {
            ring,
            pool,
            driver,
            pass,
            copy_break,
            kept,
            frame,
            host,
            delivered: 0,
            copied: 0,
        })
    }

    /// Posts as many empty buffers as asked, as there is room for and as there are clusters, the kept ones first,
    /// and rings the doorbell once. It answers how many: fewer than asked and fitting only where the pool was found
    /// empty.
    pub fn refill<W: Wait>(&mut self, rt: &W, budget: u32) -> u32
        ensures did { Refills self.old budget result self.new }
        ensures lawful { IsFreeList self.new }
    {
        let most = budget.min(self.ring.avail(&self.driver) - self.frame.len() as u32);
        let posted = post_buffers(
            rt,
            self.ring,
            &mut self.driver,
            self.pool,
            &mut self.pass,
            &mut self.kept,
            most,
        );
        self.ring.flush(&mut self.driver);
        posted
    }

    /// Delivers at most so many returned frames to the host's capture, in order, after one look at what is returned.
    /// It answers how many: fewer only where no more is returned, or where the next record does not fit, whose frame
    /// is held then. Buffers that come back unused are kept.
    pub fn rx_eof<W: Wait>(&mut self, rt: &W, budget: u32) -> u32
        ensures did { Delivers self.old budget result self.new }
        ensures lawful { IsFreeList self.new }
    {
        self.look();
        let mut delivered = 0;
        while delivered < budget {
            match self.try_frame(rt) {
                Tried::Delivered => delivered += 1,
                Tried::PassedOver => {}
                Tried::Stopped => return delivered,
            }
        }
        delivered
    }

    // Looks at what is returned.
    fn look(&mut self)
        ensures looked { Looks self.old self.new }
        ensures lawful { IsFreeList self.new }
    {
        self.ring.credits(&mut self.driver);
    }

    // Delivers the held frame, or else the next one, or passes it over.
    fn try_frame<W: Wait>(&mut self, rt: &W) -> Tried
        requires told { known Driver self.old.driver.seen ≡ length (sent Device self.old.driver.seen) }
        ensures tried { Tries self.old result self.new }
        ensures lawful { IsFreeList self.new }
    {
        if !self.hold_frame() {
            return Tried::Stopped;
        }
        if !was_filled(&self.frame) {
            self.keep_frame();
            return Tried::PassedOver;
        }
        if record_len(&self.frame) > self.host.left() {
            return Tried::Stopped;
        }
        self.deliver(rt);
        Tried::Delivered
    }

    // Takes the next frame off the ring where none is held, and answers whether one is held then.
    fn hold_frame(&mut self) -> bool
        requires told { known Driver self.old.driver.seen ≡ length (sent Device self.old.driver.seen) }
        ensures held { OnTrue result (Holds self.old self.new × IsWholeFrame self.new.held) }
        ensures none { OnFalse result (Holds self.old self.new × IsCaughtUp self.new) }
        ensures lawful { IsFreeList self.new }
    {
        if self.frame.is_empty() {
            return take_frame(self.ring, &mut self.driver, &mut self.frame);
        }
        true
    }

    // Keeps the clusters of the held frame, which was not filled.
    fn keep_frame(&mut self)
        requires frame { IsWholeFrame self.old.held }
        requires unfilled { is_filled self.old.held ≡ false }
        ensures passed { Settles 0 self.old self.new }
        ensures lawful { IsFreeList self.new }
    {
        keep_clusters(&mut self.frame, &mut self.kept);
    }

    // Puts the record of the held frame into the host's capture, and keeps or gives its clusters.
    fn deliver<W: Wait>(&mut self, rt: &W)
        requires frame { IsWholeFrame self.old.held }
        requires filled { is_filled self.old.held ≡ true }
        requires room { record_size self.old.held ≤ left_in self.old.host }
        ensures delivered { Settles 1 self.old self.new }
        ensures lawful { IsFreeList self.new }
    {
        self.host.write(&self.frame);
        let short = frame_len(&self.frame) <= u64::from(self.copy_break);
        free_clusters(
            rt,
            self.pool,
            &mut self.pass,
            &mut self.kept,
            &mut self.frame,
            short,
        );
        self.delivered += 1;
        self.copied += one_if(short);
    }

    /// How many buffers are posted and not reclaimed, or lie in a frame that is held.
    pub fn outstanding(&self) -> u32
        ensures count { result ≡ outstanding self.now }
        ensures lawful { IsFreeList self.now }
    {
        self.ring.size() - 1 - self.ring.avail(&self.driver) + self.frame.len() as u32
    }

    /// How many frames were delivered, and how many of them were short enough to be copied.
    pub fn counters(&self) -> (u64, u64)
        ensures { (result.0 ≡ self.now.delivered) × (result.1 ≡ self.now.copied) }
    {
        (self.delivered, self.copied)
    }

    /// Lets the engine hear what is posted and rung, and the list what is returned. The engine is of the same ring.
    pub fn meet(&mut self, engine: &mut RxEngine<'_, R>)
        requires ring { engine.old.ring ≡ self.old.ring }
        ensures met { Met self.old engine.old.device self.new engine.new.device }
        ensures ring { engine.new.ring ≡ engine.old.ring }
        ensures lawful { IsFreeList self.new × IsRx engine.new }
    {
        engine.meet(&mut self.driver);
    }

    /// Gives the kept clusters to the pool, once nothing is outstanding. It leaves its end of the ring, its pass, which
    /// owes as many clusters as were not accounted for, and the host's capture.
    pub fn close<W: Wait>(self, rt: &W) -> (R::Driver, PoolPass, Vec<u8>)
        requires done { outstanding self ≡ 0 }
        ensures driver { R.driver_sees result.0 ≡ self.entry.driver }
        ensures own { result.1.pool ≡ self.entry.pool }
        ensures pass { (result.1.known.part ≡ self.entry.pass.part) × (result.1.known.counts.taken ≡ self.entry.pass.counts.taken) × (result.1.known.counts.given ≡ accounted self.entry) }
        ensures host { result.2.items ≡ self.entry.host.bytes }
    {
        let FreeList {
            ring: _,
            pool,
            driver,
            mut pass,
            copy_break: _,
            kept,
            frame: _,
            host,
            delivered: _,
            copied: _,
        } = self;
        give_kept(rt, pool, &mut pass, kept);
        (driver, pass, host.into_bytes())
    }
}
