//! The receive engine.
ghost use Rattle.std.specs.Prelude.{◌≡◌, ◌+◌, ◌<◌, ◌≤◌, ◌^◌, [], length, suc, List};
ghost use Rattle.ifl_desc.specs.declared.desc.Desc.{Desc as Entry};
ghost use Rattle.ifl_desc.specs.declared.history.Side.TheVariants.{Device};
ghost use Rattle.ifl_desc.specs.History.{known, sent};
ghost use Rattle.ifl_desc.specs.Calls.{Completes, Meets};
ghost use Rattle.ifl_desc.specs.Ends.{IsNewDevice, IsDevice, IsDriver, completed};
ghost use Rattle.ifl_device.specs.Receive.{IsRx, IsStored, IsFilledAs, AreUnused, Sends, Returns, Arrived, Empties, needed, rx_of};

use crate::arrive::Arrive;
use ifl_base::{CLUSTER_BYTES, Stamp, Ticket};
use ifl_desc::{Desc, DescRing, Status};
use ifl_mbuf::Seg;
use std::marker::Model;

/// Fills the buffers of a ring with the frames that arrive, one at a time and in order. It owns its end of the
/// ring, and it takes no memory.
///
/// Between calls it holds no buffer: what it took off the ring is returned, as whole frames or as it was.
#[derive(Drop)]
pub struct RxEngine<'a, R: DescRing> {
    ring: &'a R,
    device: R::Device,
    // How many buffers are known to be rung and are unused.
    free: u32,
}

impl<'a, R: DescRing> Model for RxEngine<'a, R> {
    ghost use Rattle.std.specs.Prelude.{◌≡◌, ◌<◌, ◌^◌};
    ghost use Rattle.ifl_device.specs.Receive.{RxSees, IsRx, rx_of, free_of};

    ghost Value = { RxSees };

    ghost view = { λ e. rx_of (R.ring e.ring.now) (R.device_sees e.device) };

    ghost invariant = { λ e. IsRx (rx_of (R.ring e.ring.now) (R.device_sees e.device)) × (e.free ≡ free_of (rx_of (R.ring e.ring.now) (R.device_sees e.device))) × ((R.ring e.ring.now).slots < 2 ^ 32) };
}

/// How many buffers a frame of so many bytes needs.
fn buffers_for(len: usize) -> u64
    ensures { result ≡ needed len }
{
    (len as u64).div_ceil(u64::from(CLUSTER_BYTES)).max(1)
}

// Fills the next buffer, and completes it as an entry of a frame.
fn fill_one<R: DescRing>(
    ring: &R,
    device: &mut R::Device,
    ticket: Ticket,
    stamp: Stamp,
    bytes: &[u8],
    last: bool,
)
    requires ring { (R.device_sees device.old).ring ≡ R.ring ring.now }
    requires start { completed (R.device_sees device.old) ≡ (R.device_sees device.old).fetched }
    requires more { (R.device_sees device.old).fetched < known Device (R.device_sees device.old).seen }
    requires few { length bytes.now ≤ 2048 }
    ensures filled { (d : Entry) × IsFilledAs ticket stamp bytes.now last d × Completes (record (R.device_sees device.old) { fetched = suc (R.device_sees device.old).fetched }) d (R.device_sees device.new) }
    ensures lawful { IsDevice (R.device_sees device.new) }
{
    let Some(d) = ring.next(device) else {
        unreachable!()
    };
    let seg = Seg::fill(d.seg.into_cluster(), bytes);
    let filled = Desc {
        seg,
        ticket,
        stamp,
        last,
        status: Status::Filled,
    };
    ring.complete(device, filled);
}

// Fills as many buffers as the frame needs, in order, and returns them as one frame.
fn fill_frame<R: DescRing>(
    ring: &R,
    device: &mut R::Device,
    ticket: Ticket,
    stamp: Stamp,
    bytes: &[u8],
)
    requires ring { (R.device_sees device.old).ring ≡ R.ring ring.now }
    requires ready { (R.device_sees device.old).ready ≡ [] }
    requires start { (R.device_sees device.old).fetched ≡ length (sent Device (R.device_sees device.old).seen) }
    requires enough { (R.device_sees device.old).fetched + needed (length bytes.now) ≤ known Device (R.device_sees device.old).seen }
    ensures stored { (frame : List Entry) × IsStored ticket stamp bytes.now frame × Sends (R.device_sees device.old) frame (R.device_sees device.new) }
    ensures lawful { IsDevice (R.device_sees device.new) }
{
    let mut rest = bytes;
    while rest.len() > CLUSTER_BYTES as usize {
        let (part, more) = rest.split_at(CLUSTER_BYTES as usize);
        fill_one(ring, device, ticket, stamp, part, false);
        rest = more;
    }
    fill_one(ring, device, ticket, stamp, rest, true);
}

// Returns every buffer that is known to be rung as it was, each by itself.
fn give_back_unused<R: DescRing>(ring: &R, device: &mut R::Device)
    requires ring { (R.device_sees device.old).ring ≡ R.ring ring.now }
    requires lawful { IsDevice (R.device_sees device.old) }
    requires ready { (R.device_sees device.old).ready ≡ [] }
    requires start { (R.device_sees device.old).fetched ≡ length (sent Device (R.device_sees device.old).seen) }
    ensures unused { (ds : List Entry) × AreUnused ds × Sends (R.device_sees device.old) ds (R.device_sees device.new) }
    ensures none { (R.device_sees device.new).fetched ≡ known Device (R.device_sees device.new).seen }
    ensures lawful { IsDevice (R.device_sees device.new) }
{
    while let Some(mut d) = ring.next(device) {
        d.last = true;
        d.status = Status::Unused;
        ring.complete(device, d);
    }
}

impl<'a, R: DescRing> RxEngine<'a, R> {
    /// An engine that has stored nothing, with its end of a ring of which it has taken nothing.
    pub fn new(ring: &'a R, device: R::Device) -> RxEngine<'a, R>
        requires fresh { IsNewDevice (R.ring ring.now) (R.device_sees device) }
        ensures made { result ≡ rx_of (R.ring ring.now) (R.device_sees device) }
        ensures lawful { IsRx result }
    {
        // Any call at the end tells that it is one of a lawful ring, and the size that it has fewer than 2^32 slots.
        ring.doorbell(&device);
        ring.size();
        RxEngine {
            ring,
            device,
            free: 0,
        }
    }

    /// Stores a frame in as many rung buffers as it needs: one for each 2,048 bytes begun, and at least one.
    ///
    /// It looks at the doorbell once, and answers `Missed` exactly where fewer are rung and unused then, with their
    /// number. Nothing is stored then.
    pub fn arrive(&mut self, ticket: Ticket, stamp: Stamp, bytes: &[u8]) -> Arrive
        ensures did { Arrived ticket stamp bytes.now self.old result self.new }
        ensures lawful { IsRx self.new }
    {
        self.look();
        let need = buffers_for(bytes.len());
        if u64::from(self.free) < need {
            return Arrive::Missed { free: self.free };
        }
        fill_frame(self.ring, &mut self.device, ticket, stamp, bytes);
        self.free -= need as u32;
        Arrive::Stored
    }

    // Looks at the doorbell once.
    fn look(&mut self)
        ensures looked { Returns [] self.old self.new }
        ensures fetched { self.new.device.fetched ≡ self.old.device.fetched }
        ensures lawful { IsRx self.new }
    {
        let more = self.ring.fetch(&mut self.device);
        self.free += more;
    }

    /// Lets the engine's end hear what is rung, and the driver's end what is returned.
    pub fn meet(&mut self, driver: &mut R::Driver)
        requires ring { (R.driver_sees driver.old).ring ≡ self.old.ring }
        ensures met { Meets (R.driver_sees driver.old) self.old.device (R.driver_sees driver.new) self.new.device }
        ensures ring { self.new.ring ≡ self.old.ring }
        ensures lawful { IsDriver (R.driver_sees driver.new) × IsRx self.new }
    {
        self.ring.meet(driver, &mut self.device);
    }

    /// Returns every buffer that is rung and unused, each by itself with the status `Unused`, after one look at the
    /// doorbell. It answers their number.
    pub fn abort_all(&mut self) -> u32
        ensures did { Empties self.old result self.new }
        ensures lawful { IsRx self.new }
    {
        self.look();
        let count = self.free;
        give_back_unused(self.ring, &mut self.device);
        self.free = 0;
        count
    }

    /// Its end of the ring.
    pub fn close(self) -> R::Device
        ensures device { R.device_sees result ≡ self.entry.device }
        ensures done { (completed (R.device_sees result) ≡ (R.device_sees result).fetched) × ((R.device_sees result).ready ≡ []) }
    {
        let RxEngine {
            ring: _,
            device,
            free: _,
        } = self;
        device
    }
}
