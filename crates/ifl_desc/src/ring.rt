//! A ring of descriptors between a driver and a device.
ghost use Rattle.std.specs.Prelude.{◌≡◌, ℕ, ◌%◌, ◌<◌, ◌≤◌, ◌⊎◌, [], IfOk, Err};
ghost use Rattle.ifl_desc.specs.declared.desc.DescFault.TheVariants.{BadSize};
ghost use Rattle.ifl_desc.specs.Frames.{open_after, IsSettled};
ghost use Rattle.ifl_desc.specs.Ends.{IsDriver, IsDevice, IsNewDriver, IsNewDevice, room_of, rung, completed};
ghost use Rattle.ifl_desc.specs.Calls.{Posts, Flushes, Credits, Reclaims, Fetches, TakesNext, Completes, Meets};
ghost use Rattle.ifl_desc.specs.Closed.{Closes, IsClosed};

use crate::closed::ClosedList;
use crate::desc::{Desc, DescFault};
use std::alloc::Global;

/// A ring of descriptors. One end posts and reclaims, the other takes and completes, and two threads may hold them.
///
/// Its meaning is one list of posted descriptors with five lengths: reclaimed, returned, fetched, rung and posted.
/// What the two sides did to it is one history, of which each end has seen a beginning that holds all of its own
/// steps. So an end knows its own lengths exactly, and a lower bound of the other end's. No call waits, and no call
/// but `make` takes memory.
pub trait DescRing: Sync + Drop {
    /// The end that posts and reclaims.
    type Driver: Send + Drop;

    /// The end that takes and completes.
    type Device: Send + Drop;

    /// What `close` leaves.
    type Closed: ClosedList;

    ghost use Rattle.atomic_table.specs.Seated.{TableId};
    ghost use Rattle.ifl_desc.specs.Ends.{DriverSees, DeviceSees};

    /// Which ring it is, and with it its size.
    ghost ring: { Self → TableId };

    ghost driver_sees: { Self.Driver → DriverSees };

    ghost device_sees: { Self.Device → DeviceSees };

    /// Makes a ring with `size` slots, of which one always stays free, and its two ends.
    ///
    /// It answers `BadSize` exactly where `size` is outside 8 to 32,768.
    fn make(alloc: Global, size: u32) -> Result<(Self, Self::Driver, Self::Device), DescFault>
        ensures ok { IfOk result (λ t. ((ring t.0).slots ≡ size) × (8 ≤ size) × (size ≤ 32768) × IsNewDriver (ring t.0) (driver_sees t.1) × IsNewDevice (ring t.0) (device_sees t.2)) }
        ensures lawful { IfOk result (λ t. IsDriver (driver_sees t.1) × IsDevice (device_sees t.2)) }
        ensures bad_size { (n : ℕ) → result ≡ Err (BadSize n) → (n ≡ size) × ((size < 8) ⊎ (32768 < size)) }
        ensures refused { (size < 8) ⊎ (32768 < size) → result ≡ Err (BadSize size) };

    /// The number of slots, 8 to 32,768.
    fn size(&self) -> u32
        ensures number { result ≡ (ring self.now).slots }
        ensures within { (8 ≤ result) × (result ≤ 32768) };

    /// How many more may be posted: the size less one, less those posted and not reclaimed.
    fn avail(&self, end: &Self::Driver) -> u32
        requires { (driver_sees end.now).ring ≡ ring self.now }
        ensures number { result ≡ room_of (driver_sees end.now) }
        ensures lawful { IsDriver (driver_sees end.now) };

    /// Posts a descriptor, which the ring owns until it is reclaimed. A frame has at most 64.
    fn post(&self, end: &mut Self::Driver, d: Desc)
        requires ring { (driver_sees end.old).ring ≡ ring self.now }
        requires room { 0 < room_of (driver_sees end.old) }
        requires short { open_after 0 (driver_sees end.old).pending < 64 }
        ensures list { Posts (driver_sees end.old) d (driver_sees end.new) }
        ensures lawful { IsDriver (driver_sees end.new) };

    /// Rings the doorbell once for all that was posted, which are whole frames or nothing.
    fn flush(&self, end: &mut Self::Driver)
        requires ring { (driver_sees end.old).ring ≡ ring self.now }
        requires whole { open_after 0 (driver_sees end.old).pending ≡ 0 }
        ensures list { Flushes (driver_sees end.old) (driver_sees end.new) }
        ensures lawful { IsDriver (driver_sees end.new) };

    /// How many more are known to be returned than before: all that its last look showed.
    fn credits(&self, end: &mut Self::Driver) -> u32
        requires { (driver_sees end.old).ring ≡ ring self.now }
        ensures list { Credits (driver_sees end.old) result (driver_sees end.new) }
        ensures lawful { IsDriver (driver_sees end.new) };

    /// The oldest descriptor that was not reclaimed, as it was returned, which the caller owns from then on.
    ///
    /// It answers `None` exactly where no more are known to be returned.
    fn reclaim(&self, end: &mut Self::Driver) -> Option<Desc>
        requires { (driver_sees end.old).ring ≡ ring self.now }
        ensures list { Reclaims (driver_sees end.old) result (driver_sees end.new) }
        ensures lawful { IsDriver (driver_sees end.new) };

    /// How many more are known to be rung than before: all that its one look showed.
    fn fetch(&self, end: &mut Self::Device) -> u32
        requires { (device_sees end.old).ring ≡ ring self.now }
        ensures list { Fetches (device_sees end.old) result (device_sees end.new) }
        ensures lawful { IsDevice (device_sees end.new) };

    /// What is known to be rung, as the doorbell has it: modulo the size.
    fn doorbell(&self, end: &Self::Device) -> u32
        requires { (device_sees end.now).ring ≡ ring self.now }
        ensures number { result ≡ rung (device_sees end.now) % (ring self.now).slots }
        ensures lawful { IsDevice (device_sees end.now) };

    /// The oldest descriptor that was not fetched, as it was posted, which the caller owns until it completes it.
    ///
    /// It answers `None` exactly where no more are known to be rung.
    fn next(&self, end: &mut Self::Device) -> Option<Desc>
        requires { (device_sees end.old).ring ≡ ring self.now }
        ensures list { TakesNext (device_sees end.old) result (device_sees end.new) }
        ensures lawful { IsDevice (device_sees end.new) };

    /// Puts `d` into the place of the oldest fetched one that was not completed. Where it is the last one of a
    /// frame, the frame is returned.
    fn complete(&self, end: &mut Self::Device, d: Desc)
        requires ring { (device_sees end.old).ring ≡ ring self.now }
        requires fetched { completed (device_sees end.old) < (device_sees end.old).fetched }
        requires settled { IsSettled d.status }
        ensures list { Completes (device_sees end.old) d (device_sees end.new) }
        ensures lawful { IsDevice (device_sees end.new) };

    /// Lets each end hear what the other has seen. The list stays, and both have seen one history from then on, in which
    /// each side's own steps are those that it had made.
    fn meet(&self, driver: &mut Self::Driver, device: &mut Self::Device)
        requires rings { ((driver_sees driver.old).ring ≡ ring self.now) × ((device_sees device.old).ring ≡ ring self.now) }
        ensures list { Meets (driver_sees driver.old) (device_sees device.old) (driver_sees driver.new) (device_sees device.new) }
        ensures lawful { IsDriver (driver_sees driver.new) × IsDevice (device_sees device.new) };

    /// Ends the ring with both its ends, once all that was fetched is returned. What is left lies in room that
    /// [`DescRing::make`] took.
    ///
    /// The ends look once more before: the device once, and the driver at most once more than it then counts. They make
    /// no other step.
    fn close(self, driver: Self::Driver, device: Self::Device) -> Self::Closed
        requires rings { ((driver_sees driver).ring ≡ ring self) × ((device_sees device).ring ≡ ring self) }
        requires done { (completed (device_sees device) ≡ (device_sees device).fetched) × ((device_sees device).ready ≡ []) }
        ensures list { Closes (driver_sees driver) (device_sees device) (Self.Closed.ClosedList.closed_sees result) }
        ensures lawful { IsClosed (Self.Closed.ClosedList.closed_sees result) };
}
