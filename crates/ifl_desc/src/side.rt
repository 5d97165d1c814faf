//! The driver's side of a descriptor ring.
ghost use Rattle.std.specs.Prelude.{◌≡◌, ◌<◌};
ghost use Rattle.ifl_desc.specs.Frames.{open_after};
ghost use Rattle.ifl_desc.specs.Ends.{IsDriver, room_of};
ghost use Rattle.ifl_desc.specs.Calls.{Posts, Flushes, Credits, Reclaims};

use crate::desc::Desc;
use crate::ring::DescRing;

/// The driver's side of a descriptor ring, whatever threads may do with it. Every [`DescRing`] has it.
///
/// A method that a trait asks for may not call a function whose type parameter may cross threads by its trait, as a
/// [`DescRing`] may. So a queue stands on this trait, and says where it is a drainer that its ring may be shared.
pub trait DriverSide: Drop {
    /// The end that posts and reclaims.
    type Driver: Drop;

    ghost use Rattle.atomic_table.specs.Seated.{TableId};
    ghost use Rattle.ifl_desc.specs.Ends.{DriverSees};

    /// Which ring it is, and with it its size.
    ghost ring: { Self → TableId };

    ghost driver_sees: { Self.Driver → DriverSees };

    /// The number of slots.
    fn slots(&self) -> u32
        ensures { result ≡ (ring self.now).slots };

    /// How many more may be posted.
    fn avail(&self, end: &Self::Driver) -> u32
        requires { (driver_sees end.now).ring ≡ ring self.now }
        ensures number { result ≡ room_of (driver_sees end.now) }
        ensures lawful { IsDriver (driver_sees end.now) };

    /// Posts a descriptor.
    fn post(&self, end: &mut Self::Driver, d: Desc)
        requires ring { (driver_sees end.old).ring ≡ ring self.now }
        requires room { 0 < room_of (driver_sees end.old) }
        requires short { open_after 0 (driver_sees end.old).pending < 64 }
        ensures list { Posts (driver_sees end.old) d (driver_sees end.new) }
        ensures lawful { IsDriver (driver_sees end.new) };

    /// Rings the doorbell once for all that was posted.
    fn flush(&self, end: &mut Self::Driver)
        requires ring { (driver_sees end.old).ring ≡ ring self.now }
        requires whole { open_after 0 (driver_sees end.old).pending ≡ 0 }
        ensures list { Flushes (driver_sees end.old) (driver_sees end.new) }
        ensures lawful { IsDriver (driver_sees end.new) };

    /// How many more are known to be returned than before.
    fn credits(&self, end: &mut Self::Driver) -> u32
        requires { (driver_sees end.old).ring ≡ ring self.now }
        ensures list { Credits (driver_sees end.old) result (driver_sees end.new) }
        ensures lawful { IsDriver (driver_sees end.new) };

    /// The oldest descriptor that was not reclaimed, as it was returned.
    fn reclaim(&self, end: &mut Self::Driver) -> Option<Desc>
        requires { (driver_sees end.old).ring ≡ ring self.now }
        ensures list { Reclaims (driver_sees end.old) result (driver_sees end.new) }
        ensures lawful { IsDriver (driver_sees end.new) };
}

impl<R: DescRing> DriverSide for R {
    type Driver = R::Driver;

    ghost ring = { R.ring };

    ghost driver_sees = { R.driver_sees };

    fn slots(&self) -> u32 {
        DescRing::size(self)
    }

    fn avail(&self, end: &R::Driver) -> u32 {
        DescRing::avail(self, end)
    }

    fn post(&self, end: &mut R::Driver, d: Desc) {
        DescRing::post(self, end, d);
    }

    fn flush(&self, end: &mut R::Driver) {
        DescRing::flush(self, end);
    }

    fn credits(&self, end: &mut R::Driver) -> u32 {
        DescRing::credits(self, end)
    }

    fn reclaim(&self, end: &mut R::Driver) -> Option<Desc> {
        DescRing::reclaim(self, end)
    }
}
