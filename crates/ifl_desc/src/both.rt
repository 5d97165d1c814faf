//! What every adapter does with both ends of its ring: it makes them, lets them meet, and ends them.
ghost use Rattle.std.specs.Prelude.{◌≡◌, ◌+◌, ◌<◌, ◌≤◌, [], vec_capacity};
ghost use Rattle.ifl_desc.specs.Calls.{Meets};
ghost use Rattle.ifl_desc.specs.Closed.{HaveMet, Leaves, IsClosed};
ghost use Rattle.ifl_desc.specs.Ends.{IsNewDriver, IsNewDevice};
ghost use Rattle.ifl_desc.specs.Plays.{whole};
ghost use Rattle.ifl_desc.specs.Rule.{StaysTied};
ghost use Rattle.ifl_desc.specs.Sides.{DriverOk, DeviceOk, driver_of, device_of};

use crate::desc::Desc;
use crate::history::{OfDevice, OfDriver, View};
use crate::plays::{
    DeviceCatchesUp, DeviceRetires, DriverSaw, Fills, Gathers, Hearing, Notes, Parts, Unites,
};
use crate::rack::{EndSeat, Rack};
use crate::remains::Remains;
use crate::ruled::{RingWords, Ruled};
use atomic_table::Shared;

/// The table of a ring, as its ends step on it.
pub type RingTable<T> = Shared<Option<Desc>, View, u32, Ruled<T>>;

// All rings have the doorbell there.
const BELL: usize = 0;

/// Takes all slots out of a new table, and gives them to the driver's end. The other one is the device's.
pub fn new_ends<T: RingWords>(shared: &RingTable<T>, mut seat: EndSeat, size: u32) -> (Rack, Rack)
    requires table { (0 < shared.now.table_id.words) × (shared.now.table_id.slots ≡ size) × (shared.now.key ≡ size) × (0 < size) × (size ≤ 32768) }
    requires seat { (seat.table_id ≡ shared.now.table_id) × (seat.me ≡ (whole, [])) }
    requires stays { StaysTied (T.tie size) }
    ensures ends { DriverOk result.0 × DeviceOk result.1 }
    ensures new { IsNewDriver shared.now.table_id (driver_of result.0) × IsNewDevice shared.now.table_id (device_of result.1) }
    ensures sizes { (result.0.size ≡ size) × (result.1.size ≡ size) }
{
    shared.load::<Fills>(&mut seat, BELL);
    let other = shared.split_seat::<Parts>(&mut seat);
    let driver = Rack {
        seat,
        size,
        first: 0,
        put: 0,
        bare: size,
        left: 0,
    };
    let device = Rack {
        seat: other,
        size,
        first: 0,
        put: 0,
        bare: 0,
        left: 0,
    };
    (driver, device)
}

/// Lets each end hear what the other has seen. The driver hears and looks, and then the device hears of that look.
pub fn let_meet<T: RingWords>(shared: &RingTable<T>, driver: &mut Rack, device: &mut Rack)
    requires tables { (driver.old.seat.table_id ≡ shared.now.table_id) × (device.old.seat.table_id ≡ shared.now.table_id) }
    requires table { (0 < shared.now.table_id.words) × (shared.now.key ≡ shared.now.table_id.slots) }
    requires ends { DriverOk driver.old × DeviceOk device.old }
    requires stays { StaysTied (T.tie shared.now.table_id.slots) }
    ensures ends { DriverOk driver.new × DeviceOk device.new }
    ensures sizes { (driver.new.size ≡ driver.old.size) × (device.new.size ≡ device.old.size) }
    ensures list { Meets (driver_of driver.old) (device_of device.old) (driver_of driver.new) (device_of device.new) }
{
    let heard = shared.split_seat::<Notes>(&mut device.seat);
    shared.join_seat::<Hearing>(&mut driver.seat, heard);
    shared.load::<DriverSaw>(&mut driver.seat, BELL);
    let told = shared.split_seat::<Notes>(&mut driver.seat);
    shared.join_seat::<Hearing>(&mut device.seat, told);
    shared.load::<DeviceCatchesUp>(&mut device.seat, BELL);
}

/// Ends the ring of two ends that know all that the other sent. What is left comes to lie in `room`.
pub fn gather<T: RingWords>(
    shared: &RingTable<T>,
    driver: Rack,
    device: Rack,
    mut room: Vec<Desc>,
) -> Remains
    requires tables { (driver.seat.table_id ≡ shared.now.table_id) × (device.seat.table_id ≡ shared.now.table_id) }
    requires table { (0 < shared.now.table_id.words) × (shared.now.key ≡ shared.now.table_id.slots) }
    requires ends { DriverOk driver × DeviceOk device }
    requires met { HaveMet (driver_of driver) (device_of device) }
    requires room { (room.items ≡ []) × (driver.size + driver.size ≤ vec_capacity room) }
    requires stays { StaysTied (T.tie shared.now.table_id.slots) }
    ensures list { Leaves (driver_of driver) (device_of device) result }
    ensures lawful { IsClosed result }
{
    let mut driver = driver;
    let mut device = device;
    let size = driver.size;
    let pending = driver.put;
    driver.take_all::<OfDriver, Ruled<T>>(shared, &mut room);
    device.take_all::<OfDevice, Ruled<T>>(shared, &mut room);
    driver.unload::<OfDriver, Ruled<T>>(shared, &mut room);
    let mut seat = driver.seat;
    let mut last = device.seat;
    shared.load::<DeviceRetires>(&mut last, BELL);
    shared.join_seat::<Unites>(&mut seat, last);
    shared.load::<Gathers>(&mut seat, BELL);
    Remains::new(room, size, pending, seat)
}
