//! The ring.
use crate::closed::WritebackClosed;
use crate::ends::{WritebackDevice, WritebackDriver};
use crate::plays::{Hears, Learns, Returns, Rings, Writeback};
use atomic_table::Table;
use ifl_desc::{
    DESC_MAX, DESC_MIN, Desc, DescFault, DescRing, OfDevice, OfDriver, Ruled, View, gather,
    let_meet, new_ends,
};
use std::alloc::Global;
use std::marker::Model;

type Rule = Ruled<Writeback>;

const BELL: usize = 0;

const HEAD: usize = 1;

/// A ring with a doorbell and a head. A descriptor's slot is its number modulo the size.
#[derive(Drop)]
pub struct WritebackRing {
    table: Table<Option<Desc>, View, u32, Rule, Global>,
    size: u32,
    // Empty, with room for all that may be left, which `close` needs.
    room: Vec<Desc>,
}

impl Model for WritebackRing {
    ghost use Rattle.std.specs.Prelude.{◌≡◌, ◌≤◌, ◌+◌, [], vec_capacity};
    ghost use Rattle.atomic_table.specs.Seated.{TableId};

    ghost Value = { TableId };

    ghost view = { λ r. r.table.shared.table_id };

    ghost invariant = { λ r. (r.table.shared.table_id.words ≡ 2) × (r.table.shared.table_id.slots ≡ r.size) × (r.table.shared.key ≡ r.size) × (8 ≤ r.size) × (r.size ≤ 32768) × (r.room.items ≡ []) × (r.size + r.size ≤ vec_capacity r.room) };
}

impl DescRing for WritebackRing {
    type Driver = WritebackDriver;

    type Device = WritebackDevice;

    type Closed = WritebackClosed;

    ghost ring = { λ r. r };

    ghost driver_sees = { λ d. d };

    ghost device_sees = { λ d. d };

    fn make(
        alloc: Global,
        size: u32,
    ) -> Result<(WritebackRing, WritebackDriver, WritebackDevice), DescFault> {
        if size < DESC_MIN || size > DESC_MAX {
            return Err(DescFault::BadSize(size));
        }
        let Ok(room) = Vec::with_capacity(alloc, 2 * size as usize) else {
            return Err(DescFault::Memory);
        };
        match Table::vacant(alloc, &[0, 0], size as usize, &size) {
            Ok((table, seat)) => {
                let (driver, device) = new_ends(&table.shared, seat, size);
                Ok((
                    WritebackRing { table, size, room },
                    WritebackDriver { rack: driver },
                    WritebackDevice { rack: device },
                ))
            }
            Err(_) => Err(DescFault::Memory),
        }
    }

    fn size(&self) -> u32 {
        self.size
    }

    fn avail(&self, end: &WritebackDriver) -> u32 {
        end.rack.bare - 1
    }

    fn post(&self, end: &mut WritebackDriver, d: Desc) {
        end.rack.place::<OfDriver, Rule>(&self.table.shared, d);
    }

    fn flush(&self, end: &mut WritebackDriver) {
        let new = (end.rack.first + end.rack.put) % end.rack.size;
        self.table
            .shared
            .store::<Rings>(&mut end.rack.seat, BELL, new as u64);
        end.rack.first = new;
        end.rack.put = 0;
    }

    fn credits(&self, end: &mut WritebackDriver) -> u32 {
        let found = self.table.shared.load::<Learns>(&mut end.rack.seat, HEAD) as u32;
        let known = (end.rack.first + end.rack.put + end.rack.bare + end.rack.left) % end.rack.size;
        let more = (found + (end.rack.size - known)) % end.rack.size;
        end.rack.turn_all(more);
        end.rack.left += more;
        more
    }

    fn reclaim(&self, end: &mut WritebackDriver) -> Option<Desc> {
        if end.rack.left == 0 {
            return None;
        }
        Some(end.rack.take::<OfDriver, Rule>(&self.table.shared))
    }

    fn fetch(&self, end: &mut WritebackDevice) -> u32 {
        let found = self.table.shared.load::<Hears>(&mut end.rack.seat, BELL) as u32;
        let known = (end.rack.first + end.rack.put + end.rack.bare + end.rack.left) % end.rack.size;
        let more = (found + (end.rack.size - known)) % end.rack.size;
        end.rack.turn_all(more);
        end.rack.left += more;
        more
    }

    fn doorbell(&self, end: &WritebackDevice) -> u32 {
        (end.rack.first + end.rack.put + end.rack.bare + end.rack.left) % end.rack.size
    }

    fn next(&self, end: &mut WritebackDevice) -> Option<Desc> {
        if end.rack.left == 0 {
            return None;
        }
        Some(end.rack.take::<OfDevice, Rule>(&self.table.shared))
    }

    fn complete(&self, end: &mut WritebackDevice, d: Desc) {
        let last = d.last;
        end.rack.place::<OfDevice, Rule>(&self.table.shared, d);
        if last {
            let new = (end.rack.first + end.rack.put) % end.rack.size;
            self.table
                .shared
                .store::<Returns>(&mut end.rack.seat, HEAD, new as u64);
            end.rack.first = new;
            end.rack.put = 0;
        }
    }

    fn meet(&self, driver: &mut WritebackDriver, device: &mut WritebackDevice) {
        let_meet(&self.table.shared, &mut driver.rack, &mut device.rack);
    }

    fn close(self, driver: WritebackDriver, device: WritebackDevice) -> WritebackClosed {
        let mut driver = driver;
        let mut device = device;
        self.meet(&mut driver, &mut device);
        self.credits(&mut driver);
        self.fetch(&mut device);
        let WritebackRing {
            table,
            size: _,
            room,
        } = self;
        let WritebackDriver { rack } = driver;
        let WritebackDevice { rack: other } = device;
        WritebackClosed {
            remains: gather(&table.shared, rack, other, room),
        }
    }
}
