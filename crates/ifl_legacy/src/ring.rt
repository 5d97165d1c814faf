//! The ring.
ghost use Rattle.std.specs.Prelude.{◌≡◌, ◌≤◌};
ghost use Rattle.ifl_desc.specs.Ends.{IsDriver};
ghost use Rattle.ifl_desc.specs.Calls.{LooksForFrame};

use crate::closed::LegacyClosed;
use crate::ends::{LegacyDevice, LegacyDriver};
use crate::plays::{Clears, Hears, Legacy, Peeks, Returns, Rings};
use atomic_table::Table;
use ifl_desc::{
    DESC_MAX, DESC_MIN, Desc, DescFault, DescRing, OfDevice, OfDriver, Ruled, View, gather,
    let_meet, new_ends,
};
use std::alloc::Global;
use std::marker::Model;

type Rule = Ruled<Legacy>;

const BELL: usize = 0;

/// A ring with a doorbell and a status word for each slot. A descriptor's slot is its number modulo the size.
#[derive(Drop)]
pub struct LegacyRing {
    table: Table<Option<Desc>, View, u32, Rule, Global>,
    size: u32,
    // Empty, with room for all that may be left, which `close` needs.
    room: Vec<Desc>,
}

impl Model for LegacyRing {
    ghost use Rattle.std.specs.Prelude.{◌≡◌, ◌≤◌, ◌+◌, [], vec_capacity};
    ghost use Rattle.atomic_table.specs.Seated.{TableId};

    ghost Value = { TableId };

    ghost view = { λ r. r.table.shared.table_id };

    ghost invariant = { λ r. (r.table.shared.table_id.words ≡ r.size + 1) × (r.table.shared.table_id.slots ≡ r.size) × (r.table.shared.key ≡ r.size) × (8 ≤ r.size) × (r.size ≤ 32768) × (r.room.items ≡ []) × (r.size + r.size ≤ vec_capacity r.room) };
}

impl LegacyRing {
    // Looks at the status word of the first descriptor that is not counted. Where it shows a frame, clears it and
    // counts the frame.
    fn count_frame(&self, end: &mut LegacyDriver) -> u32
        requires { end.old.ring ≡ self.now }
        ensures list { LooksForFrame end.old result end.new }
        ensures lawful { IsDriver end.old × IsDriver end.new }
        ensures size { self.now.slots ≤ 32768 }
    {
        let known = (end.rack.first + end.rack.put + end.rack.bare + end.rack.left) % end.rack.size;
        let status = 1 + known as usize;
        let found = self.table.shared.load::<Peeks>(&mut end.rack.seat, status) as u32;
        if found == 0 {
            return 0;
        }
        self.table
            .shared
            .store::<Clears>(&mut end.rack.seat, status, 0);
        end.rack.turn_all(found);
        end.rack.left += found;
        found
    }
}

impl DescRing for LegacyRing {
    type Driver = LegacyDriver;

    type Device = LegacyDevice;

    type Closed = LegacyClosed;

    ghost ring = { λ r. r };

    ghost driver_sees = { λ d. d };

    ghost device_sees = { λ d. d };

    fn make(
        alloc: Global,
        size: u32,
    ) -> Result<(LegacyRing, LegacyDriver, LegacyDevice), DescFault> {
        if size < DESC_MIN || size > DESC_MAX {
            return Err(DescFault::BadSize(size));
        }
        let Ok(room) = Vec::with_capacity(alloc, 2 * size as usize) else {
            return Err(DescFault::Memory);
        };
        let Ok(words) = vec![in alloc; 0; 1 + size as usize] else {
            return Err(DescFault::Memory);
        };
        match Table::vacant(alloc, &words, size as usize, &size) {
            Ok((table, seat)) => {
                let (driver, device) = new_ends(&table.shared, seat, size);
                Ok((
                    LegacyRing { table, size, room },
                    LegacyDriver { rack: driver },
                    LegacyDevice { rack: device },
                ))
            }
            Err(_) => Err(DescFault::Memory),
        }
    }

    fn size(&self) -> u32 {
        self.size
    }

    fn avail(&self, end: &LegacyDriver) -> u32 {
        end.rack.bare - 1
    }

    fn post(&self, end: &mut LegacyDriver, d: Desc) {
        end.rack.place::<OfDriver, Rule>(&self.table.shared, d);
    }

    fn flush(&self, end: &mut LegacyDriver) {
        let new = (end.rack.first + end.rack.put) % end.rack.size;
        self.table
            .shared
            .store::<Rings>(&mut end.rack.seat, BELL, new as u64);
        end.rack.first = new;
        end.rack.put = 0;
    }

    fn credits(&self, end: &mut LegacyDriver) -> u32 {
        let mut all = 0;
        let mut more = self.count_frame(end);
        while more != 0 {
            all += more;
            more = self.count_frame(end);
        }
        all
    }

    fn reclaim(&self, end: &mut LegacyDriver) -> Option<Desc> {
        if end.rack.left == 0 {
            return None;
        }
        Some(end.rack.take::<OfDriver, Rule>(&self.table.shared))
    }

    fn fetch(&self, end: &mut LegacyDevice) -> u32 {
        let found = self.table.shared.load::<Hears>(&mut end.rack.seat, BELL) as u32;
        let known = (end.rack.first + end.rack.put + end.rack.bare + end.rack.left) % end.rack.size;
        let more = (found + (end.rack.size - known)) % end.rack.size;
        end.rack.turn_all(more);
        end.rack.left += more;
        more
    }

    fn doorbell(&self, end: &LegacyDevice) -> u32 {
        (end.rack.first + end.rack.put + end.rack.bare + end.rack.left) % end.rack.size
    }

    fn next(&self, end: &mut LegacyDevice) -> Option<Desc> {
        if end.rack.left == 0 {
            return None;
        }
        Some(end.rack.take::<OfDevice, Rule>(&self.table.shared))
    }

    fn complete(&self, end: &mut LegacyDevice, d: Desc) {
        let last = d.last;
        end.rack.place::<OfDevice, Rule>(&self.table.shared, d);
        if last {
            let status = 1 + end.rack.first as usize;
            self.table
                .shared
                .store::<Returns>(&mut end.rack.seat, status, end.rack.put as u64);
            end.rack.first = (end.rack.first + end.rack.put) % end.rack.size;
            end.rack.put = 0;
        }
    }

    fn meet(&self, driver: &mut LegacyDriver, device: &mut LegacyDevice) {
        let_meet(&self.table.shared, &mut driver.rack, &mut device.rack);
    }

    fn close(self, driver: LegacyDriver, device: LegacyDevice) -> LegacyClosed {
        let mut driver = driver;
        let mut device = device;
        self.meet(&mut driver, &mut device);
        self.credits(&mut driver);
        self.fetch(&mut device);
        let LegacyRing {
            table,
            size: _,
            room,
        } = self;
        let LegacyDriver { rack } = driver;
        let LegacyDevice { rack: other } = device;
        LegacyClosed {
            remains: gather(&table.shared, rack, other, room),
        }
    }
}
