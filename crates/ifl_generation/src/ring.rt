//! The ring.
ghost use Rattle.std.specs.Prelude.{◌≡◌, ◌≤◌};
ghost use Rattle.ifl_desc.specs.Ends.{IsDriver};
ghost use Rattle.ifl_desc.specs.Calls.{LooksForFrame};

use crate::closed::GenerationClosed;
use crate::ends::{GenerationDevice, GenerationDriver};
use crate::lap::Lap;
use crate::plays::{Generation, Hears, LooksAt, Returns, Rings};
use atomic_table::Table;
use ifl_desc::{
    DESC_MAX, DESC_MIN, Desc, DescFault, DescRing, OfDevice, OfDriver, Ruled, View, gather,
    let_meet, new_ends,
};
use std::alloc::Global;
use std::marker::Model;

type Rule = Ruled<Generation>;

const BELL: usize = 0;

/// A ring with a doorbell and as many completion entries as slots. A descriptor's slot is its number modulo the size.
#[derive(Drop)]
pub struct GenerationRing {
    table: Table<Option<Desc>, View, u32, Rule, Global>,
    size: u32,
    // Empty, with room for all that may be left, which `close` needs.
    room: Vec<Desc>,
}

impl Model for GenerationRing {
    ghost use Rattle.std.specs.Prelude.{◌≡◌, ◌≤◌, ◌+◌, [], vec_capacity};
    ghost use Rattle.atomic_table.specs.Seated.{TableId};

    ghost Value = { TableId };

    ghost view = { λ r. r.table.shared.table_id };

    ghost invariant = { λ r. (r.table.shared.table_id.words ≡ r.size + 1) × (r.table.shared.table_id.slots ≡ r.size) × (r.table.shared.key ≡ r.size) × (8 ≤ r.size) × (r.size ≤ 32768) × (r.room.items ≡ []) × (r.size + r.size ≤ vec_capacity r.room) };
}

impl GenerationRing {
    // Looks at the next completion entry. Where it bears the generation of this lap, reads it and counts the frame.
    fn count_frame(&self, end: &mut GenerationDriver) -> u32
        requires { end.old.ring ≡ self.now }
        ensures list { LooksForFrame end.old result end.new }
        ensures lawful { IsDriver end.old × IsDriver end.new }
        ensures size { self.now.slots ≤ 32768 }
    {
        let entry = 1 + end.lap.entry as usize;
        let found = self.table.shared.load::<LooksAt>(&mut end.rack.seat, entry);
        if found % 2 != end.lap.generation as u64 {
            return 0;
        }
        let last = (found / 65536) as u32;
        let known = (end.rack.first + end.rack.put + end.rack.bare + end.rack.left) % end.rack.size;
        let more = (last + 1 + (end.rack.size - known)) % end.rack.size;
        end.rack.turn_all(more);
        end.rack.left += more;
        end.lap = end.lap.next(end.rack.size);
        more
    }
}

impl DescRing for GenerationRing {
    type Driver = GenerationDriver;

    type Device = GenerationDevice;

    type Closed = GenerationClosed;

    ghost ring = { λ r. r };

    ghost driver_sees = { λ d. d };

    ghost device_sees = { λ d. d };

    fn make(
        alloc: Global,
        size: u32,
    ) -> Result<(GenerationRing, GenerationDriver, GenerationDevice), DescFault> {
        if size < DESC_MIN || size > DESC_MAX {
            return Err(DescFault::BadSize(size));
        }
        let Ok(room) = Vec::with_capacity(alloc, 2 * size as usize) else {
            return Err(DescFault::Memory);
        };
        let Ok(words) = vec![in alloc; 0; 1 + size as usize] else {
            return Err(DescFault::Memory);
        };
        match Table::vacant(alloc, &words, size as usize, &size) {
            Ok((table, seat)) => {
                let (driver, device) = new_ends(&table.shared, seat, size);
                Ok((
                    GenerationRing { table, size, room },
                    GenerationDriver {
                        rack: driver,
                        lap: Lap::first(size),
                    },
                    GenerationDevice {
                        rack: device,
                        lap: Lap::first(size),
                    },
                ))
            }
            Err(_) => Err(DescFault::Memory),
        }
    }

    fn size(&self) -> u32 {
        self.size
    }

    fn avail(&self, end: &GenerationDriver) -> u32 {
        end.rack.bare - 1
    }

    fn post(&self, end: &mut GenerationDriver, d: Desc) {
        end.rack.place::<OfDriver, Rule>(&self.table.shared, d);
    }

    fn flush(&self, end: &mut GenerationDriver) {
        let new = (end.rack.first + end.rack.put) % end.rack.size;
        self.table
            .shared
            .store::<Rings>(&mut end.rack.seat, BELL, new as u64);
        end.rack.first = new;
        end.rack.put = 0;
    }

    fn credits(&self, end: &mut GenerationDriver) -> u32 {
        let mut all = 0;
        let mut more = self.count_frame(end);
        while more != 0 {
            all += more;
            more = self.count_frame(end);
        }
        all
    }

    fn reclaim(&self, end: &mut GenerationDriver) -> Option<Desc> {
        if end.rack.left == 0 {
            return None;
        }
        Some(end.rack.take::<OfDriver, Rule>(&self.table.shared))
    }

    fn fetch(&self, end: &mut GenerationDevice) -> u32 {
        let found = self.table.shared.load::<Hears>(&mut end.rack.seat, BELL) as u32;
        let known = (end.rack.first + end.rack.put + end.rack.bare + end.rack.left) % end.rack.size;
        let more = (found + (end.rack.size - known)) % end.rack.size;
        end.rack.turn_all(more);
        end.rack.left += more;
        more
    }

    fn doorbell(&self, end: &GenerationDevice) -> u32 {
        (end.rack.first + end.rack.put + end.rack.bare + end.rack.left) % end.rack.size
    }

    fn next(&self, end: &mut GenerationDevice) -> Option<Desc> {
        if end.rack.left == 0 {
            return None;
        }
        Some(end.rack.take::<OfDevice, Rule>(&self.table.shared))
    }

    fn complete(&self, end: &mut GenerationDevice, d: Desc) {
        let last = d.last;
        end.rack.place::<OfDevice, Rule>(&self.table.shared, d);
        if last {
            let entry = 1 + end.lap.entry as usize;
            let slot = (end.rack.first + end.rack.put - 1) % end.rack.size;
            let word = end.lap.generation as u64 + 65536 * slot as u64;
            self.table
                .shared
                .store::<Returns>(&mut end.rack.seat, entry, word);
            end.rack.first = (end.rack.first + end.rack.put) % end.rack.size;
            end.rack.put = 0;
            end.lap = end.lap.next(end.rack.size);
        }
    }

    fn meet(&self, driver: &mut GenerationDriver, device: &mut GenerationDevice) {
        let_meet(&self.table.shared, &mut driver.rack, &mut device.rack);
    }

    fn close(self, driver: GenerationDriver, device: GenerationDevice) -> GenerationClosed {
        let mut driver = driver;
        let mut device = device;
        self.meet(&mut driver, &mut device);
        self.credits(&mut driver);
        self.fetch(&mut device);
        let GenerationRing {
            table,
            size: _,
            room,
        } = self;
        let GenerationDriver { rack, lap: _ } = driver;
        let GenerationDevice {
            rack: other,
            lap: _,
        } = device;
        GenerationClosed {
            remains: gather(&table.shared, rack, other, room),
        }
    }
}
