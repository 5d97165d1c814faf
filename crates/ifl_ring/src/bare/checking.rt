//! Taking over what another consumer left.
ghost use Rattle.std.specs.Prelude.{◌⊎◌, ◌≡◌, ◌≢◌, ◌≤◌, [], IfOk, IfErr};
ghost use Rattle.ifl_ring.specs.Tells.{SeesWord, Same, Handed, TakesOver};
ghost use Rattle.ifl_ring.specs.Calls.{IsChecked};
ghost use Rattle.ifl_ring.specs.Law.{Rests};
ghost use Rattle.ifl_ring.specs.Tally.{TallyRises};
ghost use Rattle.ifl_ring.specs.Trails.{Trails};
ghost use Rattle.ifl_ringcore.specs.declared.counters.Counters.{Counters};
ghost use Rattle.atomic_table.specs.Table.{rest};
ghost use Rattle.ifl_ring.specs.Law.{IsAtRest};
ghost use Rattle.ifl_base.specs.Word.{pack};
ghost use Rattle.ifl_ringcore.specs.State.{first_state};
ghost use Rattle.ifl_ringcore.specs.History.{state_after};
ghost use Rattle.ifl_base.specs.Word.{IsWithin};

use crate::answers::Checked;
use crate::bare::{BareRing, BareSeat, read};
use crate::counted::count_drained;
use crate::drainer::{Drainer, RingItem};
use crate::place::Place;
use crate::plays::TakeOver;
use crate::word::is_left;
use ifl_base::{Flag, RingWord};
use ifl_ringcore::Counters;
use ifl_ringcore::words::distance;
use std::sync::Wait;

impl<D: Drainer> BareRing<D> {
    /// Tries to take the drain over. At `Err` it found another word.
    pub fn take_over(&self, seat: &mut BareSeat<D>, w: &RingWord, budget: u32) -> Result<(), u64>
        requires table { seat.old.table_id ≡ self.now.table.shared.table_id }
        requires rest { IsAtRest seat.old.me.0.known × (seat.old.me.0.told ≡ []) × (seat.old.me.1 ≡ []) }
        requires word { IsWithin self.now.size w.now × ((w.now.flag ≡ Flag.Stalled) ⊎ (w.now.flag ≡ Flag.Abdicated)) × (w.now.tail ≡ w.now.head) }
        ensures same { (seat.new.table_id ≡ seat.old.table_id) × (seat.new.id ≡ seat.old.id) }
        ensures ok { IfOk result (λ _. Same seat.old.me.0 seat.new.me.0 × TakesOver self.now.size budget seat.old.me.0.known (pack w.now) seat.new.me.0.known × Handed D.Item.meaning D.origin D.settled D.full D.stands_for self.now.size (state_after first_state seat.new.me.0.known.seen).released (state_after first_state seat.new.me.0.known.seen).items seat.new.me.0.origin seat.new.me.1) }
        ensures err { IfErr result (λ x. SeesWord self.now.size seat.old.me.0.known x seat.new.me.0.known × (seat.new.me.1 ≡ seat.old.me.1) × Same seat.old.me.0 seat.new.me.0 × (x ≢ pack w.now)) }
    {
        let next = RingWord {
            head: w.head,
            tail: w.tail,
            cidx: w.cidx,
            flag: Flag::Busy,
        };
        let said = Place::Told(budget as u64);
        let old = w.pack();
        let found = self
            .table
            .shared
            .compare_exchange_with::<TakeOver<D>>(seat, 0, old, next.pack(), &said);
        if found == old { Ok(()) } else { Err(found) }
    }

    /// Consumes what was left, where items were left and no seat is about to publish. The tally counts this.
    pub fn check<R: Wait>(
        &self,
        rt: &R,
        seat: &mut BareSeat<D>,
        budget: u32,
        tally: &mut Counters,
    ) -> Checked
        requires table { seat.old.table_id ≡ self.now.table.shared.table_id }
        requires rest { Rests seat.old.me }
        requires budget { budget ≤ 65535 }
        ensures same { (seat.new.table_id ≡ seat.old.table_id) × (seat.new.id ≡ seat.old.id) }
        ensures rest { Rests seat.new.me }
        ensures trail { (es : _) × (x : Counters) × IsChecked budget result es × Trails self.now.size seat.old.me.0.known es x seat.new.me.0.known × TallyRises x tally.old tally.new }
    {
        let seen = self.look(seat);
        if is_left(&seen) {
            match self.take_over(seat, &seen, budget) {
                Err(found) => Checked::Lost {
                    seen: read(self.size, found),
                },
                Ok(()) => {
                    let items = distance(self.size, seen.cidx, seen.tail);
                    let (left, total) = self.drain(rt, seat, seen.cidx, items, budget, seen.flag);
                    count_drained(tally, seen.flag, left, total);
                    Checked::Drained { left, total }
                }
            }
        } else {
            Checked::NotNeeded { seen }
        }
    }
}
