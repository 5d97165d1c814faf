//! Steps by which a consumer shows how far it has come.
ghost use Rattle.std.specs.Prelude.{true, false, ◌≡◌, ◌≢◌, ◌+◌, ◌<◌, ℕ, [], length, IfOk, IfErr};
ghost use Rattle.ifl_ring.specs.Tells.{SeesWord, Same, Handed, Leaves, Advances, Parked, MayPart};
ghost use Rattle.ifl_ring.specs.Draining.{Drives, EndsRound, IsOver};
ghost use Rattle.ifl_ring.specs.Tally.{drain_rise};
ghost use Rattle.ifl_ring.specs.Trails.{IsLived, IsRelease, Trails};
ghost use Rattle.ifl_ring.specs.Law.{IsAtRest};
ghost use Rattle.ifl_base.specs.Word.{pack};
ghost use Rattle.ifl_ringcore.specs.State.{first_state};
ghost use Rattle.ifl_ringcore.specs.History.{state_after};
ghost use Rattle.ifl_base.specs.Word.{IsWithin};

use crate::bare::{BareRing, BareSeat, read};
use crate::drainer::{Drainer, RingItem};
use crate::place::Place;
use crate::plays::{GoOn, Leave, See};
use crate::word::flag_to_set;
use ifl_base::{Flag, RingWord, advance};
use ifl_ringcore::words::{distance, is_busy};
use std::sync::Wait;

impl<D: Drainer> BareRing<D> {
    /// Tries to leave the drain: n places are given back, and the flag is set. At `Err` it found another word.
    pub fn leave(&self, seat: &mut BareSeat<D>, w: &RingWord, n: u32, flag: Flag) -> Result<(), u64>
        requires table { seat.old.table_id ≡ self.now.table.shared.table_id }
        requires word { IsWithin self.now.size w.now × (flag ≢ Flag.Busy) }
        requires count { n < self.now.size }
        requires parked { (p : Parked D.Item.meaning D.origin D.settled D.full D.stands_for self.now.size n seat.old.me) × MayPart self.now.size flag n p.consumer w.now × (flag ≡ Flag.Stalled → D.full p.outlet.value.drainer) }
        ensures same { (seat.new.table_id ≡ seat.old.table_id) × (seat.new.id ≡ seat.old.id) }
        ensures ok { IfOk result (λ _. Leaves self.now.size flag n seat.old.me.0.known (pack w.now) seat.new.me.0.known × (seat.new.me.1 ≡ []) × Same seat.old.me.0 seat.new.me.0) }
        ensures err { IfErr result (λ x. SeesWord self.now.size seat.old.me.0.known x seat.new.me.0.known × (seat.new.me.1 ≡ seat.old.me.1) × Same seat.old.me.0 seat.new.me.0) }
    {
        let next = RingWord {
            head: w.head,
            tail: w.tail,
            cidx: advance(self.size, w.cidx, n),
            flag,
        };
        let said = Place::Parting(n, flag);
        let old = w.pack();
        let found = self
            .table
            .shared
            .compare_exchange_with::<Leave>(seat, 0, old, next.pack(), &said);
        if found == old { Ok(()) } else { Err(found) }
    }

    /// Tries to give n places back and to go on with all that is published. At `Err` it found another word.
    pub fn go_on(&self, seat: &mut BareSeat<D>, w: &RingWord, n: u32) -> Result<(), u64>
        requires table { seat.old.table_id ≡ self.now.table.shared.table_id }
        requires word { IsWithin self.now.size w.now × (w.now.flag ≡ Flag.Busy) }
        requires count { n < self.now.size }
        requires parked { (p : Parked D.Item.meaning D.origin D.settled D.full D.stands_for self.now.size n seat.old.me) × MayPart self.now.size Flag.Busy n p.consumer w.now }
        ensures same { (seat.new.table_id ≡ seat.old.table_id) × (seat.new.id ≡ seat.old.id) }
        ensures ok { IfOk result (λ _. Same seat.old.me.0 seat.new.me.0 × Advances self.now.size n seat.old.me.0.known (pack w.now) seat.new.me.0.known × Handed D.Item.meaning D.origin D.settled D.full D.stands_for self.now.size (state_after first_state seat.new.me.0.known.seen).released (state_after first_state seat.new.me.0.known.seen).items seat.new.me.0.origin seat.new.me.1) }
        ensures err { IfErr result (λ x. SeesWord self.now.size seat.old.me.0.known x seat.new.me.0.known × (seat.new.me.1 ≡ seat.old.me.1) × Same seat.old.me.0 seat.new.me.0) }
    {
        let next = RingWord {
            head: w.head,
            tail: w.tail,
            cidx: advance(self.size, w.cidx, n),
            flag: w.flag,
        };
        let said = Place::Told(n as u64);
        let old = w.pack();
        let found = self
            .table
            .shared
            .compare_exchange_with::<GoOn<D>>(seat, 0, old, next.pack(), &said);
        if found == old { Ok(()) } else { Err(found) }
    }

    /// Tries to give n places back and to set the flag: whether the word was the one expected.
    pub fn give(&self, seat: &mut BareSeat<D>, w: &RingWord, n: u32, flag: Flag) -> bool
        requires table { seat.old.table_id ≡ self.now.table.shared.table_id }
        requires word { IsWithin self.now.size w.now × (w.now.flag ≡ Flag.Busy) }
        requires count { n < self.now.size }
        requires parked { (p : Parked D.Item.meaning D.origin D.settled D.full D.stands_for self.now.size n seat.old.me) × MayPart self.now.size flag n p.consumer w.now × (flag ≡ Flag.Stalled → D.full p.outlet.value.drainer) }
        ensures same { (seat.new.table_id ≡ seat.old.table_id) × (seat.new.id ≡ seat.old.id) × Same seat.old.me.0 seat.new.me.0 }
        ensures left { result ≡ true → flag ≢ Flag.Busy → Leaves self.now.size flag n seat.old.me.0.known (pack w.now) seat.new.me.0.known × (seat.new.me.1 ≡ []) }
        ensures on { result ≡ true → flag ≡ Flag.Busy → Advances self.now.size n seat.old.me.0.known (pack w.now) seat.new.me.0.known × Handed D.Item.meaning D.origin D.settled D.full D.stands_for self.now.size (state_after first_state seat.new.me.0.known.seen).released (state_after first_state seat.new.me.0.known.seen).items seat.new.me.0.origin seat.new.me.1 }
        ensures looked { result ≡ false → (x : ℕ) × SeesWord self.now.size seat.old.me.0.known x seat.new.me.0.known × (seat.new.me.1 ≡ seat.old.me.1) }
    {
        if is_busy(flag) {
            match self.go_on(seat, w, n) {
                Ok(()) => true,
                Err(_) => false,
            }
        } else {
            match self.leave(seat, w, n, flag) {
                Ok(()) => true,
                Err(_) => false,
            }
        }
    }

    /// Gives n places back: the flag that it set, and where the consumer goes on.
    pub fn settle<R: Wait>(
        &self,
        rt: &R,
        seat: &mut BareSeat<D>,
        n: u32,
        stalled: bool,
        over: bool,
    ) -> (Flag, u16, u32)
        requires table { seat.old.table_id ≡ self.now.table.shared.table_id }
        requires lived { IsLived self.now.size seat.old.me.0.known }
        requires parked { (p : Parked D.Item.meaning D.origin D.settled D.full D.stands_for self.now.size n seat.old.me) × EndsRound stalled (D.full p.outlet.value.drainer) n (length p.items) p.consumer × IsOver over n p.consumer }
        ensures same { (seat.new.table_id ≡ seat.old.table_id) × (seat.new.id ≡ seat.old.id) }
        ensures trail { (p : Parked D.Item.meaning D.origin D.settled D.full D.stands_for self.now.size n seat.old.me) → (es : _) × IsRelease result.0 n es × Trails self.now.size seat.old.me.0.known es (drain_rise p.consumer.from result.0 (p.consumer.total + n)) seat.new.me.0.known }
        ensures left { result.0 ≢ Flag.Busy → IsAtRest seat.new.me.0.known × (seat.new.me.0.told ≡ []) × (seat.new.me.1 ≡ []) }
        ensures on { (p : Parked D.Item.meaning D.origin D.settled D.full D.stands_for self.now.size n seat.old.me) → result.0 ≡ Flag.Busy
            → (result.1 < self.now.size) × (result.2 < self.now.size)
            × ((v : Drives D.Item.meaning D.origin D.settled D.stands_for self.now.size result.2 result.1 seat.new.me) × (v.consumer.total ≡ p.consumer.total + n) × (v.consumer.budget ≡ p.consumer.budget) × (v.consumer.from ≡ p.consumer.from)) }
    {
        for _ in rt.forever() {
            let word = self.table.shared.load::<See>(seat, 0);
            let w = read(self.size, word);
            let flag = flag_to_set(self.size, &w, n, stalled, over);
            if self.give(seat, &w, n, flag) {
                let at = advance(self.size, w.cidx, n);
                return (flag, at, distance(self.size, at, w.tail));
            }
        }
        unreachable!()
    }
}
