//! A seat reserves places, or is refused.
ghost use Rattle.std.specs.Prelude.{◌≡◌, ◌<◌, ◌≤◌, [], ◌∷◌, IfOk, IfErr};
ghost use Rattle.ifl_base.specs.Space.{space};
ghost use Rattle.ifl_base.specs.Word.{pack, IsWithin};
ghost use Rattle.ifl_ringcore.specs.declared.history.Entry.{Entry};
ghost use Rattle.ifl_ringcore.specs.declared.history.Step.TheVariants as step;
ghost use Rattle.ifl_ringcore.specs.Conditions.{IsBatch};
ghost use Rattle.ifl_ringcore.specs.Counters.{nothing_counted};
ghost use Rattle.ifl_ring.specs.Calls.{AreLooks, EndsRefused, EndsReserved, Finds, publishing};
ghost use Rattle.ifl_ring.specs.Law.{Rests};
ghost use Rattle.ifl_ring.specs.Publishing.{HasPlaces};
ghost use Rattle.ifl_ring.specs.Seats.{entry, last_word, Made};
ghost use Rattle.ifl_ring.specs.Trails.{IsLived, Trails};

use crate::bare::{BareRing, BareSeat, read};
use crate::drainer::{Drainer, RingItem};
use crate::place::Place;
use crate::plays::Refuse;
use ifl_base::{RingWord, space};
use std::sync::Wait;
use std::thread::yield_now;

// How often a seat looks, before each try to reserve, for a word in which no seat is about to publish, while there is room.
const LOOKS: u32 = 64;

impl<D: Drainer> BareRing<D> {
    /// A step that finds any word: in one with no room for `n` items the seat is refused, in others it looks.
    pub fn refuse(&self, seat: &mut BareSeat<D>, n: u32) -> RingWord
        requires table { seat.old.table_id ≡ self.now.table.shared.table_id }
        requires rest { Rests seat.old.me }
        requires batch { IsBatch n }
        ensures same { (seat.new.table_id ≡ seat.old.table_id) × (seat.new.id ≡ seat.old.id) }
        ensures rest { Rests seat.new.me }
        ensures within { IsWithin self.now.size result }
        ensures shown { result ≡ last_word self.now.size seat.new.me.0.known }
        ensures refused { space self.now.size result ≤ n → Made self.now.size seat.old.me.0.known (entry seat.old.me.0.known.number (pack result) (step.Refuse n)) seat.new.me.0.known }
        ensures looked { n < space self.now.size result → Made self.now.size seat.old.me.0.known (entry seat.old.me.0.known.number (pack result) step.Look) seat.new.me.0.known }
    {
        let said = Place::Told(n as u64);
        let word = self
            .table
            .shared
            .compare_exchange_with::<Refuse>(seat, 0, u64::MAX, 0, &said);
        read(self.size, word)
    }

    /// The word that was seen, or, while there is room for `n` items and some seat is about to publish, one that a further
    /// look finds. It looks again for some time only, and not at all where there is no room: a refusal waits for nobody.
    pub fn look_for_quiet(&self, seat: &mut BareSeat<D>, seen: RingWord, n: u32) -> RingWord
        requires table { seat.old.table_id ≡ self.now.table.shared.table_id }
        requires rest { Rests seat.old.me }
        requires lived { IsLived self.now.size seat.old.me.0.known }
        requires within { IsWithin self.now.size seen }
        requires shown { seen ≡ last_word self.now.size seat.old.me.0.known }
        ensures same { (seat.new.table_id ≡ seat.old.table_id) × (seat.new.id ≡ seat.old.id) }
        ensures rest { Rests seat.new.me }
        ensures within { IsWithin self.now.size result }
        ensures shown { result ≡ last_word self.now.size seat.new.me.0.known }
        ensures trail { (es : _) × AreLooks es × Trails self.now.size seat.old.me.0.known es nothing_counted seat.new.me.0.known }
    {
        let mut seen = seen;
        for _ in 0..LOOKS {
            if seen.head == seen.tail || space(self.size, &seen) <= n {
                return seen;
            }
            yield_now();
            seen = self.look(seat);
        }
        seen
    }

    /// A word with room for `n` items: the one that was seen, or one that is found now. At `Err` that one has
    /// none, and the seat is refused.
    pub fn find_room(
        &self,
        seat: &mut BareSeat<D>,
        seen: RingWord,
        n: u32,
    ) -> Result<RingWord, RingWord>
        requires table { seat.old.table_id ≡ self.now.table.shared.table_id }
        requires rest { Rests seat.old.me }
        requires lived { IsLived self.now.size seat.old.me.0.known }
        requires batch { IsBatch n }
        requires within { IsWithin self.now.size seen }
        requires shown { seen ≡ last_word self.now.size seat.old.me.0.known }
        ensures same { (seat.new.table_id ≡ seat.old.table_id) × (seat.new.id ≡ seat.old.id) }
        ensures rest { Rests seat.new.me }
        ensures ok { IfOk result (λ w. IsWithin self.now.size w × (n < space self.now.size w) × (w ≡ last_word self.now.size seat.new.me.0.known) × ((es : _) × AreLooks es × Trails self.now.size seat.old.me.0.known es nothing_counted seat.new.me.0.known)) }
        ensures err { IfErr result (λ w. (space self.now.size w ≤ n) × ((e : Entry) × Finds (step.Refuse n) w e × Trails self.now.size seat.old.me.0.known (e ∷ []) (record nothing_counted { drops = n }) seat.new.me.0.known) × IsWithin self.now.size w) }
    {
        if n < space(self.size, &seen) {
            return Ok(seen);
        }
        let found = self.refuse(seat, n);
        if n < space(self.size, &found) {
            Ok(found)
        } else {
            Err(found)
        }
    }

    /// Reserves `n` places, from the place on that is answered. At `Err` the word had no room for them.
    pub fn claim<R: Wait>(&self, rt: &R, seat: &mut BareSeat<D>, n: u32) -> Result<u16, RingWord>
        requires table { seat.old.table_id ≡ self.now.table.shared.table_id }
        requires rest { Rests seat.old.me }
        requires batch { IsBatch n }
        ensures same { (seat.new.table_id ≡ seat.old.table_id) × (seat.new.id ≡ seat.old.id) }
        ensures ok { IfOk result (λ place. (place < self.now.size) × (n < self.now.size) × HasPlaces self.now.size n place seat.new.me × ((es : _) × EndsReserved n es × Trails self.now.size seat.old.me.0.known es nothing_counted seat.new.me.0.known)) }
        ensures err { IfErr result (λ seen. Rests seat.new.me × (space self.now.size seen ≤ n) × ((es : _) × (publishing es ≡ []) × EndsRefused n seen es × Trails self.now.size seat.old.me.0.known es (record nothing_counted { drops = n }) seat.new.me.0.known) × IsWithin self.now.size seen) }
    {
        let mut seen = self.look(seat);
        for _ in rt.forever() {
            let quiet = self.look_for_quiet(seat, seen, n);
            let roomy = match self.find_room(seat, quiet, n) {
                Ok(roomy) => roomy,
                Err(full) => return Err(full),
            };
            match self.reserve(seat, &roomy, n) {
                Ok(()) => return Ok(roomy.head),
                Err(found) => seen = read(self.size, found),
            }
        }
        unreachable!()
    }
}
