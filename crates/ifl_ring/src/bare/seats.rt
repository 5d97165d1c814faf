//! Looking at the word, and making two seats of one and one of two.
ghost use Rattle.std.specs.Prelude.{◌≡◌, ◌≤◌};
ghost use Rattle.ifl_base.specs.Word.{IsWithin};
ghost use Rattle.ifl_ring.specs.Seats.{left_known, right_known, Sees, Names, Joined};
ghost use Rattle.ifl_ring.specs.Law.{Rests};

use crate::bare::{BareRing, BareSeat, read};
use crate::drainer::{Drainer, RingItem};
use crate::plays::{Cut, Glue, Meet, Name, See};
use ifl_base::RingWord;

impl<D: Drainer> BareRing<D> {
    /// The word, as one step found it.
    pub fn look(&self, seat: &mut BareSeat<D>) -> RingWord
        requires table { seat.old.table_id ≡ self.now.table.shared.table_id }
        requires rest { Rests seat.old.me }
        ensures same { (seat.new.table_id ≡ seat.old.table_id) × (seat.new.id ≡ seat.old.id) }
        ensures rest { Rests seat.new.me }
        ensures within { IsWithin self.now.size result }
        ensures look { Sees self.now.size seat.old.me.0.known result seat.new.me.0.known }
    {
        let word = self.table.shared.load::<See>(seat, 0);
        read(self.size, word)
    }

    /// A new seat with half of the part.
    pub fn split(&self, seat: &mut BareSeat<D>) -> BareSeat<D>
        requires table { seat.old.table_id ≡ self.now.table.shared.table_id }
        requires rest { Rests seat.old.me }
        requires part { 2 ≤ seat.old.me.0.known.part }
        ensures same { (seat.new.table_id ≡ seat.old.table_id) × (seat.new.me.0.known ≡ left_known seat.old.me.0.known) }
        ensures rest { Rests seat.new.me × Rests result.me }
        ensures table { result.table_id ≡ seat.old.table_id }
        ensures new { Names self.now.size (right_known seat.old.me.0.known) result.me.0.known }
    {
        let mut new = self.table.shared.split_seat::<Cut>(seat);
        self.table.shared.load::<Name>(&mut new, 0);
        new
    }

    /// One seat of the two.
    pub fn join(&self, seat: &mut BareSeat<D>, other: BareSeat<D>)
        requires table { (seat.old.table_id ≡ self.now.table.shared.table_id) × (other.table_id ≡ self.now.table.shared.table_id) }
        requires rest { Rests seat.old.me × Rests other.me }
        ensures same { seat.new.table_id ≡ seat.old.table_id }
        ensures rest { Rests seat.new.me }
        ensures both { Joined self.now.size seat.old.me.0.known other.me.0.known seat.new.me.0.known }
    {
        self.table.shared.join_seat::<Glue>(seat, other);
        self.table.shared.load::<Meet>(seat, 0);
    }
}
