//! Steps by which a seat reserves places and publishes its items.
ghost use Rattle.std.specs.Prelude.{◌≡◌, ◌≢◌, ◌<◌, [], map, IfOk, IfErr};
ghost use Rattle.ifl_ring.specs.Tells.{Abdicates, SeesWord, Reserves, Same, nothing, place_of, Behinds, Electing, Handed, HasTurn};
ghost use Rattle.ifl_ring.specs.Acts.{out_all, items_in};
ghost use Rattle.atomic_table.specs.Table.{rest};
ghost use Rattle.ifl_ring.specs.Seats.{Has};
ghost use Rattle.ifl_ring.specs.Law.{IsAtRest};
ghost use Rattle.ifl_base.specs.Word.{pack};
ghost use Rattle.ifl_ringcore.specs.State.{first_state};
ghost use Rattle.ifl_ringcore.specs.History.{state_after};
ghost use Rattle.ifl_base.specs.Word.{IsWithin};
ghost use Rattle.ifl_ringcore.specs.Conditions.{IsBatch};
ghost use Rattle.ifl_base.specs.Space.{space};

use crate::bare::{BareRing, BareSeat, read};
use crate::drainer::{Drainer, RingItem};
use crate::place::Place;
use crate::plays::{Abdicate, Elect, Publish, Reserve, See};
use ifl_base::{Flag, RingWord, advance};
use ifl_ringcore::words::risen;
use std::sync::Wait;

impl<D: Drainer> BareRing<D> {
    /// Tries to reserve places. At `Err` it found another word.
    pub fn reserve(&self, seat: &mut BareSeat<D>, w: &RingWord, n: u32) -> Result<(), u64>
        requires table { seat.old.table_id ≡ self.now.table.shared.table_id }
        requires rest { IsAtRest seat.old.me.0.known × (seat.old.me.0.told ≡ []) × (seat.old.me.1 ≡ []) }
        requires word { IsWithin self.now.size w.now }
        requires room { IsBatch n × (n < space self.now.size w.now) }
        ensures same { (seat.new.table_id ≡ seat.old.table_id) × (seat.new.id ≡ seat.old.id) × Same seat.old.me.0 seat.new.me.0 }
        ensures ok { IfOk result (λ _. Reserves self.now.size n seat.old.me.0.known (pack w.now) seat.new.me.0.known × (seat.new.me.1 ≡ out_all nothing self.now.size (place_of seat.new.me.0.known) n [])) }
        ensures err { IfErr result (λ x. SeesWord self.now.size seat.old.me.0.known x seat.new.me.0.known × (seat.new.me.1 ≡ [])) }
    {
        let next = RingWord {
            head: advance(self.size, w.head, n),
            tail: w.tail,
            cidx: w.cidx,
            flag: w.flag,
        };
        let said = Place::Told(n as u64);
        let old = w.pack();
        let found = self
            .table
            .shared
            .compare_exchange_with::<Reserve>(seat, 0, old, next.pack(), &said);
        if found == old { Ok(()) } else { Err(found) }
    }

    /// The word, as one step found it, for a seat with whatever slots it holds.
    pub fn look_again(&self, seat: &mut BareSeat<D>) -> RingWord
        requires table { seat.old.table_id ≡ self.now.table.shared.table_id }
        requires named { Has seat.old.me.0.known.number seat.old.me.0.known.stands × (seat.old.me.0.told ≡ []) }
        ensures same { (seat.new.table_id ≡ seat.old.table_id) × (seat.new.id ≡ seat.old.id) × (seat.new.me.1 ≡ seat.old.me.1) × Same seat.old.me.0 seat.new.me.0 }
        ensures within { IsWithin self.now.size result }
        ensures look { SeesWord self.now.size seat.old.me.0.known (pack result) seat.new.me.0.known }
    {
        let word = self.table.shared.load::<See>(seat, 0);
        read(self.size, word)
    }

    /// Tries to publish behind a consumer. At `Err` it found another word.
    pub fn publish_behind(&self, seat: &mut BareSeat<D>, w: &RingWord, n: u32) -> Result<(), u64>
        requires table { seat.old.table_id ≡ self.now.table.shared.table_id }
        requires turn { HasTurn self.now.size n w.now seat.old.me }
        requires word { IsWithin self.now.size w.now × (w.now.flag ≡ Flag.Busy) }
        requires count { n < self.now.size }
        ensures same { (seat.new.table_id ≡ seat.old.table_id) × (seat.new.id ≡ seat.old.id) }
        ensures ok { IfOk result (λ _. Same seat.old.me.0 seat.new.me.0 × Behinds self.now.size (map D.Item.meaning (items_in seat.old.me.1)) seat.old.me.0.known (pack w.now) seat.new.me.0.known × (seat.new.me.1 ≡ [])) }
        ensures err { IfErr result (λ x. SeesWord self.now.size seat.old.me.0.known x seat.new.me.0.known × (seat.new.me.1 ≡ seat.old.me.1) × Same seat.old.me.0 seat.new.me.0) }
    {
        let next = RingWord {
            head: w.head,
            tail: advance(self.size, w.tail, n),
            cidx: w.cidx,
            flag: w.flag,
        };
        let old = w.pack();
        let found = self
            .table
            .shared
            .compare_exchange::<Publish<D>>(seat, 0, old, next.pack());
        if found == old { Ok(()) } else { Err(found) }
    }

    /// Tries to publish where nobody drains, and to drain from then on. At `Err` it found another word.
    pub fn publish_elected(
        &self,
        seat: &mut BareSeat<D>,
        w: &RingWord,
        n: u32,
        budget: u32,
    ) -> Result<(), u64>
        requires table { seat.old.table_id ≡ self.now.table.shared.table_id }
        requires turn { HasTurn self.now.size n w.now seat.old.me }
        requires word { IsWithin self.now.size w.now × (w.now.flag ≢ Flag.Busy) }
        requires count { n < self.now.size }
        ensures same { (seat.new.table_id ≡ seat.old.table_id) × (seat.new.id ≡ seat.old.id) }
        ensures ok { IfOk result (λ _. Same seat.old.me.0 seat.new.me.0
            × Electing self.now.size budget (map D.Item.meaning (items_in seat.old.me.1)) seat.old.me.0.known (pack w.now) seat.new.me.0.known
            × Handed D.Item.meaning D.origin D.settled D.full D.stands_for self.now.size (state_after first_state seat.new.me.0.known.seen).released (state_after first_state seat.new.me.0.known.seen).items seat.new.me.0.origin seat.new.me.1) }
        ensures err { IfErr result (λ x. SeesWord self.now.size seat.old.me.0.known x seat.new.me.0.known × (seat.new.me.1 ≡ seat.old.me.1) × Same seat.old.me.0 seat.new.me.0) }
    {
        let next = RingWord {
            head: w.head,
            tail: advance(self.size, w.tail, n),
            cidx: w.cidx,
            flag: Flag::Busy,
        };
        let said = Place::Told(budget as u64);
        let old = w.pack();
        let found = self
            .table
            .shared
            .compare_exchange_with::<Elect<D>>(seat, 0, old, next.pack(), &said);
        if found == old { Ok(()) } else { Err(found) }
    }

    /// Tries to publish, and to leave the items to another consumer. At `Err` it found another word.
    pub fn publish_abdicating(
        &self,
        seat: &mut BareSeat<D>,
        w: &RingWord,
        n: u32,
    ) -> Result<(), u64>
        requires table { seat.old.table_id ≡ self.now.table.shared.table_id }
        requires turn { HasTurn self.now.size n w.now seat.old.me }
        requires word { IsWithin self.now.size w.now }
        requires count { n < self.now.size }
        ensures same { (seat.new.table_id ≡ seat.old.table_id) × (seat.new.id ≡ seat.old.id) }
        ensures ok { IfOk result (λ _. Same seat.old.me.0 seat.new.me.0 × Abdicates self.now.size (map D.Item.meaning (items_in seat.old.me.1)) seat.old.me.0.known (pack w.now) seat.new.me.0.known × (seat.new.me.1 ≡ [])) }
        ensures err { IfErr result (λ x. SeesWord self.now.size seat.old.me.0.known x seat.new.me.0.known × (seat.new.me.1 ≡ seat.old.me.1) × Same seat.old.me.0 seat.new.me.0) }
    {
        let next = RingWord {
            head: w.head,
            tail: advance(self.size, w.tail, n),
            cidx: w.cidx,
            flag: risen(w.flag),
        };
        let old = w.pack();
        let found = self
            .table
            .shared
            .compare_exchange::<Abdicate<D>>(seat, 0, old, next.pack());
        if found == old { Ok(()) } else { Err(found) }
    }
}
