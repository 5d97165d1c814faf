//! The ring and its seats as the table has them. Here a seat may hold slots, a reservation or the drain; between
//! the calls of a [`Ring`](crate::Ring) it holds none of them.
ghost use Rattle.std.specs.Prelude.{◌≡◌, ◌+◌, ◌≤◌};
ghost use Rattle.ifl_base.specs.Word.{pack, IsWithin};
ghost use Rattle.ifl_ring.specs.Words.{IsWordOf};

mod checking;
mod claiming;
mod closing;
mod draining;
mod enqueueing;
mod publishing;
mod releasing;
mod seats;
mod slots;

use crate::drainer::{Drainer, RingItem};
use crate::place::{Place, Sheet};
use crate::view::View;
use atomic_table::{Seat, Table, TableRule};
use ifl_base::RingWord;
pub use slots::{drainer_of, make_slots};
use std::alloc::Global;
use std::marker::PhantomData;

/// The rule of the ring's table.
pub struct Law<D> {
    drainer: PhantomData<D>,
}

impl<D: Drainer> TableRule<Place<D::Item, D>, View<D::Origin>, Sheet<D>> for Law<D> {
    ghost use Rattle.ifl_ring.specs.Law.{Lawful, first_view, key_of};

    ghost holds = { λ k. Lawful D.Item.meaning D.origin D.settled D.full D.stands_for (key_of D.origin k) };

    ghost first = { λ k. first_view (D.origin k.drainer.value) };
}

/// One word, a slot for each place, and a last slot for the drainer with its batch.
#[derive(Drop)]
pub struct BareRing<D: Drainer> {
    pub table: Table<Place<D::Item, D>, View<D::Origin>, Sheet<D>, Law<D>, Global>,
    pub size: u32,
    ghost sized: { (table.shared.table_id.words ≡ 1) × (table.shared.table_id.slots ≡ size + 1) },
    ghost keyed: { table.shared.key.size ≡ size },
    ghost range: { (4 ≤ size) × (size ≤ 65536) },
}

/// A seat with whatever it holds.
pub type BareSeat<D> = Seat<Place<<D as Drainer>::Item, D>, View<<D as Drainer>::Origin>>;

/// The word that a step found.
pub fn read(size: u32, word: u64) -> RingWord
    requires size { (4 ≤ size) × (size ≤ 65536) }
    requires word { IsWordOf size word }
    ensures packs { pack result ≡ word }
    ensures within { IsWithin size result }
{
    match RingWord::unpack(word) {
        Some(w) => w,
        None => unreachable!(),
    }
}
