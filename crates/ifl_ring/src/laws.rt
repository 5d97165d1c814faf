//! What the ring's invariant comes to, in its own words. A law is a function that does nothing, and its contract is the
//! law.
ghost use Rattle.std.specs.Prelude.{◌≡◌, ◌<◌, ◌⊎◌, ℕ, IsSome, Some, None};
ghost use Rattle.ifl_base.specs.declared.word.Flag.TheVariants.{Stalled, Abdicated};
ghost use Rattle.atomic_table.specs.Table.{State};
ghost use Rattle.ifl_ringcore.specs.declared.owner.Owner.{Owner};
ghost use Rattle.ifl_ringcore.specs.Invariant.{RingInvariant};
ghost use Rattle.ifl_ringcore.specs.Owners.{IsOwner};
ghost use Rattle.ifl_ringcore.specs.State.{RingState, Consumer};
ghost use Rattle.ifl_ring.specs.declared.place.Key.{Key};
ghost use Rattle.ifl_ring.specs.declared.place.Place.{Place};
ghost use Rattle.ifl_ring.specs.declared.view.View.{View};
ghost use Rattle.ifl_ring.specs.Law.{Lawful};
ghost use Rattle.ifl_ring.specs.Owned.{LiesFor, IsPosted};
ghost use mathlib.Core.Option.{some, none};
ghost use lib.ListN.{get_elem?};
ghost use Rattle.ifl_ring.specs.declared.view.Known.{Known};
ghost use Rattle.ifl_ring.specs.Merges.{IsMerge};
ghost use Rattle.ifl_ring.specs.Seats.{events, Joined};

use crate::drainer::{Drainer, RingItem};

/// Items that are published and not released have a consumer, or the flag says stalled or abdicated. Then a seat that
/// publishes and doesn't abdicate is elected, and has them too.
pub fn waiting_items_are_tended()
    ensures { (size : ℕ) (st : RingState) → RingInvariant size st → st.released < st.published → IsSome st.consumer ⊎ ((st.flag ≡ Stalled) ⊎ (st.flag ≡ Abdicated)) }
{}

/// What a joined seat has made is what the two seats had made, merged: all entries of both, and those of each in their
/// order.
pub fn joined_entries_are_merged()
    ensures { (size : ℕ) (v w both : Known) → Joined size v w both → IsMerge (events v) (events w) (events both) }
{}

/// Between any two steps a slot lies where its place's owner has it: a free place's slot is vacant, one with a published
/// item holds it, and the slots of a seat that has reserved or consumes are with that seat. The drainer lies in the ring
/// where nobody consumes, and is else with the consumer.
pub fn slots_lie_with_their_owners<D: Drainer>()
    ensures slots { (key : Key D.Origin) (s : State (Place D.Item D) (View D.Origin)) (l : Lawful D.Item.meaning D.origin D.settled D.full D.stands_for key s) (place : ℕ) (o : Owner) → IsOwner key.size l.now place o → LiesFor o (get_elem? s.homes place) }
    ensures rests { (key : Key D.Origin) (s : State (Place D.Item D) (View D.Origin)) (l : Lawful D.Item.meaning D.origin D.settled D.full D.stands_for key s) → l.now.consumer ≡ None → IsPosted (get_elem? s.homes key.size) }
    ensures away { (key : Key D.Origin) (s : State (Place D.Item D) (View D.Origin)) (l : Lawful D.Item.meaning D.origin D.settled D.full D.stands_for key s) (d : Consumer) → l.now.consumer ≡ Some d → get_elem? s.homes key.size ≡ some none }
{}
