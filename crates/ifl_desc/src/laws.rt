//! What the definitions come to. A law is a function that does nothing, and its contract is the law.
ghost use Rattle.std.specs.Prelude.{◌≡◌, ◌≤◌, ◌++◌, ◌∷◌, ℕ, List, [], suc, flat_map, Option};
ghost use Rattle.atomic_table.specs.Table.{State};
ghost use Rattle.ifl_desc.specs.declared.desc.Desc.{Desc};
ghost use Rattle.ifl_desc.specs.declared.history.Event.{Event};
ghost use Rattle.ifl_desc.specs.declared.history.Side.TheVariants.{Driver, Device};
ghost use Rattle.ifl_desc.specs.declared.port.PortState.{PortState};
ghost use Rattle.ifl_desc.specs.declared.signals.PortEvent.{PortEvent};
ghost use Rattle.ifl_desc.specs.declared.signals.PortEvent.TheVariants.{Found};
ghost use Rattle.ifl_desc.specs.declared.turns.TurnView.{TurnView};
ghost use Rattle.ifl_desc.specs.Ends.{DriverSees, DeviceSees, IsDriver, IsDevice, AreEndsOf, AreInOrder, lengths_at, returned, rung};
ghost use Rattle.ifl_desc.specs.Calls.{Flushes, Credits, Meets};
ghost use Rattle.ifl_desc.specs.Frames.{open_after, frames_of, bytes_of, IsWholeFrame};
ghost use Rattle.ifl_desc.specs.History.{bells, sent};
ghost use Rattle.ifl_desc.specs.Port.{IsPortHistory, sets_of, state_of};
ghost use Rattle.ifl_desc.specs.Turning.{Turning, IsHomeWhereFree};

use crate::turnstile::Kept;

/// `flush` rings the doorbell once, also where nothing was posted.
pub fn a_flush_rings_once()
    ensures { (a b : DriverSees) → Flushes a b → bells b.seen ≡ suc (bells a.seen) }
{}

/// `credits` never rings the doorbell.
pub fn credits_ring_nothing()
    ensures { (a b : DriverSees) (n : ℕ) → Credits a n b → bells b.seen ≡ bells a.seen }
{}

/// Of the two ends of a ring, the list has its five lengths in order, whatever each end knows of the other.
pub fn the_five_lengths_are_in_order()
    ensures { (size : ℕ) (h : List Event) (d : DriverSees) (v : DeviceSees) → AreEndsOf size h d v → IsDriver d → IsDevice v → AreInOrder size (lengths_at h d v) }
{}

/// What an end knows of the other's lengths is a lower bound.
pub fn what_an_end_knows_is_a_bound()
    ensures { (size : ℕ) (h : List Event) (d : DriverSees) (v : DeviceSees) → AreEndsOf size h d v → (returned d ≤ (lengths_at h d v).returned) × (rung v ≤ (lengths_at h d v).rung) }
{}

/// Ends that met are the ends of the history that both have seen.
pub fn ends_that_met_are_of_one_history()
    ensures { (d : DriverSees) (v : DeviceSees) (d' : DriverSees) (v' : DeviceSees) → Meets d v d' v' → IsDriver d' → AreEndsOf d'.ring.slots d'.seen d' v' }
{}

/// The driver has heard just what the device returned, and the device just what the driver rang.
pub fn ends_that_met_heard_all()
    ensures { (d : DriverSees) (v : DeviceSees) (d' : DriverSees) (v' : DeviceSees) → Meets d v d' v' → (sent Device d'.seen ≡ sent Device v.seen) × (sent Driver v'.seen ≡ sent Driver d.seen) }
{}

/// Whole frames and one frame more are the frames of the two lists.
pub fn one_frame_more_is_one_more()
    ensures { (ds frame : List Desc) → open_after 0 ds ≡ 0 → IsWholeFrame frame → frames_of (ds ++ frame) ≡ frames_of ds ++ frame ∷ [] }
{}

/// Cutting whole frames apart loses no byte of the list.
pub fn frames_keep_the_bytes()
    ensures { (ds : List Desc) → open_after 0 ds ≡ 0 → flat_map bytes_of (frames_of ds) ≡ bytes_of ds }
{}

/// At every moment the value of a turnstile is home, with the turnstile's origin, exactly where the word is 0.
pub fn value_is_home_where_the_turn_is_free<E: Kept>()
    ensures { (o : E.Origin) (s : State (Option E) (TurnView E E.Origin)) → Turning E.origin o s → IsHomeWhereFree E.origin o s }
{}

/// A look at a port finds what the last store before it set.
pub fn a_look_finds_the_last_store()
    ensures { (before after : List PortEvent) (s : PortState) → IsPortHistory (before ++ Found s ∷ after) → s ≡ state_of (sets_of before) }
{}
