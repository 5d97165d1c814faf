//! What the seats of a turnstile know, its rule, and what its steps tell. These types are for the proofs alone.
use crate::turnstile::Kept;
use atomic_table::{Join, Play, Split, TableRule};
use std::marker::PhantomData;
use std::snapshot::Snapshot;

/// What the rule sees of a seat. No value of it is made.
pub struct TurnView<E, O> {
    /// Its part; the parts of all seats add up to `PART`.
    pub part: u64,
    /// It has the turn.
    pub holds: bool,
    /// How many of its exchanges took the turn.
    pub turns: u64,
    /// How many of its exchanges found the turn taken.
    pub looks: u64,
    /// With what the turnstile's value was made; a seat that was joined to another has none.
    pub origin: Option<O>,
    /// The value that it took last.
    pub found: Option<E>,
    /// The value that it gave back last.
    pub left: Option<E>,
}

/// The rule.
pub struct Turns<E> {
    kept: PhantomData<E>,
}

impl<E: Kept> TableRule<Option<E>, TurnView<E, E::Origin>, Snapshot<E>> for Turns<E> {
    ghost use Rattle.ifl_desc.specs.Turning.{Turning, first_view};

    ghost holds = { λ key. Turning E.origin (E.origin key.value) };

    ghost first = { λ key. first_view (E.origin key.value) };
}

/// The exchange that takes the turn, or finds it taken.
pub struct Tries<E> {
    kept: PhantomData<E>,
}

impl<E: Kept> Play<Option<E>, TurnView<E, E::Origin>> for Tries<E> {
    ghost use Rattle.ifl_desc.specs.Turning.{tried};

    ghost then = { tried E.origin };
}

/// The store that gives the turn.
pub struct Gives;

impl<E, O> Play<Option<E>, TurnView<E, O>> for Gives {
    ghost use Rattle.ifl_desc.specs.Turning.{gave};

    ghost then = { gave };
}

/// A seat is split.
pub struct Halves;

impl<E, O> Split<TurnView<E, O>> for Halves {
    ghost use Rattle.ifl_desc.specs.Turning.{left_half, right_half};

    ghost left = { left_half };

    ghost right = { right_half };
}

/// Two seats are joined.
pub struct Adds;

impl<E, O> Join<TurnView<E, O>> for Adds {
    ghost use Rattle.ifl_desc.specs.Turning.{both_parts, nobody};

    ghost both = { both_parts };

    ghost spent = { nobody };
}
