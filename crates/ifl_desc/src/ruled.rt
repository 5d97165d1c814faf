//! The rule of a ring's table, over what an adapter's words show.
use crate::{Desc, View};
use atomic_table::TableRule;
use std::marker::PhantomData;

/// What an adapter adds to the rule: what its words show of the history. No value of such a type is made.
pub trait RingWords {
    ghost use Rattle.std.specs.Prelude.{ℕ, List};
    ghost use Rattle.ifl_desc.specs.declared.history.Event.{Event};

    /// What the words of a ring of this size show of its history.
    ghost tie: { ℕ → List ℕ → List Event → Type 0 };
}

/// The rule of a ring whose words show this of its history. The table's key is the size.
pub struct Ruled<T> {
    words: PhantomData<T>,
}

impl<T: RingWords> TableRule<Option<Desc>, View, u32> for Ruled<T> {
    ghost use Rattle.ifl_desc.specs.Rule.{Tied};
    ghost use Rattle.ifl_desc.specs.Plays.{whole};

    ghost holds = { λ size. Tied size (T.tie size) };

    ghost first = { λ _. whole };
}
