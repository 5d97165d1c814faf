//! What the ends of a port know, its rule, and what its steps tell. These types are for the proofs alone.
use crate::port::PortState;
use atomic_table::{Join, Play, Split, TableRule};
use std::collections::LinkedList;

/// A step on a port: a state was set, or a look found one. No value of it is made.
pub enum PortEvent {
    Set(PortState),
    Found(PortState),
}

/// What a seat is for.
pub enum PortRole {
    /// The one seat of a new port.
    Whole,
    Writer,
    Reader,
    /// The writer's seat, to which the reader's was joined.
    Both,
    /// The reader's seat, which was joined to the writer's.
    Spent,
}

/// What the rule sees of a seat. No value of it is made.
pub struct PortView {
    pub role: PortRole,
    /// The beginning of the history that it has seen.
    pub seen: LinkedList<PortEvent>,
    /// What a seat had seen that was joined to this one.
    pub heard: LinkedList<PortEvent>,
}

/// The rule.
pub struct PortRule;

impl TableRule<u64, PortView, u32> for PortRule {
    ghost use Rattle.ifl_desc.specs.Port.{Ported, whole_view};

    ghost holds = { λ _. Ported };

    ghost first = { λ _. whole_view };
}

/// The writer sets a state.
pub struct Stores;

impl Play<u64, PortView> for Stores {
    ghost use Rattle.ifl_desc.specs.Port.{stored};

    ghost then = { stored };
}

/// The reader looks.
pub struct Finds;

impl Play<u64, PortView> for Finds {
    ghost use Rattle.ifl_desc.specs.Port.{found_state};

    ghost then = { found_state };
}

/// A new port's seat is split into the writer's and the reader's.
pub struct Opens;

impl Split<PortView> for Opens {
    ghost use Rattle.std.specs.Prelude.{[]};
    ghost use Rattle.ifl_desc.specs.Port.{writer_view, reader_view};

    ghost left = { λ _. writer_view [] };

    ghost right = { λ _. reader_view [] };
}

/// The reader's seat is joined to the writer's.
pub struct Shuts;

impl Join<PortView> for Shuts {
    ghost use Rattle.ifl_desc.specs.Port.{both_ends, spent_view};

    ghost both = { both_ends };

    ghost spent = { spent_view };
}
