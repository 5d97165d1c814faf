//! What each step on the word tells the pass that makes it. These types are for the proofs alone.
use crate::word::View;
use atomic_table::{Join, Play, Split};

/// The load of a take.
pub struct Finds;

impl Play<u64, View> for Finds {
    ghost use Rattle.ifl_pool.specs.Word.{FindStep};

    ghost then = { FindStep };
}

/// The exchange of a take.
pub struct Takes;

impl Play<u64, View> for Takes {
    ghost use Rattle.ifl_pool.specs.Word.{TakeStep};

    ghost then = { TakeStep };
}

/// The exchange of a give.
pub struct Gives;

impl Play<u64, View> for Gives {
    ghost use Rattle.ifl_pool.specs.Word.{GiveStep};

    ghost then = { GiveStep };
}

/// Any other load.
pub struct Looks;

impl Play<u64, View> for Looks {
    ghost use Rattle.ifl_pool.specs.Word.{LookStep};

    ghost then = { LookStep };
}

/// The load before a split.
pub struct Spares;

impl Play<u64, View> for Spares {
    ghost use Rattle.ifl_pool.specs.Word.{SpareStep};

    ghost then = { SpareStep };
}

/// A pass is split.
pub struct Halves;

impl Split<View> for Halves {
    ghost use Rattle.ifl_pool.specs.Ledger.{view_after_split, view_split_off};

    ghost left = { view_after_split };

    ghost right = { view_split_off };
}

/// Two passes are joined.
pub struct Joins;

impl Join<View> for Joins {
    ghost use Rattle.ifl_pool.specs.Ledger.{view_after_join, spent_view};

    ghost both = { view_after_join };

    ghost spent = { spent_view };
}
