//! What the words show, and what each step tells. These types are for the proofs alone.
use atomic_table::Play;
use ifl_desc::{Desc, RingWords, View};

/// The words.
pub struct Generation;

impl RingWords for Generation {
    ghost use Rattle.ifl_generation.specs.Generation.{WordTie};

    ghost tie = { WordTie };
}

/// The driver stores the doorbell.
pub struct Rings;

impl Play<Option<Desc>, View> for Rings {
    ghost use Rattle.ifl_desc.specs.declared.history.Side.TheVariants.{Driver};
    ghost use Rattle.ifl_desc.specs.Plays.{pushed};

    ghost then = { pushed Driver };
}

/// The device loads the doorbell.
pub struct Hears;

impl Play<Option<Desc>, View> for Hears {
    ghost use Rattle.ifl_desc.specs.declared.history.Side.TheVariants.{Device};
    ghost use Rattle.ifl_desc.specs.Plays.{pulled};

    ghost then = { pulled Device };
}

/// The device stores the completion entry of a frame.
pub struct Returns;

impl Play<Option<Desc>, View> for Returns {
    ghost use Rattle.ifl_desc.specs.declared.history.Side.TheVariants.{Device};
    ghost use Rattle.ifl_desc.specs.Plays.{pushed_by};
    ghost use Rattle.ifl_generation.specs.Generation.{up_to};

    ghost then = { pushed_by up_to Device };
}

/// The driver loads the next completion entry.
pub struct LooksAt;

impl Play<Option<Desc>, View> for LooksAt {
    ghost use Rattle.ifl_generation.specs.Generation.{Reads};

    ghost then = { Reads };
}
