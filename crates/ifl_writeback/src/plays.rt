//! What the words show, and what each step tells. These types are for the proofs alone.
use atomic_table::Play;
use ifl_desc::{Desc, RingWords, View};

/// The two words.
pub struct Writeback;

impl RingWords for Writeback {
    ghost use Rattle.ifl_writeback.specs.Writeback.{WordTie};

    ghost tie = { WordTie };
}

/// The driver stores the doorbell.
pub struct Rings;

impl Play<Option<Desc>, View> for Rings {
    ghost use Rattle.ifl_desc.specs.declared.history.Side.TheVariants.{Driver};
    ghost use Rattle.ifl_desc.specs.Plays.{pushed};

    ghost then = { pushed Driver };
}

/// The device loads the doorbell.
pub struct Hears;

impl Play<Option<Desc>, View> for Hears {
    ghost use Rattle.ifl_desc.specs.declared.history.Side.TheVariants.{Device};
    ghost use Rattle.ifl_desc.specs.Plays.{pulled};

    ghost then = { pulled Device };
}

/// The device stores the head.
pub struct Returns;

impl Play<Option<Desc>, View> for Returns {
    ghost use Rattle.ifl_desc.specs.declared.history.Side.TheVariants.{Device};
    ghost use Rattle.ifl_desc.specs.Plays.{pushed};

    ghost then = { pushed Device };
}

/// The driver loads the head.
pub struct Learns;

impl Play<Option<Desc>, View> for Learns {
    ghost use Rattle.ifl_desc.specs.declared.history.Side.TheVariants.{Driver};
    ghost use Rattle.ifl_desc.specs.Plays.{pulled};

    ghost then = { pulled Driver };
}
