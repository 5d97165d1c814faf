//! What the words show, and what each step tells. These types are for the proofs alone.
use atomic_table::Play;
use ifl_desc::{Desc, RingWords, View};

/// The words.
pub struct Legacy;

impl RingWords for Legacy {
    ghost use Rattle.ifl_legacy.specs.Legacy.{WordTie};

    ghost tie = { WordTie };
}

/// The driver stores the doorbell.
pub struct Rings;

impl Play<Option<Desc>, View> for Rings {
    ghost use Rattle.ifl_desc.specs.declared.history.Side.TheVariants.{Driver};
    ghost use Rattle.ifl_desc.specs.Plays.{pushed};

    ghost then = { pushed Driver };
}

/// The device loads the doorbell.
pub struct Hears;

impl Play<Option<Desc>, View> for Hears {
    ghost use Rattle.ifl_desc.specs.declared.history.Side.TheVariants.{Device};
    ghost use Rattle.ifl_desc.specs.Plays.{pulled};

    ghost then = { pulled Device };
}

/// The device stores the number of a frame's descriptors in the status word of the first.
pub struct Returns;

impl Play<Option<Desc>, View> for Returns {
    ghost use Rattle.ifl_desc.specs.declared.history.Side.TheVariants.{Device};
    ghost use Rattle.ifl_desc.specs.Plays.{pushed_by};
    ghost use Rattle.ifl_legacy.specs.Legacy.{named};

    ghost then = { pushed_by named Device };
}

/// The driver loads the status word of the first descriptor that it has not counted.
pub struct Peeks;

impl Play<Option<Desc>, View> for Peeks {
    ghost use Rattle.ifl_legacy.specs.Legacy.{peeked};

    ghost then = { peeked };
}

/// The driver clears it, and counts the frame.
pub struct Clears;

impl Play<Option<Desc>, View> for Clears {
    ghost use Rattle.ifl_legacy.specs.Legacy.{cleared};

    ghost then = { cleared };
}
