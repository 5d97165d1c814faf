//! What the steps tell that all rings share. These types are for the proofs alone.
use crate::{Desc, View};
use atomic_table::{Join, Play, Split};

/// The first step, which takes every slot.
pub struct Fills;

impl Play<Option<Desc>, View> for Fills {
    ghost use Rattle.ifl_desc.specs.Plays.{filled};

    ghost then = { filled };
}

/// The two ends are cut out of the first seat.
pub struct Parts;

impl Split<View> for Parts {
    ghost use Rattle.std.specs.Prelude.{[]};
    ghost use Rattle.ifl_desc.specs.declared.history.Side.TheVariants.{Driver, Device};
    ghost use Rattle.ifl_desc.specs.Rule.{view};

    ghost left = { λ v. view Driver [] };

    ghost right = { λ v. view Device [] };
}

/// A note of what a seat has seen.
pub struct Notes;

impl Split<View> for Notes {
    ghost use Rattle.ifl_desc.specs.Plays.{note};

    ghost left = { λ v. v };

    ghost right = { λ v. note v.seen };
}

/// A note is joined to a seat, which hears what it says.
pub struct Hearing;

impl Join<View> for Hearing {
    ghost use Rattle.std.specs.Prelude.{[]};
    ghost use Rattle.ifl_desc.specs.Plays.{note, hearing};

    ghost both = { hearing };

    ghost spent = { note [] };
}

/// The device gives back all slots that it holds.
pub struct DeviceRetires;

impl Play<Option<Desc>, View> for DeviceRetires {
    ghost use Rattle.ifl_desc.specs.Plays.{retired};

    ghost then = { retired };
}

/// The device's seat is joined to the driver's, and the ring ends.
pub struct Unites;

impl Join<View> for Unites {
    ghost use Rattle.std.specs.Prelude.{[]};
    ghost use Rattle.ifl_desc.specs.Plays.{note, closing};

    ghost both = { closing };

    ghost spent = { note [] };
}

/// The seat that stands for both sides looks, and has seen the whole history.
pub struct Gathers;

impl Play<Option<Desc>, View> for Gathers {
    ghost use Rattle.ifl_desc.specs.Plays.{gathered};

    ghost then = { gathered };
}

/// The driver looks, and has seen what another seat had seen that was joined to its own.
pub struct DriverSaw;

impl Play<Option<Desc>, View> for DriverSaw {
    ghost use Rattle.ifl_desc.specs.declared.history.Side.TheVariants.{Driver};
    ghost use Rattle.ifl_desc.specs.Plays.{saw};

    ghost then = { saw Driver };
}

/// The device looks, and has seen what the driver had seen whose note was joined to its seat.
pub struct DeviceCatchesUp;

impl Play<Option<Desc>, View> for DeviceCatchesUp {
    ghost use Rattle.ifl_desc.specs.declared.history.Side.TheVariants.{Device};
    ghost use Rattle.ifl_desc.specs.Plays.{caught};

    ghost then = { caught Device };
}
