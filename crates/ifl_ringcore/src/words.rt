//! Flags and places of a ring, as seats and consumers read them in its word.
ghost use Rattle.std.specs.Prelude.{true, false, ◌≡◌, ◌≢◌, ◌<◌, ◌≤◌};
ghost use Rattle.ifl_base.specs.Space.{advanced};
ghost use Rattle.ifl_ringcore.specs.Effects.{risen};
ghost use Rattle.ifl_ringcore.specs.Residues.{distance};
ghost use Rattle.ifl_ringcore.specs.Table.{is_busy, is_left};

use ifl_base::Flag;

/// Whether there is a consumer.
pub fn is_busy(flag: Flag) -> bool
    ensures value { result ≡ is_busy flag }
    ensures yes { result ≡ true → flag ≡ Flag.Busy }
    ensures no { result ≡ false → flag ≢ Flag.Busy }
{
    matches!(flag, Flag::Busy)
}

/// Whether the drainer could take no more.
pub fn is_stalled(flag: Flag) -> bool
    ensures yes { result ≡ true → flag ≡ Flag.Stalled }
    ensures no { result ≡ false → flag ≢ Flag.Stalled }
{
    matches!(flag, Flag::Stalled)
}

/// Whether a consumer has left items behind.
pub fn is_left(flag: Flag) -> bool
    ensures { result ≡ is_left flag }
{
    matches!(flag, Flag::Stalled | Flag::Abdicated)
}

/// The flag after items came that nobody is to consume at once.
pub fn risen(flag: Flag) -> Flag
    ensures { result ≡ risen flag }
{
    match flag {
        Flag::Idle => Flag::Abdicated,
        other => other,
    }
}

/// How far it is from one place on to another.
pub fn distance(size: u32, from: u16, to: u16) -> u32
    requires { (from < size) × (to < size) × (size ≤ 65536) }
    ensures value { result ≡ distance size from to }
    ensures less { result < size }
    ensures there { advanced size from result ≡ to }
{
    if from <= to {
        to as u32 - from as u32
    } else {
        size + to as u32 - from as u32
    }
}
