//! What traffic takes, before its frames are made.

ghost use Rattle.std.specs.Prelude.{◌≡◌, ◌≤◌, ◌*◌};
ghost use Rattle.ifl_gen.specs.Measure.{are_too_long, sizes, measure_of};

use crate::file::file_len;
use crate::traffic::Traffic;
use ifl_base::{ALL_MAX, FILE_MAX, FRAMES_MAX};

/// Which limit of a run traffic exceeds.
#[derive(Clone, Copy, Debug, PartialEq, Eq)]
pub enum Measured {
    /// None.
    Fits,
    /// There are more than 1,000,000 frames in all.
    TooManyFrames,
    /// A capture's file has more than 67,108,864 bytes, or all files have more than 134,217,728.
    TooManyBytes,
}

/// Whether the files of the captures are too long, one of them or all together.
fn is_too_long(traffic: Traffic) -> bool
    requires { traffic.senders * traffic.frames ≤ 1000000 }
    ensures { result ≡ are_too_long (sizes traffic) }
{
    let mut all = 0;
    let mut over = false;
    for sender in 0..traffic.senders {
        let len = file_len(traffic, sender);
        over = over || FILE_MAX < len;
        all += len;
    }
    over || ALL_MAX < all
}

/// Which limit the traffic exceeds. No frame is made: the numbers alone tell their lengths. The frames are counted
/// before the bytes.
pub fn measure(traffic: Traffic) -> Measured
    ensures { result ≡ measure_of traffic }
{
    if (FRAMES_MAX as u64) < traffic.senders as u64 * traffic.frames as u64 {
        Measured::TooManyFrames
    } else if is_too_long(traffic) {
        Measured::TooManyBytes
    } else {
        Measured::Fits
    }
}
