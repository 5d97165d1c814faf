ghost use Rattle.std.specs.Prelude.{◌≡◌};
ghost use Rattle.ifl_base.specs.Verdict.{verdict_of};

use crate::limits::FRAME_MIN;

/// What a frame is by its length.
#[derive(Clone, Copy, Debug, PartialEq, Eq)]
pub enum Judged {
    /// Shorter than two addresses and a type.
    Runt,
    /// Longer than the largest frame that may be sent.
    Oversize,
    /// Neither: it may be sent.
    Fit,
}

/// What a frame of `len` bytes is, where frames of up to `max_frame` bytes may be sent.
pub fn verdict(len: u32, max_frame: u32) -> Judged
    ensures { result ≡ verdict_of len max_frame }
{
    if len < FRAME_MIN {
        Judged::Runt
    } else if max_frame < len {
        Judged::Oversize
    } else {
        Judged::Fit
    }
}
