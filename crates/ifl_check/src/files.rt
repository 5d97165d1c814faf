ghost use Rattle.std.specs.Prelude.{◌≡◌, length};
ghost use Rattle.ifl_check.specs.Files.{each_frames, frames_at, frame_at};

use ifl_pcap::{Capture, Frame};

/// How many records a file has; none, where there is no such file.
pub(crate) fn records_at(captures: &[Capture], sender: u32) -> usize
    ensures { result ≡ length (frames_at (each_frames captures.now) sender) }
{
    match captures.get(sender as usize) {
        Some(capture) => capture.len(),
        None => 0,
    }
}

/// The frame of a record, where there is one.
pub(crate) fn frame_at(captures: &[Capture], sender: u32, index: u32) -> Option<Frame<'_>>
    ensures { frame_at (each_frames captures.now) sender index ≡ result }
{
    let capture = captures.get(sender as usize)?;
    if (index as usize) < capture.len() {
        Some(capture.frame(index as usize))
    } else {
        None
    }
}
