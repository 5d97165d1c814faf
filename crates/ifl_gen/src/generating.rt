//! The captures of all senders.

ghost use Rattle.std.specs.Prelude.{◌≡◌, map, IfOk};
ghost use Rattle.ifl_gen.specs.Frames.{captured, generated};

use crate::file::file_of;
use crate::traffic::Traffic;
use ifl_base::NoMemory;
use ifl_pcap::{Capture, CaptureFault, read_capture};
use std::alloc::Global;

/// The capture of one sender, which owns its file's bytes.
fn capture_of(alloc: Global, traffic: Traffic, sender: u32) -> Result<Capture, NoMemory>
    ensures { IfOk result (λ c. c.frames ≡ captured traffic sender) }
{
    let bytes = file_of(alloc, traffic, sender)?;
    match read_capture(alloc, bytes) {
        Ok(capture) => Ok(capture),
        Err(CaptureFault::Memory) => Err(NoMemory),
        Err(CaptureFault::Bad { .. }) => unreachable!(),
    }
}

/// The captures of the traffic, one for each sender. What is the same in two calls is the same in their captures.
///
/// It fails for want of memory alone, of which each capture takes its file's bytes and 8 bytes a frame; a capture whose
/// file would have 4 GiB or more always wants it. What exceeds the limits of a run is generated too: [`measure`] tells it
/// beforehand.
///
/// [`measure`]: crate::measure
pub fn generate(alloc: Global, traffic: Traffic) -> Result<Vec<Capture>, NoMemory>
    ensures { IfOk result (λ v. map (λ c. c.frames) v.items ≡ generated traffic) }
{
    let mut captures = Vec::with_capacity(alloc, traffic.senders as usize)?;
    for sender in 0..traffic.senders {
        let capture = capture_of(alloc, traffic, sender)?;
        captures.push_reserved(capture);
    }
    Ok(captures)
}
