ghost use Rattle.std.specs.Prelude.{◌≡◌, ◌++◌, [], ◌∷◌, OnOk, OnErr};
ghost use Rattle.ifl_pcap.specs.File.{IsShort};

use crate::capture::Capture;
use crate::form::{Form, Fraction, Order};
use crate::frame::Frame;
use crate::table::Place;
use crate::writing::put_frame;
use ifl_base::NoMemory;
use std::alloc::Global;
use std::marker::Model;

/// A capture in the making, to which frames are added one after another.
///
/// It owns the bytes of its frames, each as the record that a written file has of it. Contracts see it as the list of
/// its frames.
#[derive(Debug, Drop)]
pub struct CaptureBuilder {
    bytes: Vec<u8>,
    places: Vec<Place>,
}

impl Model for CaptureBuilder {
    ghost use Rattle.std.specs.Prelude.{All};
    ghost use Rattle.ifl_pcap.specs.Seen.{CaptureSeen};

    ghost Value = { CaptureSeen };

    ghost use Rattle.ifl_pcap.specs.File.{written_form};
    ghost use Rattle.ifl_pcap.specs.Table.{frames_in, LiesIn};

    ghost view = { λ b. record { frames = frames_in written_form b.bytes.items b.places.items } };

    ghost invariant = { λ b. All (LiesIn b.bytes.items) b.places.items };
}

impl CaptureBuilder {
    /// No frames. It takes no memory.
    pub fn new(alloc: Global) -> CaptureBuilder
        ensures { result.frames ≡ [] }
    {
        CaptureBuilder {
            bytes: Vec::new(alloc),
            places: Vec::new(alloc),
        }
    }

    /// Adds a frame of at most 262,144 bytes at the end; its bytes are copied. Where there is no memory for it, or the
    /// records would begin beyond 4 GiB, the frames stay as they were.
    pub fn push(&mut self, frame: &Frame<'_>) -> Result<(), NoMemory>
        requires { IsShort frame.now }
        ensures ok { OnOk result (self.new.frames ≡ self.old.frames ++ frame.now ∷ []) }
        ensures err { OnErr result (self.new.frames ≡ self.old.frames) }
    {
        let Ok(at) = u32::try_from(self.bytes.len()) else {
            return Err(NoMemory);
        };
        let len = frame.len() as u32;
        put_frame(&mut self.bytes, frame)?;
        self.places.push(Place { at, len })?;
        Ok(())
    }

    /// The capture of these frames. Its bytes are not moved.
    pub fn finish(self) -> Capture
        ensures { result.frames ≡ self.frames }
    {
        let CaptureBuilder { bytes, places } = self;
        let form = Form {
            order: Order::Little,
            fraction: Fraction::Micros,
        };
        Capture {
            form,
            bytes,
            places,
        }
    }
}
