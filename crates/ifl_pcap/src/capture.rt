ghost use Rattle.std.specs.Prelude.{◌≡◌, ◌<◌, Some, length, filter, slice_get};
ghost use Rattle.ifl_pcap.specs.Table.{has_length, is_within};

use crate::form::{Form, HEAD_LEN};
use crate::frame::Frame;
use crate::reading::stamp_of;
use crate::table::Place;
use std::marker::Model;

/// The frames of a file, in order. It owns the file's bytes, and each frame is a part of them.
///
/// A table of 8 bytes a frame says where each one lies. Contracts see the list of the frames, and neither the bytes
/// nor the table.
#[derive(Debug, Drop)]
pub struct Capture {
    pub(crate) form: Form,
    pub(crate) bytes: Vec<u8>,
    pub(crate) places: Vec<Place>,
}

impl Model for Capture {
    ghost use Rattle.std.specs.Prelude.{All};
    ghost use Rattle.ifl_pcap.specs.Seen.{CaptureSeen};

    ghost Value = { CaptureSeen };

    ghost use Rattle.ifl_pcap.specs.Table.{frames_in, LiesIn};

    ghost view = { λ c. record { frames = frames_in c.form c.bytes.items c.places.items } };

    ghost invariant = { λ c. All (LiesIn c.bytes.items) c.places.items };
}

impl Capture {
    /// How many frames there are.
    pub fn len(&self) -> usize
        ensures { result ≡ length self.now.frames }
    {
        self.places.len()
    }

    /// The frame with this number, counted from 0. No byte of it is copied.
    pub fn frame(&self, i: usize) -> Frame<'_>
        requires { i < length self.now.frames }
        ensures { slice_get self.now.frames i ≡ Some result }
    {
        let place = self.places[i];
        let (_, record) = self.bytes.split_at(place.at as usize);
        let stamp = stamp_of(self.form, record);
        let (_, behind) = record.split_at(HEAD_LEN);
        let (bytes, _) = behind.split_at(place.len as usize);
        Frame::new(stamp, bytes)
    }

    /// Keeps the frames of `least` to `most` bytes, in order. It takes no memory and gives none up.
    pub fn keep_lengths(&mut self, least: usize, most: usize)
        ensures { self.new.frames ≡ filter (has_length least most) self.old.frames }
    {
        self.places.retain(
            |p| -> bool
                ensures { result ≡ is_within least most p.now.len }
            { least <= p.len as usize && p.len as usize <= most },
        );
    }
}
