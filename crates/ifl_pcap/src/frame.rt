ghost use Rattle.std.specs.Prelude.{◌≡◌, ◌+◌, length};

use ifl_base::Stamp;
use std::marker::Model;

/// A frame as it was captured: its stamp and its bytes, at most 262,144 in a file.
///
/// It owns no byte: its bytes are a part of the capture, or of another buffer, in which they lie.
#[derive(Debug, Drop)]
pub struct Frame<'a> {
    stamp: Stamp,
    bytes: &'a [u8],
}

impl<'a> Model for Frame<'a> {
    ghost use Rattle.ifl_pcap.specs.Seen.{FrameSeen};

    ghost Value = { FrameSeen };

    ghost view = { λ f. record { stamp = f.stamp; bytes = f.bytes.now } };
}

impl<'a> Frame<'a> {
    /// The frame with this stamp and these bytes, which stay where they are.
    pub fn new(stamp: Stamp, bytes: &'a [u8]) -> Frame<'a>
        ensures { result ≡ record { stamp = stamp; bytes = bytes.now } }
    {
        Frame { stamp, bytes }
    }

    /// When it was captured, and how many bytes it had then.
    pub fn stamp(&self) -> Stamp
        ensures { result ≡ self.now.stamp }
    {
        self.stamp
    }

    /// The bytes that were captured, where they lie.
    pub fn bytes(&self) -> &'a [u8]
        ensures { result.now ≡ self.now.bytes }
    {
        self.bytes
    }

    /// How many bytes were captured.
    pub fn len(&self) -> usize
        ensures { result ≡ length self.now.bytes }
    {
        self.bytes.len()
    }
}

/// The length in bytes of a frame's record: 16 and the frame.
pub fn record_len(f: &Frame<'_>) -> u64
    ensures { result ≡ 16 + length f.now.bytes }
{
    16 + f.bytes.len() as u64
}
