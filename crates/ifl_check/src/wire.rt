ghost use Rattle.std.specs.Prelude.{◌≡◌, ◌≢◌, ◌++◌, ◌%◌, true, false, ℕ, List, IfSome, IfNone};
ghost use Rattle.std.specs.List.{flat_map};
ghost use Rattle.ifl_pcap.specs.declared.form.Order.TheVariants.{Little};
ghost use Rattle.ifl_pcap.specs.Numbers.{spelled_in};
ghost use Rattle.ifl_pcap.specs.File.{record_of};
ghost use Rattle.ifl_check.specs.Files.{each_frames};
ghost use Rattle.ifl_check.specs.OnWire.{on_wire, IsWire};

use crate::files::frame_at;
use crate::line::Line;
use crate::parts::behind;
use byteorder::{ByteOrder, LittleEndian};
use ifl_base::Fate;
use ifl_pcap::{Capture, Frame};

/// The header of a written capture, after the capture file format 2.4: the lowest byte first, microseconds, zone 0,
/// accuracy 0, snap length 262,144 and link type Ethernet.
const HEADER: [u8; 24] = [
    0xd4, 0xc3, 0xb2, 0xa1, 2, 0, 4, 0, 0, 0, 0, 0, 0, 0, 0, 0, 0, 0, 4, 0, 1, 0, 0, 0,
];

/// Whether the bytes are the written capture of the frames whose fate is the wire, in the order of their lines.
#[tactic(auto, unfolding(ifl_pcap::specs::File::written_header))]
pub(crate) fn is_wire(captures: &[Capture], lines: &[Line<Fate>], wire: &[u8]) -> bool
    ensures yes { result ≡ true → IsWire (each_frames captures.now) lines.now wire.now }
    ensures no { result ≡ false → IsWire (each_frames captures.now) lines.now wire.now → ⊥ }
{
    let Some(mut rest) = behind(wire, &HEADER) else {
        return false;
    };
    for line in lines {
        let Some(others) = behind_line(captures, line, rest) else {
            return false;
        };
        rest = others;
    }
    rest.is_empty()
}

/// What stands behind the record of a line, if it is to be on the wire.
fn behind_line<'a>(captures: &[Capture], line: &Line<Fate>, text: &'a [u8]) -> Option<&'a [u8]>
    ensures some { IfSome result (λ rest. text.now ≡ flat_map record_of (on_wire (each_frames captures.now) line.now) ++ rest.now) }
    ensures none { IfNone result ((rest : List ℕ) → text.now ≢ flat_map record_of (on_wire (each_frames captures.now) line.now) ++ rest) }
{
    match line.what {
        Fate::Wire => match frame_at(captures, line.sender, line.index) {
            Some(frame) => behind_record(text, &frame),
            None => Some(text),
        },
        Fate::TooManySegments => Some(text),
        Fate::Reset => Some(text),
        Fate::Flush => Some(text),
    }
}

/// What stands behind a frame's record.
fn behind_record<'a>(text: &'a [u8], frame: &Frame<'_>) -> Option<&'a [u8]>
    ensures some { IfSome result (λ rest. text.now ≡ record_of frame.now ++ rest.now) }
    ensures none { IfNone result ((rest : List ℕ) → text.now ≢ record_of frame.now ++ rest) }
{
    let stamp = frame.stamp();
    let rest = behind_number(text, stamp.sec)?;
    let rest = behind_number(rest, stamp.usec)?;
    let rest = behind_number(rest, low_bits(frame.len()))?;
    let rest = behind_number(rest, stamp.orig)?;
    behind(rest, frame.bytes())
}

/// The low 32 bits of a frame's length, which are all of it.
fn low_bits(len: usize) -> u32
    ensures { result ≡ len % 4294967296 }
{
    (len % 4_294_967_296) as u32
}

/// What stands behind a number's four bytes.
fn behind_number(text: &[u8], n: u32) -> Option<&[u8]>
    ensures some { IfSome result (λ rest. text.now ≡ spelled_in Little n ++ rest.now) }
    ensures none { IfNone result ((rest : List ℕ) → text.now ≢ spelled_in Little n ++ rest) }
{
    let bytes = spelled(n);
    behind(text, &bytes)
}

/// A number's four bytes, the lowest first.
#[tactic(auto, unfolding(ifl_pcap::specs::Numbers::spelled_in))]
fn spelled(n: u32) -> [u8; 4]
    ensures { result ≡ spelled_in Little n }
{
    let mut bytes = [0u8; 4];
    LittleEndian::write_u32(&mut bytes, n);
    bytes
}
