ghost use Rattle.std.specs.Prelude.{◌≡◌, ◌<◌, ◌≤◌, ◌+◌, ◌^◌, ◌++◌, length, vec_capacity, OnOk, OnErr, IfOk};
ghost use Rattle.std.specs.List.{AllByRecursion};
ghost use Rattle.ifl_pcap.specs.declared.form.Order.TheVariants.{Little};
ghost use Rattle.ifl_pcap.specs.Numbers.{spelled_in};
ghost use Rattle.ifl_pcap.specs.File.{IsShort, IsStamp, record_of, written};

use crate::capture::Capture;
use crate::form::HEAD_LEN;
use crate::frame::Frame;
use byteorder::{ByteOrder, LittleEndian};
use ifl_base::{NoMemory, Stamp};
use std::alloc::Global;

/// Magic, version 2.4, zone 0, accuracy 0, snap length 262,144 and link type Ethernet, the lowest byte first.
const HEADER: [u8; 24] = [
    0xd4, 0xc3, 0xb2, 0xa1, 2, 0, 4, 0, 0, 0, 0, 0, 0, 0, 0, 0, 0, 0, 4, 0, 1, 0, 0, 0,
];

/// Appends bytes for which there is room.
fn put(out: &mut Vec<u8>, bytes: &[u8])
    requires { length out.old.items + length bytes.now ≤ vec_capacity out.old }
    ensures items { out.new.items ≡ out.old.items ++ bytes.now }
    ensures capacity { vec_capacity out.old ≤ vec_capacity out.new }
{
    let Ok(()) = out.extend_from_slice(bytes) else {
        unreachable!()
    };
}

/// Appends a number's four bytes.
#[tactic(auto, unfolding(crate::specs::Numbers::spelled_in))]
fn put_number(out: &mut Vec<u8>, n: u32)
    requires { length out.old.items + 4 ≤ vec_capacity out.old }
    ensures items { out.new.items ≡ out.old.items ++ spelled_in Little n }
    ensures len { length out.new.items ≡ length out.old.items + 4 }
    ensures word { n < 2 ^ 32 }
    ensures capacity { vec_capacity out.old ≤ vec_capacity out.new }
{
    let mut bytes = [0u8; 4];
    LittleEndian::write_u32(&mut bytes, n);
    put(out, &bytes);
}

/// Appends the four numbers before a frame of so many bytes.
fn put_head(out: &mut Vec<u8>, stamp: &Stamp, len: u32)
    requires { length out.old.items + 16 ≤ vec_capacity out.old }
    ensures items { out.new.items ≡ (((out.old.items ++ spelled_in Little stamp.now.sec) ++ spelled_in Little stamp.now.usec) ++ spelled_in Little len) ++ spelled_in Little stamp.now.orig }
    ensures len { length out.new.items ≡ length out.old.items + 16 }
    ensures words { IsStamp stamp.now }
    ensures capacity { vec_capacity out.old ≤ vec_capacity out.new }
{
    put_number(out, stamp.sec);
    put_number(out, stamp.usec);
    put_number(out, len);
    put_number(out, stamp.orig);
}

/// Appends a frame's record, or nothing.
pub(crate) fn put_frame(out: &mut Vec<u8>, f: &Frame<'_>) -> Result<(), NoMemory>
    requires { length f.now.bytes < 2 ^ 32 }
    ensures ok { OnOk result (out.new.items ≡ out.old.items ++ record_of f.now) }
    ensures err { OnErr result (out.new.items ≡ out.old.items) }
    ensures words { OnOk result (IsStamp f.now.stamp) }
{
    let bytes = f.bytes();
    out.reserve(HEAD_LEN + bytes.len())?;
    put_head(out, &f.stamp(), bytes.len() as u32);
    put(out, bytes);
    Ok(())
}

/// The bytes that the file of these frames will have.
fn room_for(c: &Capture) -> usize {
    c.places.iter().fold(
        HEADER.len(),
        |room, p| room.saturating_add(HEAD_LEN + p.len as usize),
    )
}

/// The one file that is written for a capture. Each frame has at most 262,144 bytes. Where there is no memory for
/// it, there is no file, and the capture stays as it is.
#[tactic(auto, unfolding(crate::specs::File::written_header))]
pub fn write_capture(alloc: Global, c: &Capture) -> Result<Vec<u8>, NoMemory>
    requires { AllByRecursion IsShort c.now.frames }
    ensures { IfOk result (λ v. v.items ≡ written c.now.frames) }
{
    let mut out = Vec::with_capacity(alloc, room_for(c))?;
    out.extend_from_slice(&HEADER)?;
    for i in 0..c.len() {
        let f = c.frame(i);
        put_frame(&mut out, &f)?;
    }
    Ok(out)
}
