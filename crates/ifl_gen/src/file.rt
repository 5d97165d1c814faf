//! The file of a sender's capture.

ghost use Rattle.std.specs.Prelude.{◌≡◌, ◌≤◌, ◌+◌, ◌*◌, ◌++◌, length, OnOk, IfOk};
ghost use Rattle.ifl_pcap.specs.declared.form.Order.TheVariants.{Little};
ghost use Rattle.ifl_pcap.specs.Numbers.{spelled_in};
ghost use Rattle.ifl_pcap.specs.File.{record_of, written};
ghost use Rattle.ifl_gen.specs.Frames.{frame_by, captured};

use crate::body::put_bytes;
use crate::state::{first, frame_len, next};
use crate::traffic::Traffic;
use byteorder::{ByteOrder, LittleEndian};
use ifl_base::NoMemory;
use ifl_pcap::{CaptureBuilder, write_capture};
use std::alloc::Global;

/// The bytes of a capture's file before its records.
const HEADER_LEN: u64 = 24;

/// The bytes of a record before its frame.
const HEAD_LEN: u64 = 16;

/// How many bytes the file of a sender's capture has.
pub(crate) fn file_len(traffic: Traffic, sender: u32) -> u64
    ensures value { result ≡ length (written (captured traffic sender)) }
    ensures few { result ≤ 24 + 1530 * traffic.frames }
{
    let mut x = first(traffic.seed, sender);
    let mut len = HEADER_LEN;
    for _index in 0..traffic.frames {
        x = next(x);
        len += HEAD_LEN + frame_len(x) as u64;
    }
    len
}

/// Appends a number's four bytes, the lowest first.
#[tactic(auto, unfolding(ifl_pcap::specs::Numbers::spelled_in))]
fn put_number(out: &mut Vec<u8>, n: u32) -> Result<(), NoMemory>
    ensures { OnOk result (out.new.items ≡ out.old.items ++ spelled_in Little n) }
{
    let mut bytes = [0u8; 4];
    LittleEndian::write_u32(&mut bytes, n);
    out.extend_from_slice(&bytes)?;
    Ok(())
}

/// Appends the record of the frame that is made from this number.
fn put_record(out: &mut Vec<u8>, sender: u32, index: u32, x: u64) -> Result<(), NoMemory>
    ensures { OnOk result (out.new.items ≡ out.old.items ++ record_of (frame_by sender index x)) }
{
    let len = frame_len(x);
    put_number(out, index)?;
    put_number(out, sender)?;
    put_number(out, len)?;
    put_number(out, len)?;
    put_bytes(out, x, len as usize)
}

/// The file of a sender's capture, for which room is taken once.
pub(crate) fn file_of(alloc: Global, traffic: Traffic, sender: u32) -> Result<Vec<u8>, NoMemory>
    ensures { IfOk result (λ v. v.items ≡ written (captured traffic sender)) }
{
    let empty = CaptureBuilder::new(alloc).finish();
    let header = write_capture(alloc, &empty)?;
    let mut out = Vec::with_capacity(alloc, file_len(traffic, sender) as usize)?;
    out.extend_from_slice(&header)?;
    let mut x = first(traffic.seed, sender);
    for index in 0..traffic.frames {
        x = next(x);
        put_record(&mut out, sender, index, x)?;
    }
    Ok(out)
}
