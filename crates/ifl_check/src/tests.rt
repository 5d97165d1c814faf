ghost use Rattle.std.specs.Prelude.{◌≡◌, ◌≤◌, length, IfOk};

use super::*;
use ifl_base::{NoMemory, Stamp};
use ifl_pcap::{Capture, CaptureBuilder, Frame, write_capture};
use std::alloc::Global;
use std::test::*;

/// A run of two files: 60, 13 and 100 bytes, and 60, 4,097, 5,001, 60 and 60 bytes.
const ORDER: &str =
    "accepted 5\n1 0 wire\n0 0 wire\n1 1 too_many_segments\n0 2 reset\n1 3 flush\naway 3\n0 1 runt\n1 2 oversize\n1 4 no_buffers 1 1 2 busy\n";

const TERMS: Terms = Terms {
    ring_size: 8,
    max_frame: 5_000,
    max_segs: 2,
    drops: true,
    hangs: true,
    flushes: true,
};

fn frame(bytes: &[u8]) -> Frame<'_>
    ensures { result.bytes ≡ bytes.now }
{
    let stamp = Stamp {
        sec: 5,
        usec: 7,
        orig: 60,
    };
    Frame::new(stamp, bytes)
}

fn first_file(alloc: Global) -> Result<Capture, NoMemory>
    ensures { IfOk result (λ c. length c.frames ≤ 3) }
{
    let mut frames = CaptureBuilder::new(alloc);
    frames.push(&frame(&[1u8; 60]))?;
    frames.push(&frame(&[2u8; 13]))?;
    frames.push(&frame(&[3u8; 100]))?;
    Ok(frames.finish())
}

fn second_file(alloc: Global) -> Result<Capture, NoMemory>
    ensures { IfOk result (λ c. length c.frames ≤ 5) }
{
    let mut frames = CaptureBuilder::new(alloc);
    frames.push(&frame(&[4u8; 60]))?;
    frames.push(&frame(&[5u8; 4_097]))?;
    frames.push(&frame(&[6u8; 5_001]))?;
    frames.push(&frame(&[7u8; 60]))?;
    frames.push(&frame(&[8u8; 60]))?;
    Ok(frames.finish())
}

/// The frames that are on the wire.
fn wire_of(alloc: Global) -> Result<Vec<u8>, NoMemory> {
    let mut frames = CaptureBuilder::new(alloc);
    frames.push(&frame(&[4u8; 60]))?;
    frames.push(&frame(&[1u8; 60]))?;
    let capture = frames.finish();
    write_capture(alloc, &capture)
}

/// What the two files of a run are judged to be.
fn judged(alloc: Global, terms: Terms, wire: &[u8], order: &str) -> Result<Option<u32>, NoMemory>
    requires { (4 ≤ terms.ring_size) × (terms.ring_size ≤ 65536) }
{
    let captures = [first_file(alloc)?, second_file(alloc)?];
    check_run(alloc, terms, &captures, wire, order.as_bytes())
}

#[test]
fn good_files_are_good(rt: HostRuntime) -> Result<(), Fail> {
    let alloc = rt.alloc();
    let wire = wire_of(alloc)?;
    assert_eq!(rt; judged(alloc, TERMS, &wire, ORDER)?, None);
    Ok(())
}

/// What is judged where a part of the good order text reads otherwise.
fn changed(alloc: Global, terms: Terms, old: &str, new: &str) -> Result<Option<u32>, Fail>
    requires { (4 ≤ terms.ring_size) × (terms.ring_size ≤ 65536) }
{
    let wire = wire_of(alloc)?;
    let order = ORDER.replace(alloc, old, new)?;
    Ok(judged(alloc, terms, &wire, order.as_str())?)
}

#[test]
fn texts_out_of_the_grammar_fail_the_first_clause(rt: HostRuntime) -> Result<(), Fail> {
    let alloc = rt.alloc();
    for (old, new) in [
        // a count that is no count of the lines, with a line too many and one too few
        ("accepted 5", "accepted 4"),
        ("accepted 5", "accepted 6"),
        ("away 3", "away 2"),
        ("away 3", "away 4"),
        ("1 3 flush\n", "1 3 flush\n1 3 flush\n"),
        ("1 3 flush\n", ""),
        ("2 busy\n", "2 busy\n0 1 runt\n"),
        ("1 2 oversize\n", ""),
        // numbers that overflow, and such with a leading zero, a sign or no digits
        ("accepted 5", "accepted 18446744073709551621"),
        ("accepted 5", "accepted 05"),
        ("away 3", "away +3"),
        ("1 0 wire", "4294967297 0 wire"),
        ("1 0 wire", "1 4294967296 wire"),
        ("1 0 wire", "01 0 wire"),
        ("1 0 wire", "1 00 wire"),
        ("1 0 wire", "1 -0 wire"),
        ("1 0 wire", "1  wire"),
        ("no_buffers 1 1 2", "no_buffers 65537 1 2"),
        ("no_buffers 1 1 2", "no_buffers 1 65536 2"),
        ("no_buffers 1 1 2", "no_buffers 1 1 65538"),
        ("no_buffers 1 1 2", "no_buffers 1 1 02"),
        // the ends of lines
        ("2 busy\n", "2 busy"),
        ("2 busy\n", "2 busy\n\n"),
        ("1 0 wire\n", "1 0 wire\r\n"),
        ("away 3\n", "away 3\r\n"),
        ("1 0 wire\n", "1 0 wire \n"),
        ("1 0 wire\n", "\n1 0 wire\n"),
        // words too many, too few and unknown
        ("1 0 wire", "1 0 wire 60"),
        ("1 0 wire", "1 0"),
        ("1 0 wire", "1  0 wire"),
        ("1 0 wire", "1 0 WIRE"),
        ("1 0 wire", "1 0 runt"),
        ("0 1 runt", "0 1 wire"),
        ("0 1 runt", "0 1 runt 1 1 2 busy"),
        ("1 1 2 busy", "1 1 2"),
        ("1 1 2 busy", "1 1 busy"),
        ("1 1 2 busy", "1 1 2 busy 7"),
        ("1 1 2 busy", "1 1 2 asleep"),
        ("accepted 5", "taken 5"),
        ("away 3", "turned 3"),
        (ORDER, ""),
        (ORDER, "accepted 0\n"),
        (ORDER, "accepted 0\naway 0"),
    ] {
        assert_eq!(rt; changed(alloc, TERMS, old, new)?, Some(1));
    }
    Ok(())
}

#[test]
fn each_later_clause_fails_by_its_lines_alone(rt: HostRuntime) -> Result<(), Fail> {
    let alloc = rt.alloc();
    for (old, new, clause) in [
        // a record that is in no line, in two lines, and lines that name none
        (
            "accepted 5\n1 0 wire\n0 0 wire\n1 1 too_many_segments\n",
            "accepted 4\n1 0 wire\n0 0 wire\n",
            2,
        ),
        ("1 3 flush\n", "0 2 flush\n", 2),
        ("1 4 no_buffers", "0 2 no_buffers", 2),
        ("1 3 flush\n", "1 5 flush\n", 2),
        ("1 3 flush\n", "2 0 flush\n", 2),
        ("1 3 flush\n", "65537 3 flush\n", 2),
        ("0 1 runt", "0 4294967295 runt", 2),
        (ORDER, "accepted 0\naway 0\n", 2),
        // lines of one sender, and away lines, in another order
        (
            "1 1 too_many_segments\n0 2 reset\n1 3 flush",
            "1 3 flush\n0 2 reset\n1 1 too_many_segments",
            3,
        ),
        ("0 1 runt\n1 2 oversize", "1 2 oversize\n0 1 runt", 3),
        // what a length does not allow
        ("0 2 reset", "0 2 too_many_segments", 4),
        ("1 1 too_many_segments", "1 1 reset", 4),
        ("0 1 runt", "0 1 no_clusters", 4),
        ("1 2 oversize", "1 2 no_clusters", 4),
        ("1 4 no_buffers 1 1 2 busy", "1 4 runt", 4),
        ("1 4 no_buffers 1 1 2 busy", "1 4 oversize", 4),
        // places out of the ring, and a ring with room
        ("no_buffers 1 1 2", "no_buffers 8 1 2", 6),
        ("no_buffers 1 1 2", "no_buffers 1 8 2", 6),
        ("no_buffers 1 1 2", "no_buffers 1 1 8", 6),
        ("no_buffers 1 1 2", "no_buffers 1 1 1", 6),
        ("no_buffers 1 1 2", "no_buffers 1 1 4", 6),
        // frames on the wire in the order of their lines
        ("1 0 wire\n0 0 wire", "0 0 wire\n1 0 wire", 7),
        ("0 0 wire", "0 0 reset", 7),
        ("0 2 reset", "0 2 wire", 7),
    ] {
        assert_eq!(rt; changed(alloc, TERMS, old, new)?, Some(clause));
    }
    Ok(())
}

#[test]
fn clauses_fail_by_the_settings_alone(rt: HostRuntime) -> Result<(), Fail> {
    let alloc = rt.alloc();
    for (max_frame, max_segs, drops, hangs, flushes, clause) in [
        (5_001, 2, true, true, true, 4),
        (4_096, 2, true, true, true, 4),
        (5_000, 3, true, true, true, 4),
        (5_000, 0, true, true, true, 4),
        (5_000, 2, false, true, true, 5),
        (5_000, 2, true, false, true, 5),
        (5_000, 2, true, true, false, 5),
    ] {
        let terms = Terms {
            ring_size: 8,
            max_frame,
            max_segs,
            drops,
            hangs,
            flushes,
        };
        assert_eq!(rt; changed(alloc, terms, "", "")?, Some(clause));
    }
    Ok(())
}

#[test]
fn good_texts_of_other_words_are_good(rt: HostRuntime) -> Result<(), Fail> {
    let alloc = rt.alloc();
    for (old, new) in [
        ("1 4 no_buffers 1 1 2 busy", "1 4 no_clusters"),
        ("no_buffers 1 1 2 busy", "no_buffers 1 1 3 idle"),
        ("no_buffers 1 1 2 busy", "no_buffers 7 0 0 stalled"),
        ("no_buffers 1 1 2 busy", "no_buffers 6 7 0 abdicated"),
        ("0 2 reset\n1 3 flush", "1 3 flush\n0 2 reset"),
        ("0 2 reset", "0 2 flush"),
    ] {
        assert_eq!(rt; changed(alloc, TERMS, old, new)?, None);
    }
    Ok(())
}

#[test]
fn the_wire_is_compared_to_its_last_byte(rt: HostRuntime) -> Result<(), Fail> {
    let alloc = rt.alloc();
    let wire = wire_of(alloc)?;
    assert_eq!(rt; wire.len(), 176);
    for place in [0usize, 16, 20, 24, 28, 32, 36, 40, 99, 100, 116, 175] {
        let mut other = Vec::from_slice(alloc, &wire)?;
        if let Some(byte) = other.get_mut(place) {
            *byte ^= 1;
        }
        assert_eq!(rt; judged(alloc, TERMS, &other, ORDER)?, Some(7));
        other.truncate(place);
        assert_eq!(rt; judged(alloc, TERMS, &other, ORDER)?, Some(7));
    }
    let mut other = Vec::from_slice(alloc, &wire)?;
    other.push(0)?;
    assert_eq!(rt; judged(alloc, TERMS, &other, ORDER)?, Some(7));
    Ok(())
}

#[test]
fn the_first_of_two_clauses_is_named(rt: HostRuntime) -> Result<(), Fail> {
    let alloc = rt.alloc();
    let terms = Terms {
        ring_size: 8,
        max_frame: 5_000,
        max_segs: 3,
        drops: false,
        hangs: true,
        flushes: true,
    };
    assert_eq!(rt; judged(alloc, terms, &[], "")?, Some(1));
    assert_eq!(rt; judged(alloc, terms, &[], "accepted 0\naway 0\n")?, Some(2));
    assert_eq!(rt; judged(alloc, terms, &[], ORDER)?, Some(4));
    assert_eq!(rt;
        changed(
            alloc,
            TERMS,
            "1 0 wire\n0 0 wire\n1 1 too_many_segments",
            "1 1 reset\n1 0 wire\n0 0 wire"
        )?,
        Some(3)
    );
    Ok(())
}

#[test]
fn a_run_without_frames_is_good(rt: HostRuntime) -> Result<(), Fail> {
    let alloc = rt.alloc();
    let none = CaptureBuilder::new(alloc).finish();
    let wire = write_capture(alloc, &none)?;
    let order = b"accepted 0\naway 0\n";
    assert_eq!(rt; check_run(alloc, TERMS, &[], &wire, order)?, None);
    assert_eq!(rt;
        check_run(alloc, TERMS, &[], &wire, b"accepted 1\n0 0 wire\naway 0\n")?,
        Some(2)
    );
    assert_eq!(rt; check_run(alloc, TERMS, &[], &[], order)?, Some(7));
    Ok(())
}

#[test]
fn lines_are_read_as_they_stand(rt: HostRuntime) -> Result<(), Fail> {
    let alloc = rt.alloc();
    let text = b"accepted 1\n4294967295 0 flush\naway 1\n0 10 no_buffers 65535 0 7 abdicated\n";
    let Some(order) = read_order(alloc, text)? else {
        return Err(Fail::from(NoMemory));
    };
    assert_eq!(rt; order.accepted.len(), 1);
    assert_eq!(rt; order.away.len(), 1);
    Ok(())
}
