//! Whole receive runs over each kind of adapter. What is missed is worked out by hand from the rule.
ghost use Rattle.std.specs.Prelude.{◌≤◌};

use super::*;
use ifl_base::{NoMemory, Stamp};
use ifl_desc::{ClosedList, DescRing};
use ifl_generation::GenerationRing;
use ifl_legacy::LegacyRing;
use ifl_pcap::{Capture, CaptureBuilder, Frame};
use ifl_writeback::WritebackRing;
use std::alloc::Global;
use std::process::Abort;
use std::sync::Wait;
use std::test::*;

/// Ten frames of 60 bytes.
const TEN: [usize; 10] = [60, 60, 60, 60, 60, 60, 60, 60, 60, 60];

/// The header of a capture's file.
const HEADER: [u8; 24] = [
    0xd4, 0xc3, 0xb2, 0xa1, 2, 0, 4, 0, 0, 0, 0, 0, 0, 0, 0, 0, 0, 0, 4, 0, 1, 0, 0, 0,
];

/// Eight slots, and more clusters than they hold.
const SMALL: RxSizes = RxSizes {
    descriptors: 8,
    clusters: 32,
};

/// A run over eight slots, and what has to come of it.
#[derive(Drop)]
struct Case<'a> {
    sizes: RxSizes,
    rules: RxRules,
    /// The lengths of the frames.
    lengths: &'a [usize],
    /// Which are missed.
    missed: &'a [MissedLine],
    /// How many are copied.
    copied: u64,
}

/// The line of an arrival that found so many buffers free.
fn line(index: u32, free: u32) -> MissedLine {
    MissedLine { index, free }
}

/// Whether the arrival has a line.
fn is_missed(missed: &[MissedLine], index: u32) -> bool {
    for m in missed {
        if m.index == index {
            return true;
        }
    }
    false
}

/// 65,536 bytes that repeat only after 251.
fn some_bytes(alloc: Global) -> Result<Vec<u8>, NoMemory> {
    let mut bytes = Vec::with_capacity(alloc, 65_536)?;
    for i in 0..65_536u32 {
        bytes.push((i % 251) as u8)?;
    }
    Ok(bytes)
}

/// A capture of frames of these lengths. The seconds of a frame's stamp are its number.
fn capture_of<A: Abort>(rt: &A, alloc: Global, lengths: &[usize]) -> Result<Capture, NoMemory> {
    let bytes = some_bytes(alloc)?;
    let mut builder = CaptureBuilder::new(alloc);
    let mut index = 0u32;
    for len in lengths {
        assert!(rt; *len <= 65_536 && *len <= bytes.len());
        let stamp = Stamp {
            sec: index,
            usec: 7,
            orig: 70_000,
        };
        let (frame, _) = bytes.split_at(*len);
        builder.push(&Frame::new(stamp, frame))?;
        index = index.wrapping_add(1);
    }
    Ok(builder.finish())
}

/// Appends a number of four bytes, the lowest first.
fn put_number(file: &mut Vec<u8>, n: u32) -> Result<(), NoMemory> {
    file.push((n % 256) as u8)?;
    file.push((n / 256 % 256) as u8)?;
    file.push((n / 65_536 % 256) as u8)?;
    file.push((n / 16_777_216 % 256) as u8)?;
    Ok(())
}

/// The file of those frames that have no line.
fn file_of<A: Abort>(
    rt: &A,
    alloc: Global,
    lengths: &[usize],
    missed: &[MissedLine],
) -> Result<Vec<u8>, NoMemory> {
    let bytes = some_bytes(alloc)?;
    let mut file = Vec::from_slice(alloc, &HEADER)?;
    let mut index = 0u32;
    for len in lengths {
        assert!(rt; *len <= 65_536 && *len <= bytes.len());
        if !is_missed(missed, index) {
            put_number(&mut file, index)?;
            put_number(&mut file, 7)?;
            put_number(&mut file, *len as u32)?;
            put_number(&mut file, 70_000)?;
            let (frame, _) = bytes.split_at(*len);
            file.extend_from_slice(frame)?;
        }
        index = index.wrapping_add(1);
    }
    Ok(file)
}

/// Runs a case over one kind of ring.
fn check<R: DescRing + 'static, W: Wait + Abort>(
    rt: &W,
    alloc: Global,
    case: &Case<'_>,
) -> Result<(), NoMemory> {
    let input = capture_of(rt, alloc, case.lengths)?;
    let arrived = input.len();
    assert!(rt; arrived <= 1_000_000);
    let left = receive_capture::<R, W>(rt, alloc, case.sizes, case.rules, &input)?;
    let file = file_of(rt, alloc, case.lengths, case.missed)?;
    let stored = case.lengths.len().saturating_sub(case.missed.len());
    assert!(rt; left.missed.as_slice() == case.missed);
    assert!(rt; left.host.as_slice() == file.as_slice());
    assert!(rt; left.counters.arrived == arrived as u64);
    assert!(rt; left.counters.delivered == stored as u64);
    assert!(rt; left.counters.missed == case.missed.len() as u64);
    assert!(rt; left.counters.copied == case.copied);
    assert!(rt; left.desc.left().is_empty());
    assert!(rt; left.pool.count() == case.sizes.clusters);
    Ok(())
}

/// Runs a case over each kind of ring.
fn check_kinds<W: Wait + Abort>(rt: &W, alloc: Global, case: &Case<'_>) -> Result<(), NoMemory> {
    check::<LegacyRing, W>(rt, alloc, case)?;
    check::<WritebackRing, W>(rt, alloc, case)?;
    check::<GenerationRing, W>(rt, alloc, case)
}

/// Runs a case over eight slots and 32 clusters, in bursts of so many.
fn check_small<W: Wait + Abort>(
    rt: &W,
    alloc: Global,
    burst: u32,
    lengths: &[usize],
    missed: &[MissedLine],
    copied: u64,
) -> Result<(), NoMemory>
    requires { 1 ≤ burst }
{
    let rules = RxRules {
        burst,
        copy_break: 128,
    };
    check_kinds(
        rt,
        alloc,
        &Case {
            sizes: SMALL,
            rules,
            lengths,
            missed,
            copied,
        },
    )
}

// Seven buffers are free at the beginning of each burst.
#[test]
fn ten_frames_in_one_burst_of_ten(rt: HostRuntime) -> Result<(), Fail> {
    let missed = [line(7, 0), line(8, 0), line(9, 0)];
    check_small(&rt, rt.alloc(), 10, &TEN, &missed, 7)?;
    Ok(())
}

#[test]
fn ten_frames_in_bursts_of_five(rt: HostRuntime) -> Result<(), Fail> {
    check_small(&rt, rt.alloc(), 5, &TEN, &[], 10)?;
    Ok(())
}

#[test]
fn a_burst_larger_than_the_ring_and_than_the_capture(rt: HostRuntime) -> Result<(), Fail> {
    let missed = [line(7, 0), line(8, 0), line(9, 0)];
    check_small(&rt, rt.alloc(), 4_294_967_295, &TEN, &missed, 7)?;
    check_small(&rt, rt.alloc(), 1, &[], &[], 0)?;
    Ok(())
}

// A frame without bytes needs one buffer, 14,336 bytes need seven, and one more byte needs eight.
#[test]
fn frames_of_every_number_of_buffers(rt: HostRuntime) -> Result<(), Fail> {
    let lengths = [
        0, 1, 2048, 2049, 4096, 4097, 14_336, 14_337, 65_536, 128, 129,
    ];
    let missed = [line(7, 7), line(8, 7)];
    check_small(&rt, rt.alloc(), 1, &lengths, &missed, 3)?;
    Ok(())
}

// What is stored before in the burst is gone: 0 bytes take one buffer, so that 65,536 bytes find six and need 32.
#[test]
fn a_missed_frame_takes_no_buffer(rt: HostRuntime) -> Result<(), Fail> {
    check_small(
        &rt,
        rt.alloc(),
        4,
        &[0, 65_536, 12_288, 60],
        &[line(1, 6), line(3, 0)],
        1,
    )?;
    Ok(())
}

#[test]
fn a_frame_of_65_536_bytes_is_stored_where_32_buffers_are_free(
    rt: HostRuntime,
) -> Result<(), Fail> {
    let sizes = RxSizes {
        descriptors: 33,
        clusters: 32,
    };
    let rules = RxRules {
        burst: 2,
        copy_break: 65_535,
    };
    let case = Case {
        sizes,
        rules,
        lengths: &[65_536, 0, 0, 65_536, 65_536],
        missed: &[line(1, 0), line(3, 31)],
        copied: 1,
    };
    check_kinds(&rt, rt.alloc(), &case)?;
    Ok(())
}

// Three buffers are free at the beginning of each burst, whether clusters are kept or given back.
#[test]
fn a_pool_smaller_than_the_ring(rt: HostRuntime) -> Result<(), Fail> {
    for (copy_break, copied) in [(128, 6), (0, 0)] {
        let case = Case {
            sizes: RxSizes {
                descriptors: 8,
                clusters: 3,
            },
            rules: RxRules {
                burst: 5,
                copy_break,
            },
            lengths: &TEN,
            missed: &[line(3, 0), line(4, 0), line(8, 0), line(9, 0)],
            copied,
        };
        check_kinds(&rt, rt.alloc(), &case)?;
    }
    Ok(())
}

#[test]
fn frames_are_copied_up_to_copy_break(rt: HostRuntime) -> Result<(), Fail> {
    for (copy_break, copied) in [(60, 10), (59, 0)] {
        let case = Case {
            sizes: SMALL,
            rules: RxRules {
                burst: 5,
                copy_break,
            },
            lengths: &TEN,
            missed: &[],
            copied,
        };
        check_kinds(&rt, rt.alloc(), &case)?;
    }
    Ok(())
}
