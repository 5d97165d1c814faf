//! Packets that need many segments, and those that need fewer than they have.
ghost use Rattle.std.specs.Prelude.{◌≤◌};

use super::scenario::{Lane, Scenario, Sizes, play_on};
use super::sender::Sender;
use super::ticket;
use crate::Tally;
use ifl_desc::{Port, PortWriter};
use std::alloc::Global;
use std::process::Abort;
use std::sync::Wait;
use std::test::*;

const SENT: Tally = Tally {
    packets: 1,
    wire: 1,
    ..Tally::NOTHING
};

const DROPPED: Tally = Tally {
    packets: 1,
    too_many_segments: 1,
    ..Tally::NOTHING
};

/// A packet of so many segments with `len` bytes each: in how many descriptors it is posted, how many of the pool's 64
/// clusters are back then, how many frames come back, and what the log counts at the end.
#[derive(Clone, Copy)]
struct OnePacket {
    segments: u32,
    len: usize,
    posted: u32,
    back: usize,
    frames: u32,
    tally: Tally,
}

impl Scenario for OnePacket {
    fn play<L: Lane, W: Wait + Abort>(
        &self,
        rt: &W,
        alloc: Global,
        line: &mut L,
        sender: &mut Sender,
        _port: &Port,
        _writer: &mut PortWriter,
    ) -> Result<(), Fail> {
        sender.load(rt, ticket(0), self.segments, self.len)?;
        assert_eq!(rt; line.drain(rt, &mut sender.batch), 1);
        assert_eq!(rt; line.outstanding(), self.posted);
        assert_eq!(rt; sender.count_in(rt, alloc)?, self.back);
        assert_eq!(rt; line.turn(), self.posted);
        assert_eq!(rt; line.reclaim(rt), self.frames);
        assert_eq!(rt; line.outstanding(), 0);
        assert_eq!(rt; sender.count_in(rt, alloc)?, 64);
        assert_eq!(rt; line.tally(), self.tally);
        Ok(())
    }
}

/// Plays it with at most so many segments a frame.
fn play_one<W: Wait + Abort>(
    rt: &W,
    alloc: Global,
    max_segs: u32,
    one: &OnePacket,
) -> Result<(), Fail>
    requires { (1 ≤ max_segs) × (max_segs ≤ 32) }
{
    let sizes = Sizes {
        slots: 64,
        clusters: 64,
        max_segs,
        doorbell_every: 1,
    };
    play_on(rt, alloc, sizes, &[1], one)
}

#[test]
fn a_frame_of_65536_bytes(rt: HostRuntime) -> Result<(), Fail> {
    let dropped = OnePacket {
        segments: 32,
        len: 2_048,
        posted: 0,
        back: 64,
        frames: 0,
        tally: DROPPED,
    };
    let sent = OnePacket {
        posted: 32,
        back: 32,
        frames: 1,
        tally: SENT,
        ..dropped
    };
    play_one(&rt, rt.alloc(), 31, &dropped)?;
    play_one(&rt, rt.alloc(), 32, &sent)
}

#[test]
fn many_small_segments_are_compacted(rt: HostRuntime) -> Result<(), Fail> {
    // Of 40 clusters compaction frees 8, and then 38.
    let to_32 = OnePacket {
        segments: 40,
        len: 100,
        posted: 32,
        back: 32,
        frames: 1,
        tally: SENT,
    };
    let to_2 = OnePacket {
        posted: 2,
        back: 62,
        ..to_32
    };
    play_one(&rt, rt.alloc(), 32, &to_32)?;
    play_one(&rt, rt.alloc(), 2, &to_2)
}
