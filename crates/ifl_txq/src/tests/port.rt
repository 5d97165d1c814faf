//! Ports that are down, up again, and being stopped.
use super::scenario::{Lane, Scenario, Sizes, play_on};
use super::sender::Sender;
use crate::Tally;
use ifl_desc::{Port, PortState, PortWriter};
use std::alloc::Global;
use std::process::Abort;
use std::sync::Wait;
use std::test::*;

struct DownAndUp;

impl Scenario for DownAndUp {
    fn play<L: Lane, W: Wait + Abort>(
        &self,
        rt: &W,
        _alloc: Global,
        line: &mut L,
        sender: &mut Sender,
        port: &Port,
        writer: &mut PortWriter,
    ) -> Result<(), Fail> {
        sender.load_many(rt, 3)?;
        port.set(writer, PortState::Down);
        assert_eq!(rt; line.drain(rt, &mut sender.batch), 0);
        assert_eq!(rt; sender.batch.len(), 3);
        assert_eq!(rt; line.tally(), Tally::NOTHING);
        assert_eq!(rt; line.turn(), 0);
        port.set(writer, PortState::Up);
        assert_eq!(rt; line.drain(rt, &mut sender.batch), 3);
        assert_eq!(rt; sender.batch.len(), 0);
        assert_eq!(rt; line.turn(), 3);
        Ok(())
    }
}

struct Stopped;

impl Scenario for Stopped {
    fn play<L: Lane, W: Wait + Abort>(
        &self,
        rt: &W,
        alloc: Global,
        line: &mut L,
        sender: &mut Sender,
        port: &Port,
        writer: &mut PortWriter,
    ) -> Result<(), Fail> {
        sender.load_many(rt, 8)?;
        assert_eq!(rt; sender.count_in(rt, alloc)?, 0);
        port.set(writer, PortState::Flush);
        assert_eq!(rt; line.drain(rt, &mut sender.batch), 8);
        assert_eq!(rt; sender.batch.len(), 0);
        assert_eq!(rt; line.turn(), 0);
        let flushed = Tally {
            packets: 8,
            flush: 8,
            ..Tally::NOTHING
        };
        assert_eq!(rt; line.tally(), flushed);
        assert_eq!(rt; sender.count_in(rt, alloc)?, 8);
        Ok(())
    }
}

const SIZES: Sizes = Sizes {
    slots: 16,
    clusters: 8,
    max_segs: 4,
    doorbell_every: 4,
};

#[test]
fn a_port_that_is_down_takes_nothing(rt: HostRuntime) -> Result<(), Fail> {
    play_on(&rt, rt.alloc(), SIZES, &[3], &DownAndUp)
}

#[test]
fn a_port_that_is_stopped_takes_all(rt: HostRuntime) -> Result<(), Fail> {
    play_on(&rt, rt.alloc(), SIZES, &[8], &Stopped)
}
