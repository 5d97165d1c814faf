//! Tickets that lie outside the tables, and kicks.
use super::scenario::{Lane, Scenario, Sizes, play_on};
use super::sender::Sender;
use super::ticket;
use crate::{Item, Tally};
use ifl_base::Ticket;
use ifl_desc::{Port, PortWriter};
use std::alloc::Global;
use std::process::Abort;
use std::sync::Wait;
use std::test::*;

struct Outside;

impl Scenario for Outside {
    fn play<L: Lane, W: Wait + Abort>(
        &self,
        rt: &W,
        alloc: Global,
        line: &mut L,
        sender: &mut Sender,
        _port: &Port,
        _writer: &mut PortWriter,
    ) -> Result<(), Fail> {
        for (number, index) in [(0, 1), (1, 1), (2, 0), (1, 2)] {
            let ticket = Ticket {
                sender: number,
                index,
            };
            sender.load(rt, ticket, 2, 100)?;
        }
        assert_eq!(rt; line.drain(rt, &mut sender.batch), 4);
        assert_eq!(rt; line.turn(), 8);
        assert_eq!(rt; line.reclaim(rt), 4);
        let tally = Tally {
            packets: 1,
            wire: 1,
            ..Tally::NOTHING
        };
        assert_eq!(rt; line.tally(), tally);
        assert_eq!(rt; sender.count_in(rt, alloc)?, 8);
        Ok(())
    }
}

struct Kicked;

impl Scenario for Kicked {
    fn play<L: Lane, W: Wait + Abort>(
        &self,
        rt: &W,
        _alloc: Global,
        line: &mut L,
        sender: &mut Sender,
        _port: &Port,
        _writer: &mut PortWriter,
    ) -> Result<(), Fail> {
        sender.batch.push_back(Item::Kick)?;
        sender.load(rt, ticket(0), 1, 100)?;
        sender.batch.push_back(Item::Kick)?;
        assert_eq!(rt; line.drain(rt, &mut sender.batch), 3);
        assert_eq!(rt; line.outstanding(), 1);
        let tally = Tally {
            packets: 1,
            aboard: 1,
            ..Tally::NOTHING
        };
        assert_eq!(rt; line.tally(), tally);
        Ok(())
    }
}

const SIZES: Sizes = Sizes {
    slots: 16,
    clusters: 8,
    max_segs: 4,
    doorbell_every: 4,
};

#[test]
fn tickets_outside_the_tables_are_sent_and_not_noted(rt: HostRuntime) -> Result<(), Fail> {
    play_on(&rt, rt.alloc(), SIZES, &[1, 2], &Outside)
}

#[test]
fn a_kick_is_consumed_and_not_noted(rt: HostRuntime) -> Result<(), Fail> {
    play_on(&rt, rt.alloc(), SIZES, &[1], &Kicked)
}
