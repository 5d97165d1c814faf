//! Adapters that have too little room.
use super::scenario::{Lane, Scenario, Sizes, play_on};
use super::sender::Sender;
use crate::Tally;
use ifl_desc::{Port, PortWriter};
use std::alloc::Global;
use std::process::Abort;
use std::sync::Wait;
use std::test::*;

struct Full;

impl Scenario for Full {
    fn play<L: Lane, W: Wait + Abort>(
        &self,
        rt: &W,
        _alloc: Global,
        line: &mut L,
        sender: &mut Sender,
        _port: &Port,
        _writer: &mut PortWriter,
    ) -> Result<(), Fail> {
        sender.load_many(rt, 6)?;
        assert_eq!(rt; line.drain(rt, &mut sender.batch), 4);
        assert_eq!(rt; line.drain(rt, &mut sender.batch), 0);
        assert_eq!(rt; sender.batch.len(), 2);
        assert_eq!(rt; line.turn(), 4);
        assert_eq!(rt; line.reclaim(rt), 4);
        assert_eq!(rt; line.outstanding(), 0);
        assert_eq!(rt; line.drain(rt, &mut sender.batch), 2);
        let tally = Tally {
            packets: 6,
            wire: 4,
            aboard: 2,
            ..Tally::NOTHING
        };
        assert_eq!(rt; line.tally(), tally);
        Ok(())
    }
}

#[test]
fn a_full_adapter_takes_the_rest_later(rt: HostRuntime) -> Result<(), Fail> {
    // Of its 8 slots 7 may be posted, and no packet is posted where 3 or fewer are left.
    let sizes = Sizes {
        slots: 8,
        clusters: 6,
        max_segs: 1,
        doorbell_every: 32,
    };
    play_on(&rt, rt.alloc(), sizes, &[6], &Full)
}
