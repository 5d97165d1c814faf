//! The calls of a log.
use super::ticket;
use crate::{Log, OrderLine};
use ifl_base::{Fate, Ticket};
use std::process::Abort;
use std::test::*;

/// The lines of a log, in which each has its fate.
pub fn lines_of<W: Abort>(rt: &W, log: Log) -> Vec<OrderLine> {
    assert!(rt; log.tally().aboard == 0);
    log.into_lines()
}

#[test]
fn a_log_notes_and_settles(rt: HostRuntime) -> Result<(), Fail> {
    let other = Ticket {
        sender: 1,
        index: 0,
    };
    let mut log = Log::new(rt.alloc(), &[2, 1])?;
    log.note(other);
    log.note(ticket(1));
    log.note(other);
    log.note(ticket(2));
    log.settle(ticket(1), Fate::Wire);
    log.settle(other, Fate::Reset);
    log.settle(other, Fate::Flush);
    log.settle(ticket(0), Fate::Flush);
    let lines = lines_of(&rt, log);
    let order = [(other, Fate::Reset), (ticket(1), Fate::Wire)];
    assert_eq!(rt; lines.len(), 2);
    for (line, (ticket, fate)) in lines.iter().zip(order) {
        assert_eq!(rt; *line, OrderLine { ticket, fate });
    }
    Ok(())
}
