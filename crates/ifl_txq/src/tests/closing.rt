//! A queue is closed, and then all on which it stood.
ghost use Rattle.std.specs.Prelude.{◌≡◌, []};
ghost use Rattle.ifl_base.specs.declared.limits.TheConstants.{PART};
ghost use Rattle.ifl_desc.specs.Ends.{completed};

use super::line::{Ended, Line};
use super::notes::lines_of;
use super::sender::Sender;
use super::{Others, Shared, make, over, ticket};
use crate::OrderLine;
use ifl_base::Fate;
use ifl_desc::{ClosedList, DescRing, PortState, PortWriter};
use ifl_pool::PoolPass;
use ifl_writeback::{WritebackDevice, WritebackDriver, WritebackRing};
use std::process::Abort;
use std::sync::Wait;
use std::test::*;

/// Sends two packets.
fn send_two<W: Wait + Abort>(rt: &W, line: &mut Line, sender: &mut Sender) -> Result<(), Fail>
    ensures line { line.new ≡ line.old }
    ensures sender { sender.new ≡ sender.old }
{
    over::<WritebackRing>();
    sender.load_many(rt, 2)?;
    assert_eq!(rt; line.offer(rt, &mut sender.batch), 2);
    assert_eq!(rt; line.emit(), 2);
    assert_eq!(rt; line.take_back(rt), 2);
    Ok(())
}

/// The order record has both, on the wire.
fn assert_sent<W: Abort>(rt: &W, lines: &[OrderLine]) {
    assert_eq!(rt; lines.len(), 2);
    for (line, index) in lines.iter().zip(0..2) {
        let on_wire = OrderLine {
            ticket: ticket(index),
            fate: Fate::Wire,
        };
        assert_eq!(rt; *line, on_wire);
    }
}

/// Closes the ring, which has nothing left, the port, and the pool, in which all 8 clusters are.
fn close_all<W: Wait + Abort>(
    rt: &W,
    shared: Shared,
    ends: (WritebackDriver, WritebackDevice),
    port_ends: (PortWriter, super::PortReader),
    pass: PoolPass,
)
    requires ring { (ends.0.ring ≡ shared.ring) × (ends.1.ring ≡ shared.ring) }
    requires done { (completed ends.1 ≡ ends.1.fetched) × (ends.1.ready ≡ []) }
    requires port { (port_ends.0.port ≡ shared.port) × (port_ends.1.port ≡ shared.port) }
    requires pool { (pass.pool ≡ shared.pool) × (pass.known.part ≡ PART) }
{
    let Shared { ring, port, pool } = shared;
    let (driver, device) = ends;
    let (writer, reader) = port_ends;
    assert_eq!(rt; ring.avail(&driver), 15);
    assert!(rt; ring.close(driver, device).left().is_empty());
    assert_eq!(rt; port.close(writer, reader), PortState::Up);
    assert_eq!(rt; pool.close(rt, pass).count(), 8);
}

#[test]
fn all_comes_back_of_a_closed_queue(rt: HostRuntime) -> Result<(), Fail> {
    over::<WritebackRing>();
    let (shared, ends, others) = make(&rt, rt.alloc(), 16, 8)?;
    let Others { writer, pass } = others;
    let mut sender = Sender::new(rt.alloc(), &shared.pool, pass);
    let mut line = Line::new(rt.alloc(), &shared, ends, &[2], 4, 4)?;
    send_two(&rt, &mut line, &mut sender)?;
    let Ended {
        driver,
        device,
        reader,
        pass,
        log,
    } = line.close(&rt, sender.into_pass());
    let lines = lines_of(&rt, log);
    assert_sent(&rt, &lines);
    close_all(&rt, shared, (driver, device), (writer, reader), pass);
    Ok(())
}
