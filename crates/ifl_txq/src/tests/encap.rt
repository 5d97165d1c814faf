//! What `encap` answers by itself.
ghost use Rattle.std.specs.Prelude.{◌≡◌};

use super::{Ends, Others, Shared, make, over, packet, ticket};
use crate::{Encap, Log, Txq};
use ifl_mbuf::Packet;
use ifl_pool::{Pool, PoolPass};
use ifl_writeback::WritebackRing;
use std::process::Abort;
use std::sync::Wait;
use std::test::*;

/// What `encap` answered: how many descriptors it posted and how many clusters compaction freed, how much room there
/// was, or how many clusters it handed back.
#[derive(Clone, Copy, Debug, PartialEq, Eq)]
enum Answer {
    Posted { count: u32, freed: u32 },
    NoRoom { avail: u32 },
    Dropped(u32),
}

fn told(queue: &mut Txq<WritebackRing>, packet: Packet) -> Answer {
    match queue.encap(packet) {
        Encap::Posted { count, freed } => Answer::Posted {
            count,
            freed: freed.count(),
        },
        Encap::NoRoom { packet: _, avail } => Answer::NoRoom { avail },
        Encap::Dropped(freed) => Answer::Dropped(freed.count()),
    }
}

/// Offers packets to a queue over a ring of 8 slots with at most 2 descriptors a frame, which posts one while more than 4
/// of the 7 places are free.
fn assert_answers<W: Wait + Abort>(
    rt: &W,
    queue: &mut Txq<WritebackRing>,
    pool: &Pool,
    pass: &mut PoolPass,
)
    requires { pass.old.pool ≡ pool.now }
{
    over::<WritebackRing>();
    let rows = [
        (3, 1_000, Answer::Posted { count: 2, freed: 1 }),
        (5, 1_000, Answer::Dropped(5)),
        (1, 100, Answer::Posted { count: 1, freed: 0 }),
        (1, 100, Answer::NoRoom { avail: 4 }),
    ];
    for (segments, len, answer) in rows {
        let packet = packet(rt, pool, pass, ticket(0), segments, len);
        assert_eq!(rt; told(queue, packet), answer);
    }
}

#[test]
fn encap_answers(rt: HostRuntime) -> Result<(), Fail> {
    let log = Log::new(rt.alloc(), &[1])?;
    let (shared, ends, others) = make(&rt, rt.alloc(), 8, 10)?;
    let Shared { ring, port, pool } = shared;
    let Ends {
        driver,
        device: _,
        reader,
        pass,
    } = ends;
    let mut queue = Txq::new(&ring, driver, &port, reader, &pool, pass, log, 2, 1);
    let Others {
        writer: _,
        mut pass,
    } = others;
    assert_answers(&rt, &mut queue, &pool, &mut pass);
    Ok(())
}
