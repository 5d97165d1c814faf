//! What is tried on a queue, and with what it is set up.
ghost use Rattle.std.specs.Prelude.{◌≡◌, ◌+◌, ◌≤◌, [], length, sum};
ghost use Rattle.ifl_desc.specs.Port.{writer_of};

use super::line::Line;
use super::sender::Sender;
use super::{Others, make, over};
use crate::{Item, Tally};
use ifl_desc::{Port, PortWriter};
use ifl_writeback::WritebackRing;
use std::alloc::Global;
use std::collections::VecDeque;
use std::process::Abort;
use std::sync::Wait;
use std::test::*;

/// A queue and its device, whatever they are made of.
pub trait Lane {
    /// Offers a batch of 1 to 32 items to the queue.
    fn drain<W: Wait + Abort>(&mut self, rt: &W, batch: &mut VecDeque<Item>) -> u32;

    /// A turn of the device, which emits all that it finds. It answers how many descriptors these were.
    fn turn(&mut self) -> u32;

    /// How many frames the queue reclaimed.
    fn reclaim<W: Wait>(&mut self, rt: &W) -> u32;

    /// How many descriptors are posted and not reclaimed.
    fn outstanding(&self) -> u32;

    /// What the queue has counted.
    fn tally(&self) -> Tally;
}

impl<'a> Lane for Line<'a> {
    fn drain<W: Wait + Abort>(&mut self, rt: &W, batch: &mut VecDeque<Item>) -> u32 {
        over::<WritebackRing>();
        self.offer(rt, batch)
    }

    fn turn(&mut self) -> u32 {
        over::<WritebackRing>();
        self.emit()
    }

    fn reclaim<W: Wait>(&mut self, rt: &W) -> u32 {
        over::<WritebackRing>();
        self.take_back(rt)
    }

    fn outstanding(&self) -> u32 {
        self.queue.outstanding()
    }

    fn tally(&self) -> Tally {
        self.queue.tally()
    }
}

/// What is done to a queue and its device by a sender and by whoever sets the port, on which nothing was set before.
pub trait Scenario {
    fn play<L: Lane, W: Wait + Abort>(
        &self,
        rt: &W,
        alloc: Global,
        line: &mut L,
        sender: &mut Sender,
        port: &Port,
        writer: &mut PortWriter,
    ) -> Result<(), Fail>
        requires { writer.old ≡ writer_of port.now [] };
}

/// A ring of so many slots, a pool of so many clusters, and a queue's limits.
#[derive(Clone, Copy)]
pub struct Sizes {
    pub slots: u32,
    pub clusters: u32,
    pub max_segs: u32,
    pub doorbell_every: u32,
}

/// Plays it on a new queue, whose log has room for so many tickets of each sender.
pub fn play_on<S: Scenario, W: Wait + Abort>(
    rt: &W,
    alloc: Global,
    sizes: Sizes,
    counts: &[u32],
    scenario: &S,
) -> Result<(), Fail>
    requires slots { (8 ≤ sizes.slots) × (sizes.slots ≤ 32768) }
    requires clusters { (1 ≤ sizes.clusters) × (sizes.clusters ≤ 65536) }
    requires segs { (1 ≤ sizes.max_segs) × (sizes.max_segs ≤ 64) × (sizes.max_segs + 4 ≤ sizes.slots) }
    requires every { (1 ≤ sizes.doorbell_every) × (sizes.doorbell_every ≤ 32) }
    requires counts { (length counts.now ≤ 16) × (sum counts.now ≤ 1000000) }
{
    over::<WritebackRing>();
    let Sizes {
        slots,
        clusters,
        max_segs,
        doorbell_every,
    } = sizes;
    let (shared, ends, others) = make(rt, alloc, slots, clusters)?;
    let Others { mut writer, pass } = others;
    let mut sender = Sender::new(alloc, &shared.pool, pass);
    let mut line = Line::new(alloc, &shared, ends, counts, max_segs, doorbell_every)?;
    scenario.play(rt, alloc, &mut line, &mut sender, &shared.port, &mut writer)
}
