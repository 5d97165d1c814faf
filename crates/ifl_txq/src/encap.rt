//! A packet becomes a frame of descriptors.
ghost use Rattle.ifl_txq.specs.Encap.{Encapped};
ghost use Rattle.ifl_txq.specs.Queue.{IsQueue};

use crate::clusters::clusters_of;
use crate::posting::{compact, post_chain};
use crate::queue::Txq;
use ifl_desc::DriverSide;
use ifl_mbuf::{Freed, Packet};

/// What [`Txq::encap`](crate::Txq::encap) did.
#[derive(Drop)]
pub enum Encap {
    /// The packet is posted.
    Posted {
        /// In so many descriptors.
        count: u32,
        /// The clusters that compaction freed, which the caller owns.
        freed: Freed,
    },
    /// There is too little room. Nothing changed.
    NoRoom {
        /// The packet, which the caller owns again.
        packet: Packet,
        /// How many more descriptors may be posted.
        avail: u32,
    },
    /// The packet needs more descriptors than one may have. Its clusters, which the caller owns.
    Dropped(Freed),
}

impl<'a, R: DriverSide> Txq<'a, R> {
    /// Posts a packet as a frame, without its doorbell, and without a line in the log.
    ///
    /// It answers `NoRoom` exactly where at most `max_segs` + 2 more descriptors may be posted, and `Dropped` exactly
    /// where there is room and the packet's bytes need more than `max_segs` clusters.
    pub fn encap(&mut self, packet: Packet) -> Encap
        ensures did { Encapped self.old packet result self.new }
        ensures lawful { IsQueue self.new }
    {
        let avail = self.ring.avail(&self.driver);
        if avail <= self.max_segs + 2 {
            return Encap::NoRoom { packet, avail };
        }
        let (ticket, stamp, mut chain) = packet.into_parts();
        let mut freed = compact(&mut chain, self.max_segs);
        if chain.segments() > self.max_segs {
            freed.cat(clusters_of(chain));
            return Encap::Dropped(freed);
        }
        let count = post_chain(self.ring, &mut self.driver, ticket, stamp, chain);
        Encap::Posted { count, freed }
    }
}
