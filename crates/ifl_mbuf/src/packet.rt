ghost use Rattle.std.specs.Prelude.{◌≡◌, ◌<◌, length};
ghost use Rattle.ifl_mbuf.specs.Segment.{IsChain, size};

use crate::chain::Chain;
use ifl_base::{Stamp, Ticket};
use std::mem::size_of;

// It is moved through slots and queues, so it stays small.
const _: () = prove!(size_of::<Packet>() < 64);

/// A frame on its way from a sender to an adapter: its name, when it was captured, and its bytes,
/// of which there is at least one. It owns the clusters of its chain, and moves in constant time.
#[derive(Drop)]
pub struct Packet {
    /// Names the frame.
    pub ticket: Ticket,
    /// When the frame was captured.
    pub stamp: Stamp,
    /// The frame's bytes.
    pub chain: Chain,
    ghost some: { 0 < size chain },
}

impl Packet {
    /// A packet of a chain that has a byte.
    pub fn new(ticket: Ticket, stamp: Stamp, chain: Chain) -> Packet
        requires { 0 < size chain }
        ensures ticket { result.ticket ≡ ticket }
        ensures stamp { result.stamp ≡ stamp }
        ensures chain { result.chain ≡ chain }
    {
        Packet {
            ticket,
            stamp,
            chain,
        }
    }

    /// The number of bytes, at least 1.
    pub fn len(&self) -> u32
        ensures value { result ≡ size self.now.chain }
        ensures some { 0 < result }
    {
        self.chain.len()
    }

    /// The number of segments, 1 to 64.
    pub fn segments(&self) -> u32
        ensures value { result ≡ length self.now.chain }
        ensures kept { IsChain self.now.chain }
    {
        self.chain.segments()
    }

    /// Its ticket, its stamp and its chain, which has a byte.
    pub fn into_parts(self) -> (Ticket, Stamp, Chain)
        ensures ticket { result.0 ≡ self.ticket }
        ensures stamp { result.1 ≡ self.stamp }
        ensures chain { result.2 ≡ self.chain }
        ensures some { 0 < size result.2 }
    {
        let Packet {
            ticket,
            stamp,
            chain,
        } = self;
        (ticket, stamp, chain)
    }
}
