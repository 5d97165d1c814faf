ghost use Rattle.std.specs.Prelude.{◌≡◌, ◌+◌, ◌≤◌, length};
ghost use Rattle.ifl_base.specs.declared.limits.TheConstants.{CLUSTER_BYTES};
ghost use Rattle.ifl_mbuf.specs.Segment.{extended, room, Segment};
ghost use Rattle.ifl_mbuf.specs.Trim.{behind, shortened};

use crate::cluster::Cluster;
use crate::node::Node;
use ifl_base::CLUSTER_BYTES;
use std::marker::Model;

/// A cluster with the part of it that is in use: an offset and a length, together at most 2,048.
///
/// A contract sees it as the cluster's number, the offset and the bytes in use.
#[derive(Drop)]
pub struct Seg {
    pub(crate) node: Box<Node>,
}

impl Model for Seg {
    ghost use Rattle.ifl_mbuf.specs.Segment.{Segment};

    ghost Value = { Segment };

    ghost use Rattle.ifl_mbuf.specs.Layout.{segment_of, Fits};

    ghost view = { λ s. segment_of s.node.value.body };

    ghost invariant = { λ s. Fits s.node.value.body };
}

impl Seg {
    /// Copies at most 2,048 bytes to the start of a cluster. The segment owns the cluster from then
    /// on.
    pub fn fill(cluster: Cluster, bytes: &[u8]) -> Seg
        requires { length bytes.now ≤ CLUSTER_BYTES }
        ensures { result ≡ record { number = cluster; off = 0; bytes = bytes.now } }
    {
        let Cluster { mut node } = cluster;
        node.body.off = 0;
        node.body.len = bytes.len() as u32;
        node.body.bytes[..bytes.len()].copy_from_slice(bytes);
        Seg { node }
    }

    /// The bytes in use, which lie within the cluster.
    pub fn bytes(&self) -> &[u8]
        ensures value { result.now ≡ self.now.bytes }
        ensures within { self.now.off + length result.now ≤ CLUSTER_BYTES }
    {
        self.node.body.part()
    }

    /// Gives the cluster back, and forgets which of its bytes were in use.
    pub fn into_cluster(self) -> Cluster
        ensures { result ≡ self.number }
    {
        let Seg { node } = self;
        Cluster { node }
    }

    /// How many bytes of the cluster lie behind those in use.
    pub(crate) fn room(&self) -> u32
        ensures { result ≡ room self.now }
    {
        CLUSTER_BYTES - (self.node.body.off + self.node.body.len)
    }

    /// Copies further bytes behind its own.
    pub(crate) fn append(&mut self, more: &[u8])
        requires { length more.now ≤ room self.old }
        ensures { self.new ≡ extended self.old more.now }
    {
        let body = &mut self.node.body;
        let from = body.off as usize + body.len as usize;
        body.bytes[from..from + more.len()].copy_from_slice(more);
        body.len += more.len() as u32;
    }

    /// Moves its bytes to the start of the cluster.
    pub(crate) fn move_to_start(&mut self)
        ensures { self.new ≡ record { number = self.old.number; off = 0; bytes = self.old.bytes } }
    {
        let body = &mut self.node.body;
        let from = body.off as usize;
        body.bytes.copy_within(from..from + body.len as usize, 0);
        body.off = 0;
    }

    /// Drops its first `n` bytes.
    pub(crate) fn cut_front(&mut self, n: u32)
        requires { n ≤ length self.old.bytes }
        ensures { self.new ≡ behind n self.old }
    {
        let body = &mut self.node.body;
        body.off += n;
        body.len -= n;
    }

    /// Drops the bytes behind its first `n`, if it has more.
    pub(crate) fn shorten(&mut self, n: u32)
        ensures { self.new ≡ shortened n self.old }
    {
        let body = &mut self.node.body;
        body.len = body.len.min(n);
    }
}
