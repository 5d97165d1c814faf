ghost use Rattle.std.specs.Prelude.{◌≡◌, ◌+◌, ◌<◌, ◌≤◌, [], ◌∷◌, ◌++◌, length, take, drop, MatchOption};
ghost use Rattle.ifl_base.specs.declared.limits.TheConstants.{CHAIN_MAX};
ghost use Rattle.ifl_mbuf.specs.Segment.{IsChain, IsFilled, bytes_of, size};

use crate::nodes::NodeList;
use crate::segment::Seg;
use std::marker::Model;
use std::mem::replace;

/// At most 64 segments, each of at least one byte. Its bytes are the segments' bytes joined.
///
/// It owns the clusters of its segments; dropped, it frees them one after another. A contract sees
/// it as the list of its segments.
#[derive(Drop)]
pub struct Chain {
    nodes: NodeList,
    len: u32,
}

impl Model for Chain {
    ghost use Rattle.std.specs.Prelude.{List, map};
    ghost use Rattle.ifl_mbuf.specs.Segment.{Segment};

    ghost Value = { List Segment };

    ghost use Rattle.ifl_mbuf.specs.Layout.{segment_of, HoldChain};

    ghost view = { λ c. map segment_of c.nodes };

    ghost invariant = { λ c. HoldChain c.nodes c.len };
}

impl Chain {
    /// The chain of no segments.
    pub fn new() -> Chain
        ensures { result ≡ [] }
    {
        Chain {
            nodes: NodeList::new(),
            len: 0,
        }
    }

    /// The number of bytes.
    pub fn len(&self) -> u32
        ensures { result ≡ size self.now }
    {
        self.len
    }

    /// The number of segments.
    pub fn segments(&self) -> u32
        ensures value { result ≡ length self.now }
        ensures kept { IsChain self.now }
    {
        self.nodes.count()
    }

    /// Appends a segment of at least one byte to a chain of fewer than 64.
    pub fn push(&mut self, seg: Seg)
        requires room { length self.old < CHAIN_MAX }
        requires some { 0 < length seg.bytes }
        ensures { self.new ≡ self.old ++ seg ∷ [] }
    {
        let Seg { node } = seg;
        let more = node.body.len;
        self.nodes.push(node);
        self.len += more;
    }

    /// Appends all segments of `other`, in constant time. Both together have at most 64.
    pub fn cat(&mut self, other: Chain)
        requires { length self.old + length other ≤ CHAIN_MAX }
        ensures { self.new ≡ self.old ++ other }
    {
        let Chain { nodes, len } = other;
        self.nodes.append(nodes);
        self.len += len;
    }

    /// Takes the first segment out; `None` exactly where the chain is empty.
    pub fn pop_front(&mut self) -> Option<Seg>
        ensures { MatchOption result ((self.old ≡ []) × (self.new ≡ []))
            (λ seg. (self.old ≡ seg ∷ self.new) × IsFilled seg) }
    {
        let node = self.nodes.pop()?;
        self.len -= node.body.len;
        Some(Seg { node })
    }

    /// Fills `out` with the chain's bytes from the byte `at` on.
    pub fn copy_to(&self, at: u32, out: &mut [u8])
        requires { at + length out.old ≤ size self.now }
        ensures { out.new ≡ take (length out.old) (drop at (bytes_of self.now)) }
    {
        self.nodes.copy_to(at as usize, out);
    }

    /// Puts a segment before the first.
    pub(crate) fn push_front(&mut self, seg: Seg)
        requires room { length self.old < CHAIN_MAX }
        requires some { 0 < length seg.bytes }
        ensures { self.new ≡ seg ∷ self.old }
    {
        let rest = replace(self, Chain::new());
        self.push(seg);
        self.cat(rest);
    }
}
