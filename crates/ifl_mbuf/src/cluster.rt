ghost use Rattle.std.specs.Prelude.{◌≡◌, ◌≤◌, IfOk};
ghost use Rattle.std.specs.List.{range_with_len};

use crate::node::{Body, Node, Place};
use ifl_base::{CLUSTER_BYTES, NoMemory};
use std::alloc::Global;
use std::marker::Model;

/// A buffer of 2,048 bytes with a number, in a box of its own.
///
/// It cannot be cloned, and only [`make_clusters`] makes one. Dropping it is the same as
/// [`Cluster::spend`]. A contract sees it as its number.
#[derive(Drop)]
pub struct Cluster {
    pub(crate) node: Box<Node>,
}

impl Model for Cluster {
    ghost use Rattle.std.specs.Prelude.{◌≡◌, ℕ, length};
    ghost use Rattle.ifl_base.specs.declared.limits.TheConstants.{CLUSTER_BYTES};

    ghost Value = { ℕ };

    ghost view = { λ c. c.node.value.body.number };

    ghost invariant = { λ c. length c.node.value.body.bytes ≡ CLUSTER_BYTES };
}

impl Cluster {
    /// A cluster with this number, whose bytes are 0.
    fn make(alloc: Global, number: u32) -> Result<Cluster, NoMemory>
        ensures { IfOk result (λ c. c ≡ number) }
    {
        let body = Body {
            number,
            off: 0,
            len: 0,
            bytes: [0; CLUSTER_BYTES as usize],
        };
        let next = Place::none();
        let node = Box::new(alloc, Node { next, body })?;
        Ok(Cluster { node })
    }

    /// The number that it got when it was made.
    pub fn number(&self) -> u32
        ensures { result ≡ self.now }
    {
        self.node.body.number
    }

    /// Ends the cluster: its memory is given back, and nothing counts it as returned.
    pub fn spend(self) {
        drop(self);
    }
}

/// Makes `n` clusters, 1 to 65,536, with the numbers 0 to `n` - 1 in order. The caller owns them.
#[tactic(auto, using(crate::proofs::Ranges::range_more))]
pub fn make_clusters(alloc: Global, n: u32) -> Result<Vec<Cluster>, NoMemory>
    requires { (1 ≤ n) × (n ≤ 65536) }
    ensures { IfOk result (λ cs. cs.items ≡ range_with_len 0 n) }
{
    let mut clusters = Vec::with_capacity(alloc, n as usize)?;
    for number in 0..n {
        clusters.push(Cluster::make(alloc, number)?)?;
    }
    Ok(clusters)
}
