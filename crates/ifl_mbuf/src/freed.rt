ghost use Rattle.std.specs.Prelude.{◌≡◌, ◌+◌, ◌<◌, ◌≤◌, [], ◌∷◌, ◌++◌, length, MatchOption};
ghost use Rattle.ifl_base.specs.declared.limits.TheConstants.{CHAIN_MAX};

use crate::cluster::Cluster;
use crate::nodes::NodeList;
use std::marker::Model;
use std::mem::replace;

/// At most 64 clusters that a chain hands back, in order. It owns them.
///
/// A contract sees it as the list of the clusters' numbers.
#[derive(Drop)]
pub struct Freed {
    nodes: NodeList,
}

impl Model for Freed {
    ghost use Rattle.std.specs.Prelude.{List, ℕ, map};

    ghost Value = { List ℕ };

    ghost use Rattle.ifl_mbuf.specs.Layout.{HoldFreed};

    ghost view = { λ f. map (λ b. b.number) f.nodes };

    ghost invariant = { λ f. HoldFreed f.nodes };
}

impl Freed {
    /// No clusters.
    pub(crate) fn new() -> Freed
        ensures { result ≡ [] }
    {
        let nodes = NodeList::new();
        Freed { nodes }
    }

    /// The number of clusters, at most 64.
    pub fn count(&self) -> u32
        ensures value { result ≡ length self.now }
        ensures small { result ≤ CHAIN_MAX }
    {
        self.nodes.count()
    }

    /// Appends a cluster.
    pub(crate) fn push(&mut self, cluster: Cluster)
        requires { length self.old < CHAIN_MAX }
        ensures { self.new ≡ self.old ++ cluster ∷ [] }
    {
        let Cluster { node } = cluster;
        self.nodes.push(node);
    }

    /// Takes the first cluster out; `None` exactly where none is left.
    pub fn pop(&mut self) -> Option<Cluster>
        ensures { MatchOption result ((self.old ≡ []) × (self.new ≡ []))
            (λ cluster. self.old ≡ cluster ∷ self.new) }
    {
        let node = self.nodes.pop()?;
        Some(Cluster { node })
    }

    /// Appends all clusters of `other` in order, by one write. Both together have at most 64.
    pub fn cat(&mut self, other: Freed)
        requires { length self.old + length other ≤ CHAIN_MAX }
        ensures { self.new ≡ self.old ++ other }
    {
        let Freed { nodes } = other;
        self.nodes.append(nodes);
    }

    /// Puts a cluster before the first.
    pub(crate) fn push_front(&mut self, cluster: Cluster)
        requires { length self.old < CHAIN_MAX }
        ensures { self.new ≡ cluster ∷ self.old }
    {
        let rest = replace(self, Freed::new());
        self.push(cluster);
        self.cat(rest);
    }
}
