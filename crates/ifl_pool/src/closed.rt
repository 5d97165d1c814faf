//! A pool that was closed.
ghost use Rattle.std.specs.Prelude.{◌≡◌, ◌^◌, ◌<◌, length};
ghost use Rattle.ifl_pool.specs.Pools.{IsClosedPool};

use crate::pool::PoolPass;
use ifl_mbuf::Cluster;
use std::marker::Model;
use std::snapshot::Snapshot;

/// What [`Pool::close`](crate::Pool::close) leaves: the clusters that were in the pool, of which the caller is
/// the owner. It stands for the size and the whole history of the pool.
#[derive(Drop)]
pub struct ClosedPool {
    pub(crate) clusters: Vec<Cluster>,
    pub(crate) size: u32,
    pub(crate) last: Snapshot<PoolPass>,
}

impl Model for ClosedPool {
    ghost use Rattle.std.specs.Prelude.{length, ◌≤◌, ◌<◌, ◌^◌};
    ghost use Rattle.ifl_pool.specs.Pools.{ClosedState, IsClosedPool};

    ghost Value = { ClosedState };

    ghost view = { λ c. record { size = c.size; history = c.last.value.known.seen; clusters = c.clusters.items } };

    ghost invariant = { λ c. (length c.clusters.items ≤ c.size) × (c.size < 2 ^ 32) × IsClosedPool c.size c.last.value.known.seen (length c.clusters.items) };
}

impl ClosedPool {
    /// How many clusters it holds.
    pub fn count(&self) -> u32
        ensures count { result ≡ length self.now.clusters }
        ensures lawful { IsClosedPool self.now.size self.now.history result }
    {
        self.clusters.len() as u32
    }

    /// The clusters that it holds. Which they are and in what order they come is not said.
    pub fn into_clusters(self) -> Vec<Cluster>
        ensures { result.items ≡ self.clusters }
    {
        let ClosedPool {
            clusters,
            size: _,
            last: _,
        } = self;
        clusters
    }
}

/// Spends the clusters, fewer than 2^32, and answers how many there were.
pub fn retire(clusters: Vec<Cluster>) -> u32
    requires { length clusters.items < 2 ^ 32 }
    ensures { result ≡ length clusters.items }
{
    let count = clusters.len() as u32;
    drop(clusters);
    count
}
