//! Clusters on their way back to the pool.
ghost use Rattle.std.specs.Prelude.{◌≡◌, length, IsPermutation};
ghost use Rattle.ifl_mbuf.specs.Segment.{numbers_of};
ghost use Rattle.ifl_txq.specs.Calls.{Gave};

use ifl_mbuf::{Chain, Cluster, Freed};
use ifl_pool::{Pool, PoolPass};
use std::sync::Wait;

/// Gives one cluster to the pool.
pub(crate) fn give_one<W: Wait>(rt: &W, pool: &Pool, pass: &mut PoolPass, cluster: Cluster)
    requires { pass.old.pool ≡ pool.now }
    ensures { Gave 1 pass.old pass.new }
{
    pool.give(rt, pass, cluster);
}

/// Gives clusters to the pool.
pub(crate) fn give_all<W: Wait>(rt: &W, pool: &Pool, pass: &mut PoolPass, mut freed: Freed)
    requires { pass.old.pool ≡ pool.now }
    ensures { Gave (length freed) pass.old pass.new }
{
    while let Some(cluster) = freed.pop() {
        give_one(rt, pool, pass, cluster);
    }
}

/// The clusters of a chain, in order.
pub(crate) fn clusters_of(mut chain: Chain) -> Freed
    ensures { result ≡ numbers_of chain }
{
    let len = chain.len();
    chain.adjust_front(len)
}
