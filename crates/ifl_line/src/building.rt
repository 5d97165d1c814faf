//! Chains of clusters from the pool.
ghost use Rattle.std.specs.Prelude.{◌≡◌, ℕ, ◌+◌, ◌-◌, ◌<◌, ◌≤◌, ◌++◌, length, MatchOption};
ghost use Rattle.ifl_mbuf.specs.Segment.{bytes_of};
ghost use Rattle.ifl_pool.specs.Passes.{IsPass};
ghost use Rattle.ifl_line.specs.Needs.{clusters_needed};
ghost use Rattle.ifl_line.specs.Sent.{Rises};

use ifl_mbuf::{Chain, Cluster, Seg};
use ifl_pool::{Pool, PoolPass};
use std::sync::Wait;

// Lays the next bytes into a cluster, which becomes the chain's last segment, and answers the rest.
fn lay<'b>(chain: &mut Chain, cluster: Cluster, rest: &'b [u8], seg_bytes: u32) -> &'b [u8]
    requires seg_bytes { (1 ≤ seg_bytes) × (seg_bytes ≤ 2048) }
    requires some { 0 < length rest.now }
    requires room { length chain.old < 64 }
    ensures bytes { bytes_of chain.new ++ result.now ≡ bytes_of chain.old ++ rest.now }
    ensures segments { length chain.new ≡ length chain.old + 1 }
    ensures less { length result.now ≡ length rest.now - seg_bytes }
{
    let (piece, rest) = rest.split_at(rest.len().min(seg_bytes as usize));
    chain.push(Seg::fill(cluster, piece));
    rest
}

/// Gives the clusters of a chain back to the pool.
pub(crate) fn give_back<W: Wait>(rt: &W, pool: &Pool, pass: &mut PoolPass, chain: Chain)
    requires own { pass.old.pool ≡ pool.now }
    requires lawful { IsPass pool.now.size pass.old.known }
    ensures own { pass.new.pool ≡ pool.now }
    ensures lawful { IsPass pool.now.size pass.new.known }
    ensures gave { Rises 0 (length chain) 0 pass.old.known pass.new.known }
{
    let mut chain = chain;
    while let Some(seg) = chain.pop_front() {
        pool.give(rt, pass, seg.into_cluster());
    }
}

/// Takes clusters from the pool and lays the bytes into them, so many to each. Where the pool has none, those taken
/// so far go back.
pub(crate) fn build<W: Wait>(
    rt: &W,
    pool: &Pool,
    pass: &mut PoolPass,
    bytes: &[u8],
    seg_bytes: u32,
) -> Option<Chain>
    requires own { pass.old.pool ≡ pool.now }
    requires lawful { IsPass pool.now.size pass.old.known }
    requires seg_bytes { (1 ≤ seg_bytes) × (seg_bytes ≤ 2048) }
    requires fits { clusters_needed seg_bytes (length bytes.now) ≤ 64 }
    ensures own { pass.new.pool ≡ pool.now }
    ensures lawful { IsPass pool.now.size pass.new.known }
    ensures built { MatchOption result
        ((j : ℕ) × (j < clusters_needed seg_bytes (length bytes.now)) × Rises j j 1 pass.old.known pass.new.known)
        (λ chain. (bytes_of chain ≡ bytes.now) × (length chain ≡ clusters_needed seg_bytes (length bytes.now)) × Rises (length chain) 0 0 pass.old.known pass.new.known) }
{
    let mut chain = Chain::new();
    let mut rest = bytes;
    while 0 < rest.len() {
        match pool.take(rt, pass) {
            Some(cluster) => rest = lay(&mut chain, cluster, rest, seg_bytes),
            None => {
                give_back(rt, pool, pass, chain);
                return None;
            }
        }
    }
    Some(chain)
}
