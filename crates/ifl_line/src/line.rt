//! What the threads of a run share.
ghost use Rattle.std.specs.Prelude.{◌≡◌};

use crate::rules::Rules;
use ifl_desc::{DescRing, Turnstile};
use ifl_device::TxEngine;
use ifl_pool::Pool;
use ifl_ring::Ring;
use ifl_txq::Txq;
use std::sync::atomic::AtomicU64;

/// What the threads of a run share: the ring with its queue, the engine under its turnstile, and the pool.
#[derive(Drop)]
pub struct Line<'a, R: DescRing> {
    /// Carries the packets to the queue.
    pub ring: Ring<Txq<'a, R>>,
    /// Keeps the adapter's engine.
    pub turnstile: Turnstile<TxEngine<'a, R>>,
    /// Has the clusters.
    pub pool: &'a Pool,
    /// How frames are sent.
    pub rules: Rules,
    /// How many senders there are.
    pub senders: u64,
    /// How many senders have ended.
    pub ended: AtomicU64,
}

impl<'a, R: DescRing> Line<'a, R> {
    /// A line over this ring, engine and pool, on which so many senders send by these rules.
    pub fn new(
        ring: Ring<Txq<'a, R>>,
        turnstile: Turnstile<TxEngine<'a, R>>,
        pool: &'a Pool,
        rules: Rules,
        senders: u64,
    ) -> Line<'a, R>
        ensures ring { result.ring ≡ ring.entry }
        ensures turnstile { result.turnstile ≡ turnstile.entry }
        ensures pool { result.pool.now ≡ pool.now }
        ensures rules { result.rules ≡ rules }
    {
        Line {
            ring,
            turnstile,
            pool,
            rules,
            senders,
            ended: AtomicU64::new(0),
        }
    }
}
