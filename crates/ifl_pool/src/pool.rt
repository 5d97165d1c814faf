//! The pool and its passes.
ghost use Rattle.std.specs.Prelude.{◌≡◌, ◌+◌, ◌/◌, ◌≤◌, length, MatchOption, IfOk, ⊤};
ghost use Rattle.ifl_pool.specs.declared.history.Event.TheVariants.{Take, Give, Empty};
ghost use Rattle.ifl_pool.specs.Passes.{IsNewTo, IsPass, Did, Joined, new_known, known_after_split};
ghost use Rattle.ifl_pool.specs.Pools.{IsClosedPool};

use crate::closed::ClosedPool;
use crate::moves::{Forks, Merges, Moved};
use crate::queue::{Queue, fill, gather, pop, push};
use crate::word::{View, Word};
use atomic_table::Seat;
use crossbeam_queue::Pass;
use ifl_base::{NoMemory, PART};
use ifl_mbuf::{Cluster, make_clusters};
use std::alloc::Global;
use std::marker::Model;
use std::snapshot::Snapshot;
use std::sync::Wait;

/// A pool of clusters, which threads share by `&`. Each takes and gives with a [`PoolPass`] of its own.
///
/// It owns the clusters that are in it. Dropping it drops them.
#[derive(Drop)]
pub struct Pool {
    word: Word,
    queue: Queue,
    // Empty, with room for all clusters, which `close` needs.
    room: Vec<Cluster>,
}

impl Model for Pool {
    ghost use Rattle.std.specs.Prelude.{◌≡◌, ◌≤◌, [], vec_capacity};
    ghost use Rattle.ifl_pool.specs.Pools.{PoolId};

    ghost Value = { PoolId };

    ghost view = { λ p. record { word = p.word.table; queue = p.queue.table.shared.table_id; size = p.word.size } };

    ghost invariant = { λ p. (p.room.items ≡ []) × (p.word.size ≤ vec_capacity p.room) };
}

/// The leave to take from a pool and to give to it. It has no bytes, and a thread may hand it to another.
///
/// It counts the clusters that it took and gave, and the steps at which it found the pool empty. A pass that is
/// dropped leaves the pool without a whole pass, so that the pool cannot be closed any more.
#[derive(Drop)]
pub struct PoolPass {
    seat: Seat<u64, View>,
    moved: Pass<Cluster, Moved>,
}

impl Model for PoolPass {
    ghost use Rattle.std.specs.Prelude.{◌≡◌, []};
    ghost use Rattle.ifl_pool.specs.Pools.{PassState};
    ghost use Rattle.ifl_pool.specs.Queue.{IsIdle};

    ghost Value = { PassState };

    ghost view = { λ p. record { pool = record { word = p.seat.table_id; queue = p.moved.table_id; size = p.seat.me.0.size }; known = p.seat.me.0.known } };

    ghost invariant = { λ p. IsIdle p.seat.me.0 p.moved.me.0.client × (p.seat.me.1 ≡ []) × (p.moved.me.1 ≡ []) };
}

impl Pool {
    /// Makes a pool of `n` clusters, 1 to 65,536, with the numbers 0 to `n` - 1, and its whole pass.
    pub fn new<R: Wait>(rt: &R, alloc: Global, n: u32) -> Result<(Pool, PoolPass), NoMemory>
        requires { (1 ≤ n) × (n ≤ 65536) }
        ensures size { IfOk result (λ t. t.0.size ≡ n) }
        ensures own { IfOk result (λ t. t.1.pool ≡ t.0) }
        ensures whole { IfOk result (λ t. t.1.known ≡ new_known 0 PART) }
        ensures lawful { IfOk result (λ t. IsPass n t.1.known) }
    {
        let mut clusters = make_clusters(alloc, n)?;
        let (queue, mut moved) = Queue::ruled(alloc, n as usize)?;
        let (word, seat) = Word::new(alloc, n)?;
        clusters.reverse();
        fill(rt, &queue, &mut moved, &mut clusters);
        let pool = Pool {
            word,
            queue,
            room: clusters,
        };
        Ok((pool, PoolPass { seat, moved }))
    }

    /// Gives half of the pass's part, rounded down, to a new pass, which has counted nothing. Its number is new: the
    /// pass does not stand for it, and has seen no event that bears it.
    pub fn split(&self, pass: &mut PoolPass) -> PoolPass
        requires own { pass.old.pool ≡ self.now }
        requires part { 2 ≤ pass.old.known.part }
        ensures own { (pass.new.pool ≡ pass.old.pool) × (result.pool ≡ pass.old.pool) }
        ensures lawful { IsPass pass.new.pool.size pass.new.known × IsPass result.pool.size result.known }
        ensures left { pass.new.known ≡ known_after_split pass.old.known }
        ensures new { result.known ≡ new_known result.known.number (pass.old.known.part / 2) }
        ensures fresh { IsNewTo pass.old.known result.known.number }
    {
        let seat = self.word.split(&mut pass.seat);
        let moved = self.queue.another::<Forks>(&mut pass.moved);
        PoolPass { seat, moved }
    }

    /// Ends the other pass: its part and its counts are added to those of this one.
    pub fn join(&self, pass: &mut PoolPass, other: PoolPass)
        requires own { (pass.old.pool ≡ self.now) × (other.pool ≡ self.now) }
        ensures own { pass.new.pool ≡ pass.old.pool }
        ensures lawful { IsPass pass.new.pool.size pass.new.known }
        ensures both { Joined pass.old.known other.known pass.new.known }
    {
        let PoolPass { seat, moved } = other;
        self.word.join(&mut pass.seat, seat);
        self.queue.absorb::<Merges>(&mut pass.moved, moved);
    }

    /// Takes a cluster out of the pool, which the caller owns then.
    ///
    /// It answers `None` only where the pool held no cluster at a step of this call, which the pass counts.
    pub fn take<R: Wait>(&self, rt: &R, pass: &mut PoolPass) -> Option<Cluster>
        requires own { pass.old.pool ≡ self.now }
        ensures own { pass.new.pool ≡ pass.old.pool }
        ensures lawful { IsPass pass.new.pool.size pass.new.known }
        ensures event { MatchOption result (Did Empty pass.old.known pass.new.known) (λ _. Did Take pass.old.known pass.new.known) }

        // Where the whole pass finds the pool empty, all clusters were taken with it.
        ensures all_out { MatchOption result (pass.old.known.part ≡ PART → pass.new.pool.size + pass.new.known.counts.given ≡ pass.new.known.counts.taken) (λ _. ⊤) }
    {
        if !self.word.take_one(rt, &mut pass.seat) {
            return None;
        }
        Some(pop(rt, &self.queue, &mut pass.moved))
    }

    /// Puts a cluster into the pool, once fewer than all are there. It may have come from another pool.
    pub fn give<R: Wait>(&self, rt: &R, pass: &mut PoolPass, cluster: Cluster)
        requires own { pass.old.pool ≡ self.now }
        ensures own { pass.new.pool ≡ pass.old.pool }
        ensures lawful { IsPass pass.new.pool.size pass.new.known }
        ensures event { Did Give pass.old.known pass.new.known }
    {
        push(rt, &self.queue, &mut pass.moved, cluster);
        self.word.give_one(rt, &mut pass.seat);
    }

    /// Ends the pool with its whole pass. The clusters that are in it lie in the closed pool, in room that
    /// [`Pool::new`] took.
    pub fn close<R: Wait>(self, rt: &R, pass: PoolPass) -> ClosedPool
        requires own { pass.pool ≡ self }
        requires whole { pass.known.part ≡ PART }
        ensures size { result.size ≡ self.size }
        ensures history { result.history ≡ pass.known.seen }
        ensures lawful { IsClosedPool result.size result.history (length result.clusters) }
        ensures count { length result.clusters + pass.known.counts.taken ≡ self.size + pass.known.counts.given }
    {
        let last = Snapshot::of(&pass);
        let Pool { word, queue, room } = self;
        let PoolPass { seat, moved } = pass;
        let size = word.size();
        let count = word.close(seat);
        let mut moved = moved;
        let mut clusters = room;
        gather(rt, &queue, &mut moved, &mut clusters, count);
        ClosedPool {
            clusters,
            size,
            last,
        }
    }
}
