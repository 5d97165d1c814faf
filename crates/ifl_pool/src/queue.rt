//! The queue with the clusters.
ghost use Rattle.std.specs.Prelude.{◌≡◌, ◌+◌, ◌≤◌, [], length, vec_capacity};
ghost use Rattle.ifl_base.specs.declared.limits.TheConstants.{PART};
ghost use Rattle.crossbeam_queue.specs.Fifo.{Pushes as PushKeeps, Learns};
ghost use Rattle.crossbeam_queue.specs.Passes.{view, IsSamePass, IsPassOf, ruled_capacity};
ghost use Rattle.ifl_pool.specs.Queue.{IsConserved, moved_after_pop, moved_after_push};

use crate::moves::{Fills, Moved, Pops, Pushes, QueueRule};
use crossbeam_queue::protocol::{Lesson, Outcome};
use crossbeam_queue::{Pass, RuledArrayQueue};
use crossbeam_utils::Backoff;
use ifl_mbuf::Cluster;
use std::sync::Wait;

/// The queue with the clusters of a pool.
pub type Queue = RuledArrayQueue<Cluster, Moved, QueueRule>;

/// Takes the cluster at the front, once there is one.
pub fn pop<R: Wait>(rt: &R, queue: &Queue, pass: &mut Pass<Cluster, Moved>) -> Cluster
    requires { IsPassOf queue.now pass.old }
    ensures pass { IsSamePass pass.old pass.new }
    ensures popped { view pass.new ≡ moved_after_pop (view pass.old) }
{
    let backoff = Backoff::new();
    for _ in rt.forever() {
        if let Some(cluster) = queue.pop_as::<Pops, R>(rt, pass) {
            return cluster;
        }
        backoff.snooze();
    }
    unreachable!()
}

// Puts the cluster at the back, once there is a place, by a push of either kind.
fn push_by<M: Outcome<Cluster, Moved> + Lesson<Cluster, Moved>, R: Wait>(
    rt: &R,
    queue: &Queue,
    pass: &mut Pass<Cluster, Moved>,
    cluster: Cluster,
)
    requires pass { IsPassOf queue.now pass.old }
    requires rule { PushKeeps IsConserved (ruled_capacity queue.now) pass.old.id (view pass.old) cluster (M.then (view pass.old) cluster) × Learns IsConserved pass.old.id (view pass.old) (M.fact (view pass.old)) }
    ensures pass { IsSamePass pass.old pass.new }
    ensures pushed { M.then (view pass.old) cluster (view pass.new) }
{
    let backoff = Backoff::new();
    let mut cluster = cluster;
    for _ in rt.forever() {
        match queue.push_as::<M, R>(rt, pass, cluster) {
            Ok(()) => return,
            Err(back) => cluster = back,
        }
        backoff.snooze();
    }
    unreachable!()
}

/// Puts a cluster that was given at the back, once there is a place.
pub fn push<R: Wait>(rt: &R, queue: &Queue, pass: &mut Pass<Cluster, Moved>, cluster: Cluster)
    requires { IsPassOf queue.now pass.old }
    ensures pass { IsSamePass pass.old pass.new }
    ensures pushed { view pass.new ≡ moved_after_push (view pass.old) }
{
    push_by::<Pushes, R>(rt, queue, pass, cluster);
}

/// Fills the queue with the clusters that a pool is made with, from the last to the first.
pub fn fill<R: Wait>(
    rt: &R,
    queue: &Queue,
    pass: &mut Pass<Cluster, Moved>,
    clusters: &mut Vec<Cluster>,
)
    requires pass { IsPassOf queue.now pass.old }
    requires whole { (view pass.old).part ≡ PART }
    ensures pass { IsSamePass pass.old pass.new }
    ensures filled { view pass.new ≡ record (view pass.old) { filled = (view pass.old).filled + length clusters.old.items } }
    ensures clusters { (clusters.new.items ≡ []) × (vec_capacity clusters.new ≡ vec_capacity clusters.old) }
{
    while let Some(cluster) = clusters.pop() {
        push_by::<Fills, R>(rt, queue, pass, cluster);
    }
}

/// Takes as many clusters as `count` says into the room that is there for them.
pub fn gather<R: Wait>(
    rt: &R,
    queue: &Queue,
    pass: &mut Pass<Cluster, Moved>,
    room: &mut Vec<Cluster>,
    count: u64,
)
    requires pass { IsPassOf queue.now pass.old }
    requires room { (room.old.items ≡ []) × (count ≤ vec_capacity room.old) }
    ensures count { length room.new.items ≡ count }
{
    for _ in 0..count {
        room.push_reserved(pop(rt, queue, pass));
    }
}
