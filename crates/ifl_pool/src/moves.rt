//! The rule of the queue, and what each step on it does. These types are for the proofs alone.
use crossbeam_queue::protocol::{Join, Lesson, Outcome, Protocol, Split};
use ifl_mbuf::Cluster;

/// What the rule of the queue sees of a pass. No value of it is made.
pub struct Moved {
    /// The part of the pass.
    pub part: u64,
    /// With how many clusters the queue was filled when the pool was made.
    pub filled: u64,
    /// How many clusters the pass has popped.
    pub pops: u64,
    /// How many it has pushed, without those of the filling.
    pub pushes: u64,
}

/// The rule of the queue.
pub struct QueueRule;

impl Protocol<Cluster, Moved> for QueueRule {
    ghost use Rattle.ifl_pool.specs.Queue.{IsConserved, first_moved};

    ghost holds = { IsConserved };

    ghost first = { first_moved };
}

/// A push of a cluster with which the pool is made.
pub struct Fills;

impl Outcome<Cluster, Moved> for Fills {
    ghost use Rattle.std.specs.Prelude.{◌≡◌};
    ghost use Rattle.ifl_pool.specs.Queue.{moved_after_fill};

    ghost then = { λ old _ new. new ≡ moved_after_fill old };
}

impl Lesson<Cluster, Moved> for Fills {
    ghost use Rattle.std.specs.Prelude.{⊤};

    ghost fact = { λ _ _. ⊤ };
}

/// A pop.
pub struct Pops;

impl Outcome<Cluster, Moved> for Pops {
    ghost use Rattle.std.specs.Prelude.{◌≡◌};
    ghost use Rattle.ifl_pool.specs.Queue.{moved_after_pop};

    ghost then = { λ old _ new. new ≡ moved_after_pop old };
}

impl Lesson<Cluster, Moved> for Pops {
    ghost use Rattle.std.specs.Prelude.{⊤};

    ghost fact = { λ _ _. ⊤ };
}

/// A push of a cluster that was given.
pub struct Pushes;

impl Outcome<Cluster, Moved> for Pushes {
    ghost use Rattle.std.specs.Prelude.{◌≡◌};
    ghost use Rattle.ifl_pool.specs.Queue.{moved_after_push};

    ghost then = { λ old _ new. new ≡ moved_after_push old };
}

impl Lesson<Cluster, Moved> for Pushes {
    ghost use Rattle.std.specs.Prelude.{⊤};

    ghost fact = { λ _ _. ⊤ };
}

/// A pass is split.
pub struct Forks;

impl Split<Moved> for Forks {
    ghost use Rattle.ifl_pool.specs.Queue.{moved_after_split, moved_split_off};

    ghost left = { moved_after_split };

    ghost right = { moved_split_off };
}

/// Two passes are joined.
pub struct Merges;

impl Join<Moved> for Merges {
    ghost use Rattle.ifl_pool.specs.Queue.{moved_after_join, spent_moved};

    ghost both = { moved_after_join };

    ghost spent = { spent_moved };
}
