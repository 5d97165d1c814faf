ghost use Rattle.std.specs.Prelude.{◌≡◌};
ghost use Rattle.ifl_ringcore.specs.Counters.{plus, capped};

/// What a ring's history counts. Each number stays at `u64::MAX` once it has reached it.
#[derive(Clone, Copy, Debug, PartialEq, Eq)]
pub struct Counters {
    /// Elections on an idle ring.
    pub starts: u64,
    /// Stalls, but for those of drains that began on a stalled ring and consumed nothing.
    pub stalls: u64,
    /// Drains that began on a stalled ring, consumed something and ended.
    pub restarts: u64,
    /// Leavings with items left for whoever is about to publish.
    pub abdications: u64,
    /// Items published.
    pub enqueues: u64,
    /// Items refused.
    pub drops: u64,
}

impl Counters {
    /// Nothing counted.
    pub const NOTHING: Counters = Counters {
        starts: 0,
        stalls: 0,
        restarts: 0,
        abdications: 0,
        enqueues: 0,
        drops: 0,
    };

    /// The counts of two parts of a history together.
    pub fn plus(&self, other: &Counters) -> Counters
        ensures { result ≡ capped (plus self.now other.now) }
    {
        Counters {
            starts: self.starts.saturating_add(other.starts),
            stalls: self.stalls.saturating_add(other.stalls),
            restarts: self.restarts.saturating_add(other.restarts),
            abdications: self.abdications.saturating_add(other.abdications),
            enqueues: self.enqueues.saturating_add(other.enqueues),
            drops: self.drops.saturating_add(other.drops),
        }
    }
}
