// What happens to a pool. Contracts alone speak of it: no value of these types is made.

/// What one step on the pool's word did.
pub enum Event {
    /// One cluster fewer is in the pool.
    Take,
    /// One cluster more is in the pool.
    Give,
    /// A call that wanted to take found that the pool held none.
    Empty,
}

/// One event of a pool's history, with the number of the pass that made it.
pub struct Entry {
    pub pass: u64,
    pub event: Event,
}

/// How many events of each kind were made.
pub struct Counts {
    pub taken: u64,
    pub given: u64,
    pub empty: u64,
}
