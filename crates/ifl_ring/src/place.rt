//! What lies in a slot.
use ifl_base::Flag;
use std::collections::VecDeque;
use std::snapshot::Snapshot;

/// What lies in a slot, or what a step is told. The last slot has the drainer, or `Away` while a consumer has it; each
/// other has an item or is vacant. The drainer lies in a box, so that not every slot has room for one.
#[derive(Drop)]
pub enum Place<I, D> {
    /// A published item, or one that a seat is about to publish.
    Item(I),
    /// No item.
    Vacant,
    /// The drainer with its batch.
    Post(Box<Outlet<I, D>>),
    /// The drainer is with a consumer.
    Away,
    /// Lies in no slot: how many items a step is of, or its budget.
    Told(u64),
    /// Lies in no slot: how many items a consumer releases, and the flag that it sets as it leaves.
    Parting(u32, Flag),
}

/// The drainer, and the batch in which it is offered items.
#[derive(Drop)]
pub struct Outlet<I, D> {
    pub drainer: D,
    /// Empty while the drainer lies in its slot. It has room for a batch, and for all items of the ring.
    pub batch: VecDeque<I>,
}

/// What the rule of the ring's table reads of its [`Sheet`]. No value of it is made.
pub struct Key<O> {
    /// The places of the ring.
    pub size: u32,
    /// With what the drainer was made.
    pub origin: O,
}

/// What the table is told once, when it is made.
#[derive(Drop)]
pub struct Sheet<D> {
    /// The places of the ring.
    pub size: u32,
    /// The drainer as it was then, for contracts alone.
    pub drainer: Snapshot<D>,
}
