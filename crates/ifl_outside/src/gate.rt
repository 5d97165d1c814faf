use std::marker::Sync;

/// Where a thread of a run stands when it comes to the gate.
#[derive(Clone, Copy, Debug, PartialEq, Eq)]
pub enum Point {
    /// It is about to look at the ring.
    Begin,
    /// It has reserved its places.
    Reserved,
    /// It has published its items.
    Published,
    /// It was refused.
    Refused,
}

/// A place where a test may hold a thread. It has no effect on any state of the product.
///
/// A thread that comes here may wait for as long as the gate likes, so a call that takes a gate may wait.
pub trait Gate: Sync {
    /// The thread `who` has come to `point`.
    fn at(&self, who: u16, point: Point);
}

/// A gate that lets everyone through.
#[derive(Clone, Copy, Debug)]
pub struct FreeGate;

impl Gate for FreeGate {
    fn at(&self, _who: u16, _point: Point) {}
}
