//! What the ends of a ring know. No value of these types is made.
use crate::Desc;
use std::collections::LinkedList;

/// A side of a ring.
pub enum Side {
    /// It posts and reclaims.
    Driver,
    /// It takes and completes.
    Device,
}

/// A step that a side made: it sent these, or it looked and found so many more, or the driver cleared a status word
/// and counted so many.
pub enum Event {
    Sent(Side, LinkedList<Desc>),
    Looked(Side, u64),
    Cleared(u64),
}

/// What a seat of the ring's table is for.
pub enum Role {
    /// Of a new ring, all of whose slots are at home.
    Whole,
    /// It has taken all slots out.
    Full,
    /// The end of this side.
    End(Side),
    /// It carries to the other end what this one had seen.
    Note,
    /// The driver's seat, joined by the device's, which had seen this.
    Closing(LinkedList<Event>),
}

/// What the rule of the ring's table knows of a seat.
pub struct View {
    pub role: Role,
    /// The beginning of the history that it has seen.
    pub seen: LinkedList<Event>,
    /// What another seat had seen that was joined to this one.
    pub heard: LinkedList<Event>,
}

/// The side that code is for.
pub trait IsSide {
    ghost use Rattle.ifl_desc.specs.declared.history.Side.{Side as Which};

    ghost side: { Which };
}

/// The driver's side.
pub struct OfDriver;

impl IsSide for OfDriver {
    ghost use Rattle.ifl_desc.specs.declared.history.Side.TheVariants.{Driver};

    ghost side = { Driver };
}

/// The device's side.
pub struct OfDevice;

impl IsSide for OfDevice {
    ghost use Rattle.ifl_desc.specs.declared.history.Side.TheVariants.{Device};

    ghost side = { Device };
}
