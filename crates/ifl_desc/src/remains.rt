//! What an adapter's `close` gathers.
ghost use Rattle.std.specs.Prelude.{◌≡◌};
ghost use Rattle.ifl_desc.specs.Closed.{IsClosed, left_of, remains_of};
ghost use Rattle.ifl_desc.specs.Rack.{seen_at};

use crate::desc::Desc;
use crate::rack::EndSeat;
use std::marker::Model;

/// What is left of a ring, for an adapter's closed type: the descriptors, the size, how many of them were never
/// rung, and the seat that has seen the whole history. It stands for the whole list with its lengths.
#[derive(Drop)]
pub struct Remains {
    left: Vec<Desc>,
    size: u32,
    pending: u32,
    seat: EndSeat,
}

impl Model for Remains {
    ghost use Rattle.std.specs.Prelude.{◌≡◌};
    ghost use Rattle.ifl_desc.specs.Closed.{ClosedSees, IsClosed, left_of, remains_of};
    ghost use Rattle.ifl_desc.specs.Rack.{seen_at};

    ghost Value = { ClosedSees };

    ghost view = { λ r. remains_of r.left.items r.size r.pending (seen_at r.seat) };

    ghost invariant = { λ r. IsClosed (remains_of r.left.items r.size r.pending (seen_at r.seat)) × (r.left.items ≡ left_of (remains_of r.left.items r.size r.pending (seen_at r.seat))) };
}

impl Remains {
    /// What is left, where it is the end of a lawful list.
    pub fn new(left: Vec<Desc>, size: u32, pending: u32, seat: EndSeat) -> Remains
        requires lawful { IsClosed (remains_of left.items size pending (seen_at seat)) }
        requires left { left.items ≡ left_of (remains_of left.items size pending (seen_at seat)) }
        ensures { result ≡ remains_of left.items size pending (seen_at seat) }
    {
        Remains {
            left,
            size,
            pending,
            seat,
        }
    }

    /// What was posted and not reclaimed, in order.
    pub fn left(&self) -> &Vec<Desc>
        ensures left { result.now.items ≡ left_of self.now }
        ensures lawful { IsClosed self.now }
    {
        &self.left
    }

    /// The same, to be owned.
    pub fn into_left(self) -> Vec<Desc>
        ensures left { result.items ≡ left_of self }
        ensures lawful { IsClosed self }
    {
        let Remains {
            left,
            size: _,
            pending: _,
            seat: _,
        } = self;
        left
    }
}
