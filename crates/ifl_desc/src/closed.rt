//! What a closed ring leaves.
ghost use Rattle.std.specs.Prelude.{◌≡◌};
ghost use Rattle.ifl_desc.specs.Closed.{IsClosed, left_of};

use crate::desc::Desc;

/// A closed ring: the descriptors that were posted and not reclaimed, in order, of which the caller is the owner.
///
/// It stands for the size of the ring and for the whole list with its lengths. Only the ring's own `close` makes one.
pub trait ClosedList: Send + Drop {
    ghost use Rattle.ifl_desc.specs.Closed.{ClosedSees};

    /// The size, the whole history, and the list with its lengths.
    ghost closed_sees: { Self → ClosedSees };

    /// What is left: the returned ones as the device completed them, the others as they were posted.
    fn left(&self) -> &Vec<Desc>
        ensures left { result.now.items ≡ left_of (closed_sees self.now) }
        ensures lawful { IsClosed (closed_sees self.now) };

    /// The same, to be owned.
    fn into_left(self) -> Vec<Desc>
        ensures left { result.items ≡ left_of (closed_sees self) }
        ensures lawful { IsClosed (closed_sees self) };
}
