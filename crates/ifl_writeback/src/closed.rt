//! What is left of a closed ring.
use ifl_desc::{ClosedList, Desc, Remains};

/// A closed writeback ring. Only the ring's `close` makes one.
#[derive(Drop)]
pub struct WritebackClosed {
    pub(crate) remains: Remains,
}

impl ClosedList for WritebackClosed {
    ghost closed_sees = { λ c. c.remains };

    fn left(&self) -> &Vec<Desc> {
        self.remains.left()
    }

    fn into_left(self) -> Vec<Desc> {
        let WritebackClosed { remains } = self;
        remains.into_left()
    }
}
