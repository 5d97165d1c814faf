use ifl_base::{Flag, RingWord};

/// Why a ring was not made.
#[derive(Clone, Copy, Debug, PartialEq, Eq)]
pub enum RingFault {
    /// The size is not 4 to 65,536.
    BadSize(u32),
    /// The allocator has no room.
    Memory,
}

/// What became of the items that were handed in.
#[derive(Clone, Copy, Debug, PartialEq, Eq)]
pub enum Enqueued {
    /// They are published, and a consumer was there.
    Behind,
    /// They are published, and left to another consumer.
    Abdicated,
    /// They are published, and the caller consumed.
    Drained {
        /// The flag that it left behind, which is never busy.
        left: Flag,
        /// How many items it consumed, or `u64::MAX` where they are more.
        total: u64,
    },
    /// The ring had no room for them, and they are still the caller's.
    NoBuffers {
        /// The word in which there was no room.
        seen: RingWord,
    },
}

/// What came of a look for items that a consumer left.
#[derive(Clone, Copy, Debug, PartialEq, Eq)]
pub enum Checked {
    /// No items were left, or a seat is about to publish.
    NotNeeded {
        /// The word in which this was seen.
        seen: RingWord,
    },
    /// Another step came first.
    Lost {
        /// The word that was found in place of the one expected.
        seen: RingWord,
    },
    /// The caller consumed.
    Drained {
        /// The flag that it left behind, which is never busy.
        left: Flag,
        /// How many items it consumed, or `u64::MAX` where they are more.
        total: u64,
    },
}
