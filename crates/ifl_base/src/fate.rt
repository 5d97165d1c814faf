use crate::word::RingWord;

/// What became of an accepted frame.
#[derive(Clone, Copy, Debug, PartialEq, Eq)]
pub enum Fate {
    /// It is on the wire.
    Wire,
    /// It needs more descriptors than a packet may have.
    TooManySegments,
    /// The adapter was reset before it was emitted.
    Reset,
    /// The adapter was stopped before it was emitted.
    Flush,
}

/// Why a frame was turned away before it was accepted.
#[derive(Clone, Copy, Debug, PartialEq, Eq)]
pub enum Away {
    /// It is shorter than two addresses and a type.
    Runt,
    /// It is longer than the largest frame that may be sent.
    Oversize,
    /// The pool had too few clusters for it.
    NoClusters,
    /// The ring had no room for it, by this word.
    NoBuffers(RingWord),
}
