use std::collections::LinkedList;

/// What a history keeps of an item.
///
/// It is a value of contracts alone: no code makes one.
pub struct Meaning {
    /// The item's number.
    pub tag: u64,
    /// The bytes that it carries.
    pub bytes: LinkedList<u8>,
    /// Further numbers that belong to it.
    pub marks: LinkedList<u64>,
    /// How many clusters it holds.
    pub weight: u64,
}

/// What a seat did in one step on the ring's word, with what its published items mean.
pub enum Step {
    /// Looked at the word.
    Look,
    /// Saw no room for so many items.
    Refuse(u64),
    /// Reserved so many places.
    Reserve(u64),
    /// Published its reservation behind a consumer.
    Behind(LinkedList<Meaning>),
    /// Published its reservation and became the consumer, with a budget.
    Elected(u64, LinkedList<Meaning>),
    /// Published its reservation and left it to others to consume.
    Abdicating(LinkedList<Meaning>),
    /// Released so many items, and goes on.
    Advance(u64),
    /// Released so many items, which were the last ones, and left.
    LeaveIdle(u64),
    /// Released so many items and left the rest to whoever is about to publish.
    LeaveAbdicated(u64),
    /// Released so many items and left the rest, since its drainer took no more.
    Stall(u64),
    /// Became the consumer of what another one left, with a budget.
    TakeOver(u64),
}

/// One step, the number of the seat that made it, and the packed word that it found.
pub struct Entry {
    pub seat: u64,
    pub found: u64,
    pub event: Step,
}
