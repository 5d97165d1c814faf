/// Who has a place of a ring between two steps.
///
/// It is a value of contracts alone: no code makes one.
pub enum Owner {
    /// Nobody: it may be reserved.
    Free,
    /// The seat of this number, which has reserved it and is to publish an item there.
    Reserver(u64),
    /// The ring: a published item waits there for a consumer.
    Ring,
    /// The seat of this number, which is the consumer, and knows of the item there.
    Consumer(u64),
}
