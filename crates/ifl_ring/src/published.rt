//! How a seat went on after it published.

/// How a seat went on after it published.
#[derive(Clone, Copy)]
pub enum Published {
    /// A consumer was there.
    Behind,
    /// It left its items to another consumer.
    Abdicated,
    /// It became the consumer of so many items.
    Elected { items: u32 },
}
