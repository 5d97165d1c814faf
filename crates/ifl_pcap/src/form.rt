/// The bytes of a file's header.
pub const HEADER_LEN: usize = 24;

/// The bytes of a record before its captured ones.
pub const HEAD_LEN: usize = 16;

/// In which order the bytes of a file's numbers stand.
#[derive(Clone, Copy, Debug)]
pub enum Order {
    /// The lowest byte first.
    Little,
    /// The highest byte first.
    Big,
}

/// What the fraction of a record's second counts.
#[derive(Clone, Copy, Debug)]
pub enum Fraction {
    /// Microseconds.
    Micros,
    /// Nanoseconds.
    Nanos,
}

/// The form of a file, which its magic tells.
#[derive(Clone, Copy, Debug)]
pub struct Form {
    pub order: Order,
    pub fraction: Fraction,
}
