/// What the settings of a run say of its files.
#[derive(Clone, Copy, Debug)]
pub struct Terms {
    /// How many places the ring has, 4 to 65,536.
    pub ring_size: u32,
    /// The most bytes of a frame that may be sent.
    pub max_frame: u32,
    /// The most segments of a packet, of 2,048 bytes each.
    pub max_segs: u32,
    /// Whether a frame is dropped for which there is no room.
    pub drops: bool,
    /// Whether the adapter may hang.
    pub hangs: bool,
    /// Whether a stop flushes what was not emitted.
    pub flushes: bool,
}
