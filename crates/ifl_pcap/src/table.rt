/// Where a frame's record lies in the bytes of a file.
#[derive(Clone, Copy, Debug)]
pub(crate) struct Place {
    /// Where the record begins.
    pub at: u32,
    /// How many bytes its frame has.
    pub len: u32,
}
