/// Traffic to be generated: as many captures as there are senders, all with as many frames.
#[derive(Clone, Copy, Debug, PartialEq, Eq)]
pub struct Traffic {
    /// What the frames are made from. Any number will do; sender s begins with the seed and s.
    pub seed: u64,
    /// How many senders there are. A run has 1 to 16.
    pub senders: u32,
    /// How many frames each sender has.
    pub frames: u32,
}
