/// What the words ask for.
#[derive(Debug, Drop)]
pub enum Command {
    /// Send the frames of captures.
    Send(SendWords),
    /// Generate captures and send their frames.
    Gen(GenWords),
    /// Run the ring's machine over a schedule.
    Trace {
        /// The schedule.
        file: String,
    },
    /// Check what a run wrote against its captures.
    Check(CheckWords),
}

/// The words of `send`.
#[derive(Debug, Drop)]
pub struct SendWords {
    /// The settings file; without one the standard settings hold.
    pub settings: Option<String>,
    /// The file that is to hold the wire capture.
    pub wire: String,
    /// The file that is to hold the order record.
    pub order: String,
    /// The capture of the frames that arrive. It is there exactly where `host` is.
    pub input: Option<String>,
    /// The file that is to hold the capture of what was received.
    pub host: Option<String>,
    /// Whether the ring's counters are printed too.
    pub ring: bool,
    /// The captures whose frames are sent, one for each sender; at least one.
    pub files: Vec<String>,
}

/// The words of `gen`.
#[derive(Debug, Drop)]
pub struct GenWords {
    /// What the generator begins with.
    pub seed: u64,
    /// Senders, from 1 to 16.
    pub senders: u32,
    /// Frames of each sender, up to 1,000,000.
    pub frames: u32,
    /// The settings file; without one the standard settings hold.
    pub settings: Option<String>,
    /// The file that is to hold the wire capture.
    pub wire: String,
    /// The file that is to hold the order record.
    pub order: String,
    /// Whether the ring's counters are printed too.
    pub ring: bool,
}

/// The words of `check`.
#[derive(Debug, Drop)]
pub struct CheckWords {
    /// The settings file; without one the standard settings hold.
    pub settings: Option<String>,
    /// The wire capture that a run wrote.
    pub wire: String,
    /// The order record that it wrote.
    pub order: String,
    /// The captures that it read; at least one.
    pub files: Vec<String>,
}
