//! How a seat waits for its turn.
use std::hint::spin_loop;
use std::thread::yield_now;

// How many waits come between one yield and the next.
const PAUSES: u32 = 16;

/// The waits of one seat for its turn: pauses of the processor, and in the place of every 16th a yield to other threads.
///
/// Seats publish in the order in which they reserved, so one that was put aside holds up all behind it, and these give
/// it their processors back soon.
#[derive(Drop)]
pub struct Waiting {
    made: u32,
}

impl Waiting {
    /// No wait was made yet.
    pub fn new() -> Waiting {
        Waiting { made: 0 }
    }

    /// Waits once more.
    pub fn wait(&mut self) {
        self.made = self.made.wrapping_add(1);
        if self.made % PAUSES == 0 {
            yield_now();
        } else {
            spin_loop();
        }
    }
}
