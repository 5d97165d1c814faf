//! What a queue has counted.
ghost use Rattle.std.specs.Prelude.{◌≡◌, ◌+◌, ◌<◌, ◌^◌};
ghost use Rattle.ifl_txq.specs.Tallies.{counted, IsBalanced};

use ifl_base::Fate;

/// How many packets the log has noted, and how many of them have each fate.
#[derive(Clone, Copy, Debug, PartialEq, Eq)]
pub struct Tally {
    /// All of them.
    pub packets: u64,
    /// Those on the wire.
    pub wire: u64,
    /// Those that needed too many descriptors.
    pub too_many_segments: u64,
    /// Those that a reset aborted.
    pub reset: u64,
    /// Those that a stop flushed.
    pub flush: u64,
    /// Those without a fate.
    pub aboard: u64,
}

impl Tally {
    /// Of no packets.
    pub const NOTHING: Tally = Tally {
        packets: 0,
        wire: 0,
        too_many_segments: 0,
        reset: 0,
        flush: 0,
        aboard: 0,
    };

    // One packet more.
    pub(crate) fn plus(self, fate: Option<Fate>) -> Tally
        requires balanced { IsBalanced self }
        requires small { self.packets < 2 ^ 63 }
        ensures value { result ≡ counted self fate }
        ensures balanced { IsBalanced result }
        ensures packets { result.packets ≡ self.packets + 1 }
    {
        let Tally {
            packets,
            wire,
            too_many_segments,
            reset,
            flush,
            aboard,
        } = self;
        let packets = packets + 1;
        match fate {
            None => Tally {
                packets,
                wire,
                too_many_segments,
                reset,
                flush,
                aboard: aboard + 1,
            },
            Some(Fate::Wire) => Tally {
                packets,
                wire: wire + 1,
                too_many_segments,
                reset,
                flush,
                aboard,
            },
            Some(Fate::TooManySegments) => Tally {
                packets,
                wire,
                too_many_segments: too_many_segments + 1,
                reset,
                flush,
                aboard,
            },
            Some(Fate::Reset) => Tally {
                packets,
                wire,
                too_many_segments,
                reset: reset + 1,
                flush,
                aboard,
            },
            Some(Fate::Flush) => Tally {
                packets,
                wire,
                too_many_segments,
                reset,
                flush: flush + 1,
                aboard,
            },
        }
    }
}
