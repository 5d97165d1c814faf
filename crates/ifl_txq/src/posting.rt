//! A chain on its way into descriptors.
ghost use Rattle.std.specs.Prelude.{◌≡◌, ◌+◌, ◌<◌, ◌≤◌, ◌++◌, length, IsPermutation};
ghost use Rattle.std.specs.Int.{div_ceil};
ghost use Rattle.ifl_mbuf.specs.Segment.{IsChain, bytes_of, numbers_of, size};
ghost use Rattle.ifl_desc.specs.Frames.{open_after};
ghost use Rattle.ifl_desc.specs.Ends.{IsDriver, room_of};
ghost use Rattle.ifl_txq.specs.Encap.{IsPlan};

use ifl_base::{Stamp, Ticket};
use ifl_desc::{Desc, DriverSide, Status};
use ifl_mbuf::{Chain, Freed};

/// Brings a chain to at most `max` segments where its bytes fit into so many clusters, and hands back the clusters
/// that this freed.
pub(crate) fn compact(chain: &mut Chain, max: u32) -> Freed
    ensures bytes { bytes_of chain.new ≡ bytes_of chain.old }
    ensures clusters { IsPermutation (result ++ numbers_of chain.new) (numbers_of chain.old) }
    ensures kept { IsChain chain.new }
    ensures few { div_ceil (size chain.old) 2048 ≤ max → length chain.new ≤ max }
    ensures many { max < div_ceil (size chain.old) 2048 → max < length chain.new }
    ensures short { length chain.old ≤ 64 }
{
    let _at_most_64 = chain.segments();
    let mut freed = chain.collapse(max);
    if max < chain.segments() {
        freed.cat(chain.defrag());
    }
    let _kept = chain.segments();
    freed
}

/// Posts one descriptor for each segment of a chain, in order, the last one marked, and answers how many.
pub(crate) fn post_chain<R: DriverSide>(
    ring: &R,
    driver: &mut R::Driver,
    ticket: Ticket,
    stamp: Stamp,
    mut chain: Chain,
) -> u32
    requires ring { (R.driver_sees driver.old).ring ≡ R.ring ring.now }
    requires lawful { IsDriver (R.driver_sees driver.old) }
    requires room { length chain ≤ room_of (R.driver_sees driver.old) }
    requires whole { open_after 0 (R.driver_sees driver.old).pending ≡ 0 }
    ensures posted { (ds : _) × (result ≡ length ds) × IsPlan ticket stamp chain ds × (R.driver_sees driver.new ≡ record (R.driver_sees driver.old) { pending = (R.driver_sees driver.old).pending ++ ds }) }
    ensures lawful { IsDriver (R.driver_sees driver.new) }
{
    let _at_most_64 = chain.segments();
    let mut count = 0;
    while let Some(seg) = chain.pop_front() {
        let last = chain.segments() == 0;
        ring.post(
            driver,
            Desc {
                seg,
                ticket,
                stamp,
                last,
                status: Status::Posted,
            },
        );
        count += 1;
    }
    count
}
