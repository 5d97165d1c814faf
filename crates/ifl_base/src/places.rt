ghost use Rattle.std.specs.Prelude.{◌≡◌, ◌<◌, ◌≤◌};
ghost use Rattle.ifl_base.specs.FlagAfter.{flag_after};
ghost use Rattle.ifl_base.specs.Space.{space, advanced};
ghost use Rattle.ifl_base.specs.Word.{IsWithin};

use crate::word::{Flag, RingWord};

/// How many places of a ring are free, one of which stays free: a reservation takes fewer than these.
///
/// The size is 4 to 65,536, and the word's places lie below it.
pub fn space(size: u32, w: &RingWord) -> u32
    requires size { (4 ≤ size) × (size ≤ 65536) }
    requires within { IsWithin size w.now }
    ensures { result ≡ space size w.now }
{
    let head = w.head as u32;
    let cidx = w.cidx as u32;
    if cidx == head {
        size - 1
    } else if head < cidx {
        cidx - head - 1
    } else {
        size - (head - cidx) - 1
    }
}

/// The place that is `n` places behind `idx`, where a ring's last place is followed by its first.
pub fn advance(size: u32, idx: u16, n: u32) -> u16
    requires size { (4 ≤ size) × (size ≤ 65536) }
    requires idx { idx < size }
    requires n { n < size }
    ensures { result ≡ advanced size idx n }
{
    let sum = idx as u32 + n;
    if sum < size {
        sum as u16
    } else {
        (sum - size) as u16
    }
}

/// The flag that a consumer sets as it shows how far it has released, in a word whose `cidx` was moved there.
///
/// `over_budget` says that it has consumed as many items as it was asked to.
pub fn flag_after(w: &RingWord, over_budget: bool) -> Flag
    ensures { result ≡ flag_after w.now over_budget }
{
    if w.cidx == w.tail {
        Flag::Idle
    } else if over_budget && w.tail != w.head {
        Flag::Abdicated
    } else {
        Flag::Busy
    }
}
