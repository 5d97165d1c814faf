//! Words of a ring as a consumer reads them.
ghost use Rattle.std.specs.Prelude.{◌⊎◌, ◌≢◌, true, false, ◌≡◌, ◌<◌, ◌≤◌};
ghost use Rattle.ifl_base.specs.Space.{advanced};
ghost use Rattle.ifl_base.specs.Word.{IsWithin};
ghost use Rattle.ifl_ring.specs.Draining.{FlagAfter};

use ifl_base::{Flag, RingWord, advance, flag_after};

/// The word with `n` places released.
pub fn released(size: u32, w: &RingWord, n: u32) -> RingWord
    requires size { (4 ≤ size) × (size ≤ 65536) }
    requires within { IsWithin size w.now }
    requires n { n < size }
    ensures { result ≡ record w.now { cidx = advanced size w.now.cidx n } }
{
    RingWord {
        head: w.head,
        tail: w.tail,
        cidx: advance(size, w.cidx, n),
        flag: w.flag,
    }
}

/// The flag that a consumer sets as it releases `n` places.
pub fn flag_to_set(size: u32, w: &RingWord, n: u32, stalled: bool, over: bool) -> Flag
    requires size { (4 ≤ size) × (size ≤ 65536) }
    requires within { IsWithin size w.now }
    requires n { n < size }
    ensures stalled { stalled ≡ true → result ≡ Flag.Stalled }
    ensures others { stalled ≡ false → FlagAfter size n over w.now result }
{
    if stalled {
        Flag::Stalled
    } else {
        flag_after(&released(size, w, n), over)
    }
}

/// Whether a drain was left, and nobody is about to publish.
pub fn is_left(w: &RingWord) -> bool
    ensures yes { result ≡ true → ((w.now.flag ≡ Flag.Stalled) ⊎ (w.now.flag ≡ Flag.Abdicated)) × (w.now.tail ≡ w.now.head) }
    ensures no { result ≡ false → ((w.now.flag ≢ Flag.Stalled) × (w.now.flag ≢ Flag.Abdicated)) ⊎ (w.now.tail ≢ w.now.head) }
{
    match w.flag {
        Flag::Stalled => w.tail == w.head,
        Flag::Abdicated => w.tail == w.head,
        _ => false,
    }
}
