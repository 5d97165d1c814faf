ghost use Rattle.std.specs.Prelude.{◌≡◌, ◌≤◌, true, false};
ghost use Rattle.ifl_base.specs.Word.{IsWithin};
ghost use Rattle.ifl_check.specs.FullRing.{IsFullRing, AreFullRings};

use crate::line::Line;
use crate::terms::Terms;
use ifl_base::{Away, RingWord, space};

/// Whether each word that refused a frame is that of a ring without room.
pub(crate) fn are_full_rings(terms: &Terms, lines: &[Line<Away>]) -> bool
    requires { (4 ≤ terms.now.ring_size) × (terms.now.ring_size ≤ 65536) }
    ensures yes { result ≡ true → AreFullRings terms.now lines.now }
    ensures no { result ≡ false → AreFullRings terms.now lines.now → ⊥ }
{
    for line in lines {
        if !is_full_ring(terms, line.what) {
            return false;
        }
    }
    true
}

fn is_full_ring(terms: &Terms, away: Away) -> bool
    requires { (4 ≤ terms.now.ring_size) × (terms.now.ring_size ≤ 65536) }
    ensures yes { result ≡ true → IsFullRing terms.now away }
    ensures no { result ≡ false → IsFullRing terms.now away → ⊥ }
{
    match away {
        Away::Runt => true,
        Away::Oversize => true,
        Away::NoClusters => true,
        Away::NoBuffers(word) => {
            is_within(terms.ring_size, &word) && space(terms.ring_size, &word) <= 1
        }
    }
}

fn is_within(size: u32, word: &RingWord) -> bool
    ensures yes { result ≡ true → IsWithin size word.now }
    ensures no { result ≡ false → IsWithin size word.now → ⊥ }
{
    (word.head as u32) < size && (word.tail as u32) < size && (word.cidx as u32) < size
}
