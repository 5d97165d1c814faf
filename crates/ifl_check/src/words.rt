ghost use Rattle.std.specs.Prelude.{◌≡◌, ◌≢◌, ◌++◌, List, ℕ, IfSome, IfNone};
ghost use Rattle.ifl_base.specs.declared.fate.Fate.{Fate};
ghost use Rattle.ifl_base.specs.declared.fate.Away.{Away};
ghost use Rattle.ifl_base.specs.declared.word.Flag.{Flag};
ghost use Rattle.ifl_base.specs.declared.word.RingWord.{RingWord};
ghost use Rattle.ifl_base.specs.Word.{name_of};
ghost use Rattle.ifl_check.specs.Text.{fate_text, away_text, word_text, HasPlaces, IsReason};

use crate::parts::{behind, number_before};
use ifl_base::{Away, Fate, Flag, RingWord};

/// The fate of this name.
pub(crate) fn fate(name: &[u8]) -> Option<Fate>
    ensures some { IfSome result (λ f. name.now ≡ fate_text f) }
    ensures none { IfNone result ((f : Fate) → name.now ≢ fate_text f) }
{
    if name == b"wire".as_slice() {
        Some(Fate::Wire)
    } else if name == b"too_many_segments".as_slice() {
        Some(Fate::TooManySegments)
    } else if name == b"reset".as_slice() {
        Some(Fate::Reset)
    } else if name == b"flush".as_slice() {
        Some(Fate::Flush)
    } else {
        None
    }
}

/// The flag of this name.
fn flag(name: &[u8]) -> Option<Flag>
    ensures some { IfSome result (λ f. name.now ≡ name_of f) }
    ensures none { IfNone result ((f : Flag) → name.now ≢ name_of f) }
{
    if name == b"idle".as_slice() {
        Some(Flag::Idle)
    } else if name == b"busy".as_slice() {
        Some(Flag::Busy)
    } else if name == b"stalled".as_slice() {
        Some(Flag::Stalled)
    } else if name == b"abdicated".as_slice() {
        Some(Flag::Abdicated)
    } else {
        None
    }
}

/// The word whose places and flag these are.
fn word(text: &[u8]) -> Option<RingWord>
    ensures some { IfSome result (λ w. (text.now ≡ word_text w) × HasPlaces w) }
    ensures none { IfNone result ((w : RingWord) → HasPlaces w → text.now ≢ word_text w) }
{
    let (head, rest) = number_before(text, b' ', 65_535)?;
    let (tail, rest) = number_before(rest, b' ', 65_535)?;
    let (cidx, rest) = number_before(rest, b' ', 65_535)?;
    let flag = flag(rest)?;
    Some(RingWord {
        head: head as u16,
        tail: tail as u16,
        cidx: cidx as u16,
        flag,
    })
}

/// Why a frame was turned away, as the text says it.
pub(crate) fn away(text: &[u8]) -> Option<Away>
    ensures some { IfSome result (λ a. (text.now ≡ away_text a) × IsReason a) }
    ensures none { IfNone result ((a : Away) → IsReason a → text.now ≢ away_text a) }
{
    if text == b"runt".as_slice() {
        return Some(Away::Runt);
    }
    if text == b"oversize".as_slice() {
        return Some(Away::Oversize);
    }
    if text == b"no_clusters".as_slice() {
        return Some(Away::NoClusters);
    }
    let rest = behind(text, b"no_buffers ")?;
    let word = word(rest)?;
    Some(Away::NoBuffers(word))
}
