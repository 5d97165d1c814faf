ghost use Rattle.std.specs.Prelude.{◌≡◌, ◌<◌, ◌^◌, true, false, All};
ghost use Rattle.ifl_check.specs.Files.{each_frames};
ghost use Rattle.ifl_check.specs.Lengths.{clusters_needed, IsFit, SuitsFate, SuitsAway, SuitsFrame, LengthsAgree};

use crate::files::frame_at;
use crate::line::{Line, Order};
use crate::terms::Terms;
use ifl_base::{Away, CLUSTER_BYTES, FRAME_MIN, Fate};
use ifl_pcap::Capture;

/// Whether each line suits the length of its frame.
pub(crate) fn lengths_agree(terms: &Terms, captures: &[Capture], order: &Order) -> bool
    ensures yes { result ≡ true → LengthsAgree terms.now (each_frames captures.now) order.now.accepted.items order.now.away.items }
    ensures no { result ≡ false → LengthsAgree terms.now (each_frames captures.now) order.now.accepted.items order.now.away.items → ⊥ }
{
    fates_agree(terms, captures, &order.accepted) && reasons_agree(terms, captures, &order.away)
}

fn fates_agree(terms: &Terms, captures: &[Capture], lines: &[Line<Fate>]) -> bool
    ensures yes { result ≡ true → All (SuitsFrame SuitsFate terms.now (each_frames captures.now)) lines.now }
    ensures no { result ≡ false → All (SuitsFrame SuitsFate terms.now (each_frames captures.now)) lines.now → ⊥ }
{
    for line in lines {
        if !fate_agrees(terms, captures, line) {
            return false;
        }
    }
    true
}

fn reasons_agree(terms: &Terms, captures: &[Capture], lines: &[Line<Away>]) -> bool
    ensures yes { result ≡ true → All (SuitsFrame SuitsAway terms.now (each_frames captures.now)) lines.now }
    ensures no { result ≡ false → All (SuitsFrame SuitsAway terms.now (each_frames captures.now)) lines.now → ⊥ }
{
    for line in lines {
        if !reason_agrees(terms, captures, line) {
            return false;
        }
    }
    true
}

fn fate_agrees(terms: &Terms, captures: &[Capture], line: &Line<Fate>) -> bool
    ensures yes { result ≡ true → SuitsFrame SuitsFate terms.now (each_frames captures.now) line.now }
    ensures no { result ≡ false → SuitsFrame SuitsFate terms.now (each_frames captures.now) line.now → ⊥ }
{
    match frame_at(captures, line.sender, line.index) {
        Some(frame) => suits_fate(terms, frame.len(), line.what),
        None => true,
    }
}

fn reason_agrees(terms: &Terms, captures: &[Capture], line: &Line<Away>) -> bool
    ensures yes { result ≡ true → SuitsFrame SuitsAway terms.now (each_frames captures.now) line.now }
    ensures no { result ≡ false → SuitsFrame SuitsAway terms.now (each_frames captures.now) line.now → ⊥ }
{
    match frame_at(captures, line.sender, line.index) {
        Some(frame) => suits_away(terms, frame.len(), line.what),
        None => true,
    }
}

fn suits_fate(terms: &Terms, len: usize, fate: Fate) -> bool
    ensures yes { result ≡ true → SuitsFate terms.now len fate }
    ensures no { result ≡ false → SuitsFate terms.now len fate → ⊥ }
{
    if !is_fit(terms, len) {
        return false;
    }
    match fate {
        Fate::Wire => !has_too_many(terms, len),
        Fate::TooManySegments => has_too_many(terms, len),
        Fate::Reset => !has_too_many(terms, len),
        Fate::Flush => true,
    }
}

fn suits_away(terms: &Terms, len: usize, away: Away) -> bool
    ensures yes { result ≡ true → SuitsAway terms.now len away }
    ensures no { result ≡ false → SuitsAway terms.now len away → ⊥ }
{
    match away {
        Away::Runt => len < FRAME_MIN as usize,
        Away::Oversize => FRAME_MIN as usize <= len && (terms.max_frame as usize) < len,
        Away::NoClusters => is_fit(terms, len),
        Away::NoBuffers(_) => is_fit(terms, len),
    }
}

fn is_fit(terms: &Terms, len: usize) -> bool
    ensures yes { result ≡ true → IsFit terms.now len }
    ensures no { result ≡ false → IsFit terms.now len → ⊥ }
{
    FRAME_MIN as usize <= len && len <= terms.max_frame as usize
}

/// Whether so many bytes fill more clusters than a packet may have segments.
fn has_too_many(terms: &Terms, len: usize) -> bool
    ensures yes { result ≡ true → terms.now.max_segs < clusters_needed len }
    ensures no { result ≡ false → terms.now.max_segs < clusters_needed len → ⊥ }
{
    (terms.max_segs as usize) < len.div_ceil(CLUSTER_BYTES as usize)
}
