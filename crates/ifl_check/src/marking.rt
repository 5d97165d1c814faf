ghost use Rattle.std.specs.Prelude.{◌≡◌, ◌<◌, ◌≤◌, ◌+◌, ◌⊎◌, nat_eq, true, false, All, ℕ, length, IfOk, IfSome, IfNone, slice_index_or};
ghost use Rattle.std.specs.List.{count_by, sum_by, list_all, Any};
ghost use Rattle.ifl_check.specs.Files.{each_frames, IsRecordAt};
ghost use Rattle.ifl_check.specs.EachOnce.{is_named, EachOnce};
ghost use Rattle.ifl_check.specs.Places.{place, Counts};

use crate::files::records_at;
use crate::line::{Line, Order};
use ifl_base::{Away, Fate, NoMemory};
use ifl_pcap::Capture;
use std::alloc::Global;

/// Whether each record stands in exactly one line, and no line names another.
pub(crate) fn each_once(
    alloc: Global,
    captures: &[Capture],
    order: &Order,
) -> Result<bool, NoMemory>
    requires { sum_by (λ c. length c.frames) captures.now ≤ 1000000 }
    ensures yes { IfOk result (λ b. b ≡ true → EachOnce (each_frames captures.now) order.now.accepted.items order.now.away.items) }
    ensures no { IfOk result (λ b. b ≡ false → EachOnce (each_frames captures.now) order.now.accepted.items order.now.away.items → ⊥) }
    ensures senders { IfOk result (λ b. b ≡ true → All (λ l. l.sender < length captures.now) order.now.accepted.items) }
{
    let (starts, total) = starts_of(alloc, captures)?;
    let mut marks = vec![in alloc; 0u8; total]?;
    Ok(marks_each(captures, &starts, &mut marks, &order.accepted, &order.away))
}

/// Marks the record of each line, and says whether each record was marked, and none twice.
fn marks_each(
    captures: &[Capture],
    starts: &[usize],
    marks: &mut [u8],
    accepted: &[Line<Fate>],
    away: &[Line<Away>],
) -> bool
    requires few { sum_by (λ c. length c.frames) captures.now ≤ 1000000 }
    requires starts { (length starts.now ≡ length captures.now) × ((s : ℕ) → s < length captures.now → slice_index_or starts.now s 0 ≡ place (each_frames captures.now) s 0) }
    requires marks { length marks.old ≡ sum_by (λ c. length c.frames) captures.now }
    requires zeros { (i : ℕ) → slice_index_or marks.old i 0 ≡ 0 }
    ensures yes { result ≡ true → EachOnce (each_frames captures.now) accepted.now away.now }
    ensures no { result ≡ false → EachOnce (each_frames captures.now) accepted.now away.now → ⊥ }
    ensures senders { result ≡ true → All (λ l. l.sender < length captures.now) accepted.now }
{
    if !mark(captures, starts, marks, accepted) {
        return false;
    }
    if !mark(captures, starts, marks, away) {
        return false;
    }
    are_ones(marks)
}

fn are_ones(marks: &[u8]) -> bool
    ensures { result ≡ list_all (λ m. nat_eq m 1) marks.now }
{
    marks.iter().all(|mark| *mark == 1)
}

/// Where the first record of each file stands among all records, and how many there are.
fn starts_of(alloc: Global, captures: &[Capture]) -> Result<(Vec<usize>, usize), NoMemory>
    requires { sum_by (λ c. length c.frames) captures.now ≤ 1000000 }
    ensures starts { IfOk result (λ r. (s : ℕ) → s < length captures.now → slice_index_or r.0.items s 0 ≡ place (each_frames captures.now) s 0) }
    ensures len { IfOk result (λ r. length r.0.items ≡ length captures.now) }
    ensures total { IfOk result (λ r. r.1 ≡ sum_by (λ c. length c.frames) captures.now) }
{
    let mut starts = Vec::with_capacity(alloc, captures.len())?;
    let mut total = 0;
    for capture in captures {
        starts.push(total)?;
        total += capture.len();
    }
    Ok((starts, total))
}

/// Marks the record of each line. It stops where a line names no record, or one that is marked.
fn mark<T>(captures: &[Capture], starts: &[usize], marks: &mut [u8], lines: &[Line<T>]) -> bool
    requires few { sum_by (λ c. length c.frames) captures.now ≤ 1000000 }
    requires starts { (length starts.now ≡ length captures.now) × ((s : ℕ) → s < length captures.now → slice_index_or starts.now s 0 ≡ place (each_frames captures.now) s 0) }
    requires marks { length marks.old ≡ sum_by (λ c. length c.frames) captures.now }
    ensures len { length marks.new ≡ length marks.old }
    ensures yes { result ≡ true → Counts (each_frames captures.now) marks.old marks.new lines.now }
    ensures records { result ≡ true → All (λ l. IsRecordAt (each_frames captures.now) l.sender l.index) lines.now }
    ensures no { result ≡ false → Any (λ l. (IsRecordAt (each_frames captures.now) l.sender l.index → ⊥)
        ⊎ (1 < slice_index_or marks.old (place (each_frames captures.now) l.sender l.index) 0 + count_by (is_named l.sender l.index) lines.now)) lines.now }
{
    for line in lines {
        let Some(place) = place_of(captures, starts, line.sender, line.index) else {
            return false;
        };
        if marks[place] != 0 {
            return false;
        }
        marks[place] = 1;
    }
    true
}

/// The place of a record among all records, where there is one.
fn place_of(captures: &[Capture], starts: &[usize], sender: u32, index: u32) -> Option<usize>
    requires few { sum_by (λ c. length c.frames) captures.now ≤ 1000000 }
    requires starts { (length starts.now ≡ length captures.now) × ((s : ℕ) → s < length captures.now → slice_index_or starts.now s 0 ≡ place (each_frames captures.now) s 0) }
    ensures some { IfSome result (λ p. (p ≡ place (each_frames captures.now) sender index) × IsRecordAt (each_frames captures.now) sender index) }
    ensures within { IfSome result (λ p. p < sum_by (λ c. length c.frames) captures.now) }
    ensures none { IfNone result (IsRecordAt (each_frames captures.now) sender index → ⊥) }
{
    if (index as usize) < records_at(captures, sender) {
        Some(starts[sender as usize] + index as usize)
    } else {
        None
    }
}
