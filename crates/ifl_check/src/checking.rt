ghost use Rattle.std.specs.Prelude.{◌≡◌, ◌≤◌, length, IfOk, IfSome, IfNone};
ghost use Rattle.std.specs.List.{sum_by};
ghost use Rattle.ifl_check.specs.Files.{each_frames};
ghost use Rattle.ifl_check.specs.FirstFailing.{FailsOfLines, HoldOfLines, FirstFailing, AllHold};

use crate::allowed::are_allowed;
use crate::full::are_full_rings;
use crate::lengths::lengths_agree;
use crate::line::Order;
use crate::marking::each_once;
use crate::ordering::in_order;
use crate::reading::read_order;
use crate::terms::Terms;
use crate::wire::is_wire;
use ifl_base::NoMemory;
use ifl_pcap::Capture;
use std::alloc::Global;

/// The number of the first of the seven clauses that fails, or `None` where all of them hold.
///
/// The captures are those that the run sent, in their order, with at most 1,000,000 frames together. `wire` and `order`
/// are the bytes of the files that it wrote.
pub fn check_run(
    alloc: Global,
    terms: Terms,
    captures: &[Capture],
    wire: &[u8],
    order: &[u8],
) -> Result<Option<u32>, NoMemory>
    requires ring { (4 ≤ terms.ring_size) × (terms.ring_size ≤ 65536) }
    requires frames { sum_by (λ c. length c.frames) captures.now ≤ 1000000 }
    ensures fails { IfOk result (λ r. IfSome r (λ n. FirstFailing terms (each_frames captures.now) wire.now order.now n)) }
    ensures holds { IfOk result (λ r. IfNone r (AllHold terms (each_frames captures.now) wire.now order.now)) }
{
    match read_order(alloc, order)? {
        Some(lines) => check_lines(alloc, &terms, captures, wire, &lines),
        None => Ok(Some(1)),
    }
}

/// The first clause from the second on that fails of the lines that were read.
fn check_lines(
    alloc: Global,
    terms: &Terms,
    captures: &[Capture],
    wire: &[u8],
    lines: &Order,
) -> Result<Option<u32>, NoMemory>
    requires ring { (4 ≤ terms.now.ring_size) × (terms.now.ring_size ≤ 65536) }
    requires frames { sum_by (λ c. length c.frames) captures.now ≤ 1000000 }
    ensures fails { IfOk result (λ r. IfSome r (λ n. FailsOfLines terms.now (each_frames captures.now) wire.now lines.now.accepted.items lines.now.away.items n)) }
    ensures holds { IfOk result (λ r. IfNone r (HoldOfLines terms.now (each_frames captures.now) wire.now lines.now.accepted.items lines.now.away.items)) }
{
    if !each_once(alloc, captures, lines)? {
        return Ok(Some(2));
    }
    if !in_order(alloc, captures.len(), lines)? {
        return Ok(Some(3));
    }
    if !lengths_agree(terms, captures, lines) {
        return Ok(Some(4));
    }
    if !are_allowed(terms, lines) {
        return Ok(Some(5));
    }
    if !are_full_rings(terms, &lines.away) {
        return Ok(Some(6));
    }
    if !is_wire(captures, &lines.accepted, wire) {
        return Ok(Some(7));
    }
    Ok(None)
}
