//! What a seat's tally counts of the steps of a call.
ghost use Rattle.std.specs.Prelude.{◌≡◌, ◌&&◌, not, nat_eq};
ghost use Rattle.ifl_ringcore.specs.Counters.{nothing_counted, one_if, is_idle, is_stalled};
ghost use Rattle.ifl_ring.specs.Tally.{TallyRises, drain_rise};

use ifl_base::Flag;
use ifl_ringcore::Counters;

/// Counts the refusal of `n` items.
pub fn count_refused(tally: &mut Counters, n: u32)
    ensures { TallyRises (record nothing_counted { drops = n }) tally.old tally.new }
{
    tally.drops = tally.drops.saturating_add(n as u64);
}

/// Counts the publishing of `n` items.
pub fn count_published(tally: &mut Counters, n: u32)
    ensures { TallyRises (record nothing_counted { enqueues = n }) tally.old tally.new }
{
    tally.enqueues = tally.enqueues.saturating_add(n as u64);
}

/// Counts the publishing of `n` items by a seat that found this flag and became the consumer.
pub fn count_elected(tally: &mut Counters, n: u32, found: Flag)
    ensures { TallyRises (record nothing_counted { enqueues = n; starts = one_if (is_idle found) }) tally.old tally.new }
{
    tally.enqueues = tally.enqueues.saturating_add(n as u64);
    tally.starts = tally
        .starts
        .saturating_add(matches!(found, Flag::Idle) as u64);
}

/// Counts a drain that began from a flag, consumed so many items and left a flag.
pub fn count_drained(tally: &mut Counters, from: Flag, left: Flag, total: u64)
    ensures { TallyRises (drain_rise from left total) tally.old tally.new }
{
    match left {
        Flag::Idle => count_restarted(tally, from, total),
        Flag::Busy => {}
        Flag::Stalled => {
            count_restarted(tally, from, total);
            tally.stalls = tally.stalls.saturating_add(has_stalled(from, total));
        }
        Flag::Abdicated => {
            count_restarted(tally, from, total);
            tally.abdications = tally.abdications.saturating_add(1);
        }
    }
}

fn count_restarted(tally: &mut Counters, from: Flag, total: u64)
    ensures { TallyRises (record nothing_counted { restarts = one_if (is_stalled from && not (nat_eq total 0)) }) tally.old tally.new }
{
    match from {
        Flag::Stalled => tally.restarts = tally.restarts.saturating_add((total != 0) as u64),
        _ => {}
    }
}

fn has_stalled(from: Flag, total: u64) -> u64
    ensures { result ≡ one_if (not (is_stalled from && nat_eq total 0)) }
{
    match from {
        Flag::Stalled => (total != 0) as u64,
        _ => 1,
    }
}
