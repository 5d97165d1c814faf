//! The counters of a run.
ghost use Rattle.std.specs.Prelude.{◌≡◌, length, count_by, sum_by};
ghost use Rattle.ifl_pcap.specs.File.{written};
ghost use Rattle.ifl_line.specs.Good.{ArePacketsOf, emitted};
ghost use Rattle.ifl_txq.specs.Done.{is_reset, is_wire};
ghost use Rattle.ifl_engine.specs.Counts.{is_flush, is_no_buffers, is_no_clusters, is_oversize, is_runt, is_too_long};

use ifl_base::{Away, Fate};
use ifl_line::AwayLine;
use ifl_txq::OrderLine;

/// The bytes of a written capture before its records.
pub const HEADER_LEN: usize = 24;

/// The bytes of a record before its frame.
pub const HEAD_LEN: usize = 16;

/// How many accepted frames went to the wire.
pub fn wires(order: &[OrderLine]) -> u64
    ensures { result ≡ count_by (λ l. is_wire l.fate) order.now }
{
    order
        .iter()
        .filter(|l| matches!(l.fate, Fate::Wire))
        .count() as u64
}

/// How many accepted frames had too many segments for the adapter.
pub fn too_longs(order: &[OrderLine]) -> u64
    ensures { result ≡ count_by (λ l. is_too_long l.fate) order.now }
{
    order
        .iter()
        .filter(|l| matches!(l.fate, Fate::TooManySegments))
        .count() as u64
}

/// How many accepted frames a reset gave back.
pub fn resets(order: &[OrderLine]) -> u64
    ensures { result ≡ count_by (λ l. is_reset l.fate) order.now }
{
    order
        .iter()
        .filter(|l| matches!(l.fate, Fate::Reset))
        .count() as u64
}

/// How many accepted frames the stop gave back, or kept from being posted.
pub fn flushes(order: &[OrderLine]) -> u64
    ensures { result ≡ count_by (λ l. is_flush l.fate) order.now }
{
    order
        .iter()
        .filter(|l| matches!(l.fate, Fate::Flush))
        .count() as u64
}

/// How many frames were turned away as runts.
pub fn runts(away: &[AwayLine]) -> u64
    ensures { result ≡ count_by (λ l. is_runt l.away) away.now }
{
    away.iter().filter(|l| matches!(l.away, Away::Runt)).count() as u64
}

/// How many frames were turned away as oversize.
pub fn oversizes(away: &[AwayLine]) -> u64
    ensures { result ≡ count_by (λ l. is_oversize l.away) away.now }
{
    away.iter()
        .filter(|l| matches!(l.away, Away::Oversize))
        .count() as u64
}

/// How many frames were turned away for want of room in the ring.
pub fn no_buffers(away: &[AwayLine]) -> u64
    ensures { result ≡ count_by (λ l. is_no_buffers l.away) away.now }
{
    away.iter()
        .filter(|l| matches!(l.away, Away::NoBuffers(_)))
        .count() as u64
}

/// How many frames were turned away for want of clusters.
pub fn no_clusters(away: &[AwayLine]) -> u64
    ensures { result ≡ count_by (λ l. is_no_clusters l.away) away.now }
{
    away.iter()
        .filter(|l| matches!(l.away, Away::NoClusters))
        .count() as u64
}
