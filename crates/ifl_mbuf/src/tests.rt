ghost use Rattle.std.specs.Prelude.{◌≡◌, ◌<◌, length, IfOk};
ghost use Rattle.ifl_mbuf.specs.Segment.{size};

use super::*;
use ifl_base::{CHAIN_MAX, NoMemory, Stamp, Ticket};
use std::alloc::Global;
use std::process::Abort;

/// The lengths in bytes of the chains that are compared with plain bytes, at and around each
/// boundary.
const TOTALS: [usize; 24] = [
    1, 2, 3, 63, 64, 65, 128, 1_000, 2_046, 2_047, 2_048, 2_049, 2_050, 4_095, 4_096, 4_097, 6_144,
    8_191, 8_192, 8_193, 65_535, 65_536, 131_071, 131_072,
];

/// The lengths of their segments. Each total is cut into pieces of each length that gives at most
/// 64 segments.
const PIECES: [usize; 15] = [
    1, 2, 3, 31, 32, 33, 64, 100, 1_000, 1_023, 1_024, 1_025, 1_448, 2_047, 2_048,
];

/// Bytes whose pattern does not repeat with a cluster.
fn pattern(alloc: Global, len: usize) -> Result<Vec<u8>, NoMemory> {
    let mut bytes = Vec::with_capacity(alloc, len)?;
    for i in 0..len {
        bytes.push((i % 251) as u8)?;
    }
    Ok(bytes)
}

/// The chain of segments of `piece` bytes at offset 0, the last one shorter.
fn chain_of(rt: &impl Abort, alloc: Global, bytes: &[u8], piece: usize) -> Result<Chain, NoMemory>
    ensures { IfOk result (λ chain. size chain ≡ length bytes.now) }
{
    let clusters = make_clusters(alloc, CHAIN_MAX)?;
    let mut chain = Chain::new();
    assert!(rt; 0 < piece);
    for (cluster, part) in clusters.into_iter().zip(bytes.chunks(piece)) {
        assert!(rt; chain.segments() < CHAIN_MAX);
        assert!(rt; 0 < part.len());
        assert!(rt; part.len() <= 2_048);
        chain.push(Seg::fill(cluster, part));
    }
    assert_eq!(rt; chain.len() as usize, bytes.len());
    Ok(chain)
}

/// Fails unless the chain's bytes are these.
fn assert_holds(
    rt: &impl Abort,
    alloc: Global,
    chain: &Chain,
    bytes: &[u8],
    call: &str,
) -> Result<(), NoMemory> {
    assert_eq!(rt; chain.len() as usize, bytes.len(), "after {call}");
    let mut copy = vec![in alloc; 0; bytes.len()]?;
    chain.copy_to(0, &mut copy);
    assert!(rt; copy.as_slice() == bytes, "after {call}");
    Ok(())
}

/// A chain of segments of `piece` bytes at offset 0: it is collapsed to `max`, and then laid anew
/// where that is asked for. Then the clusters handed back, and the segments left with the lengths
/// of the first and of each other one.
#[derive(Clone, Copy)]
struct Row {
    total: usize,
    piece: usize,
    max: u32,
    is_defragmented: bool,
    freed: u32,
    segments: u32,
    first: usize,
    others: usize,
}

const ROWS: [Row; 5] = [
    Row {
        total: 4_000,
        piece: 100,
        max: 32,
        is_defragmented: false,
        freed: 8,
        segments: 32,
        first: 900,
        others: 100,
    },
    Row {
        total: 4_000,
        piece: 100,
        max: 2,
        is_defragmented: false,
        freed: 38,
        segments: 2,
        first: 2_000,
        others: 2_000,
    },
    Row {
        total: 4_000,
        piece: 100,
        max: 64,
        is_defragmented: true,
        freed: 38,
        segments: 2,
        first: 2_048,
        others: 1_952,
    },
    Row {
        total: 3_300,
        piece: 1_100,
        max: 2,
        is_defragmented: false,
        freed: 0,
        segments: 3,
        first: 1_100,
        others: 1_100,
    },
    Row {
        total: 3_300,
        piece: 1_100,
        max: 2,
        is_defragmented: true,
        freed: 1,
        segments: 2,
        first: 2_048,
        others: 1_252,
    },
];

#[test]
fn compacted_chains_have_these_segments(rt: HostRuntime) -> Result<(), NoMemory> {
    for row in ROWS {
        check_row(&rt, rt.alloc(), row)?;
    }
    Ok(())
}

fn check_row(rt: &impl Abort, alloc: Global, row: Row) -> Result<(), NoMemory> {
    let bytes = pattern(alloc, row.total)?;
    let mut chain = chain_of(rt, alloc, &bytes, row.piece)?;
    let mut freed = chain.collapse(row.max);
    if row.is_defragmented {
        assert!(rt; freed.count() == 0);
        freed = chain.defrag();
    }
    assert_eq!(rt; freed.count(), row.freed);
    assert_holds(rt, alloc, &chain, &bytes, "compaction")?;
    assert_eq!(rt; chain.segments(), row.segments);
    assert_first(rt, &mut chain, row.first);
    for _ in 1..row.segments {
        assert_first(rt, &mut chain, row.others);
    }
    Ok(())
}

/// Fails unless the first segment has `len` bytes, and takes it out.
fn assert_first(rt: &impl Abort, chain: &mut Chain, len: usize) {
    let seg = chain.pop_front().expect(rt, "a segment");
    assert_eq!(rt; seg.bytes().len(), len);
}

#[test]
fn chains_are_their_bytes(rt: HostRuntime) -> Result<(), NoMemory> {
    let mut chains = 0u32;
    for total in TOTALS {
        let bytes = pattern(rt.alloc(), total)?;
        for piece in PIECES {
            if bytes.len().div_ceil(piece.max(1)) <= 64 {
                check_lists(&rt, rt.alloc(), &bytes, piece)?;
                check_trims(&rt, rt.alloc(), &bytes, piece)?;
                check_compactions(&rt, rt.alloc(), &bytes, piece)?;
                chains = chains.saturating_add(1);
            }
        }
    }
    assert!(rt; 200 <= chains);
    Ok(())
}

/// `push`, `cat` and `pop_front`, and a copy of the later half.
fn check_lists(rt: &impl Abort, alloc: Global, bytes: &[u8], piece: usize) -> Result<(), NoMemory> {
    let mut chain = chain_of(rt, alloc, bytes, piece)?;
    assert_holds(rt, alloc, &chain, bytes, "push")?;

    let half = bytes.len() / 2;
    let mut later = vec![in alloc; 0; bytes.len() - half]?;
    chain.copy_to(half as u32, &mut later);
    assert!(rt; later.as_slice() == &bytes[half..]);

    let mut whole = chain_of(rt, alloc, &bytes[..half], piece)?;
    let rest = chain_of(rt, alloc, &bytes[half..], piece)?;
    if whole.segments() + rest.segments() <= 64 {
        whole.cat(rest);
        assert_holds(rt, alloc, &whole, bytes, "cat")?;
    }

    let first = chain.pop_front().expect(rt, "a segment");
    let cut = piece.min(bytes.len());
    assert!(rt; first.bytes() == &bytes[..cut]);
    assert_holds(rt, alloc, &chain, &bytes[cut..], "pop_front")
}

/// `adjust_front` and `adjust_back`, up to and past the ends of segments.
fn check_trims(rt: &impl Abort, alloc: Global, bytes: &[u8], piece: usize) -> Result<(), NoMemory> {
    let len = bytes.len();
    for n in [0, 1, piece / 2, piece, len / 2, len.saturating_sub(1), len] {
        let n = n.min(len);
        let mut chain = chain_of(rt, alloc, bytes, piece)?;
        let before = chain.segments();
        let freed = chain.adjust_front(n as u32);
        assert_holds(rt, alloc, &chain, &bytes[n..], "adjust_front")?;
        assert_eq!(rt; freed.count() + chain.segments(), before);

        let mut chain = chain_of(rt, alloc, bytes, piece)?;
        let freed = chain.adjust_back(n as u32);
        assert_holds(rt, alloc, &chain, &bytes[..len - n], "adjust_back")?;
        assert_eq!(rt; freed.count() + chain.segments(), before);
    }
    Ok(())
}

/// `collapse` and `defrag`, the latter also of segments that do not stand at the start of their
/// clusters.
fn check_compactions(
    rt: &impl Abort,
    alloc: Global,
    bytes: &[u8],
    piece: usize,
) -> Result<(), NoMemory> {
    for max in [0, 1, 2, 32, 63, 64] {
        let mut chain = chain_of(rt, alloc, bytes, piece)?;
        let before = chain.segments();
        let freed = chain.collapse(max);
        assert_holds(rt, alloc, &chain, bytes, "collapse")?;
        assert_eq!(rt; freed.count() + chain.segments(), before);
    }
    for gone in [0, 1, piece / 2] {
        let gone = gone.min(bytes.len());
        let mut chain = chain_of(rt, alloc, bytes, piece)?;
        let _freed = chain.adjust_front(gone as u32);
        let before = chain.segments();
        let freed = chain.defrag();
        assert_holds(rt, alloc, &chain, &bytes[gone..], "defrag")?;
        assert_eq!(rt;
            chain.segments() as usize,
            (bytes.len() - gone).div_ceil(2_048)
        );
        assert_eq!(rt; freed.count() + chain.segments(), before);
    }
    Ok(())
}

#[test]
fn clusters_are_handed_back_in_order(rt: HostRuntime) -> Result<(), NoMemory> {
    let bytes = pattern(rt.alloc(), 500)?;
    let mut chain = chain_of(&rt, rt.alloc(), &bytes, 100)?;
    assert_eq!(rt; chain.len(), 500);
    let mut freed = chain.adjust_front(250);
    assert_eq!(rt; chain.len(), 250);
    let back = chain.adjust_back(220);
    assert!(rt; freed.count() + back.count() <= 64);
    freed.cat(back);
    for number in [0, 1, 4, 3] {
        let cluster = freed.pop().expect(&rt, "a cluster");
        assert_eq!(rt; cluster.number(), number);
        cluster.spend();
    }
    assert!(rt; freed.pop().is_none());
    Ok(())
}

/// Takes what may be moved to another thread and shared with it.
fn crosses<T: Send + Sync>(value: T) -> T
    ensures { result ≡ value }
{
    value
}

#[test]
fn packets_cross_threads(rt: HostRuntime) -> Result<(), NoMemory> {
    let mut clusters = make_clusters(rt.alloc(), 1)?;
    let cluster = crosses(clusters.pop().expect(&rt, "a cluster"));
    let seg = crosses(Seg::fill(cluster, &[1, 2, 3]));
    let mut chain = Chain::new();
    chain.push(seg);
    let mut chain = unpacked(&rt, crosses(chain));
    let seg = chain.pop_front().expect(&rt, "a segment");
    assert_eq!(rt; seg.into_cluster().number(), 0);
    assert_eq!(rt; crosses(chain.defrag()).count(), 0);
    Ok(())
}

/// The chain, after it was in a packet.
fn unpacked(rt: &impl Abort, chain: Chain) -> Chain
    requires { 0 < size chain }
{
    let ticket = Ticket {
        sender: 3,
        index: 7,
    };
    let stamp = Stamp {
        sec: 5,
        usec: 7,
        orig: 60,
    };
    let packet = crosses(Packet::new(ticket, stamp, chain));
    assert_eq!(rt; packet.len(), 3);
    assert_eq!(rt; packet.segments(), 1);
    let (ticket, stamp, chain) = packet.into_parts();
    assert_eq!(rt; ticket.index, 7);
    assert_eq!(rt; stamp.orig, 60);
    chain
}
