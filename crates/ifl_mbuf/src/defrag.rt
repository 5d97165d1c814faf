// A chain's bytes laid anew into its first clusters.
ghost use Rattle.std.specs.Prelude.{◌≡◌, ◌+◌, ◌<◌, [], ◌∷◌, ◌++◌, length};
ghost use Rattle.ifl_base.specs.declared.limits.TheConstants.{CHAIN_MAX, CLUSTER_BYTES};
ghost use Rattle.std.specs.Int.{div_ceil};
ghost use Rattle.ifl_mbuf.specs.Defrag.{laid, IsDense, IsFilling};
ghost use Rattle.ifl_mbuf.specs.Segment.{IsFilled, bytes_of, numbers_of, size};

use crate::chain::Chain;
use crate::freed::Freed;
use crate::segment::Seg;

/// Segments laid anew: full clusters, the one that is being filled, and the clusters that are spare
/// so far.
#[derive(Drop)]
struct Filling {
    full: Chain,
    last: Seg,
    spare: Freed,
}

impl Chain {
    /// Lays the bytes anew from the start of each cluster, 2,048 to a cluster. The first clusters
    /// of the chain stay, as many as that takes, and the rest are handed back in order.
    pub fn defrag(&mut self) -> Freed
        ensures exact { self.new ≡ laid (numbers_of self.old) (bytes_of self.old) }
        ensures dense { IsDense self.new }
        ensures bytes { bytes_of self.new ≡ bytes_of self.old }
        ensures clusters { numbers_of self.new ++ result ≡ numbers_of self.old }
        ensures segments { length self.new ≡ div_ceil (size self.old) CLUSTER_BYTES }
    {
        let _at_most_64 = self.segments();
        let Some(mut last) = self.pop_front() else {
            return Freed::new();
        };
        last.move_to_start();
        let mut filling = Filling {
            full: Chain::new(),
            last,
            spare: Freed::new(),
        };
        while let Some(next) = self.pop_front() {
            filling = filling.add(next);
        }
        let Filling {
            mut full,
            last,
            spare,
        } = filling;
        full.push(last);
        *self = full;
        spare
    }
}

impl Filling {
    /// Lays the bytes of a further segment.
    fn add(self, mut next: Seg) -> Filling
        requires filling { IsFilling self.full self.last }
        requires filled { IsFilled next }
        requires short { length self.full + length self.spare + 1 < CHAIN_MAX }
        ensures filling { IsFilling result.full result.last }
        ensures bytes { bytes_of result.full ++ result.last.bytes
            ≡ (bytes_of self.full ++ self.last.bytes) ++ next.bytes }
        ensures clusters { numbers_of result.full ++ result.last.number ∷ result.spare
            ≡ (numbers_of self.full ++ self.last.number ∷ self.spare) ++ next.number ∷ [] }
    {
        let Filling {
            mut full,
            mut last,
            mut spare,
        } = self;
        let room = last.room();
        if next.bytes().len() as u32 <= room {
            last.append(next.bytes());
            spare.push(next.into_cluster());
            return Filling { full, last, spare };
        }
        last.append(&next.bytes()[..room as usize]);
        next.cut_front(room);
        full.push(last);
        let (last, spare) = restart(next, spare);
        Filling { full, last, spare }
    }
}

/// The segment's bytes at the start of the first spare cluster, or of its own where none is spare.
fn restart(mut seg: Seg, mut spare: Freed) -> (Seg, Freed)
    requires filled { IsFilled seg }
    requires short { length spare < CHAIN_MAX }
    ensures start { result.0.off ≡ 0 }
    ensures bytes { result.0.bytes ≡ seg.bytes }
    ensures clusters { result.0.number ∷ result.1 ≡ spare ++ seg.number ∷ [] }
{
    match spare.pop() {
        None => {
            seg.move_to_start();
            (seg, spare)
        }
        Some(cluster) => {
            let moved = Seg::fill(cluster, seg.bytes());
            spare.push(seg.into_cluster());
            (moved, spare)
        }
    }
}
