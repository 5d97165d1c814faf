// The bytes of a run of segments, copied out.
ghost use Rattle.std.specs.Prelude.{◌≡◌, ◌+◌, ◌-◌, ◌<◌, ◌≤◌, ◌^◌, ◌++◌, length, map, min, take, drop};
ghost use Rattle.ifl_mbuf.specs.Layout.{segment_of, AllFull};
ghost use Rattle.ifl_mbuf.specs.Nodes.{bodies};
ghost use Rattle.ifl_mbuf.specs.Segment.{bytes_of, size};

use crate::run::Run;

impl Run {
    /// Fills `out` with the bytes of the segments from the byte `at` on.
    pub(crate) fn copy_to(&self, at: usize, out: &mut [u8])
        requires short { length (bodies self.now.nodes) < 2 ^ 32 }
        requires full { AllFull (bodies self.now.nodes) }
        requires within { at + length out.old ≤ size (map segment_of (bodies self.now.nodes)) }
        ensures { let all = bytes_of (map segment_of (bodies self.now.nodes))
            in out.new ≡ take (length out.old) (drop at all) }
    {
        let mut skip = at;
        let mut done = 0;
        let mut place = self.start();
        let mut i = 0;
        while done < out.len() {
            let node = self.node(place, i);
            let part = node.body.part();
            done += copy_part(part, skip, out, done);
            skip = skip.saturating_sub(part.len());
            place = node.next;
            i += 1;
        }
    }
}

/// Copies `part` without its first `skip` bytes to `out` from `done` on, as far as there is room,
/// and answers how many bytes that are.
fn copy_part(part: &[u8], skip: usize, out: &mut [u8], done: usize) -> usize
    requires { done ≤ length out.old }
    ensures count { result ≡ min (length part.now - skip) (length out.old - done) }
    ensures bytes { take (done + result) out.new
        ≡ take done out.old ++ take result (drop skip part.now) }
{
    let n = part.len().saturating_sub(skip).min(out.len() - done);
    if 0 < n {
        out[done..done + n].copy_from_slice(&part[skip..skip + n]);
    }
    n
}
