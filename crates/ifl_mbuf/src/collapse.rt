// Segments copied behind one another in place.
ghost use Rattle.std.specs.Prelude.{◌≡◌, ◌<◌, ◌≤◌, ◌++◌, length, min, IsPermutation};
ghost use Rattle.ifl_mbuf.specs.Collapse.{collapsed, IsTight};
ghost use Rattle.ifl_mbuf.specs.Segment.{bytes_of, numbers_of};

use crate::chain::Chain;
use crate::freed::Freed;
use std::mem::replace;

impl Chain {
    /// Copies segments behind those before them, where their bytes have room in that cluster, until
    /// at most `max` segments are left. Hands the clusters that this empties back in order.
    ///
    /// A segment is either copied whole or stays, so more than `max` may be left.
    pub fn collapse(&mut self, max: u32) -> Freed
        ensures exact { (self.new, result) ≡ collapsed max self.old }
        ensures bytes { bytes_of self.new ≡ bytes_of self.old }
        ensures clusters { IsPermutation (result ++ numbers_of self.new) (numbers_of self.old) }
        ensures enough { min max (length self.old) ≤ length self.new }
        ensures tight { max < length self.new → IsTight self.new }
    {
        let mut freed = Freed::new();
        let mut done = Chain::new();
        let mut surplus = self.segments().saturating_sub(max);
        let Some(mut cursor) = self.pop_front() else {
            return freed;
        };
        while 0 < surplus {
            let Some(next) = self.pop_front() else {
                break;
            };
            if next.bytes().len() as u32 <= cursor.room() {
                cursor.append(next.bytes());
                freed.push(next.into_cluster());
                surplus -= 1;
            } else {
                done.push(replace(&mut cursor, next));
            }
        }
        done.push(cursor);
        done.cat(replace(self, Chain::new()));
        *self = done;
        freed
    }
}
