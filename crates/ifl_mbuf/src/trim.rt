// Bytes taken away at a chain's ends.
ghost use Rattle.std.specs.Prelude.{◌≡◌, ◌-◌, ◌≤◌, ◌++◌, take, drop, reverse};
ghost use Rattle.ifl_mbuf.specs.Segment.{bytes_of, numbers_of, size};
ghost use Rattle.ifl_mbuf.specs.Trim.{without_first, only_first};

use crate::chain::Chain;
use crate::freed::Freed;
use std::mem::replace;

impl Chain {
    /// Takes the first `n` bytes away, and hands the clusters of emptied segments back in order.
    pub fn adjust_front(&mut self, n: u32) -> Freed
        requires { n ≤ size self.old }
        ensures kept { self.new ≡ without_first n self.old }
        ensures bytes { bytes_of self.new ≡ drop n (bytes_of self.old) }
        ensures clusters { result ++ numbers_of self.new ≡ numbers_of self.old }
    {
        let mut freed = Freed::new();
        let mut left = n;
        let _at_most_64 = self.segments();
        while let Some(mut seg) = self.pop_front() {
            let len = seg.bytes().len() as u32;
            if left < len {
                seg.cut_front(left);
                self.push_front(seg);
                break;
            }
            left -= len;
            freed.push(seg.into_cluster());
        }
        freed
    }

    /// Takes the last `n` bytes away, and hands the clusters of emptied segments back, the last
    /// first.
    pub fn adjust_back(&mut self, n: u32) -> Freed
        requires { n ≤ size self.old }
        ensures kept { self.new ≡ only_first (size self.old - n) self.old }
        ensures bytes { bytes_of self.new ≡ take (size self.old - n) (bytes_of self.old) }
        ensures clusters { numbers_of self.new ++ reverse result ≡ numbers_of self.old }
    {
        let rest = self.keep_first(self.len() - n);
        rest.into_freed()
    }

    /// Keeps the first `n` bytes, and hands back the segments that have none of them.
    fn keep_first(&mut self, n: u32) -> Chain
        ensures kept { self.new ≡ only_first n self.old }
        ensures clusters { numbers_of self.new ++ numbers_of result ≡ numbers_of self.old }
    {
        let mut kept = Chain::new();
        let mut left = n;
        let _at_most_64 = self.segments();
        while 0 < left {
            let Some(mut seg) = self.pop_front() else {
                break;
            };
            let len = seg.bytes().len() as u32;
            seg.shorten(left);
            kept.push(seg);
            left = left.saturating_sub(len);
        }
        replace(self, kept)
    }

    /// The clusters of its segments, the last first.
    fn into_freed(mut self) -> Freed
        ensures { result ≡ reverse (numbers_of self) }
    {
        let mut freed = Freed::new();
        let _at_most_64 = self.segments();
        while let Some(seg) = self.pop_front() {
            freed.push_front(seg.into_cluster());
        }
        freed
    }
}
