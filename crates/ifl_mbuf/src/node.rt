// A cluster as it lies in memory.
ghost use Rattle.std.specs.Prelude.{◌≡◌};
ghost use Rattle.ifl_mbuf.specs.Layout.{segment_of, Fits};

use ifl_base::CLUSTER_BYTES;
use std::marker::{Send, Sync};
use std::ptr::null_mut;

/// Where a node lies. It owns nothing.
#[derive(Clone, Copy)]
pub(crate) struct Place {
    pub(crate) ptr: *mut Node,
}

impl Place {
    /// The place of no node.
    pub(crate) fn none() -> Place {
        Place { ptr: null_mut() }
    }
}

unsafe impl Send for Place {}

unsafe impl Sync for Place {}

/// What a cluster holds: its number, its bytes, and which of them are in use.
#[derive(Drop)]
pub(crate) struct Body {
    pub(crate) number: u32,
    pub(crate) off: u32,
    pub(crate) len: u32,
    pub(crate) bytes: [u8; CLUSTER_BYTES as usize],
}

impl Body {
    /// The bytes in use.
    pub(crate) fn part(&self) -> &[u8]
        requires { Fits self.now }
        ensures { result.now ≡ (segment_of self.now).bytes }
    {
        let off = self.off as usize;
        let len = self.len as usize;
        &self.bytes[off..off + len]
    }
}

/// A cluster, and the place of the cluster behind it. That place means nothing in the last node of
/// a list.
#[derive(Drop)]
pub(crate) struct Node {
    pub(crate) next: Place,
    pub(crate) body: Body,
}
