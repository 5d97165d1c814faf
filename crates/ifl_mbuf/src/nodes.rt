ghost use Rattle.std.specs.Prelude.{◌≡◌, ◌+◌, ◌<◌, ◌≤◌, ◌^◌, [], ◌∷◌, ◌++◌, length, map, take, drop, MatchOption};
ghost use Rattle.ifl_mbuf.specs.Layout.{segment_of, AllFull};
ghost use Rattle.ifl_mbuf.specs.Links.{bodies_of, IsCounted, IsEmpty};
ghost use Rattle.ifl_mbuf.specs.Nodes.{bodies};
ghost use Rattle.ifl_mbuf.specs.Segment.{bytes_of, size};

use crate::node::Node;
use crate::run::Run;
use crate::unboxed::Unboxed;
use std::marker::Model;
use std::mem::replace;

/// No nodes, or a run of nodes with their number.
enum Links {
    Empty,
    Linked { count: u32, run: Run },
}

/// A list of nodes. A contract sees it as the list of what the nodes hold.
///
/// Its nodes are boxes that it owns; none of its calls takes memory.
pub(crate) struct NodeList {
    links: Links,
}

impl Model for NodeList {
    ghost use Rattle.std.specs.Prelude.{List};
    ghost use Rattle.ifl_mbuf.specs.declared.node.Body.{Body};

    ghost Value = { List Body };

    ghost use Rattle.ifl_mbuf.specs.Links.{bodies_of, IsCounted};

    ghost view = { λ l. bodies_of l.links };

    ghost invariant = { λ l. IsCounted l.links };
}

impl NodeList {
    pub(crate) fn new() -> NodeList
        ensures { result ≡ [] }
    {
        NodeList {
            links: Links::Empty,
        }
    }

    /// The number of nodes.
    pub(crate) fn count(&self) -> u32
        ensures { result ≡ length self.now }
    {
        match &self.links {
            Links::Empty => 0,
            Links::Linked { count, run: _ } => *count,
        }
    }

    /// Appends a node.
    pub(crate) fn push(&mut self, node: Box<Node>)
        requires { length self.old + 1 < 2 ^ 32 }
        ensures { self.new ≡ self.old ++ node.value.body ∷ [] }
    {
        let one = Links::Linked {
            count: 1,
            run: Run::single(Unboxed::from_box(node)),
        };
        let all = joined(replace(&mut self.links, Links::Empty), one);
        put(&mut self.links, all);
    }

    /// Appends all nodes of `other` by one write.
    pub(crate) fn append(&mut self, other: NodeList)
        requires { length self.old + length other < 2 ^ 32 }
        ensures { self.new ≡ self.old ++ other }
    {
        let NodeList { links } = other;
        let all = joined(replace(&mut self.links, Links::Empty), links);
        put(&mut self.links, all);
    }

    /// Takes the first node out.
    pub(crate) fn pop(&mut self) -> Option<Box<Node>>
        ensures { MatchOption result ((self.old ≡ []) × (self.new ≡ []))
            (λ node. self.old ≡ node.value.body ∷ self.new) }
    {
        match replace(&mut self.links, Links::Empty) {
            Links::Empty => None,
            Links::Linked { count, run } => {
                let (first, rest) = run.split_first();
                put(&mut self.links, linked(count - 1, rest));
                Some(first.into_box())
            }
        }
    }

    /// Fills `out` with the bytes of the segments from the byte `at` on.
    pub(crate) fn copy_to(&self, at: usize, out: &mut [u8])
        requires short { length self.now < 2 ^ 32 }
        requires full { AllFull self.now }
        requires within { at + length out.old ≤ size (map segment_of self.now) }
        ensures { out.new ≡ take (length out.old) (drop at (bytes_of (map segment_of self.now))) }
    {
        match &self.links {
            Links::Empty => {}
            Links::Linked { count: _, run } => run.copy_to(at, out),
        }
    }
}

impl Drop for NodeList {
    fn drop(mut self) {
        while let Some(node) = self.pop() {
            drop(node);
        }
        let NodeList { links } = self;
        match links {
            Links::Empty => {}
            Links::Linked { count: _, run } => run.end(),
        }
    }
}

/// A run of `count` nodes; one of no nodes is ended.
fn linked(count: u32, run: Run) -> Links
    requires { count ≡ length (bodies run.nodes) }
    ensures bodies { bodies_of result ≡ bodies run.nodes }
    ensures counted { IsCounted result }
{
    if 0 < count {
        Links::Linked { count, run }
    } else {
        run.end();
        Links::Empty
    }
}

/// The nodes of `front`, then those of `back`.
fn joined(front: Links, back: Links) -> Links
    requires counted { IsCounted front × IsCounted back }
    requires short { length (bodies_of front) + length (bodies_of back) < 2 ^ 32 }
    ensures bodies { bodies_of result ≡ bodies_of front ++ bodies_of back }
    ensures counted { IsCounted result }
{
    match front {
        Links::Empty => back,
        Links::Linked { count, run } => match back {
            Links::Empty => Links::Linked { count, run },
            Links::Linked {
                count: more,
                run: rest,
            } => Links::Linked {
                count: count + more,
                run: run.join(rest),
            },
        },
    }
}

/// Fills a place that holds no nodes.
fn put(place: &mut Links, links: Links)
    requires { IsEmpty place.old }
    ensures { place.new ≡ links }
{
    match replace(place, links) {
        Links::Empty => {}
        Links::Linked { count: _, run } => run.end(),
    }
}
