// A list of nodes, linked through the nodes. Nothing here takes memory.
ghost use Rattle.std.specs.Prelude.{◌≡◌, ◌+◌, ◌<◌, List, [], ◌∷◌, ◌++◌, length};
ghost use Rattle.std.specs.Coded.{prop_coded};
ghost use Rattle.ifl_mbuf.specs.Nodes.{Placed, IsLinked, is_linked_prop, nodes_own, nodes_lent, bodies, place_of, body_of};

use crate::node::{Node, Place};
use crate::unboxed::Unboxed;
use std::alloc::Global;
use std::marker::{Model, Send, Sync};

/// The nodes of a list, from the first to the last. With no node the two places mean nothing.
///
/// That no node is lost rests on what is written here and on no clause of another file. A `Run` is
/// not `Drop`, so it cannot be let go, but only taken apart, which no other file can do: its fields
/// are private. [`Run::split_first`] and [`Run::join`] hand all its nodes on, by their clauses, and
/// [`Run::end`] takes only a run that has none, by its own condition. A taken out node is an
/// [`Unboxed`], which is not `Drop` either, and becomes a box again.
pub(crate) struct Run {
    first: Place,
    last: Place,
    alloc: Global,
    pub(crate) ghost nodes: { List Placed },
    ghost linked: { IsLinked first.ptr last.ptr nodes } by { prop_coded (is_linked_prop first.ptr last.ptr nodes) },
}

impl Model for Run {
    ghost also_owns = { λ r. nodes_own r.alloc r.nodes };

    ghost also_shares = { λ r _ κ. nodes_lent r.nodes κ };
}

unsafe impl Send for Run {}

unsafe impl Sync for Run {}

impl Run {
    /// The list of one node.
    pub(crate) fn single(node: Unboxed<Node, Global>) -> Run
        ensures { (bodies result.nodes ≡ node.value.body ∷ []) × (0 < length result.nodes) }
    {
        let Unboxed { alloc, place } = node;
        let first = Place { ptr: place };
        Run {
            first,
            last: first,
            alloc,
        }
    }

    /// Takes the first node out.
    pub(crate) fn split_first(self) -> (Unboxed<Node, Global>, Run)
        requires { 0 < length self.nodes }
        ensures { bodies self.nodes ≡ result.0.value.body ∷ bodies result.1.nodes }
    {
        let Run { first, last, alloc } = self;
        let at = first.ptr;
        let next = unsafe { (*at).next };
        (
            Unboxed { alloc, place: at },
            Run {
                first: next,
                last,
                alloc,
            },
        )
    }

    /// The nodes of `self`, then those of `other`.
    pub(crate) fn join(self, other: Run) -> Run
        requires { (0 < length self.nodes) × (0 < length other.nodes) }
        ensures { bodies result.nodes ≡ bodies self.nodes ++ bodies other.nodes }
    {
        let Run { first, last, alloc } = self;
        let Run {
            first: middle,
            last: end,
            alloc: _,
        } = other;
        let at = last.ptr;
        unsafe {
            (*at).next = middle;
        }
        Run {
            first,
            last: end,
            alloc,
        }
    }

    /// Ends a list that has no node left: the one way in which a `Run` goes. Its condition is what
    /// keeps a list from losing nodes.
    pub(crate) fn end(self)
        requires { length self.nodes ≡ 0 }
    {
        let Run {
            first: _,
            last: _,
            alloc: _,
        } = self;
    }

    /// The place of the first node.
    pub(crate) fn start(&self) -> Place
        ensures { result.ptr ≡ place_of self.now.first.ptr self.now.nodes 0 }
    {
        self.first
    }

    /// The node at `at`, which is the i-th.
    pub(crate) fn node(&self, at: Place, i: usize) -> &Node
        requires { (i < length self.now.nodes)
            × (at.ptr ≡ place_of self.now.first.ptr self.now.nodes i) }
        ensures { (result.now.body ≡ body_of (bodies self.now.nodes) i result.now.body)
            × (result.now.next.ptr ≡ place_of self.now.first.ptr self.now.nodes (i + 1)) }
    {
        let ptr = at.ptr;
        unsafe { &*ptr }
    }
}
