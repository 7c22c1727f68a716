//! The nodes of a forest.
ghost use Rattle.std.specs.Prelude.{◌≡◌, ◌∷◌, ◌++◌, ◌≤◌, [], IfOk, OnOk, OnErr, count_by, nat_eq};
ghost use Rattle.moo_world_tree.specs.Forest.{Links, alone, without};

use crate::below::Below;
use crate::gapped::Gapped;
use std::alloc::{AllocError, Global};
use std::marker::Model;

/// A node: the one right above it and those right below it.
#[derive(Drop)]
pub struct Node {
    above: Option<usize>,
    below: Gapped,
    // The slot of this node in the list of the one right above it, at which a removal looks first.
    place: usize,
}

impl Model for Node {
    ghost use Rattle.moo_world_tree.specs.Forest.{Links};

    ghost Value = { Links };

    ghost view = { λ n. record { above = n.above; below = n.below } };
}

impl Node {
    /// Makes a node with the one right above it, and those right below it in order.
    pub fn new(alloc: Global, above: Option<usize>, below: &[usize]) -> Result<Self, AllocError>
        ensures { IfOk result (λ node. node ≡ record { above = above; below = below.now }) }
    {
        let mut node = Node::alone(alloc);
        node.set_above(above);
        node.add_all_below(below)?;
        Ok(node)
    }

    /// Makes a node with none above and none below.
    pub fn alone(alloc: Global) -> Self
        ensures { result ≡ alone }
    {
        Node {
            above: None,
            below: Gapped::new(alloc),
            place: 0,
        }
    }

    /// Returns the node right above, or `None` for a root.
    pub fn above(&self) -> Option<usize>
        ensures { result ≡ self.now.above }
    {
        self.above
    }

    /// Returns the nodes right below, the newest last.
    pub fn below(&self) -> Below<'_>
        ensures { result ≡ self.now.below }
    {
        self.below.below()
    }

    /// Sets the node right above. Does not change that node's list.
    pub fn set_above(&mut self, to: Option<usize>)
        ensures { self.new ≡ record self.old { above = to } }
    {
        self.above = to;
    }

    /// Appends a node to those below. Out of memory nothing changes.
    pub fn add_below(&mut self, x: usize) -> Result<(), AllocError>
        ensures ok { OnOk result (self.new ≡ record self.old { below = self.old.below ++ x ∷ [] }) }
        ensures err { OnErr result (self.new ≡ self.old) }
    {
        self.below.push(x)
    }

    /// Appends nodes to those below, in their order. Out of memory nothing changes.
    pub fn add_all_below(&mut self, xs: &[usize]) -> Result<(), AllocError>
        ensures ok { OnOk result (self.new ≡ record self.old { below = self.old.below ++ xs.now }) }
        ensures err { OnErr result (self.new ≡ self.old) }
    {
        self.below.push_all(xs)
    }

    /// Removes the node above and all nodes below.
    pub fn leave_all(&mut self)
        ensures { self.new ≡ alone }
    {
        self.above = None;
        self.below.clear();
    }

    /// Removes a node from those below, among which it is at most once. Takes constant time if the node is at `place`.
    pub(crate) fn remove_below(&mut self, x: usize, place: usize)
        requires { count_by (nat_eq x) self.old.below ≤ 1 }
        ensures { self.new ≡ record self.old { below = without x self.old.below } }
    {
        self.below.remove(x, place);
    }

    /// Is true if the list of those below should be packed.
    pub(crate) fn is_sparse(&self) -> bool {
        self.below.is_sparse()
    }

    /// Removes the empty slots from the list of those below, which changes the nodes' places.
    pub(crate) fn pack(&mut self)
        ensures { self.new ≡ self.old }
    {
        self.below.pack();
    }

    /// Returns the number of slots in the list of those below.
    pub(crate) fn places(&self) -> usize {
        self.below.slots()
    }

    /// Returns the node at a slot in the list of those below.
    pub(crate) fn at(&self, place: usize) -> Option<usize> {
        self.below.slot(place)
    }

    /// Returns the slot of this node in the list of the one right above it.
    pub(crate) fn place(&self) -> usize {
        self.place
    }

    pub(crate) fn set_place(&mut self, place: usize)
        ensures { self.new ≡ self.old }
    {
        self.place = place;
    }
}
