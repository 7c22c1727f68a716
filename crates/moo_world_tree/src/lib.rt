//! Forests: trees of numbered nodes, each with the list of its children in order.
//! The world has two: the inheritance of objects and their locations.
//! An internal crate of `moo_world`.
#![tactic(auto)]

ghost use Rattle.std.specs.Prelude.{◌≡◌, ◌≢◌, ◌+◌, ◌<◌, ◌++◌, ◌∷◌, [], ◌↔◌, Option, length, IsTrue, IfOk, OnOk, OnErr, IsOk, true, false, vec_len, slice_index_or, take, ◌-◌};
ghost use Rattle.std.specs.Option.{ForSome};
ghost use Rattle.moo_world_tree.specs.Forest.{Links, alone, above_of, below_of, is_within, moved, IsForest};

mod below;
mod dissolve;
mod gapped;
mod listed;
mod node;
mod places;
mod rooted;
mod scatter;
mod walk;

pub use below::Below;
pub use listed::first_unlisted;
pub use node::Node;
use places::{note_all, put_below, take_out};
pub use rooted::first_endless;
use std::alloc::{AllocError, Global};
use std::marker::Model;
pub use walk::Step;

/// Nodes with numbers from 0. The path up from each node ends. Each node is once in the list of the node right above
/// it, and in no other list.
#[derive(Drop)]
pub struct Forest {
    nodes: Vec<Node>,
}

impl Model for Forest {
    ghost use Rattle.std.specs.Prelude.{List};
    ghost use Rattle.moo_world_tree.specs.Forest.{Links, IsForest};

    ghost Value = { List Links };

    ghost view = { λ f. f.nodes.items };

    ghost invariant = { λ f. IsForest f.nodes.items };
}

impl Forest {
    /// Makes a forest without nodes.
    pub fn new(alloc: Global) -> Self
        ensures { result ≡ [] }
    {
        Forest {
            nodes: Vec::new(alloc),
        }
    }

    /// Makes the forest of these nodes.
    pub fn from_nodes(nodes: Vec<Node>) -> Self
        requires { IsForest nodes.items }
        ensures { result ≡ nodes.items }
    {
        let mut nodes = nodes;
        note_all(&mut nodes);
        Forest { nodes }
    }

    /// Proves that the nodes form a forest.
    pub fn is_forest(&self)
        ensures { IsForest self.now }
    {
        let _nodes = &self.nodes;
    }

    /// Returns the number of nodes.
    pub fn len(&self) -> usize
        ensures { result ≡ length self.now }
    {
        self.nodes.len()
    }

    /// Adds a root without children. Out of memory nothing changes.
    pub fn add(&mut self, alloc: Global) -> Result<(), AllocError>
        ensures ok { OnOk result (self.new ≡ self.old ++ alone ∷ []) }
        ensures err { OnErr result (self.new ≡ self.old) }
    {
        self.nodes.push(Node::alone(alloc))?;
        Ok(())
    }

    /// Returns the node right above, or `None` for a root.
    pub fn above(&self, x: usize) -> Option<usize>
        requires { x < length self.now }
        ensures value { result ≡ above_of self.now x }
        ensures within { ForSome result (λ up. up < length self.now) }
    {
        self.nodes[x].above()
    }

    /// Returns the nodes right below, the newest last.
    pub fn below(&self, x: usize) -> Below<'_>
        requires { x < length self.now }
        ensures { result ≡ below_of self.now x }
    {
        self.nodes[x].below()
    }

    /// Is true if `x` is `top` or is below it.
    pub fn is_within(&self, x: usize, top: usize) -> bool
        requires { x < length self.now }
        ensures { result ≡ is_within self.now x top }
    {
        if x == top {
            return true;
        }
        let mut at = x;
        for _ in 0..self.nodes.len() {
            match self.nodes[at].above() {
                Some(up) => at = up,
                None => return false,
            }
            if at == top {
                return true;
            }
        }
        false
    }

    /// Moves a node to the end of another's list, or makes it a root. If it is there already, nothing changes and no
    /// memory is allocated. Out of memory nothing changes.
    pub fn move_to(&mut self, x: usize, to: Option<usize>) -> Result<(), AllocError>
        requires node { x < length self.old }
        requires place { ForSome to (λ up. up < length self.old) }
        requires apart { ForSome to (λ up. is_within self.old up x ≡ false) }
        ensures ok { OnOk result (self.new ≡ moved self.old x to) }
        ensures err { OnErr result (self.new ≡ self.old) }
        ensures elsewhere { OnErr result (above_of self.old x ≢ to) }
    {
        let from = self.nodes[x].above();
        if from == to {
            return Ok(());
        }
        let place = self.nodes[x].place();
        put_below(&mut self.nodes, x, to)?;
        take_out(&mut self.nodes, x, from, place);
        self.nodes[x].set_above(to);
        Ok(())
    }

    /// Adds a node at the end of another's list, or as a root. Out of memory nothing changes.
    pub fn add_below(&mut self, alloc: Global, to: Option<usize>) -> Result<(), AllocError>
        requires { ForSome to (λ up. up < length self.old) }
        ensures ok { OnOk result (self.new ≡ moved (self.old ++ alone ∷ []) (length self.old) to) }
        ensures err { OnErr result (self.new ≡ self.old) }
    {
        let x = self.nodes.len();
        self.add(alloc)?;
        if let Err(fault) = self.move_to(x, to) {
            self.remove_last();
            return Err(fault);
        }
        Ok(())
    }

    /// Removes the last node, which has neither a node above nor nodes below.
    pub fn remove_last(&mut self)
        requires { slice_index_or self.old (length self.old - 1) alone ≡ alone }
        ensures { self.new ≡ take (length self.old - 1) self.old }
    {
        let _last = self.nodes.pop();
    }
}
