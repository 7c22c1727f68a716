//! Removal of a node from its forest: the nodes right below it move to another.

ghost use Rattle.std.specs.Prelude.{◌≡◌, ◌<◌, OnOk, OnErr, length, vec_len, false};
ghost use Rattle.std.specs.Option.{ForSome};
ghost use Rattle.std.specs.List.{All};
ghost use Rattle.moo_world_tree.specs.Forest.{is_within, dissolved};
ghost use Rattle.moo_world_tree.specs.Steps.{with_all_joined};

use crate::Forest;
use crate::node::Node;
use crate::places::{put_all_below, take_out};
use std::alloc::{AllocError, Global};

impl Forest {
    /// Takes a node out of its tree. The nodes right below it go to the end of the heir's list, in their order, or
    /// become roots if there is no heir. Out of memory nothing changes.
    pub fn dissolve(
        &mut self,
        alloc: Global,
        x: usize,
        heir: Option<usize>,
    ) -> Result<(), AllocError>
        requires node { x < length self.old }
        requires place { ForSome heir (λ up. up < length self.old) }
        requires apart { ForSome heir (λ up. is_within self.old up x ≡ false) }
        ensures ok { OnOk result (self.new ≡ dissolved self.old x heir) }
        ensures err { OnErr result (self.new ≡ self.old) }
    {
        let from = self.nodes[x].above();
        let place = self.nodes[x].place();
        let below = self.nodes[x].below().to_vec(alloc)?;
        put_all_below(&mut self.nodes, &below, heir)?;
        join_all(&mut self.nodes, &below, heir);
        take_out(&mut self.nodes, x, from, place);
        self.nodes[x].leave_all();
        Ok(())
    }
}

/// Sets the node right above each of these nodes.
pub fn join_all(nodes: &mut Vec<Node>, xs: &[usize], to: Option<usize>)
    requires { All (λ x. x < vec_len nodes.old) xs.now }
    ensures { nodes.new.items ≡ with_all_joined nodes.old.items xs.now to }
{
    for x in xs {
        nodes[*x].set_above(to);
    }
}
