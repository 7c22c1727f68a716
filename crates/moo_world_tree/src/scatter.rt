//! Removal of a node from its forest: the nodes right below it become roots.

ghost use Rattle.std.specs.Prelude.{◌≡◌, ◌<◌, None, length};
ghost use Rattle.moo_world_tree.specs.Forest.{below_of, dissolved};

use crate::Forest;
use crate::dissolve::join_all;
use crate::places::take_out;

impl Forest {
    /// Takes a node out of its tree, and makes it and the nodes right below it roots. `below` is a copy of the node's
    /// list, so that the call allocates no memory.
    pub fn scatter(&mut self, x: usize, below: &[usize])
        requires node { x < length self.old }
        requires all { below.now ≡ below_of self.old x }
        ensures { self.new ≡ dissolved self.old x None }
    {
        let from = self.nodes[x].above();
        let place = self.nodes[x].place();
        join_all(&mut self.nodes, below, None);
        take_out(&mut self.nodes, x, from, place);
        self.nodes[x].leave_all();
    }
}
