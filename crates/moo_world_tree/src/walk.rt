//! Walks down a forest.

ghost use Rattle.std.specs.Prelude.{◌≡◌, ◌++◌, ◌<◌, IfOk, OnOk, length, map};
ghost use Rattle.moo_world_tree.specs.Walk.{IsWalkDown};

use crate::{Below, Forest};
use std::alloc::{AllocError, Global};

/// A node on a walk down, and the place in the walk of the node right above it.
#[derive(Clone, Copy)]
pub struct Step {
    pub node: usize,
    pub from: usize,
}

impl Forest {
    /// Returns a node and all nodes below it, each after the node right above it.
    pub fn walk_down(&self, alloc: Global, x: usize) -> Result<Vec<Step>, AllocError>
        requires { x < length self.now }
        ensures { IfOk result (λ walk. IsWalkDown self.now x walk.items) }
    {
        self.is_forest();
        let mut walk = Vec::new(alloc);
        walk.push(Step { node: x, from: 0 })?;
        let mut i = 0;
        while i < walk.len() {
            let node = walk[i].node;
            add_steps(&mut walk, self.below(node), i)?;
            i += 1;
        }
        Ok(walk)
    }
}

// Appends the nodes right below a node of the walk.
fn add_steps(walk: &mut Vec<Step>, below: Below<'_>, from: usize) -> Result<(), AllocError>
    ensures { OnOk result (walk.new.items ≡ walk.old.items ++ map (λ node. record { node = node; from = from }) below.entry) }
{
    for node in below {
        walk.push(Step { node, from })?;
    }
    Ok(())
}
